//! What no clause says: which bytes stand in the files of a folder, and what they are read as.
use folder_doubles::{
    APART, CELL, CallLog, ENDLESS, FOLDER, comes_true, fill_apart, length_and_mode, make_apart,
    make_folder, open,
};
use folder_files::open_in_folders;
use folder_platform::OpenRefusal;
use platform::Platform;
use sdbt_base::RECORD;
use std::fs;
use std::test::Fail;

/// Whether all lines of a script come true, over files of which this is the log.
fn are_so(rt: &HostRuntime, log: &CallLog, script: &str) -> Result<bool, OpenRefusal> {
    comes_true(rt, log, (FOLDER, FOLDER), None, script)
}

/// A root record of another length, pages that are written whole and torn, and what is read of them: the first page was there,
/// of the second one a part.
const WRITTEN: &str = "\
load: root 0
append 1: at 2
append 2: at 3
sync: done
swap 3: done
read 0: 7 7
read 1: 7 0
read 2: 1 1
read 3: 2 2
append 238: fault
read 0: fault";

/// What the next platform reads.
const THEREAFTER: &str = "\
head: 5
load: root 3
read 3: 2 2
read 4: 238 0
clear: done
load: empty";

/// The same over short files, and how long the medium is then.
fn short_are_so(rt: &HostRuntime, script: &str) -> Result<(bool, u64), Fail> {
    let are_so = are_so(rt, &CallLog::short(rt.alloc()), script)?;
    let (len, _) = length_and_mode(rt, "folder_tests_test/media")?;
    Ok((are_so, len))
}

/// The same over whole files.
fn whole_are_so(rt: &HostRuntime, script: &str) -> Result<bool, OpenRefusal> {
    are_so(rt, &CallLog::new(rt.alloc()), script)
}

#[test]
fn keeps_pages_and_root_in_files(rt: HostRuntime) -> Result<(), Fail> {
    make_folder(&rt, &[7; RECORD + 100], &[5; 5])?;
    assert!(rt; short_are_so(&rt, "head: 2")? == (true, 2 * 4128));
    assert!(rt; !fs::exists(&rt, "folder_tests_test/root.new")?);
    assert!(rt; short_are_so(&rt, WRITTEN)? == (true, 4 * 4128 + 4128 / 2));
    let root = length_and_mode(&rt, "folder_tests_test/root")?;
    assert_eq!(rt; root, (128, 0o600));
    assert!(rt; whole_are_so(&rt, THEREAFTER)?);
    assert!(rt; !fs::exists(&rt, "folder_tests_test/root")?);
    fs::remove_dir_all(&rt, FOLDER)?;
    Ok(())
}

/// Why this folder is refused, over files of the double.
fn refusal_of(rt: &HostRuntime, folder: &str) -> Option<OpenRefusal> {
    open(rt, &CallLog::short(rt.alloc()), folder, folder).err()
}

#[test]
fn refuses_a_folder(rt: HostRuntime) -> Result<(), Fail> {
    make_folder(&rt, &[7; ENDLESS as usize], b"")?;
    let refusal = refusal_of(&rt, FOLDER);
    assert!(rt;
        matches!(
            refusal,
            Some(OpenRefusal::TooLong {
                len: 17_729_624_997_889
            })
        )
    );
    let refusal = refusal_of(&rt, "*");
    assert!(rt; matches!(refusal, Some(OpenRefusal::Memory)));
    for path in ["", "folder_tests_test/none", "folder_tests_test/media"] {
        let refusal = refusal_of(&rt, path);
        assert!(rt;
            matches!(refusal, Some(OpenRefusal::Io { .. })),
            "folder {path}"
        );
    }
    fs::remove_dir_all(&rt, FOLDER)?;
    Ok(())
}

/// Whether an opening of these folders is refused since a platform has them, and leaves what another would change.
fn is_in_use(rt: &HostRuntime, cell: &str, folder: &str) -> Result<bool, Fail> {
    let is_in_use = matches!(open_in_folders(rt, cell, folder), Err(OpenRefusal::InUse));
    let left = fs::exists(rt, "folder_tests_test_cell/root.new")?;
    let (len, _) = length_and_mode(rt, "folder_tests_test_apart/media")?;
    Ok(is_in_use && left && len == 100)
}

/// Whether a platform in these folders keeps out one in the others while it is there.
fn is_kept_out(rt: &HostRuntime, cell: &str, folder: &str) -> Result<bool, Fail> {
    let _platform = open_in_folders(rt, cell, folder)?;
    fill_apart(rt)?;
    is_in_use(rt, CELL, APART)
}

/// How many pages a platform has, which ends with that.
fn pages_of<P: Platform + Drop>(platform: P) -> u64 {
    platform.head()
}

/// Whether a platform in these folders keeps out one in the others, and lets it in when it is gone.
fn keeps_out(rt: &HostRuntime, cell: &str, folder: &str) -> Result<bool, Fail> {
    make_folder(rt, b"", b"")?;
    make_apart(rt)?;
    let is_kept_out = is_kept_out(rt, cell, folder)?;
    let pages = pages_of(open_in_folders(rt, CELL, APART)?);
    Ok(is_kept_out && pages == 1)
}

#[test]
fn refuses_what_another_platform_has(rt: HostRuntime) -> Result<(), Fail> {
    for (cell, folder) in [(CELL, FOLDER), (FOLDER, APART)] {
        assert!(rt; keeps_out(&rt, cell, folder)?, "{cell} {folder}");
    }
    for folder in [FOLDER, CELL, APART] {
        fs::remove_dir_all(&rt, folder)?;
    }
    Ok(())
}
