//! What no contract can say of a folder: which calls its files get, and in which order.
//!
//! Bodies that are proved and that these tests refuse: an opening that tries no lock, or changes a file before it has both; one that
//! takes another folder for that of the root record or of the medium; a method of `StdFiles` that makes another call of the system
//! than it notes, or none.
use folder_doubles::{
    APART, CELL, CallLog, FOLDER, comes_true, first_unlike, left, length_and_mode, make_apart,
    make_folder, open, view,
};
use folder_platform::OpenRefusal;
use sdbt_base::{RECORD, ROOT};
use std::test::Fail;
use std::{fs, io};

/// The calls of `open` over a torn last page, and how many they are.
const OPENING: &str =
    "find folder, open folder, measure folder, find folder, open folder, measure folder, lock folder, \
    look at root, look at root.new, look at ledger, look at media, open media, measure media, lock media, measure media, \
    find folder, measure folder, remove root.new, measure media, lengthen media, sync media, sync folder, \
    find folder, measure folder, look at root, open root, measure root, sync root, sync folder, find folder, measure folder";

const OPENING_CALLS: usize = 31;

/// The calls of an opening with the root record in a folder of its own.
const OPENING_APART: &str =
    "find cell, open cell, measure cell, find folder, open folder, measure folder, lock cell, \
    look at root, look at root.new, look at ledger, look at media, open media, measure media, lock media, measure media, \
    find cell, measure cell, remove root.new, measure media, lengthen media, sync media, sync folder, \
    find cell, measure cell, look at root, sync cell, find cell, measure cell";

/// The calls of a platform that only looks.
const VIEWING: &str =
    "find folder, open folder, measure folder, share the lock on folder, look at root, \
    find folder, open folder, measure folder, look at media, open media, measure media, share the lock on media, \
    measure media, measure media";

/// A folder with two pages, the last of them torn, a root record of 5 and a `root.new`.
fn fresh_folder(rt: &HostRuntime) -> io::Result<()> {
    make_folder(rt, &[7; RECORD + 100], &[5; ROOT])
}

/// Whether an opening of these folders, for the root record and the medium, makes these calls, and all lines of a script come
/// true then.
fn are_so(
    rt: &HostRuntime,
    cell: &str,
    folder: &str,
    opening: &str,
    script: &str,
) -> Result<bool, OpenRefusal> {
    comes_true(
        rt,
        &CallLog::new(rt.alloc()),
        (cell, folder),
        Some(opening),
        script,
    )
}

/// What each call answers, and the calls on files that it makes.
const CALLS: &str = "\
append 8: at 2 by seek media, write media
read 0: 7 7 by seek media, read media
sync: done by sync data of media
load: root 5 by find folder, measure folder, look at root, open root, measure root, measure root, read root
swap 3: done by find folder, measure folder, remove root.new, find folder, measure folder, make root.new, write root.new, sync root.new, find folder, measure folder, put in place of root, sync folder, find folder, measure folder
clear: done by find folder, measure folder, remove root.new, find folder, measure folder, remove root, sync folder, find folder, measure folder
load: empty by find folder, measure folder, look at root
swap 3: done by find folder, measure folder, remove root.new, find folder, measure folder, make root.new, write root.new, sync root.new, find folder, measure folder, put in place of root, sync folder, find folder, measure folder
read 0 failing 1: fault by seek media, read media
load failing 0: fault by find folder
load failing 3: fault by find folder, measure folder, look at root, open root
append 8: at 3 by seek media, write media
append 8 failing 1: fault by seek media, write media
append 8: fault by no call
read 0: fault by no call
sync: fault by no call
load: fault by no call
swap 3: fault by no call
clear: fault by no call";

#[test]
fn calls_files_in_order(rt: HostRuntime) -> Result<(), Fail> {
    fresh_folder(&rt)?;
    assert!(rt; are_so(&rt, FOLDER, FOLDER, OPENING, CALLS)?);
    fs::remove_dir_all(&rt, FOLDER)?;
    Ok(())
}

/// The same of those that differ with two folders.
const CALLS_APART: &str = "\
swap 3: done by find cell, measure cell, remove root.new, find cell, measure cell, make root.new, write root.new, sync root.new, find cell, measure cell, put in place of root, sync cell, find cell, measure cell
clear: done by find cell, measure cell, remove root.new, find cell, measure cell, remove root, sync cell, find cell, measure cell";

#[test]
fn calls_two_folders_in_order(rt: HostRuntime) -> Result<(), Fail> {
    make_apart(&rt)?;
    assert!(rt; are_so(&rt, CELL, APART, OPENING_APART, CALLS_APART)?);
    fs::remove_dir_all(&rt, CELL)?;
    fs::remove_dir_all(&rt, APART)?;
    Ok(())
}

/// What each call of a platform answers that only looks, and the calls on files that it makes.
const LOOKS: &str = "\
head: 2
load: root 5 by find folder, measure folder, look at root, open root, measure root, measure root, read root
read 0: 7 7 by seek media, read media
read 1: 7 0 by seek media, read media
read 0 failing 1: fault by seek media, read media
append 8: fault by no call
sync: fault by no call
swap 3: fault by no call
clear: fault by no call
read 1: 7 0 by seek media, read media";

/// Whether a platform that only looks makes these calls as it is opened, and all lines of a script come true then.
fn looks_are_so(rt: &HostRuntime, opening: &str, script: &str) -> Result<bool, Fail> {
    let log = CallLog::new(rt.alloc());
    let mut platform = view(rt, &log, FOLDER, FOLDER)?;
    let opens = log.is(opening);
    Ok(opens && first_unlike(&mut platform, rt, &log, script).is_none())
}

#[test]
fn looks_change_no_file(rt: HostRuntime) -> Result<(), Fail> {
    fresh_folder(&rt)?;
    assert!(rt; looks_are_so(&rt, VIEWING, LOOKS)?);
    let (len, _) = length_and_mode(&rt, "folder_tests_test/media")?;
    assert!(rt; left(&rt)? == (5, true) && len == 4228);
    fs::remove_dir_all(&rt, FOLDER)?;
    Ok(())
}

/// Whether a call whose call on a file of this number fails answers a fault, and leaves a root record of this byte, or none for 0, and a
/// `root.new` or none. Once one failed that changes something no call is made any more.
fn is_answered(
    rt: &HostRuntime,
    call: &str,
    failing: usize,
    leaves: (u8, bool),
) -> Result<bool, Fail> {
    fresh_folder(rt)?;
    let (root, is_new) = leaves;
    let synced = if matches!(call, "read 0" | "load") {
        "done by sync data of media"
    } else {
        "fault by no call"
    };
    let script = format!(in rt.alloc();
        "{call} failing {failing}: fault\nfolder: {root} {is_new}\nsync: {synced}"
    )?;
    let log = CallLog::new(rt.alloc());
    Ok(comes_true(rt, &log, (FOLDER, FOLDER), None, script.as_str())?)
}

#[test]
fn each_failed_call_is_answered(rt: HostRuntime) -> Result<(), Fail> {
    // A call, and for each call on a file that it makes what is left after that one failed: the first byte of the root record,
    // and whether there is a `root.new`. The next opening removes that.
    let as_before = (5, false);
    let left_behind = (5, true);
    let swap = [
        as_before,
        as_before,
        as_before,
        as_before,
        as_before,
        as_before,
        left_behind,
        left_behind,
        left_behind,
        left_behind,
        left_behind,
        (3, false),
        (3, false),
        (3, false),
    ];
    let cleared = (0, false);
    let clear = [
        as_before, as_before, as_before, as_before, as_before, as_before, cleared, cleared, cleared,
    ];
    let rows: [(&str, &[(u8, bool)]); 6] = [
        ("append 8", &[as_before; 2]),
        ("read 0", &[as_before; 2]),
        ("sync", &[as_before]),
        ("load", &[as_before; 7]),
        ("swap 3", &swap),
        ("clear", &clear),
    ];
    for (call, all) in rows {
        for (i, leaves) in all.iter().enumerate() {
            assert!(rt; is_answered(&rt, call, i, *leaves)?, "{call} {i}");
        }
    }
    fs::remove_dir_all(&rt, FOLDER)?;
    Ok(())
}

/// Whether an opening is refused whose call on a file of this number fails.
fn is_refused(rt: &HostRuntime, failing: usize) -> io::Result<bool> {
    fresh_folder(rt)?;
    let log = CallLog::new(rt.alloc());
    log.begin(Some(failing));
    let refusal = open(rt, &log, FOLDER, FOLDER).err();
    Ok(matches!(refusal, Some(OpenRefusal::Io { .. })))
}

#[test]
fn each_failed_call_refuses_the_folder(rt: HostRuntime) -> Result<(), Fail> {
    for failing in 0..OPENING_CALLS {
        assert!(rt; is_refused(&rt, failing)?, "call {failing}");
    }
    fs::remove_dir_all(&rt, FOLDER)?;
    Ok(())
}
