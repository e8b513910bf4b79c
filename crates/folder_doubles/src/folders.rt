//! Folders that a test makes, and what is left in them.
use crate::doubles::{CallLog, LoggedFiles};
use folder_files::{LookFiles, StdFiles, open_in_folders, view_in_folders};
use folder_platform::{FolderPlatform, FolderView, InFolder, OpenRefusal};
use sdbt_base::ROOT;
use std::os::unix::fs::PermissionsExt;
use std::{fs, io};

/// The folder of a root record and a medium that stand together.
pub const FOLDER: &str = "folder_tests_test";

/// A folder for a root record.
pub const CELL: &str = "folder_tests_test_cell";

/// A folder for the medium to it.
pub const APART: &str = "folder_tests_test_apart";

/// A new folder with these files in it, and a `root.new`.
pub fn make_folder(rt: &HostRuntime, media: &[u8], root: &[u8]) -> io::Result<()> {
    let _ = fs::remove_dir_all(rt, FOLDER);
    fs::create_dir(rt, FOLDER)?;
    fs::write(rt, "folder_tests_test/media", media)?;
    fs::write(rt, "folder_tests_test/root", root)?;
    fs::write(rt, "folder_tests_test/root.new", [5; ROOT].as_slice())
}

/// Two new folders: in one a medium with a torn last page, in the other a `root.new`.
pub fn make_apart(rt: &HostRuntime) -> io::Result<()> {
    for folder in [CELL, APART] {
        let _ = fs::remove_dir_all(rt, folder);
        fs::create_dir(rt, folder)?;
    }
    fill_apart(rt)
}

/// Puts these two files into their folders.
pub fn fill_apart(rt: &HostRuntime) -> io::Result<()> {
    fs::write(rt, "folder_tests_test_apart/media", [7; 100].as_slice())?;
    fs::write(rt, "folder_tests_test_cell/root.new", [5; ROOT].as_slice())
}

/// The length of a file, and who may read and write it.
pub fn length_and_mode(rt: &HostRuntime, path: &str) -> io::Result<(u64, u32)> {
    let metadata = fs::metadata(rt, path)?;
    Ok((metadata.len(), metadata.permissions().mode() & 0o777))
}

/// The first byte of the root record, 0 if it can't be read, and whether there is a `root.new`.
pub fn left(rt: &HostRuntime) -> io::Result<(u8, bool)> {
    let root = match fs::read(rt, "folder_tests_test/root") {
        Ok(root) => root.first().copied().unwrap_or(0),
        Err(_) => 0,
    };
    let is_left = fs::exists(rt, "folder_tests_test/root.new")?;
    Ok((root, is_left))
}

/// The platform over doubles of the files of these folders, for the root record and the medium.
pub fn open<'a>(
    rt: &HostRuntime,
    log: &'a CallLog,
    cell: &str,
    folder: &str,
) -> Result<FolderPlatform<InFolder<StdFiles<LoggedFiles<'a>>>>, OpenRefusal> {
    let inner = rt.clone().map_err(|_| OpenRefusal::Memory)?;
    open_in_folders(LoggedFiles { inner, log }, cell, folder)
}

/// The same platform, which is only looked at.
pub fn view<'a>(
    rt: &HostRuntime,
    log: &'a CallLog,
    cell: &str,
    folder: &str,
) -> Result<FolderView<LookFiles<LoggedFiles<'a>>>, OpenRefusal> {
    let inner = rt.clone().map_err(|_| OpenRefusal::Memory)?;
    view_in_folders(LoggedFiles { inner, log }, cell, folder)
}
