//! What others than its owner may do with the cell of a root record in a folder.

ghost use Rattle.std.specs.Prelude.{◌≡◌, ◌≢◌, ◌↔◌, IsTrue, IfOk, OnErr, bit_and, false};
ghost use Rattle.std.specs.Fs.{metadata_mode};

use std::fs::{self, Metadata};
use std::io;
use std::os::unix::fs::MetadataExt;
use std::rt::Files;

/// The permissions of others than the owner to read and to write.
const OTHERS_READ_OR_WRITE: u32 = 0o066;

/// Those to write.
const OTHERS_WRITE: u32 = 0o022;

/// Says in a line on standard error, for the program of this name, that others than its owner may read or write the file `root` in
/// the folder `cell`, and in one that they may write in that folder. Nothing is said of what can't be looked at.
pub fn tell_open_cell(rt: &(impl Files + Alloc + Eprint), program: &str, cell: &str) {
    if may_others(fs::metadata(rt, cell), OTHERS_WRITE) {
        let _ = eprintln!(rt; "{program}: {cell}: others than its owner may write in it");
    }
    let Ok(root) = format!(in rt.alloc(); "{cell}/root") else {
        return;
    };
    if may_others(
        fs::symlink_metadata(rt, root.as_str()),
        OTHERS_READ_OR_WRITE,
    ) {
        let _ = eprintln!(rt; "{program}: {root}: others than its owner may read or write it");
    }
}

// Whether this was said of a file, and others than its owner have one of these permissions.
fn may_others(metadata: io::Result<Metadata>, permissions: u32) -> bool
    ensures known { IfOk metadata (λ file. IsTrue result ↔ (bit_and (metadata_mode file) permissions ≢ 0)) }
    ensures unknown { OnErr metadata (result ≡ false) }
{
    match metadata {
        Ok(metadata) => metadata.mode() & permissions != 0,
        Err(_) => false,
    }
}
