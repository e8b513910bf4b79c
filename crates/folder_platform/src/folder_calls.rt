//! What is asked of the files of a root record in a folder.
ghost use Rattle.std.specs.Prelude.{◌≡◌, ◌∷◌, ◌≤◌, ◌+◌, length, ⊤, is_ok, IfOk, MatchOption};
ghost use Rattle.folder_platform.specs.Events.{root_synced, root_removed, new_removed, new_made, new_synced, new_renamed, cell_synced};
ghost use Rattle.folder_platform.specs.Sequences.{NotesRoot};

use crate::PageCalls;
use sdbt_base::ROOT;
use std::io;

/// The files `root` and `root.new` in one folder, beside the file `media` in the same or another one.
///
/// As of pages nothing is asked of the answers, and no call can touch a file of another name.
pub trait FolderCalls: PageCalls {
    /// How many bytes of `root` were put into the buffer of `ROOT` and one, from the first on; or `None`, if it isn't there.
    fn read_root(&mut self, into: &mut [u8]) -> io::Result<Option<usize>>
        requires { length into.old ≡ ROOT + 1 }
        ensures start { Self.start self.new ≡ Self.start self.old }
        ensures within { IfOk result (λ n. MatchOption n ⊤ (λ n. n ≤ ROOT + 1)) }
        ensures noted { NotesRoot result into.new (Self.events self.old) (Self.events self.new) };

    /// Syncs `root`, if it is there.
    fn sync_root(&mut self) -> io::Result<()>
        ensures start { Self.start self.new ≡ Self.start self.old }
        ensures noted { Self.events self.new ≡ root_synced (is_ok result) ∷ Self.events self.old };

    /// Removes `root`, if it is there.
    fn remove_root(&mut self) -> io::Result<()>
        ensures start { Self.start self.new ≡ Self.start self.old }
        ensures noted { Self.events self.new ≡ root_removed (is_ok result) ∷ Self.events self.old };

    /// Removes `root.new`, if it is there.
    fn remove_new(&mut self) -> io::Result<()>
        ensures start { Self.start self.new ≡ Self.start self.old }
        ensures noted { Self.events self.new ≡ new_removed (is_ok result) ∷ Self.events self.old };

    /// Makes `root.new`, which must not be there, with these bytes.
    fn make_new(&mut self, bytes: &[u8]) -> io::Result<()>
        ensures start { Self.start self.new ≡ Self.start self.old }
        ensures noted { Self.events self.new ≡ new_made (is_ok result) bytes.now ∷ Self.events self.old };

    /// Syncs `root.new`.
    fn sync_new(&mut self) -> io::Result<()>
        ensures start { Self.start self.new ≡ Self.start self.old }
        ensures noted { Self.events self.new ≡ new_synced (is_ok result) ∷ Self.events self.old };

    /// Renames `root.new` to `root`, in the place of what had that name.
    fn rename_new(&mut self) -> io::Result<()>
        ensures start { Self.start self.new ≡ Self.start self.old }
        ensures noted { Self.events self.new ≡ new_renamed (is_ok result) ∷ Self.events self.old };

    /// Syncs the folder of `root`: what was renamed and removed in it outlasts a loss of power.
    fn sync_cell(&mut self) -> io::Result<()>
        ensures start { Self.start self.new ≡ Self.start self.old }
        ensures noted { Self.events self.new ≡ cell_synced (is_ok result) ∷ Self.events self.old };
}
