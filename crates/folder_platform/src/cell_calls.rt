//! What is asked of the cell of a root record.
ghost use Rattle.std.specs.Prelude.{◌≡◌, ◌∷◌, length, true, is_ok, IfOk, IfErr};
ghost use Rattle.folder_platform.specs.Events.{root_synced, new_removed, cell_synced};
ghost use Rattle.folder_platform.specs.Refusals.{ShowsCause, TellsLast};
ghost use Rattle.folder_platform.specs.Sequences.{Replaces, Clears, NotesCell};

use crate::{OpenRefusal, PageCalls};
use sdbt_base::ROOT;
use std::io;

/// The cell of a root record, beside the pages of the same device: by names in a folder, or in place.
///
/// As of pages nothing is asked of the answers. A cell in place has nothing beside it, and what it holds is stored: so
/// what is done of it while it is opened is noted as done, and is no call.
pub trait CellCalls: PageCalls {
    /// No root record on its way to the cell is left beside it.
    fn tidy(&mut self) -> Result<(), OpenRefusal>
        ensures start { Self.start self.new ≡ Self.start self.old }
        ensures noted { IfOk result (λ _. Self.events self.new ≡ new_removed true ∷ Self.events self.old) }
        ensures told { IfErr result (TellsLast (Self.events self.new)) }
        ensures cause { IfErr result (ShowsCause ⊥) };

    /// What the cell holds outlasts a loss of power, and nothing else can be found in it after one.
    fn settle(&mut self) -> Result<(), OpenRefusal>
        ensures start { Self.start self.new ≡ Self.start self.old }
        ensures noted { IfOk result (λ _. Self.events self.new ≡ cell_synced true ∷ root_synced true ∷ Self.events self.old) }
        ensures told { IfErr result (TellsLast (Self.events self.new)) }
        ensures cause { IfErr result (ShowsCause ⊥) };

    /// Whether the cell is full: what it holds is in the buffer of `ROOT` bytes then.
    fn load(&mut self, into: &mut [u8]) -> io::Result<bool>
        requires { length into.old ≡ ROOT }
        ensures start { Self.start self.new ≡ Self.start self.old }
        ensures noted { NotesCell result into.new (Self.events self.old) (Self.events self.new) };

    /// The cell holds these `ROOT` bytes, and that outlasts a loss of power.
    fn replace(&mut self, bytes: &[u8]) -> io::Result<()>
        requires { length bytes.now ≡ ROOT }
        ensures start { Self.start self.new ≡ Self.start self.old }
        ensures noted { Replaces bytes.now (is_ok result) (Self.events self.old) (Self.events self.new) };

    /// The cell holds nothing, and that outlasts a loss of power.
    fn clear(&mut self) -> io::Result<()>
        ensures start { Self.start self.new ≡ Self.start self.old }
        ensures noted { Clears (is_ok result) (Self.events self.old) (Self.events self.new) };
}
