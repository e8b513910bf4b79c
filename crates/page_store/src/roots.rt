ghost use Rattle.std.specs.Prelude.{◌≡◌, ◌≢◌, ◌≤◌, ◌↔◌, ◌+◌, None, Some, IsTrue, IfOk, IfSome, IfNone, IsErrOf, length};
ghost use Rattle.sdbt_base.specs.Faults.{TellsOf};
ghost use Rattle.root_codec.specs.RootRecord.{root_bytes};
ghost use Rattle.page_store.specs.Reading.{ReadsCell};
ghost use Rattle.page_store.specs.Roots.{IsRootWithin, IsBadCell};
ghost use Rattle.root_codec.specs.declared.root.Root.{Root};

use crate::refusals::CurrentRefusal;
use platform::Platform;
use root_codec::{Root, decode_root};
use sdbt_base::ROOT;

/// The root record in the cell, or none where the cell is empty.
///
/// `BadRoot` comes exactly where the cell is full and holds no root record, or one whose head field is
/// above the platform's head: it speaks of pages that are not there. The cell is looked at once.
pub fn current<P: Platform>(platform: &mut P) -> Result<Option<Root>, CurrentRefusal>
    ensures found { P.tells → IfOk result (λ found. IfSome found (λ root.
        (P.history platform.old).present.cell ≡ Some (root_bytes root))) }
    ensures within { IfOk result (λ found. IfSome found (λ root. IsRootWithin (P.head platform.old) root)) }
    ensures none { P.tells → IfOk result (λ found. IfNone found
        ((P.history platform.old).present.cell ≡ None)) }
    ensures bad { P.tells → IsErrOf result CurrentRefusal.BadRoot →
        IsBadCell (P.head platform.old) (P.history platform.old).present.cell }

    ensures reads_cell { ReadsCell P.Platform platform.old platform.new }
    ensures once { P.tells → (IsErrOf result CurrentRefusal.PlatformFault → ⊥) → P.reads platform.new ≡ P.reads platform.old + 1 }
    ensures cause { TellsOf CurrentRefusal.PlatformFault result (P.faults platform.old) (P.faults platform.new) }
{
    let mut bytes = [0; ROOT];
    let Ok(is_full) = platform.load_root(&mut bytes) else {
        return Err(CurrentRefusal::PlatformFault);
    };
    if !is_full {
        return Ok(None);
    }
    match root_within(&bytes, platform.head()) {
        Some(root) => Ok(Some(root)),
        None => Err(CurrentRefusal::BadRoot),
    }
}

/// The root whose root record the 128 bytes are, where its head field is not above `head`.
fn root_within(bytes: &[u8], head: u64) -> Option<Root>
    requires { length bytes.now ≡ 128 }
    ensures found { IfSome result (λ root. IsRootWithin head root × (bytes.now ≡ root_bytes root)) }
    ensures none { IfNone result ((root : Root) → IsRootWithin head root → bytes.now ≢ root_bytes root) }
{
    let root = decode_root(bytes)?;
    if is_within(&root, head) {
        Some(root)
    } else {
        None
    }
}

/// Whether a root speaks of no more pages than there are.
fn is_within(root: &Root, head: u64) -> bool
    ensures { IsTrue result ↔ (root.now.head ≤ head) }
{
    root.head <= head
}
