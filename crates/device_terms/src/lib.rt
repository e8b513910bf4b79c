//! What calls on a device say, whichever they are: which images can be served, what is put to the ledger before a root record is
//! replaced, and what a call discloses, draws and adds. The functions do nothing: each has a law as its contract.
#![tactic(auto)]

ghost use Rattle.std.specs.Prelude.{◌≡◌};
ghost use Rattle.platform.specs.Image.{Image};
ghost use Rattle.platform.specs.History.{History, During, Turns};
ghost use Rattle.device_terms.specs.Served.{IsServedImage};

/// A cell that can be served is one at each moment, as long as it stays, and until it turns to one that can be served.
pub fn a_served_cell_stays_so()
    ensures still { (old new : History) → During old new (λ image. image.cell ≡ old.present.cell) → IsServedImage old.present → During old new IsServedImage }
    ensures turned { (old new : History) (next : Image) → Turns old new (λ image. image.cell ≡ old.present.cell) (λ image. image ≡ next)
        → IsServedImage old.present → IsServedImage next → During old new IsServedImage }
{}
