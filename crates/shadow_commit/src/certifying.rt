//! The certificate of a commit, and its line, before the commit is begun.
ghost use Rattle.std.specs.Prelude.{◌≡◌, ◌<◌, ◌+◌, ℕ, List, IfOk};
ghost use Rattle.cert_codec.specs.Text.{entry, Fits as FitsText};
ghost use Rattle.btree_twigs.specs.Stubs.{children_of, stubs_below};
ghost use Rattle.shadow_commit.specs.Sealed.{Sealed, Seals, SealsNode};
ghost use Rattle.shadow_commit.specs.CanSeal.{CanSeal};
ghost use Rattle.shadow_commit.specs.Planned.{added_by};
ghost use Rattle.shadow_commit.specs.Ready.{CertifiesBy};

use crate::planning::plan_twig;
use btree_twigs::Twig;
use cert_codec::line;
use cert_maker::{AddedList, Cert};
use root_codec::Root;
use sdbt_base::{Line, Memory, Unkept};
use std::alloc::Global;

/// A certificate and its line.
#[derive(Drop)]
pub(crate) struct Certified {
    pub(crate) cert: Cert,
    pub(crate) line: Line,
}

/// The certificate of the commit that will seal these nodes from the head on, with its line.
pub(crate) fn certify(
    alloc: Global,
    twig: &Twig,
    root: &Root,
    head: u64,
    gone: &[u64],
    never: &[Unkept],
) -> Result<Certified, Memory>
    requires can { CanSeal root.now.version head 4294967296 twig.now }
    requires number { root.now.commit < 4294967296 }
    ensures cert { (at : CanSeal root.now.version head 4294967296 twig.now) (ns : List Sealed) (addr : ℕ) (key : List ℕ) → SealsNode root.now.version (Seals root.now.version at.level) at.level head (children_of twig.now) ns addr key
        → IfOk result (λ made. CertifiesBy (root.now.commit + 1) root.now.head (addr + 1) addr (added_by root.now.head (stubs_below at.level at.high twig.now) ns) gone.now never.now made.cert) }
    ensures line { IfOk result (λ made. (made.line ≡ entry made.cert) × FitsText made.cert) }
{
    let mut added = AddedList::new(alloc);
    let addr = plan_twig(alloc, twig, root.head, head, &mut added)?;
    let commit = root.commit + 1;
    let cert = Cert::build(alloc, commit, root.head, addr + 1, addr, added, gone, never)?;
    let line = line(alloc, &cert)?;
    Ok(Certified { cert, line })
}
