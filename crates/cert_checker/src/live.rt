//! What is live, and what a certificate makes of it.
ghost use Rattle.std.specs.Prelude.{◌≡◌, ℕ, None, OnOk};
ghost use Rattle.cert_maker.specs.Cert.{Cert};

use crate::change::Change;
use crate::held::Held;
use crate::updates::{adopt_all, insert_all, remove_all};
use sdbt_base::Memory;
use std::alloc::Global;
use std::collections::BTreeMap;

/// What is live after the certificates so far.
#[derive(Drop)]
pub(crate) struct Live {
    /// What each live address holds.
    pub(crate) entries: BTreeMap<u64, Held>,
    /// The node over each live address. The root has none.
    pub(crate) parents: BTreeMap<u64, u64>,
}

impl Live {
    ghost use Rattle.cert_checker.specs.Changes.{IsOf};
    ghost use Rattle.cert_checker.specs.Held.{live_of};
    ghost use Rattle.cert_checker.specs.Kept.{HasAdopted};
    ghost use Rattle.cert_checker.specs.Rules.{after};

    /// Nothing is live. It takes no memory.
    pub(crate) fn new(alloc: Global) -> Live
        ensures { (addr : ℕ) → live_of result.entries addr ≡ None }
    {
        Live {
            entries: BTreeMap::new(alloc),
            parents: BTreeMap::new(alloc),
        }
    }

    /// Lets the gone addresses go and takes the added ones in. After `Memory` nothing is known of it.
    pub(crate) fn advance(&mut self, change: Change) -> Result<(), Memory>
        ensures entries { OnOk result ((cert : Cert) → IsOf change cert → (addr : ℕ) →
            live_of self.new.entries addr ≡ after (live_of self.old.entries) cert addr) }
        ensures parents { OnOk result ((cert : Cert) → IsOf change cert → HasAdopted cert self.old.parents self.new.parents) }
    {
        remove_all(&mut self.entries, &change.gone);
        remove_all(&mut self.parents, &change.gone);
        adopt_all(&mut self.parents, &change.added)?;
        insert_all(&mut self.entries, change.added)
    }
}
