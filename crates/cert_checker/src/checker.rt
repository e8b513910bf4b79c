//! The checker.
ghost use Rattle.std.specs.Prelude.{◌≡◌, ◌∷◌, ◌++◌, [], if◌then◌else◌, is_ok, IfErr, IfOk, OnOk};

use crate::stepping::run_all;
use crate::verdict::{CheckRefusal, Verdict};
use cert_maker::Cert;
use root_codec::Root;
use sdbt_base::Memory;
use std::alloc::Global;
use std::marker::Model;

/// Takes the certificates of a ledger in its order, whoever made them, and concludes whether a root record is to be believed with
/// them. A contract sees the certificates.
#[derive(Drop)]
pub struct Checker {
    certs: Vec<Cert>,
}

impl Model for Checker {
    ghost use Rattle.std.specs.Prelude.{List};
    ghost use Rattle.cert_maker.specs.Cert as said;

    ghost Value = { List said.Cert };

    ghost view = { λ c. c.certs.items };
}

impl Checker {
    ghost use Rattle.cert_checker.specs.Chain.{Accepted, chain_of};
    ghost use Rattle.cert_checker.specs.Concluding.{IsCause, IsVerdictOn};

    /// A checker that was fed nothing. It takes no memory.
    pub fn new(alloc: Global) -> Checker
        ensures { result ≡ [] }
    {
        Checker {
            certs: Vec::new(alloc),
        }
    }

    /// Feeds the next certificate. `Memory` leaves the checker as it was.
    pub fn feed(&mut self, cert: Cert) -> Result<(), Memory>
        ensures { self.new ≡ (if is_ok result then self.old ++ cert ∷ [] else self.old) }
    {
        self.certs.push(cert)?;
        Ok(())
    }

    /// Whether the chain of the certificates is accepted for a root record, and what is live and deleted then. Refused by `Rule`
    /// with the first broken rule; `Memory`.
    pub fn conclude(self, alloc: Global, root: &Root) -> Result<Verdict, CheckRefusal>
        ensures accepted { OnOk result (Accepted (chain_of self root.now.commit) root.now) }
        ensures verdict { IfOk result (IsVerdictOn (chain_of self root.now.commit) root.now) }
        ensures refused { IfErr result (IsCause (chain_of self root.now.commit) root.now) }
    {
        let run = run_all(alloc, &self.certs, root.commit)?;
        run.finish(alloc, root)
    }
}
