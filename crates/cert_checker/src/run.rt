//! The run of a chain: rule after rule, certificate after certificate.
ghost use Rattle.std.specs.Prelude.{◌++◌, ◌∷◌, [], List, None};

use crate::change::Change;
use crate::listing::listed;
use crate::live::Live;
use crate::numbers::{Last, ends_at};
use crate::rules::check;
use crate::verdict::{CheckRefusal, Verdict};
use cert_maker::Cert;
use root_codec::Root;
use std::alloc::Global;

/// Where the run of a chain stands.
#[derive(Drop)]
pub(crate) struct Run {
    /// What is live.
    pub(crate) live: Live,
    /// The numbers of the last certificate.
    pub(crate) last: Option<Last>,
    /// How many addresses were gone or never kept so far.
    pub(crate) deleted: u64,
}

impl Run {
    ghost use Rattle.cert_maker.specs.Cert as said;
    ghost use Rattle.cert_checker.specs.Chain.{last_or, live_after};
    ghost use Rattle.cert_checker.specs.First.{Breaks};
    ghost use Rattle.cert_checker.specs.Running.{IsAfter, IsAfterSome, Concludes};
    ghost use Rattle.cert_checker.specs.Settles.{Settles};

    /// Before the first certificate. It takes no memory.
    pub(crate) fn new(alloc: Global) -> Run
        ensures { IsAfter result [] }
    {
        Run {
            live: Live::new(alloc),
            last: None,
            deleted: 0,
        }
    }

    /// Goes on by a certificate, where it keeps the rules. After a refusal the run is over.
    pub(crate) fn take(&mut self, alloc: Global, cert: &Cert) -> Result<(), CheckRefusal>
        requires { IsAfterSome self.old }
        ensures { (done : List said.Cert) → IsAfter self.old done →
            Settles (IsAfter self.new (done ++ cert.now ∷ [])) (Breaks (live_after done) (last_or None done) cert.now) result }
    {
        let change = Change::of(alloc, cert)?;
        check(alloc, &self.live, self.last, cert, &change)?;
        let last = Last {
            commit: cert.commit(),
            head: cert.head(),
            root: cert.root(),
        };
        self.deleted += change.gone.len() as u64 + change.never.len() as u64;
        self.live.advance(change)?;
        self.last = Some(last);
        Ok(())
    }

    /// The verdict, where the root record ends the chain.
    pub(crate) fn finish(self, alloc: Global, root: &Root) -> Result<Verdict, CheckRefusal>
        ensures { (chain : List said.Cert) → IsAfter self chain → Concludes chain root.now result }
    {
        if !ends_at(self.last, root) {
            return Err(CheckRefusal::Rule {
                number: 10,
                value: root.commit,
            });
        }
        Ok(Verdict {
            commit: root.commit,
            live: listed(alloc, &self.live.entries)?,
            deleted: self.deleted,
        })
    }
}
