//! The run of a ledger's chain.
ghost use Rattle.std.specs.Prelude.{◌≢◌, ◌<◌, ◌+◌, [], List, None, IsErr, drop, length};
ghost use Rattle.cert_maker.specs.Cert as said;
ghost use Rattle.cert_checker.specs.Chain.{chain_of, last_or, live_after, picks};
ghost use Rattle.cert_checker.specs.First.{FirstBroken};
ghost use Rattle.cert_checker.specs.Running.{IsAfter, IsAfterSome};
ghost use Rattle.cert_checker.specs.Settles.{Settles};
ghost use Rattle.cert_checker.specs.Stepping.{RunsAll, WentOn};

use crate::chains::{last_first, stays};
use crate::run::Run;
use crate::verdict::CheckRefusal;
use cert_maker::Cert;
use std::alloc::Global;

/// Goes on by the certificate at a place, where it stays.
pub(crate) fn step(
    run: &mut Run,
    alloc: Global,
    certs: &[Cert],
    i: usize,
    number: u64,
) -> Result<(), CheckRefusal>
    requires after { IsAfterSome run.old }
    requires inside { i < length certs.now }
    ensures steps { (done : List said.Cert) → IsAfter run.old done →
        Settles (WentOn run.new done (picks number (drop i certs.now)) (picks number (drop (i + 1) certs.now)))
        (FirstBroken (live_after done) (last_or None done) (picks number (drop i certs.now))) result }
    ensures some { IsErr result → picks number (drop i certs.now) ≢ [] }
{
    if !stays(certs, i, number) {
        return Ok(());
    }
    run.take(alloc, &certs[i])
}

/// The run of the whole chain of a ledger, for a root record with this number.
pub(crate) fn run_all(alloc: Global, certs: &[Cert], number: u64) -> Result<Run, CheckRefusal>
    ensures { RunsAll (chain_of certs.now number) result }
{
    let mut run = Run::new(alloc);
    for i in last_first(certs)..certs.len() {
        step(&mut run, alloc, certs, i, number)?;
    }
    Ok(run)
}
