//! Which certificates of a ledger are its chain.
ghost use Rattle.std.specs.Prelude.{◌≡◌, ◌≤◌, ◌<◌, ◌+◌, ◌∷◌, if◌then◌else◌, Some, drop, length, slice_get};
ghost use Rattle.cert_maker.specs.Cert as said;
ghost use Rattle.cert_checker.specs.Chain.{from_last_first, picks};

use cert_maker::Cert;

/// The place of the last certificate with number 0, or else of the first one.
pub(crate) fn last_first(certs: &[Cert]) -> usize
    ensures within { result ≤ length certs.now }
    ensures from { from_last_first certs.now ≡ drop result certs.now }
{
    let mut start = 0;
    for i in 0..certs.len() {
        if certs[i].commit() == 0 {
            start = i;
        }
    }
    start
}

/// Whether a certificate stays, of those from its place on: where the next one has another number, and at the end, where its
/// number isn't the one after the root record's.
pub(crate) fn stays(certs: &[Cert], i: usize, number: u64) -> bool
    requires { i < length certs.now }
    ensures { (cert : said.Cert) → slice_get certs.now i ≡ Some cert → picks number (drop i certs.now)
        ≡ (if result then cert ∷ picks number (drop (i + 1) certs.now) else picks number (drop (i + 1) certs.now)) }
{
    let commit = certs[i].commit();
    if i + 1 < certs.len() {
        return certs[i + 1].commit() != commit;
    }
    commit == 0 || commit - 1 != number
}
