//! Laws of certificates. The functions do nothing: each has its law as its contract.
ghost use Rattle.std.specs.Prelude.{◌≡◌, ◌+◌, ℕ, List, [], ◌++◌, ◌∷◌, Option, None, Some, IfSome};
ghost use Rattle.sdbt_base.specs.declared.lists.Unkept.{Unkept};
ghost use Rattle.cert_maker.specs.Cert.{Cert};
ghost use Rattle.key_graph.specs.Trace.{Entries};
ghost use Rattle.sdbt_base.specs.Traces.{NodeOver};
ghost use Rattle.page_store.specs.Tree.{Place};
ghost use Rattle.root_codec.specs.declared.root.Root.{Root};
ghost use Rattle.cert_maker.specs.Trace.{entries_of};
ghost use Rattle.cert_maker.specs.CertOf.{CertOf};
ghost use Rattle.cert_checker.specs.Rules.{Keeps, Counts, after};
ghost use Rattle.cert_checker.specs.Chain.{Accepted, Fits};
ghost use Rattle.cert_checker.specs.Sound.{IsSound, Stay};
ghost use Rattle.cert_checker.specs.First.{First};
ghost use Rattle.cert_checker.specs.Succession.{Succeeds, format_cert, root_of};

/// What holds before a certificate that keeps the rules, whoever made it, holds after it.
pub fn facts_stay()
    ensures { (chain : List Cert) (live : Entries) (former : Option Cert) (cert : Cert) →
        Stay chain live former → Keeps live former cert → Stay (chain ++ cert ∷ []) (after live cert) (Some cert) }
{}

/// The certificate of a tree that comes after another one keeps the rules, and what is live after it is the new tree.
pub fn succession()
    ensures { (former : Option Cert) (cert : Cert) (old new : Entries) (pages : List Unkept) →
        Counts former cert → IfSome former (λ f. cert.base ≡ f.head) →
        Succeeds cert.base cert.head old new (root_of former) cert.root pages →
        CertOf old new cert.commit cert.root cert.base cert.head pages cert →
        Keeps old former cert × ((addr : ℕ) → after old cert addr ≡ new addr) }
{}

/// Where a chain is accepted, whoever made it, what is live after it is exactly what its trace reaches from the root record's
/// node, and no address is reached that the chain says is gone or was never kept.
pub fn soundness()
    ensures { (chain : List Cert) (root : Root) → Accepted chain root → IsSound chain root.addr }
{}

/// A ledger that fits a root record and its tree fits the next root record and its tree, once their certificate stands behind
/// it, whatever certificates with the same number stood there before.
pub fn fits_next()
    ensures { (certs : List Cert) (root next : Root) (old new : List Place) (pages : List Unkept) (cert : Cert) →
        Fits certs root old → next.commit ≡ root.commit + 1 →
        Succeeds root.head next.head (entries_of old) (entries_of new) (Some root.addr) next.addr pages →
        CertOf (entries_of old) (entries_of new) next.commit next.addr root.head next.head pages cert →
        Fits (certs ++ cert ∷ []) next new }
{}

/// A ledger that fits a root record goes on to fit it when a certificate with the next number stands behind it.
pub fn fits_waits()
    ensures { (certs : List Cert) (root : Root) (old : List Place) (cert : Cert) →
        Fits certs root old → cert.commit ≡ root.commit + 1 → Fits (certs ++ cert ∷ []) root old }
{}

/// Any ledger fits the root record of a new device, once the certificate of its first tree stands behind it.
pub fn fits_first()
    ensures { (certs : List Cert) (next : Root) (base : ℕ) (new : List Place) (cert : Cert) → next.commit ≡ 0 →
        Succeeds base next.head (entries_of []) (entries_of new) None next.addr [] →
        CertOf (entries_of []) (entries_of new) 0 next.addr base next.head [] cert →
        Fits (certs ++ cert ∷ []) next new }
{}

/// A chain has at most one first broken rule, with one value, and none where it is accepted.
pub fn one_first()
    ensures one { (chain : List Cert) (root : Root) (rule other value other_value : ℕ) →
        First chain root rule value → First chain root other other_value → (rule ≡ other) × (value ≡ other_value) }
    ensures none { (chain : List Cert) (root : Root) (rule value : ℕ) →
        Accepted chain root → ¬ (First chain root rule value) }
{}

/// Any ledger fits a new device once the certificate of its one empty leaf stands behind it.
pub fn format_fits()
    ensures { (certs : List Cert) (root : Root) (base : ℕ) (key : List ℕ) →
        root.commit ≡ 0 → root.addr ≡ base → root.head ≡ base + 1 →
        Fits (certs ++ format_cert base ∷ []) root (record { addr = base; key = key; trace = NodeOver [] } ∷ []) }
{}
