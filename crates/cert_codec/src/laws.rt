//! Laws of the text. The functions do nothing: each has its law as its contract.
ghost use Rattle.std.specs.Prelude.{◌≡◌, ◌≢◌, ◌<◌, ◌⊎◌, ◌++◌, ◌∷◌, [], ℕ, List, length, take};
ghost use Rattle.std.specs.List.{AllByRecursion};
ghost use Rattle.serde_json.specs.Written.{compact_text};
ghost use Rattle.cert_maker.specs.Cert as specs;
ghost use Rattle.cert_codec.specs.Text.{cert_json, Spells, Fits, entry};
ghost use Rattle.cert_codec.specs.Ledger.{IsLedger};

/// What is written for a certificate spells it.
pub fn what_is_written_is_read()
    ensures { (cert : specs.Cert) → Fits cert → Spells (compact_text (cert_json cert)) cert }
{}

/// No bytes spell two certificates.
pub fn one_certificate()
    ensures { (bytes : List ℕ) (one other : specs.Cert) → Spells bytes one → Spells bytes other → one ≡ other }
{}

/// What is written for a certificate has no line feed in it.
pub fn what_is_written_is_one_line()
    ensures { (cert : specs.Cert) → Fits cert → AllByRecursion (λ byte. byte ≢ 10) (compact_text (cert_json cert)) }
{}

/// No first part of what is written for a certificate spells one, unless it is the whole: so a line that was torn is no certificate.
pub fn no_first_part_is_read()
    ensures { (cert : specs.Cert) → Fits cert → (n : ℕ) → n < length (compact_text (cert_json cert)) → (other : specs.Cert) →
        ¬ Spells (take n (compact_text (cert_json cert))) other }
{}

/// A ledger's bytes have one list of certificates.
pub fn one_ledger()
    ensures { (text : List ℕ) (certs others : List specs.Cert) → IsLedger text certs → IsLedger text others → certs ≡ others }
{}

/// An entry that is put behind a ledger's bytes adds its certificate, also where they end in a line that was torn; and a first
/// part of an entry adds it or adds nothing.
pub fn an_entry_adds_its_certificate()
    ensures whole { (text : List ℕ) (certs : List specs.Cert) (cert : specs.Cert) → Fits cert → IsLedger text certs →
        IsLedger (text ++ entry cert) (certs ++ cert ∷ []) }
    ensures part { (text : List ℕ) (certs : List specs.Cert) (cert : specs.Cert) (n : ℕ) → Fits cert → IsLedger text certs →
        IsLedger (text ++ take n (entry cert)) certs ⊎ IsLedger (text ++ take n (entry cert)) (certs ++ cert ∷ []) }
{}
