//! How a run over a platform ended.

ghost use Rattle.std.specs.Prelude.{◌≡◌, None};
ghost use Rattle.std.specs.Option.{option_map};

use tpm_cell::TpmFault;

/// How a run ended: its exit status, and why a call on the index of a TPM failed, if one did.
#[derive(Clone, Copy)]
pub struct Ended<'a> {
    /// The exit status.
    pub status: u8,
    // The word that named the index, and why.
    fault: Option<(&'a str, TpmFault)>,
}

impl<'a> Ended<'a> {
    /// A run over an index that this word named.
    pub fn over_index(status: u8, cell: &'a str, fault: Option<TpmFault>) -> Ended<'a>
        ensures status { result.status ≡ status }
        ensures fault { result.fault ≡ option_map (λ fault. (cell.entry, fault)) fault }
    {
        Ended {
            status,
            fault: fault.map(|fault| (cell, fault)),
        }
    }

    /// Says on standard error, for the program of this name, what failed for this reason.
    pub fn tell(&self, rt: &impl Eprint, program: &str, reason: &str) {
        let _ = eprintln!(rt; "{program}: {reason}");
        if let Some((cell, fault)) = &self.fault {
            let _ = eprintln!(rt; "{program}: {cell}: {fault}");
        }
    }
}

impl From<u8> for Ended<'_> {
    ghost from_gives = { λ status ended. (ended.status ≡ status) × (ended.fault ≡ None) };

    fn from(status: u8) -> Self {
        Ended {
            status,
            fault: None,
        }
    }
}
