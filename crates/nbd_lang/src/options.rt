//! Options, which a client sends before requests.
ghost use Rattle.std.specs.Prelude.{◌≡◌, ◌↔◌, ◌++◌, ℕ, List, IsTrue, codes, length};
ghost use Rattle.nbd_lang.specs.Options.{FitsOptionKind, FitsOptionHead, option_number, option_head};

use crate::fields::u32_of;

/// How many bytes each option begins with: `IHAVEOPT`.
pub const OPTION_MAGIC: usize = 8;

/// How many bytes stand behind these and before the option's data.
pub const OPTION_HEAD: usize = 8;

/// What an option asks for.
#[derive(Clone, Copy, Debug, PartialEq, Eq)]
pub enum OptionKind {
    /// That the export with the name in the data is served.
    Export,
    /// To end.
    Abort,
    /// Something that is not served: the option's number, neither 1 nor 2.
    Other(u32),
}

/// An option without its data.
#[derive(Clone, Copy, Debug, PartialEq, Eq)]
pub struct OptionHead {
    /// What it asks for.
    pub kind: OptionKind,
    /// How many bytes of data it has.
    pub length: u32,
}

/// Whether an option begins with the eight bytes.
pub fn is_option(bytes: &[u8]) -> bool
    requires { length bytes.now ≡ 8 }
    ensures { IsTrue result ↔ (bytes.now ≡ codes "IHAVEOPT") }
{
    bytes == b"IHAVEOPT".as_slice()
}

/// The option whose eight bytes these are, behind the eight that each option begins with. All spell
/// one.
pub fn read_option(bytes: &[u8]) -> OptionHead
    requires { length bytes.now ≡ 8 }
    ensures spelled { codes "IHAVEOPT" ++ bytes.now ≡ option_head result }
    ensures fits { FitsOptionHead result }
{
    OptionHead {
        kind: kind_of(u32_of(&bytes[0..4])),
        length: u32_of(&bytes[4..8]),
    }
}

/// The kind with a number.
fn kind_of(number: u32) -> OptionKind
    ensures number { option_number result ≡ number }
    ensures fits { FitsOptionKind result }
{
    match number {
        1 => OptionKind::Export,
        2 => OptionKind::Abort,
        other => OptionKind::Other(other),
    }
}
