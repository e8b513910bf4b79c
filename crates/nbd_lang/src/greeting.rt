//! What both sides say first.
ghost use Rattle.std.specs.Prelude.{◌≡◌, ◌≢◌, IfSome, IfNone, length};
ghost use Rattle.nbd_lang.specs.Greeting.{flags_bytes};
ghost use Rattle.nbd_lang.specs.declared.greeting.ClientFlags.{ClientFlags};

use crate::fields::u32_of;

/// What the server says first: `NBDMAGIC`, `IHAVEOPT`, and that it speaks the fixed newstyle and
/// can leave away the zeros behind an export's flags.
pub const GREETING: [u8; 18] = *b"NBDMAGICIHAVEOPT\x00\x03";

/// How many bytes the client's flags have.
pub const CLIENT_FLAGS: usize = 4;

/// What the client says first.
#[derive(Clone, Copy, Debug, PartialEq, Eq)]
pub struct ClientFlags {
    /// Whether it speaks the fixed newstyle.
    pub fixed_newstyle: bool,
    /// Whether it wants no zeros behind an export's flags.
    pub no_zeroes: bool,
}

/// The flags that the four bytes spell, or `None` where a bit is set that the server did not offer.
pub fn read_flags(bytes: &[u8]) -> Option<ClientFlags>
    requires { length bytes.now ≡ 4 }
    ensures found { IfSome result (λ flags. bytes.now ≡ flags_bytes flags) }
    ensures none { IfNone result ((flags : ClientFlags) → bytes.now ≢ flags_bytes flags) }
{
    let (fixed_newstyle, no_zeroes) = match u32_of(bytes) {
        0 => (false, false),
        1 => (true, false),
        2 => (false, true),
        3 => (true, true),
        _ => return None,
    };
    Some(ClientFlags {
        fixed_newstyle,
        no_zeroes,
    })
}
