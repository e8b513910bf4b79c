//! What failed where a run ended with some status.

ghost use Rattle.std.specs.Prelude.{◌≡◌};
ghost use Rattle.std.specs.Option.{option_map};
ghost use Rattle.folder_objects.specs.Reasons.{reason_text};

/// What failed where a run ended with this status, for a line on standard error behind the program's name. At status 1
/// that was said before, and at 2 a program says how it is called.
pub fn reason_of(status: u8) -> Option<&'static str>
    ensures { option_map (λ text. text.now) result ≡ reason_text status }
{
    match status {
        3 => Some("the input failed"),
        4 => Some("the output failed"),
        5 => Some("the medium failed, or the store of the root record"),
        6 => Some("the source of keys failed"),
        7 => Some("the ledger failed"),
        8 => Some("the root record is none that can be served"),
        9 => Some("a page does not hold the record that is wanted there"),
        10 => Some("the ledger is refused, or there is no device"),
        11 => Some("no memory was given"),
        12 => Some("2^32 bytes of input were taken before its end"),
        _ => None,
    }
}
