//! What the definitions say of one another: functions that do nothing, whose clauses are laws.
ghost use Rattle.std.specs.Prelude.{◌≡◌, ◌++◌, ℕ, List, All, length};
ghost use Rattle.std.specs.List.{flat_map};
ghost use Rattle.nbd_lang.specs.Greeting.{greeting, flags_bytes};
ghost use Rattle.nbd_lang.specs.Options.{OptionSent, FitsOption, option_bytes};
ghost use Rattle.nbd_lang.specs.Requests.{RequestSent, FitsSent, request_bytes};
ghost use Rattle.nbd_lang.specs.declared.greeting.ClientFlags.{ClientFlags};

use crate::greeting::GREETING;

/// A law: the constant is the greeting.
pub fn greeting_is_spelled()
    ensures { GREETING ≡ greeting }
{}

/// A law: flags have one reading.
pub fn flags_read_one_way()
    ensures { (one other : ClientFlags) → flags_bytes one ≡ flags_bytes other → one ≡ other }
{}

/// A law: bytes that begin with options have one reading, and so does what is behind them.
pub fn options_read_one_way()
    ensures one { (one other : OptionSent) (rest rest_of_other : List ℕ) → FitsOption one
        → FitsOption other
        → option_bytes one ++ rest ≡ option_bytes other ++ rest_of_other
        → (one ≡ other) × (rest ≡ rest_of_other) }
    ensures many { (ones others : List OptionSent) (rest rest_of_others : List ℕ)
        → All FitsOption ones → All FitsOption others
        → length ones ≡ length others
        → flat_map option_bytes ones ++ rest ≡ flat_map option_bytes others ++ rest_of_others
        → (ones ≡ others) × (rest ≡ rest_of_others) }
{}

/// A law: bytes that begin with requests have one reading, and so does what is behind them.
pub fn requests_read_one_way()
    ensures one { (one other : RequestSent) (rest rest_of_other : List ℕ) → FitsSent one
        → FitsSent other
        → request_bytes one ++ rest ≡ request_bytes other ++ rest_of_other
        → (one ≡ other) × (rest ≡ rest_of_other) }
    ensures many { (ones others : List RequestSent) (rest rest_of_others : List ℕ)
        → All FitsSent ones → All FitsSent others
        → length ones ≡ length others
        → flat_map request_bytes ones ++ rest ≡ flat_map request_bytes others ++ rest_of_others
        → (ones ≡ others) × (rest ≡ rest_of_others) }
{}
