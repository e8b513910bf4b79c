//! The words of the command line.
ghost use Rattle.std.specs.Prelude.{◌≡◌, [], ◌∷◌, codes, map, string_bytes};
ghost use Rattle.device_cli.specs.Words.{Asks, records_of};

use crate::given::are_record_words;
use script_lang::parse_number;
use workload::MAX_COUNT;

/// What the words of a command line ask for.
#[derive(Clone, Copy, Debug, PartialEq, Eq)]
pub(crate) enum Order {
    /// To serve the script that the input gives.
    Run,
    /// To judge the ledger that the input gives.
    Check,
    /// To tell what the root record in the cell opens, and those given in the words behind the first.
    Seize,
    /// To serve the script of a seed with so many generated lines, 1 to 5,000.
    Work { seed: u64, count: u64 },
}

/// What the words ask for. None where they are none of the forms.
pub(crate) fn order_of(words: &[String]) -> Option<Order>
    ensures { Asks (map string_bytes words.now) result }
{
    match words {
        [] => Some(Order::Run),
        [word, behind @ ..] => order_named(word, behind),
    }
}

/// What a word asks for, with these words behind it.
fn order_named(word: &String, behind: &[String]) -> Option<Order>
    ensures { Asks (string_bytes word.now ∷ map string_bytes behind.now) result }
{
    let word = word.as_bytes();
    if word == b"seize".as_slice() {
        return if are_record_words(behind) {
            Some(Order::Seize)
        } else {
            None
        };
    }
    if word == b"work".as_slice() {
        return work_of(behind);
    }
    if !behind.is_empty() {
        return None;
    }
    if word == b"run".as_slice() {
        return Some(Order::Run);
    }
    if word == b"check".as_slice() {
        return Some(Order::Check);
    }
    None
}

/// The script that the words behind `work` name: a seed, and how many lines are generated.
fn work_of(words: &[String]) -> Option<Order>
    ensures { Asks (codes "work" ∷ map string_bytes words.now) result }
{
    match words {
        [seed, count] => script_of(seed.as_bytes(), count.as_bytes()),
        _ => None,
    }
}

/// The script of which these texts name the seed and the number of generated lines.
fn script_of(seed: &[u8], count: &[u8]) -> Option<Order>
    ensures { Asks (codes "work" ∷ seed.now ∷ count.now ∷ []) result }
{
    let seed = parse_number(seed)?;
    let count = parse_number(count)?;
    if count == 0 {
        return None;
    }
    if count > MAX_COUNT {
        return None;
    }
    Some(Order::Work { seed, count })
}

/// The words behind the first one.
pub(crate) fn records_of(words: &[String]) -> &[String]
    ensures { map string_bytes result.now ≡ records_of (map string_bytes words.now) }
{
    match words {
        [] => words,
        [_, behind @ ..] => behind,
    }
}
