//! Root records that are given in words: 256 hex digits each, of either case.
ghost use Rattle.std.specs.Prelude.{◌≡◌, ◌≤◌, ◌↔◌, Ok, IsTrue, IsSome, IfSome, IfNone, map, length, string_bytes};
ghost use Rattle.hex.specs.Hex.{decode_of};
ghost use Rattle.root_codec.specs.declared.root.Root.{Root};
ghost use Rattle.device_cli.specs.Given.{IsRecordWord, AreRecordWords, IsRecordOf, AreGiven, HasBadRecord};

use arrayvec::ArrayVec;
use root_codec::{Root, decode_root};
use sdbt_base::{Key, ROOT};

/// The most root records that can be given.
pub(crate) const MOST_RECORDS: usize = 64;

/// Whether the words can be root records: at most 64, of 256 hex digits each.
pub(crate) fn are_record_words(words: &[String]) -> bool
    ensures { IsTrue result ↔ AreRecordWords (map string_bytes words.now) }
{
    if words.len() > MOST_RECORDS {
        return false;
    }
    for word in words {
        if record_of(word).is_none() {
            return false;
        }
    }
    true
}

/// The keys of the roots whose root records the words are, without digests. None where a word is the root record of no root, or of
/// one that speaks of more pages than there are.
pub(crate) fn keys_given(words: &[String], head: u64) -> Option<ArrayVec<Key, MOST_RECORDS>>
    requires { length words.now ≤ 64 }
    ensures found { IfSome result (λ keys. AreGiven head (map string_bytes words.now) keys.items) }
    ensures none { IfNone result (HasBadRecord head (map string_bytes words.now)) }
{
    let mut keys = ArrayVec::new();
    for word in words {
        let Some(root) = root_given(word, head) else {
            return None;
        };
        keys.push(root.key.bare());
    }
    Some(keys)
}

/// The root whose root record a word is. None where it is that of no root, or of one that speaks of more pages than there are.
fn root_given(word: &String, head: u64) -> Option<Root>
    ensures found { IfSome result (IsRecordOf head (string_bytes word.now)) }
    ensures none { IfNone result ((root : Root) → IsRecordOf head (string_bytes word.now) root → ⊥) }
{
    let record = record_of(word)?;
    let root = decode_root(&record)?;
    if root.head <= head { Some(root) } else { None }
}

/// The bytes that a word of 256 hex digits stands for. None for every other word.
fn record_of(word: &String) -> Option<[u8; ROOT]>
    ensures found { IfSome result (λ bytes. decode_of (string_bytes word.now) ≡ Ok bytes) }
    ensures word { IsSome result ↔ IsRecordWord (string_bytes word.now) }
{
    let digits = word.as_bytes();
    if digits.len() != 2 * ROOT {
        return None;
    }
    let mut record = [0; ROOT];
    if hex_digits::decode(digits, &mut record) {
        Some(record)
    } else {
        None
    }
}
