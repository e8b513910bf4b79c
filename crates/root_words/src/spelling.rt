//! Words of a command line, and what is handed on in their place.
ghost use Rattle.std.specs.Prelude.{◌≡◌, ◌∷◌, ◌↔◌, Ok, IsTrue, IfOk, IfErr, IsErrOf, MatchResult, IfSome, IfNone, codes, map, string_bytes};
ghost use Rattle.std.specs.List.{AllZip, Any};
ghost use Rattle.hex.specs.Hex.{decode_of};
ghost use Rattle.root_words.specs.Spelled.{NamesFile, IsSpelled, IsSeizure, IsRecordInHex, IsRefusalOf};
ghost use Rattle.root_words.specs.declared.refusals.NoRecord.TheVariants.{Io};
ghost use Rattle.root_words.specs.declared.refusals.NotSpelled.TheVariants.{File, Memory};

use crate::{NoRecord, NotSpelled, read_record};
use sdbt_base::ROOT;
use std::alloc::{AllocError, Global};
use std::fs;
use std::io::{self, Read};
use std::rt::Files;

/// Whether the words behind a device ask for a seizure: only there may files of root records be named.
pub fn is_seizure(words: &[String]) -> bool
    ensures { IsTrue result ↔ IsSeizure (map string_bytes words.now) }
{
    match words {
        [word, ..] => is_seize(word),
        [] => false,
    }
}

// Whether this is the word.
fn is_seize(word: &String) -> bool
    ensures { IsTrue result ↔ (string_bytes word.now ≡ codes "seize") }
{
    word.as_bytes() == b"seize".as_slice()
}

/// The words of a seizure, in which each `@FILE` was read to its end: in its place stand the 256 hex digits of its 128
/// bytes. Every other word is as it was.
///
/// It is refused where such a file can't be read or doesn't have 128 bytes, which the refusal names, and where no memory
/// is given.
pub fn spelled_words<'a, R>(rt: &R, words: &'a [String]) -> Result<Vec<String>, NotSpelled<'a>>
where
    R: Files + Alloc<A = Global>,
    ensures spelled { IfOk result (λ spelled. AllZip IsSpelled (map string_bytes words.now) (map string_bytes spelled.items)) }
    ensures refused { IfErr result (λ refusal. Any (λ word. IsRefusalOf word refusal) (map string_bytes words.now)) }
{
    let mut spelled = Vec::new(rt.alloc());
    for word in words {
        let next = spelled_word(rt, word)?;
        spelled.push(next).map_err(AllocError::from)?;
    }
    Ok(spelled)
}

// The word that is handed on in the place of this one.
fn spelled_word<'a, R>(rt: &R, word: &'a String) -> Result<String, NotSpelled<'a>>
where
    R: Files + Alloc<A = Global>,
    ensures spelled { IfOk result (λ spelled. IsSpelled (string_bytes word.now) (string_bytes spelled)) }
    ensures refused { IfErr result (λ refusal. IsRefusalOf (string_bytes word.now) refusal) }
{
    match file_named(word.as_str()) {
        Some(name) => record_in_hex(rt.alloc(), name, record_in(fs::open(rt, name))),
        None => Ok(word.clone()?),
    }
}

// The file that a word names.
fn file_named(word: &str) -> Option<&str>
    ensures found { IfSome result (λ name. word.now ≡ 64 ∷ name.now) }
    ensures none { IfNone result (NamesFile word.now → ⊥) }
{
    word.strip_prefix('@')
}

// The root record that was read from the file of this name, in hex digits.
fn record_in_hex<'a>(
    alloc: Global,
    name: &'a str,
    read: Result<[u8; ROOT], NoRecord>,
) -> Result<String, NotSpelled<'a>>
    ensures digits { IfOk result (λ digits. IsRecordInHex (string_bytes digits)) }
    ensures read { IfOk read (λ bytes. MatchResult result (λ digits. decode_of (string_bytes digits) ≡ Ok bytes) (λ refusal. refusal ≡ Memory)) }
    ensures refused { IfErr read (λ why. IsErrOf result (File name.entry why)) }
{
    match read {
        Ok(record) => Ok(digits_of(alloc, &record)?),
        Err(why) => Err(NotSpelled::File { name, why }),
    }
}

// The root record that a file has, which is all that it has, if the file was opened.
fn record_in<F: Read + Drop>(opened: io::Result<F>) -> Result<[u8; ROOT], NoRecord>
    ensures whole { IfOk opened (λ file. IfOk result (λ bytes. IfSome (F.remaining file) (λ left. left ≡ bytes))) }
    ensures unopened { IfErr opened (λ error. IsErrOf result (Io error)) }
{
    match opened {
        Ok(mut file) => read_record(&mut file),
        Err(error) => Err(NoRecord::Io(error)),
    }
}

// The hex digits that stand for these bytes.
fn digits_of(alloc: Global, bytes: &[u8]) -> Result<String, AllocError>
    ensures { IfOk result (λ digits. decode_of (string_bytes digits) ≡ Ok bytes.now) }
{
    hex::encode(alloc, bytes)
}
