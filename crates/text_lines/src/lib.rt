//! The lines of a text. A line ends with a line feed; the last one may lack it.
#![tactic(auto)]

ghost use Rattle.std.specs.Prelude.{◌≡◌, ◌∷◌, ◌++◌, [], ℕ, List, IfSome, IfNone};
ghost use Rattle.text_lines.specs.Lines.{HasNone, whole_lines_of, rest_of, last_line, lines_of};

use memchr::memchr;

/// What stands before the first line feed of a text, and what stands behind it; None where there is none.
pub fn split_line(text: &[u8]) -> Option<(&[u8], &[u8])>
    ensures found { IfSome result (λ parts. HasNone 10 parts.0.now × (text.now ≡ parts.0.now ++ 10 ∷ parts.1.now)) }
    ensures none { IfNone result (HasNone 10 text.now) }
{
    let feed = memchr(b'\n', text)?;
    let (line, behind) = text.split_at(feed);
    Some((line, &behind[1..]))
}

/// The lines of a text may be found in pieces: of a text that grows, the lines that were whole stay, and the
/// others are those of the rest with what is new; at its end the rest, if there is one, is the last line.
pub fn lines_come_in_pieces()
    ensures whole { (text more : List ℕ) → whole_lines_of (text ++ more) ≡ whole_lines_of text ++ whole_lines_of (rest_of text ++ more) }
    ensures rest { (text more : List ℕ) → rest_of (text ++ more) ≡ rest_of (rest_of text ++ more) }
    ensures all { (text : List ℕ) → lines_of text ≡ whole_lines_of text ++ last_line (rest_of text) }
    ensures feed { (text : List ℕ) → HasNone 10 (rest_of text) }
{}

/// A line feed ends the line before it, and only that.
pub fn a_line_ends_at_its_feed()
    ensures whole { (line behind : List ℕ) → HasNone 10 line → whole_lines_of (line ++ 10 ∷ behind) ≡ line ∷ whole_lines_of behind }
    ensures rest { (line behind : List ℕ) → rest_of (line ++ 10 ∷ behind) ≡ rest_of behind }
    ensures none { (text : List ℕ) → HasNone 10 text → whole_lines_of text ≡ [] }
    ensures all { (text : List ℕ) → HasNone 10 text → rest_of text ≡ text }
    ensures lines { (text more : List ℕ) → lines_of (text ++ 10 ∷ more) ≡ whole_lines_of text ++ rest_of text ∷ lines_of more }
    ensures one { (text : List ℕ) → HasNone 10 text → lines_of text ≡ last_line text }
{}
