//! What the replies to a script come to.
ghost use Rattle.std.specs.Prelude.{◌≡◌, ◌+◌, List, length, drop, flat_map};
ghost use Rattle.script_lang.specs.Replies.{Reply, line_of};
ghost use Rattle.workload.specs.Summaries.{refused};

use script_lang::is_refusal_text;
use text_lines::split_line;

/// How many lines of a script were accepted, and how many refused.
#[derive(Clone, Copy, Debug, PartialEq, Eq)]
pub struct Tally {
    /// Lines that were served.
    pub accepted: u64,
    /// Lines that were faulty, out of turn or out of range, or for which too few pages were free.
    pub refused: u64,
}

impl Tally {
    /// Counts the lines of replies, each of which ends with its line feed.
    pub fn of(told: &[u8]) -> Tally
        ensures refused { (replies : List Reply) → told.now ≡ flat_map line_of replies → result.refused ≡ refused replies }
        ensures all { (replies : List Reply) → told.now ≡ flat_map line_of replies → result.accepted + result.refused ≡ length replies }
    {
        let mut tally = Tally {
            accepted: 0,
            refused: 0,
        };
        let mut rest = told;
        while let Some((line, behind)) = split_line(rest) {
            if is_refusal_text(line) {
                tally.refused += 1;
            } else {
                tally.accepted += 1;
            }
            rest = behind;
        }
        tally
    }
}

/// What stands behind so many lines of replies.
pub fn lines_behind(told: &[u8], lines: u64) -> &[u8]
    ensures { (replies : List Reply) → told.now ≡ flat_map line_of replies → result.now ≡ flat_map line_of (drop lines replies) }
{
    let mut rest = told;
    'lines: for _ in 0..lines {
        if let Some((_, behind)) = split_line(rest) {
            rest = behind;
        }
    }
    rest
}
