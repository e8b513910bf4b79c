//! Scripts: lines that say what is done, and then what has to come of it.
use std::alloc::Global;

/// What is done: a verb, by its first letter, and numbers.
#[derive(Clone, Copy)]
pub(crate) struct Act {
    pub(crate) verb: u8,
    pub(crate) numbers: [u64; 5],
}

/// What a script is played on.
pub(crate) trait Stage: Drop + Sized {
    /// Acts, and answers what came of it in words. `None` where nothing can be done.
    fn act(self, alloc: Global, act: &Act) -> Option<(Self, String)>;
}

/// What comes of an act.
#[derive(Drop)]
pub(crate) enum Outcome {
    Done,
    /// The address of a block's data record, if it has one.
    At(Option<u64>),
    /// Whether a block is mapped.
    Mapped(bool),
    /// A refusal of the page at an address.
    Bad(u64),
    /// A number of reads.
    Count(u64),
    /// Numbers in a row.
    Row(Vec<u64>),
}

/// An outcome in words.
pub(crate) fn in_words(alloc: Global, outcome: &Outcome) -> Option<String> {
    match outcome {
        Outcome::Done => format!(in alloc; "done").ok(),
        Outcome::At(Some(addr)) => format!(in alloc; "at {addr}").ok(),
        Outcome::At(None) => format!(in alloc; "free").ok(),
        Outcome::Mapped(is_mapped) => format!(in alloc; "{is_mapped}").ok(),
        Outcome::Bad(addr) => format!(in alloc; "bad {addr}").ok(),
        Outcome::Count(number) => format!(in alloc; "{number}").ok(),
        Outcome::Row(numbers) => format!(in alloc; "{:?}", numbers.as_slice()).ok(),
    }
}

/// The act of a line.
fn act_of(words: &str) -> Option<Act> {
    let (verb, rest) = words.split_once(' ').unwrap_or((words, ""));
    let mut numbers = [0; 5];
    for (number, word) in numbers.iter_mut().zip(rest.split_whitespace()) {
        *number = word.parse().ok()?;
    }
    Some(Act {
        verb: *verb.as_bytes().first()?,
        numbers,
    })
}

/// What is there after a line `ACT: OUTCOME`, if that came of it.
fn after<S: Stage>(alloc: Global, stage: Option<S>, line: &str) -> Option<S> {
    let (words, wanted) = line.split_once(": ")?;
    let act = act_of(words)?;
    let (next, came) = stage?.act(alloc, &act)?;
    if came.as_str() == wanted {
        Some(next)
    } else {
        None
    }
}

/// The place of the first line of a script of which something else comes, or `None`.
pub(crate) fn first_unlike<S: Stage>(
    alloc: Global,
    stage: Option<S>,
    script: &str,
) -> Option<usize> {
    let mut stage = stage;
    for (i, line) in script.lines().enumerate() {
        stage = after(alloc, stage, line);
        if stage.is_none() {
            return Some(i);
        }
    }
    None
}
