//! The words of a command line, and texts for standard output.

use sdbt_base::{Sink, SinkFault, WriteSink};
use std::alloc::Global;
use std::rt::Env;
use std::{env, io};

/// The words of the command line behind the program's own name.
///
/// It is refused where a word is no text in UTF-8, or where no memory is given.
pub fn words_of(rt: &(impl Env + Alloc<A = Global>)) -> io::Result<Vec<String>> {
    let mut words = Vec::new(rt.alloc());
    for word in env::args(rt)?.skip(1) {
        words.push(word)?;
    }
    Ok(words)
}

/// Puts texts to standard output, one behind the other.
pub fn print_texts(rt: &impl Print, texts: &[&str]) -> Result<(), SinkFault> {
    let mut output = WriteSink::new(io::writer(rt));
    for text in texts {
        output.put(text.as_bytes())?;
    }
    Ok(())
}
