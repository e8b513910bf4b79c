//! A row, line by line.
use crate::keys::Keys;
use crate::serving::{Ran, Server};
use crate::showing::{show, write_end, write_other};
use crate::state::Scene;
use key_tape::SeedTape;
use row_lines::{Client, LineFault, end, number, word, write_told};
use sdbt_base::{Line, Memory};
use std::alloc::Global;
use std::mem::swap;
use std::str::SplitWhitespace;

/// A row that is being followed: the text that is written of it, the objects of its runs, and the run whose input is being read.
#[derive(Drop)]
pub(crate) struct Row {
    alloc: Global,
    text: Line,
    scene: Scene,
    other: Scene,
    names: Vec<(String, String)>,
    run: Option<Run>,
    step: usize,
    is_whole: bool,
}

/// The top call of a run, its words, and its input so far.
#[derive(Drop)]
struct Run {
    server: Server,
    words: Vec<String>,
    input: Given,
}

/// What a run gets as its input.
#[derive(Drop)]
enum Given {
    Script(Line),
    Client(Client),
}

impl Given {
    /// The bytes of the input.
    fn bytes(&self) -> &[u8] {
        match self {
            Given::Script(script) => script.bytes(),
            Given::Client(client) => client.said(),
        }
    }
}

impl Row {
    /// The row that the lines of a text say, whose scripts come so many bytes a take where it doesn't say otherwise.
    pub(crate) fn of(alloc: Global, step: usize, text: &str) -> Result<Row, Memory> {
        let mut row = Row::new(alloc, step);
        row.follow_all(text)?;
        Ok(row)
    }

    /// A row of no line yet.
    fn new(alloc: Global, step: usize) -> Row {
        Row {
            alloc,
            text: Line::new(alloc),
            scene: Scene::new(alloc),
            other: Scene::new(alloc),
            names: Vec::new(alloc),
            run: None,
            step,
            is_whole: true,
        }
    }

    /// What is written of the row.
    pub(crate) fn text(&self) -> &[u8] {
        self.text.bytes()
    }

    /// Whether each line was one of a row's.
    pub(crate) fn is_whole(&self) -> bool {
        self.is_whole
    }

    /// Goes on by the lines of a text, to its end.
    fn follow_all(&mut self, text: &str) -> Result<(), Memory> {
        for line in text.strip_suffix('\n').unwrap_or(text).split('\n') {
            self.follow(line)?;
        }
        self.finish()
    }

    /// Goes on by a line.
    fn follow(&mut self, line: &str) -> Result<(), Memory> {
        if line.starts_with('<') || line.starts_with('=') {
            return Ok(());
        }
        if let Some(text) = line.strip_prefix('>') {
            self.write("", line.as_bytes())?;
            return self.read_input(text);
        }
        self.finish()?;
        self.write("", line.as_bytes())?;
        match self.obey(line) {
            Ok(()) => Ok(()),
            Err(LineFault::Memory) => Err(Memory),
            Err(LineFault::Unknown) => self.refuse(),
        }
    }

    /// Serves the run whose input has been read, and writes how it ended.
    fn finish(&mut self) -> Result<(), Memory> {
        match self.run.take() {
            Some(run) => self.serve(&run),
            None => Ok(()),
        }
    }

    /// Serves a run, and writes how it ended.
    fn serve(&mut self, run: &Run) -> Result<(), Memory> {
        let input = run.input.bytes();
        let ran = self.scene.run(run.server, &run.words, input, self.step)?;
        self.write_ran(&run.input, &ran)
    }

    /// Writes what came of a run with this input.
    fn write_ran(&mut self, input: &Given, ran: &Ran) -> Result<(), Memory> {
        match input {
            Given::Script(_) => self.write_output(ran)?,
            Given::Client(client) => {
                write_told(self.alloc, client, ran.output.bytes(), &mut self.text)?;
            }
        }
        write_end(self.alloc, &self.scene, ran, &mut self.text)
    }

    /// Writes what a script's run put: a last line without a line feed behind another mark.
    fn write_output(&mut self, ran: &Ran) -> Result<(), Memory> {
        for part in ran.output.bytes().split_inclusive(|byte| *byte == b'\n') {
            match part.strip_suffix(b"\n") {
                Some(line) => self.write("< ", line)?,
                None => self.write("<~ ", part)?,
            }
        }
        Ok(())
    }

    /// Writes a line of the row.
    fn write(&mut self, mark: &str, line: &[u8]) -> Result<(), Memory> {
        self.text.append(mark.as_bytes())?;
        self.text.append(line)?;
        self.text.append(b"\n")
    }

    /// Says that the line before is none of a row's.
    fn refuse(&mut self) -> Result<(), Memory> {
        self.is_whole = false;
        self.write("= ", b"no line of a row")
    }

    /// A line of the input of a run.
    fn read_input(&mut self, text: &str) -> Result<(), Memory> {
        let Some(run) = &mut self.run else {
            return self.refuse();
        };
        let read = match &mut run.input {
            Given::Script(script) => read_script(script, text),
            Given::Client(client) => read_client(client, text),
        };
        match read {
            Ok(()) => Ok(()),
            Err(LineFault::Memory) => Err(Memory),
            Err(LineFault::Unknown) => self.refuse(),
        }
    }

    /// Does what a line says.
    fn obey(&mut self, line: &str) -> Result<(), LineFault> {
        let mut words = line.split_whitespace();
        let words = &mut words;
        let Some(first) = words.next() else {
            return Ok(());
        };
        if first.starts_with('#') {
            Ok(())
        } else if first == "run" {
            self.begin_run(Server::Script, words)
        } else if first == "volumes" {
            self.begin_run(Server::Volumes, words)
        } else if first == "nbd" {
            self.begin_client(words)
        } else if first == "transfer" {
            self.transfer(words)
        } else if first == "other" {
            swap(&mut self.scene, &mut self.other);
            end(words)
        } else if first == "medium" {
            self.scene.begin(words)
        } else if first == "fail" {
            self.scene.fail(words)
        } else if first == "show" {
            show(self.alloc, &mut self.scene, words, &mut self.text)
        } else {
            self.prepare(first, words)
        }
    }

    /// Does what a line says that stands before a run: `keys`, `take`, `let`, `cut`, `page` or `cell`.
    fn prepare(&mut self, first: &str, words: &mut SplitWhitespace<'_>) -> Result<(), LineFault> {
        if first == "keys" {
            self.set_keys(words)
        } else if first == "take" {
            self.set_step(words)
        } else if first == "let" {
            self.let_be(words)
        } else if first == "cut" {
            self.scene.lose_power();
            end(words)
        } else if first == "page" {
            self.scene.set_page(words)
        } else if first == "cell" {
            self.scene.set_cell(words)
        } else {
            Err(LineFault::Unknown)
        }
    }

    /// `keys KEYS`: where the keys of the runs come from.
    fn set_keys(&mut self, words: &mut SplitWhitespace<'_>) -> Result<(), LineFault> {
        self.scene.keys = keys_of(words)?;
        end(words)
    }

    /// `take COUNT`: how many bytes of a script come a take.
    fn set_step(&mut self, words: &mut SplitWhitespace<'_>) -> Result<(), LineFault> {
        self.step = number(words)?.min(65_536) as usize;
        end(words)
    }

    /// `let NAME WORD`: a name that stands for a word.
    fn let_be(&mut self, words: &mut SplitWhitespace<'_>) -> Result<(), LineFault> {
        let name = word(words)?;
        let value = word(words)?;
        self.add_name(name, value)?;
        end(words)
    }

    /// From here on a name stands for this.
    fn add_name(&mut self, name: &str, value: &str) -> Result<(), Memory> {
        let name = String::from_str(self.alloc, name)?;
        let value = String::from_str(self.alloc, value)?;
        self.names.push((name, value))?;
        Ok(())
    }

    /// `run WORD..` or `volumes WORD..`: a run of a script or of volumes with these words, of which `$NAME` stands for what that was let be, `''` for an empty word, and `<ledger` for a script that is the
    /// ledger so far.
    fn begin_run(
        &mut self,
        server: Server,
        words: &mut SplitWhitespace<'_>,
    ) -> Result<(), LineFault> {
        let mut all = Vec::new(self.alloc);
        let mut script = Line::new(self.alloc);
        for word in words {
            if word == "<ledger" {
                script.append(self.scene.ledger.bytes())?;
            } else {
                self.add_word(word, &mut all)?;
            }
        }
        self.run = Some(Run {
            server,
            words: all,
            input: Given::Script(script),
        });
        Ok(())
    }

    /// `transfer WORD..`: the device on the medium is moved to the other one.
    fn transfer(&mut self, words: &mut SplitWhitespace<'_>) -> Result<(), LineFault> {
        let all = self.meant_words(words)?;
        let ran = self.scene.transfer(&mut self.other, &all)?;
        Ok(self.write_moved(&ran)?)
    }

    /// Writes what came of a move.
    fn write_moved(&mut self, ran: &Ran) -> Result<(), Memory> {
        self.write_output(ran)?;
        write_end(self.alloc, &self.scene, ran, &mut self.text)?;
        write_other(self.alloc, &self.other, &mut self.text)
    }

    /// `nbd WORD..`: a run with these words that serves a client of NBD.
    fn begin_client(&mut self, words: &mut SplitWhitespace<'_>) -> Result<(), LineFault> {
        let all = self.meant_words(words)?;
        let client = Client::new(self.alloc)?;
        self.run = Some(Run {
            server: Server::Nbd,
            words: all,
            input: Given::Client(client),
        });
        Ok(())
    }

    /// What the words to the end of a line stand for.
    fn meant_words(&self, words: &mut SplitWhitespace<'_>) -> Result<Vec<String>, Memory> {
        let mut all = Vec::new(self.alloc);
        for word in words {
            self.add_word(word, &mut all)?;
        }
        Ok(all)
    }

    /// Adds what a word stands for.
    fn add_word(&self, word: &str, all: &mut Vec<String>) -> Result<(), Memory> {
        all.push(String::from_str(self.alloc, self.meant_by(word))?)?;
        Ok(())
    }

    /// What a word stands for: `''` for an empty one.
    fn meant_by<'a>(&'a self, word: &'a str) -> &'a str {
        if word == "''" {
            return "";
        }
        let Some(name) = word.strip_prefix('$') else {
            return word;
        };
        let named = self
            .names
            .iter()
            .rev()
            .find(|named| named.0.as_str() == name);
        match named {
            Some((_, value)) => value.as_str(),
            None => word,
        }
    }
}

/// A line of a script: behind `> ` the line; behind `>~ ` text without a line feed; behind `>* COUNT ` text that many times.
fn read_script(script: &mut Line, text: &str) -> Result<(), LineFault> {
    if let Some(part) = text.strip_prefix("~ ") {
        script.append(part.as_bytes())?;
        return Ok(());
    }
    let Some(part) = text.strip_prefix("* ") else {
        script.append(text.strip_prefix(' ').unwrap_or(text).as_bytes())?;
        script.append(b"\n")?;
        return Ok(());
    };
    let (count, part) = counted(part);
    for _ in 0..count {
        script.append(part.as_bytes())?;
    }
    Ok(())
}

/// A line of what a client of NBD says: behind `>* COUNT ` what it says that many times.
fn read_client(client: &mut Client, text: &str) -> Result<(), LineFault> {
    let Some(part) = text.strip_prefix("* ") else {
        return client.say(text);
    };
    let (count, part) = counted(part);
    for _ in 0..count {
        client.say(part)?;
    }
    Ok(())
}

/// A count, and the text behind it.
fn counted(text: &str) -> (u32, &str) {
    let (count, part) = text.split_once(' ').unwrap_or((text, ""));
    (count.parse().unwrap_or(0), part)
}

/// The keys that words say: `rising`, or `seed` and a number.
fn keys_of(words: &mut SplitWhitespace<'_>) -> Result<Keys, LineFault> {
    let kind = word(words)?;
    if kind == "rising" {
        Ok(Keys::Rising)
    } else if kind == "seed" {
        let seed = number(words)?;
        Ok(Keys::Seeded(SeedTape::new(seed)))
    } else {
        Err(LineFault::Unknown)
    }
}
