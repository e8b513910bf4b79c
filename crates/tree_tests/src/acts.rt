//! What is done to a tree by the lines of a script.
use crate::fixture::Fixture;
use crate::script::{Act, Outcome, Stage, in_words};
use btree_twigs::addr_of;
use btree_update::ReadyRefusal;
use page_store::FetchRefusal;
use std::alloc::Global;

/// A block is mapped to a new data record.
fn put(fixture: &mut Fixture, alloc: Global, block: u64) -> Option<Outcome> {
    let addr = fixture.datum()?;
    fixture.put(alloc, block, addr)?;
    Some(Outcome::At(Some(addr)))
}

/// The tree is made ready for an update of a block.
fn ready(fixture: &mut Fixture, alloc: Global, block: u64) -> Option<Outcome> {
    match fixture.ready(alloc, block)? {
        Ok(is_mapped) => Some(Outcome::Mapped(is_mapped)),
        Err(ReadyRefusal::BadRecord { addr }) => Some(Outcome::Bad(addr)),
        Err(_) => None,
    }
}

/// A block is looked for.
fn find(fixture: &mut Fixture, block: u64) -> Option<Outcome> {
    match fixture.find(block) {
        Ok(found) => Some(Outcome::At(found)),
        Err(FetchRefusal::BadRecord { addr }) => Some(Outcome::Bad(addr)),
        Err(_) => None,
    }
}

/// The addresses that are gone.
fn gone(fixture: &Fixture, alloc: Global) -> Option<Outcome> {
    let mut row = Vec::new(alloc);
    for addr in fixture.grove().gone() {
        row.push(*addr).ok()?;
    }
    Some(Outcome::Row(row))
}

/// What comes of an act.
fn outcome_of(fixture: &mut Fixture, alloc: Global, verb: u8, block: u64) -> Option<Outcome> {
    match verb {
        b'p' => put(fixture, alloc, block),
        b't' => Some(Outcome::Mapped(fixture.take(alloc, block)?)),
        b'r' => ready(fixture, alloc, block),
        b'f' => find(fixture, block),
        b'g' => gone(fixture, alloc),
        b'w' => Some(Outcome::At(addr_of(fixture.grove().top()))),
        _ => None,
    }
}

/// The outcome in words, and then the level of the tree, its nodes in memory, and how many addresses are gone and pages never
/// committed. `None` where the tree is not shaped as it may be.
fn words_of(fixture: &Fixture, alloc: Global, outcome: &Outcome) -> Option<String> {
    let grown = fixture.grown();
    if fixture.shape() != Some(grown) {
        return None;
    }
    let words = in_words(alloc, outcome)?;
    let grove = fixture.grove();
    let (level, gone, never) = (grove.level(), grove.gone().len(), grove.never().len());
    format!(in alloc; "{}, {level} {grown} {gone} {never}", words.as_str()).ok()
}

/// Does what an act says to a tree that stays, and answers what came of it in words.
fn told(fixture: &mut Fixture, alloc: Global, act: &Act) -> Option<String> {
    let outcome = outcome_of(fixture, alloc, act.verb, act.numbers[0])?;
    words_of(fixture, alloc, &outcome)
}

impl Stage for Fixture {
    fn act(self, alloc: Global, act: &Act) -> Option<(Fixture, String)> {
        if act.verb == b'c' {
            return self.commit(alloc).zip(in_words(alloc, &Outcome::Done));
        }
        let mut fixture = self;
        let words = told(&mut fixture, alloc, act);
        Some(fixture).zip(words)
    }
}
