//! What a search has found: keys to try, and bodies that were opened.
ghost use Rattle.std.specs.Prelude.{◌≡◌, ◌≢◌, ◌≤◌, ◌+◌, ◌*◌, ◌++◌, ◌∷◌, ℕ, [], Contains, IfSome, IfNone, OnOk, OnErr, length, map};
ghost use Rattle.sdbt_base.specs.Keys.{bare};
ghost use Rattle.key_graph.specs.Opening.{kind_of, IsNodeKind, count_of, key_in};
ghost use Rattle.seizure.specs.Opened.{told_of, IsOrderOf};
ghost use Rattle.seizure.specs.Work.{KnowsItsKeys, Gains, HasKey};

use crate::opened::{Opened, ascend};
use crate::report::Report;
use key_graph::KeyList;
use sdbt_base::{Key, Listed, Memory, RECORD};
use std::alloc::Global;
use std::collections::BTreeSet;

/// The keys that were found, each once, in the order in which they are tried, and what was opened.
#[derive(Drop)]
pub(crate) struct Work {
    known: BTreeSet<[u8; 32]>,
    /// The keys.
    pub(crate) keys: KeyList,
    opened: Listed<Opened>,
}

impl Work {
    /// Nothing. It takes no memory.
    pub(crate) fn new(alloc: Global) -> Work
        ensures known { KnowsItsKeys result }
        ensures keys { result.keys ≡ [] }
        ensures opened { result.opened ≡ [] }
    {
        Work {
            known: BTreeSet::new(alloc),
            keys: KeyList::new(alloc),
            opened: Listed::new(alloc),
        }
    }

    /// A key is to be tried, without its digest, if it was not found before.
    pub(crate) fn want(&mut self, key: &Key) -> Result<(), Memory>
        requires { KnowsItsKeys self.old }
        ensures known { OnOk result (KnowsItsKeys self.new) }
        ensures keys { OnOk result (Gains self.old.keys self.new.keys (λ other. other ≡ bare key.now)) }
        ensures opened { self.new.opened ≡ self.old.opened }
    {
        if self.known.insert(key.bytes())? {
            self.keys.push(key.bare())?;
        }
        Ok(())
    }

    /// Each of these keys is to be tried.
    pub(crate) fn want_all(&mut self, keys: &KeyList) -> Result<(), Memory>
        requires { KnowsItsKeys self.old }
        ensures known { OnOk result (KnowsItsKeys self.new) }
        ensures keys { OnOk result (Gains self.old.keys self.new.keys (Contains (map bare keys.now))) }
        ensures memory { OnErr result (keys.now ≢ []) }
        ensures opened { self.new.opened ≡ self.old.opened }
    {
        for i in 0..keys.len() {
            self.want(keys.at(i))?;
        }
        Ok(())
    }

    /// A body was opened at an address: what it says is noted, and the keys in it are to be tried.
    pub(crate) fn note(&mut self, addr: u64, body: &[u8]) -> Result<(), Memory>
        requires size { length body.now ≡ RECORD }
        requires known { KnowsItsKeys self.old }
        ensures known { OnOk result (KnowsItsKeys self.new) }
        ensures opened { OnOk result (self.new.opened ≡ self.old.opened ++ told_of addr body.now ∷ []) }
        ensures keys { OnOk result (Gains self.old.keys self.new.keys (HasKey body.now)) }
    {
        let told = told(addr, body);
        self.opened.push(told)?;
        match entry_size(told.kind) {
            Some(size) => self.want_entries(body, size),
            None => Ok(()),
        }
    }

    /// The keys in the entries of a node, each of this size, are to be tried.
    fn want_entries(&mut self, body: &[u8], size: usize) -> Result<(), Memory>
        requires size { length body.now ≡ RECORD }
        requires node { IsNodeKind (kind_of body.now) size }
        requires known { KnowsItsKeys self.old }
        ensures known { OnOk result (KnowsItsKeys self.new) }
        ensures opened { self.new.opened ≡ self.old.opened }
        ensures keys { OnOk result (Gains self.old.keys self.new.keys (HasKey body.now)) }
    {
        for entry in 0..count(body, size) {
            self.want(&key_at(body, size, entry))?;
        }
        Ok(())
    }

    /// The report of what was opened of so many pages.
    pub(crate) fn into_report(self, pages: u64) -> Report
        ensures pages { result.pages ≡ pages }
        ensures opened { IsOrderOf self.opened result.opened }
    {
        let mut opened = self.opened.into_vec();
        ascend(&mut opened);
        Report::of(pages, opened)
    }
}

/// What a body at an address says of itself.
fn told(addr: u64, body: &[u8]) -> Opened
    requires { length body.now ≡ RECORD }
    ensures { result ≡ told_of addr body.now }
{
    let mut block = [0; 8];
    block.copy_from_slice(&body[24..32]);
    Opened {
        addr,
        kind: body[16],
        block: u64::from_be_bytes(block),
    }
}

/// How many bytes an entry of a node of this kind has: with the digests of the second version, more. Other kinds are no
/// nodes.
fn entry_size(kind: u8) -> Option<usize>
    ensures node { IfSome result (λ size. IsNodeKind kind size) }
    ensures other { IfNone result ((size : ℕ) → ¬ (IsNodeKind kind size)) }
{
    match kind {
        2 => Some(48),
        3 => Some(80),
        _ => None,
    }
}

/// How many entries of this size a body has by its count: as many as there is room for, at most.
fn count(body: &[u8], size: usize) -> usize
    requires { length body.now ≡ RECORD }
    ensures { result ≡ count_of size body.now }
{
    let count = u16::from_be_bytes([body[18], body[19]]);
    let most = if size == 80 { 51 } else { 85 };
    most.min(count as usize)
}

/// The key in an entry of a body. A digest behind it is left out.
fn key_at(body: &[u8], size: usize, entry: usize) -> Key
    requires size { length body.now ≡ RECORD }
    requires within { size * entry + 80 ≤ RECORD }
    ensures value { result ≡ key_in size body.now entry }
    ensures plain { length result ≡ 32 }
{
    let at = size * entry + 48;
    let mut bytes = [0; 32];
    bytes.copy_from_slice(&body[at..at + 32]);
    Key::from_bytes(bytes)
}
