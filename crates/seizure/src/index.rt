//! Pages, kept as the first bytes that a key's keystream must have to open them.
ghost use Rattle.std.specs.Prelude.{◌≡◌, ◌<◌, ◌+◌, ◌↔◌, [], ℕ, List, Some, All, Contains, IfOk, OnOk, length, slice_get};
ghost use Rattle.key_graph.specs.Chains.{OpensAt, link};
ghost use Rattle.seizure.specs.Index.{number_of, AreMarks, AreBelow, AreApart, AreRising, IsHit, IsOnce};
ghost use Rattle.seizure.specs.declared.index.Marked.{Marked};

use sdbt_base::{Addrs, Key, Memory, RECORD};
use seal_record::{front_wanted, stream_front};
use std::alloc::Global;

/// A page, as a look-up has to know it.
#[derive(Clone, Copy)]
pub(crate) struct Marked {
    /// The first bytes of the keystream of each key that opens it.
    front: [u8; 16],
    /// Its address.
    addr: u64,
}

impl Marked {
    fn number(&self) -> u64
        ensures { result ≡ number_of self.now.front }
    {
        number_of_front(&self.front)
    }
}

/// The number that the first 8 of these bytes are.
#[tactic(auto, unfolding(crate::specs::Index::number_of))]
fn number_of_front(front: &[u8; 16]) -> u64
    ensures { result ≡ number_of front.now }
{
    let mut bytes = [0; 8];
    bytes.copy_from_slice(&front[..8]);
    u64::from_be_bytes(bytes)
}

/// Pages by what opens them.
#[derive(Drop)]
pub(crate) struct Index {
    marks: Vec<Marked>,
}

impl Index {
    /// No page. It takes no memory.
    pub(crate) fn new(alloc: Global) -> Index
        ensures { result.marks.items ≡ [] }
    {
        Index {
            marks: Vec::new(alloc),
        }
    }

    /// Adds the page at the next address.
    pub(crate) fn add(&mut self, addr: u64, page: &[u8]) -> Result<(), Memory>
        requires { length page.now ≡ RECORD }
        ensures marks { OnOk result ((pages : List (List ℕ)) → slice_get pages addr ≡ Some page.now →
            AreMarks pages addr self.old.marks.items → AreMarks pages (addr + 1) self.new.marks.items) }
        ensures below { OnOk result (AreBelow addr self.old.marks.items → AreBelow (addr + 1) self.new.marks.items) }
        ensures apart { OnOk result (AreBelow addr self.old.marks.items → AreApart self.old.marks.items → AreApart self.new.marks.items) }
    {
        let front = front_wanted(addr, page);
        self.marks.push(Marked { front, addr })?;
        Ok(())
    }

    /// Makes look-ups ready.
    pub(crate) fn sort(&mut self)
        ensures marks { (pages : List (List ℕ)) (below : ℕ) → AreMarks pages below self.old.marks.items →
            AreMarks pages below self.new.marks.items }
        ensures below { (below : ℕ) → AreBelow below self.old.marks.items → AreBelow below self.new.marks.items }
        ensures apart { AreApart self.old.marks.items → AreApart self.new.marks.items }
        ensures rising { AreRising self.new.marks.items }
    {
        self.marks.sort_unstable_by_key(|mark| mark.number());
    }

    /// The addresses of the pages that a key opens there.
    pub(crate) fn opened(&self, alloc: Global, key: &Key) -> Result<Addrs, Memory>
        requires { AreRising self.now.marks.items }
        ensures below { IfOk result (λ addrs. (below : ℕ) → AreBelow below self.now.marks.items → All (λ addr. addr < below) addrs) }
        ensures opened { IfOk result (λ addrs. (pages : List (List ℕ)) → AreMarks pages (length pages) self.now.marks.items →
            (addr : ℕ) → Contains addrs addr ↔ OpensAt pages (link addr key.now)) }
        ensures once { IfOk result (λ addrs. AreApart self.now.marks.items → IsOnce addrs) }
    {
        let front = stream_front(key);
        hits(alloc, self.near(number_of_front(&front)), &front)
    }

    /// The marks that begin with a number.
    fn near(&self, number: u64) -> &[Marked]
        requires { AreRising self.now.marks.items }
        ensures some { All (Contains self.now.marks.items) result.now }
        ensures all { (mark : Marked) → Contains self.now.marks.items mark → number_of mark.front ≡ number →
            Contains result.now mark }
        ensures apart { AreApart self.now.marks.items → AreApart result.now }
    {
        let start = self.marks.partition_point(|mark| mark.number() < number);
        let (_, rest) = self.marks.split_at(start);
        let (near, _) = rest.split_at(rest.partition_point(|mark| mark.number() <= number));
        near
    }
}

/// The addresses of the marks that begin with these bytes.
fn hits(alloc: Global, marks: &[Marked], front: &[u8; 16]) -> Result<Addrs, Memory>
    ensures hits { IfOk result (λ addrs. (addr : ℕ) → Contains addrs addr ↔ IsHit marks.now front.now addr) }
    ensures once { IfOk result (λ addrs. AreApart marks.now → IsOnce addrs) }
{
    let mut addrs = Addrs::new(alloc);
    for mark in marks {
        if mark.front == *front {
            addrs.push(mark.addr)?;
        }
    }
    Ok(addrs)
}
