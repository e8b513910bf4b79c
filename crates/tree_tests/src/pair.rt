//! A tree and an ordered map that get the same random updates.
use crate::fixture::Fixture;
use crate::pages::fixture_of;
use std::alloc::Global;
use std::collections::BTreeMap;

/// Numbers that look random, from a seed.
#[derive(Drop)]
struct Numbers {
    state: u64,
}

impl Numbers {
    /// The next one, below a bound.
    fn below(&mut self, bound: u64) -> u64 {
        self.state = self
            .state
            .wrapping_mul(6364136223846793005)
            .wrapping_add(1442695040888963407);
        (self.state >> 33).checked_rem(bound).unwrap_or(0)
    }
}

/// A tree, an ordered map from blocks to the addresses of their data records, and what comes next.
#[derive(Drop)]
pub(crate) struct Pair {
    fixture: Fixture,
    map: BTreeMap<u64, u64>,
    blocks: u64,
    numbers: Numbers,
}

impl Pair {
    /// Both without any block, over a medium that has a few pages.
    pub(crate) fn new(
        alloc: Global,
        version: u8,
        order: u16,
        blocks: u64,
        seed: u64,
    ) -> Option<Pair> {
        let mut fixture = fixture_of(alloc, version, "1:", order, blocks, 1)?;
        for _ in 0..8 {
            fixture.datum()?;
        }
        Some(Pair {
            fixture,
            map: BTreeMap::new(alloc),
            blocks,
            numbers: Numbers { state: seed },
        })
    }

    /// Inserts a random block into both in so many of eight cases, and else removes one. `None` where the tree has grown by too many
    /// nodes then, is not shaped as it may be, or differs from the map in this block or in another one.
    pub(crate) fn update(&mut self, alloc: Global, puts: u64) -> Option<()> {
        let block = self.numbers.below(self.blocks);
        let before = self.fixture.grown();
        let level = self.fixture.grove().level() as u64;
        let most = if self.numbers.below(8) < puts {
            self.put(alloc, block)?;
            2 * level + 1
        } else if self.take(alloc, block)? {
            (2 * level).saturating_sub(1)
        } else {
            0
        };
        let grown = self.fixture.grown();
        if self.fixture.shape() != Some(grown) || grown.saturating_sub(before) > most {
            return None;
        }
        self.compare(block)?;
        let other = self.numbers.below(self.blocks);
        self.compare(other)
    }

    /// Inserts a block into both, at a random address.
    fn put(&mut self, alloc: Global, block: u64) -> Option<()> {
        let addr = self.numbers.below(self.fixture.head());
        self.fixture.put(alloc, block, addr)?;
        self.map.insert(block, addr).ok()?;
        Some(())
    }

    /// Removes a block from both, and answers whether it was mapped; `None` where one says so and the other does not.
    fn take(&mut self, alloc: Global, block: u64) -> Option<bool> {
        let is_mapped = self.fixture.take(alloc, block)?;
        if self.map.remove(&block).is_some() == is_mapped {
            Some(is_mapped)
        } else {
            None
        }
    }

    /// `None` where tree and map differ in a block.
    fn compare(&mut self, block: u64) -> Option<()> {
        let wanted = self.map.get(&block).copied();
        if self.fixture.find(block) == Ok(wanted) {
            Some(())
        } else {
            None
        }
    }

    /// `None` where they differ in any block.
    pub(crate) fn compare_all(&mut self) -> Option<()> {
        for block in 0..self.blocks {
            self.compare(block)?;
        }
        Some(())
    }

    /// The tree has its nodes on the medium then.
    pub(crate) fn commit(self, alloc: Global) -> Option<Pair> {
        let Pair {
            fixture,
            map,
            blocks,
            numbers,
        } = self;
        Some(Pair {
            fixture: fixture.commit(alloc)?,
            map,
            blocks,
            numbers,
        })
    }
}
