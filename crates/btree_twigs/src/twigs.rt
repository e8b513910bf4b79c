ghost use Rattle.std.specs.Prelude.{◌-◌, ◌≡◌, ℕ, ◌<◌, ◌≤◌, ◌/◌, length, take, drop};
ghost use Rattle.std.specs.List.{AllByRecursion};
ghost use Rattle.btree_twigs.specs.Stubs.{start_by, low_of as low_in, addr_of as addr_in};
ghost use Rattle.btree_twigs.specs.Top.{child_level};

use sdbt_base::Key;

/// A child.
#[cycle(twig)]
#[derive(Drop)]
pub enum Child {
    Kept { low: u64, addr: u64, key: Key },
    Grown { low: u64, twig: Twig },
}

/// A node.
#[cycle(twig)]
#[derive(Drop)]
pub struct Twig {
    pub level: u8,
    pub children: Vec<Child>,
}

/// Where a search ends.
#[derive(Drop)]
pub enum Spot {
    /// At the data record of the block.
    Found {
        addr: u64,
        key: Key,
    },
    /// In a node in memory that has no record of the block.
    Absent,
    /// At a node on the medium, below which it goes on.
    Below {
        level: u8,
        low: u64,
        high: u64,
        addr: u64,
        key: Key,
    },
}

pub fn low_of(child: &Child) -> u64
    ensures { result ≡ low_in child.now }
{
    match child {
        Child::Kept { low, .. } => *low,
        Child::Grown { low, .. } => *low,
    }
}

/// The address of a child on the medium.
pub fn addr_of(child: &Child) -> Option<u64>
    ensures { result ≡ addr_in child.now }
{
    match child {
        Child::Kept { addr, .. } => Some(*addr),
        Child::Grown { .. } => None,
    }
}

/// The level of a child in memory, or 0.
pub fn level_of(child: &Child) -> u8
    ensures { result ≡ child_level child.now }
{
    match child {
        Child::Kept { .. } => 0,
        Child::Grown { twig, .. } => twig.level,
    }
}

/// How many children begin at the block or before.
pub fn place(children: &[Child], block: u64) -> usize
    ensures within { result ≤ length children.now }
    ensures before { AllByRecursion (λ c. low_in c ≤ block) (take result children.now) }
    ensures after { (high : ℕ) → block < high → block < start_by low_in (drop result children.now) high }
{
    for (i, child) in children.iter().enumerate() {
        if low_of(child) > block {
            return i;
        }
    }
    children.len()
}

/// Where a child ends: at the low of the one that follows, or with the node.
pub fn end_of(children: &[Child], next: usize, high: u64) -> u64
    ensures { result ≡ start_by low_in (drop next children.now) high }
{
    match children.get(next) {
        Some(child) => low_of(child),
        None => high,
    }
}
