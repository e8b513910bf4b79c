//! What the array machine keeps: blocks, devices and sessions.

ghost use Rattle.std.specs.Prelude.{◌≡◌, ℕ, ◌<◌, List, IfOk, OnOk, OnErr};
ghost use Rattle.std.specs.Option.{option_copied};
ghost use Rattle.std.specs.FinMap as map;

use sdbt_base::{BLOCK, Memory};
use std::alloc::Global;
use std::collections::BTreeMap;
use std::marker::Model;

/// What each mapped block holds.
#[derive(Drop)]
pub struct Contents {
    blocks: BTreeMap<u64, [u8; BLOCK]>,
}

impl Model for Contents {
    ghost use Rattle.std.specs.Prelude.{ℕ, List};
    ghost use Rattle.std.specs.Ordering.{nat_cmp};
    ghost use Rattle.std.specs.Coded.{coded_ℕ, coded_list};
    ghost use Rattle.std.specs.FinMap as map;

    ghost Value = { map.FinMap nat_cmp (List ℕ) };

    ghost coded = { map.code coded_ℕ (coded_list coded_ℕ) };

    ghost view = { λ a. map.from_entries a.blocks.entries };
}

impl Contents {
    /// No block is mapped.
    pub fn new(alloc: Global) -> Contents
        ensures { result ≡ map.empty }
    {
        Contents {
            blocks: BTreeMap::new(alloc),
        }
    }

    /// How many blocks are mapped.
    pub fn len(&self) -> u64
        ensures { result ≡ map.len self.now }
    {
        self.blocks.len() as u64
    }

    /// What a mapped block holds.
    pub fn get(&self, block: u64) -> Option<&[u8; BLOCK]>
        ensures { option_copied result ≡ map.get self.now block }
    {
        self.blocks.get(&block)
    }

    /// Maps a block. An `Err` changes nothing.
    pub fn insert(&mut self, block: u64, content: [u8; BLOCK]) -> Result<(), Memory>
        ensures ok { OnOk result (self.new ≡ map.insert self.old block content) }
        ensures err { OnErr result (self.new ≡ self.old) }
    {
        self.blocks.insert(block, content)?;
        Ok(())
    }

    /// Unmaps a block, and says whether it was mapped.
    pub fn remove(&mut self, block: u64) -> bool
        ensures was { result ≡ map.contains_key self.old block }
        ensures removed { self.new ≡ map.remove self.old block }
    {
        self.blocks.remove(&block).is_some()
    }

    /// The same blocks once more.
    pub fn duplicate(&self) -> Result<Contents, Memory>
        ensures { IfOk result (λ copy. copy ≡ self.now) }
    {
        let blocks = self.blocks.clone()?;
        Ok(Contents { blocks })
    }
}

/// A device: an array of blocks, which a commit makes anew.
#[derive(Drop)]
pub struct Device {
    /// The version of its records.
    pub version: u8,
    /// How many blocks it has.
    pub blocks: u64,
    /// The order of its tree.
    pub order: u64,
    /// How many commits changed it.
    pub number: u64,
    /// What its blocks hold.
    pub contents: Contents,
}

impl Model for Device {
    ghost use Rattle.sdbt_base.specs.Arrays.{Device as Array};
    ghost use Rattle.script_lang.specs.Codes.{device_code};

    ghost Value = { Array };

    ghost coded = { device_code };

    ghost view = { λ d. record { version = d.version; blocks = d.blocks; order = d.order; number = d.number; contents = d.contents } };
}

/// A session: a device's blocks, with changes that are not committed.
#[derive(Drop)]
pub struct Session {
    /// What the blocks hold.
    pub contents: Contents,
    /// Whether anything was changed since the mount or the last commit.
    pub touched: bool,
}

impl Model for Session {
    ghost use Rattle.sdbt_base.specs.Arrays.{Session as Array};
    ghost use Rattle.script_lang.specs.Codes.{session_code};

    ghost Value = { Array };

    ghost coded = { session_code };

    ghost view = { λ s. record { contents = s.contents; touched = s.touched } };
}
