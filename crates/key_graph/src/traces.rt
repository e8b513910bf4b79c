//! A trace: what is said of each address, without the pages and without a key.
ghost use Rattle.std.specs.Prelude.{◌≡◌, ◌≢◌, ◌==◌, ℕ, List, [], Some, if◌then◌else◌, MatchOption, OnOk, OnErr};
ghost use Rattle.key_graph.specs.Trace.{entry_in};
ghost use Rattle.sdbt_base.specs.Traces.{NodeOver};
ghost use Rattle.key_graph.specs.Said.{said_of};

use sdbt_base::{Addrs, Memory};
use std::alloc::Global;
use std::collections::BTreeMap;
use std::marker::Model;

/// What a trace says of an address.
#[derive(Drop)]
pub enum TraceEntry {
    /// It is a data record of this block.
    Block {
        /// The block's number.
        block: u64,
    },
    /// It is a node over these children.
    Node {
        /// Their addresses, in the node's order.
        children: Addrs,
    },
    /// Nothing is said of it.
    Lost,
}

// What is kept of an address of which something is said.
#[derive(Drop)]
enum Said {
    Data(u64),
    Over(Addrs),
}

/// What is said of each address. A contract sees the addresses of which something is said, each with that.
#[derive(Drop)]
pub struct Trace {
    entries: BTreeMap<u64, Said>,
}

impl Model for Trace {
    ghost use Rattle.std.specs.Prelude.{List, map};
    ghost use Rattle.sdbt_base.specs.Traces.{Traced};

    ghost Value = { List Traced };

    ghost use Rattle.key_graph.specs.Said.{traced_of};

    ghost view = { λ t. map traced_of t.entries.entries };
}

impl Trace {
    /// A trace in which every address is lost. It takes no memory.
    pub fn new(alloc: Global) -> Trace
        ensures { result ≡ [] }
    {
        Trace {
            entries: BTreeMap::new(alloc),
        }
    }

    /// Says this of an address, in place of what was said of it before. `Memory` changes nothing.
    pub fn set(&mut self, addr: u64, entry: TraceEntry) -> Result<(), Memory>
        ensures set { OnOk result ((other : ℕ) →
            entry_in self.new other ≡ (if addr == other then said_of entry else entry_in self.old other)) }
        ensures kept { OnErr result (self.new ≡ self.old) }
    {
        let said = match entry {
            TraceEntry::Block { block } => Said::Data(block),
            TraceEntry::Node { children } => Said::Over(children),
            TraceEntry::Lost => {
                self.entries.remove(&addr);
                return Ok(());
            }
        };
        self.entries.insert(addr, said)?;
        Ok(())
    }

    /// The children of an address that is a node.
    pub fn children(&self, addr: u64) -> Option<&Addrs>
        ensures { MatchOption result
            ((children : List ℕ) → entry_in self.now addr ≢ Some (NodeOver children))
            (λ children. entry_in self.now addr ≡ Some (NodeOver children.now)) }
    {
        let Some(said) = self.entries.get(&addr) else {
            return None;
        };
        match said {
            Said::Data(_) => None,
            Said::Over(children) => Some(children),
        }
    }
}
