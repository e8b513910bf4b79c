//! Which addresses a trace reaches from a root.
ghost use Rattle.std.specs.Prelude.{◌≡◌, ◌<◌, ◌↔◌, ◌∷◌, [], ℕ, AllPairs, Contains, IfOk, OnOk};
ghost use Rattle.key_graph.specs.Trace.{TraceReached, entry_in};
ghost use Rattle.key_graph.specs.Search.{children_of, IsSetOf, Gains};

use crate::traces::Trace;
use sdbt_base::{Addrs, Memory};
use std::alloc::Global;
use std::collections::BTreeSet;

/// The addresses to which a chain of children leads from `root`, `root` itself among them, in ascending order. Any trace will
/// do: one in which children stand above their nodes, or lead round in a circle, has its addresses listed once too.
pub fn reached(alloc: Global, trace: &Trace, root: u64) -> Result<Addrs, Memory>
    ensures exact { IfOk result (λ found. (addr : ℕ) → Contains found addr ↔ TraceReached (entry_in trace.now) root addr) }
    ensures ascending { IfOk result (λ found. AllPairs (λ one next. one < next) found) }
{
    let mut found = BTreeSet::new(alloc);
    found.insert(root)?;
    let mut queue = Vec::new(alloc);
    queue.push(root)?;
    let mut next = 0;
    while next < queue.len() {
        visit(trace, queue[next], &mut found, &mut queue)?;
        next += 1;
    }
    listed(alloc, &found)
}

// Queues the children of an address that were not found before.
fn visit(
    trace: &Trace,
    addr: u64,
    found: &mut BTreeSet<u64>,
    queue: &mut Vec<u64>,
) -> Result<(), Memory>
    requires { IsSetOf found.old queue.old.items }
    ensures found { OnOk result (IsSetOf found.new queue.new.items) }
    ensures queued { OnOk result (Gains queue.old.items queue.new.items (children_of (entry_in trace.now addr))) }
{
    match trace.children(addr) {
        Some(children) => queue_new(children, found, queue),
        None => Ok(()),
    }
}

// Queues those of the addresses that were not found before.
fn queue_new(addrs: &Addrs, found: &mut BTreeSet<u64>, queue: &mut Vec<u64>) -> Result<(), Memory>
    requires { IsSetOf found.old queue.old.items }
    ensures found { OnOk result (IsSetOf found.new queue.new.items) }
    ensures queued { OnOk result (Gains queue.old.items queue.new.items addrs.now) }
{
    for i in 0..addrs.len() {
        queue_one(*addrs.at(i), found, queue)?;
    }
    Ok(())
}

// Queues an address, if it was not found before.
fn queue_one(addr: u64, found: &mut BTreeSet<u64>, queue: &mut Vec<u64>) -> Result<(), Memory>
    requires { IsSetOf found.old queue.old.items }
    ensures found { OnOk result (IsSetOf found.new queue.new.items) }
    ensures queued { OnOk result (Gains queue.old.items queue.new.items (addr ∷ [])) }
{
    if !found.insert(addr)? {
        return Ok(());
    }
    queue.push(addr)?;
    Ok(())
}

// The addresses of a set, in order.
fn listed(alloc: Global, found: &BTreeSet<u64>) -> Result<Addrs, Memory>
    ensures addrs { IfOk result (λ addrs. addrs ≡ found.now.keys) }
    ensures ascending { IfOk result (λ addrs. AllPairs (λ one next. one < next) addrs) }
{
    let mut addrs = Addrs::new(alloc);
    for addr in found {
        addrs.push(*addr)?;
    }
    Ok(addrs)
}
