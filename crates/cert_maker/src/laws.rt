//! Laws of traces. The functions do nothing: each has its law as its contract.
ghost use Rattle.std.specs.Prelude.{◌≢◌, ℕ, List, AllPairs};
ghost use Rattle.root_codec.specs.declared.root.Root.{Root};
ghost use Rattle.page_store.specs.Tree.{Parts, Tree};
ghost use Rattle.key_graph.specs.Trace.{IsTraceTree};
ghost use Rattle.cert_maker.specs.Trace.{entries_of};

/// What the places of a tree say of their addresses is a tree's trace, where no two have the same address.
pub fn trees_are_traces()
    ensures { (pages : List (List ℕ)) (root : Root) (parts : Parts) → Tree pages root parts →
        AllPairs (λ p q. p.addr ≢ q.addr) parts.places → IsTraceTree (entries_of parts.places) root.addr }
{}
