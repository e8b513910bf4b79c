//! Certificates.
ghost use Rattle.std.specs.Prelude.{◌≡◌, List, IfOk};
ghost use Rattle.sdbt_base.specs.declared.lists.Unkept.{Unkept as Page};
ghost use Rattle.key_graph.specs.Trace.{Entries};
ghost use Rattle.cert_maker.specs.CertOf.{CertOf};
ghost use Rattle.cert_maker.specs.Differ.{Differ};
ghost use Rattle.cert_maker.specs.Ordered.{AreOneEach, IsOrderOf};

use crate::added::AddedList;
use crate::ordering::{ascending_addrs, ascending_pages};
use sdbt_base::{Addrs, Memory, Unkept, UnkeptList};
use std::alloc::Global;
use std::marker::Model;

/// What a commit says of its addresses. It holds no key. A contract sees its four numbers and three lists.
#[derive(Drop)]
pub struct Cert {
    commit: u64,
    base: u64,
    head: u64,
    root: u64,
    added: AddedList,
    gone: Addrs,
    never: UnkeptList,
}

impl Model for Cert {
    ghost use Rattle.cert_maker.specs.Cert as specs;

    ghost Value = { specs.Cert };

    ghost view = { λ c. record {
      commit = c.commit;
      base = c.base;
      head = c.head;
      root = c.root;
      added = c.added;
      gone = c.gone;
      never = c.never;
    } };
}

impl Cert {
    /// The certificate of a commit: its number, how many pages had been handed over before it and have been with it, its root
    /// node, and what it added, let go and never kept, each list in any order. The lists of the certificate ascend by address,
    /// and have each address once, where the given ones have no two items of one address. `Memory` where there is none for them.
    pub fn build(
        alloc: Global,
        commit: u64,
        base: u64,
        head: u64,
        root: u64,
        added: AddedList,
        gone: &[u64],
        never: &[Unkept],
    ) -> Result<Cert, Memory>
        ensures commit { IfOk result (λ cert. cert.commit ≡ commit) }
        ensures base { IfOk result (λ cert. cert.base ≡ base) }
        ensures head { IfOk result (λ cert. cert.head ≡ head) }
        ensures root { IfOk result (λ cert. cert.root ≡ root) }
        ensures added { AreOneEach (λ item. item.addr) added → IfOk result (λ cert. IsOrderOf (λ item. item.addr) added cert.added) }
        ensures gone { IfOk result (λ cert. IsOrderOf (λ addr. addr) gone.now cert.gone) }
        ensures never { AreOneEach (λ page. page.addr) never.now → IfOk result (λ cert. IsOrderOf (λ page. page.addr) never.now cert.never) }
        ensures trees { IfOk result (λ cert. (old new : Entries) (pages : List Page) → AreOneEach (λ page. page.addr) never.now
            → Differ old new pages added gone.now never.now → CertOf old new commit root base head pages cert) }
    {
        let gone = ascending_addrs(alloc, gone)?;
        let never = ascending_pages(alloc, never)?;
        let mut added = added;
        added.ascend();
        Ok(Cert::from_parts(commit, base, head, root, added, gone, never))
    }

    /// The certificate of these parts as they stand, for one that is read.
    pub fn from_parts(
        commit: u64,
        base: u64,
        head: u64,
        root: u64,
        added: AddedList,
        gone: Addrs,
        never: UnkeptList,
    ) -> Cert
        ensures { result ≡ record { commit = commit; base = base; head = head; root = root; added = added; gone = gone; never = never } }
    {
        Cert {
            commit,
            base,
            head,
            root,
            added,
            gone,
            never,
        }
    }

    /// The commit's number.
    pub fn commit(&self) -> u64
        ensures { result ≡ self.now.commit }
    {
        self.commit
    }

    /// How many pages had been handed over at the commit before it; for a format, when it began.
    pub fn base(&self) -> u64
        ensures { result ≡ self.now.base }
    {
        self.base
    }

    /// How many pages have been handed over with it.
    pub fn head(&self) -> u64
        ensures { result ≡ self.now.head }
    {
        self.head
    }

    /// The address of its root node.
    pub fn root(&self) -> u64
        ensures { result ≡ self.now.root }
    {
        self.root
    }

    /// The addresses that it added.
    pub fn added(&self) -> &AddedList
        ensures { result.now ≡ self.now.added }
    {
        &self.added
    }

    /// The addresses that it let go.
    pub fn gone(&self) -> &Addrs
        ensures { result.now ≡ self.now.gone }
    {
        &self.gone
    }

    /// The data pages that were written since the commit before it, and are in no tree.
    pub fn never(&self) -> &UnkeptList
        ensures { result.now ≡ self.now.never }
    {
        &self.never
    }
}
