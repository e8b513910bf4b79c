ghost use Rattle.std.specs.Prelude.{◌≡◌, ◌↔◌, ◌<◌, ◌≤◌, ◌+◌, ◌-◌, ℕ, Some, [], IsTrue, IfOk, OnOk, drop, length, replicate, slice_get};
ghost use Rattle.sdbt_base.specs.Faults.{Tells};
ghost use Rattle.seal_record.specs.Sealing.{masked};
ghost use Rattle.page_digest.specs.Digest.{FitsDigest};
ghost use Rattle.node_codec.specs.Record.{DataRecord, NodeRecord, FitsNode, record_bytes};
ghost use Rattle.page_store.specs.Buffer.{Held, content_of, IsBlank};
ghost use Rattle.page_store.specs.Reading.{ReadsPage};
ghost use Rattle.sdbt_base.specs.Arrays.{padded};

use node_codec::{Entry, encode_block_over, encode_node};
use page_digest::fits_digest;
use platform::Platform;
use sdbt_base::{Key, KeySlot, Memory, PlatformFault, RECORD};
use seal_record::unseal;
use std::alloc::Global;
use std::marker::Model;

/// The bytes of a record's head.
const HEAD: usize = 32;

/// Room for a page, for its body and for the key that it is sealed under, on the heap, that is used again and again.
#[derive(Drop)]
pub struct Buffers {
    pub(crate) page: Vec<u8>,
    pub(crate) body: Vec<u8>,
    // Between calls it holds none.
    pub(crate) key: KeySlot,
    // From here on the body is zeros: they need not be written anew for the next short content.
    zeros: usize,
}

impl Model for Buffers {
    ghost Value = { Held };

    ghost view = { λ b. record { page = b.page.items; body = b.body.items } };

    ghost invariant = { λ b. (length b.page.items ≡ 4128) × (length b.body.items ≡ 4128)
        × (drop b.zeros b.body.items ≡ replicate (4128 - b.zeros) 0) × (b.key ≡ []) };
}

impl Buffers {
    /// Buffers of zeros.
    pub fn new(alloc: Global) -> Result<Buffers, Memory>
        ensures { IfOk result IsBlank }
    {
        let page = vec![in alloc; 0; RECORD]?;
        let body = vec![in alloc; 0; RECORD]?;
        let key = KeySlot::new(alloc)?;
        Ok(Buffers {
            page,
            body,
            key,
            zeros: 0,
        })
    }

    /// The 4,096 bytes behind the head of the last body: of a data record, its content.
    pub fn content(&self) -> &[u8]
        ensures value { result.now ≡ content_of self.now }
        ensures size { length result.now ≡ 4096 }
    {
        let (_, content) = self.body.split_at(HEAD);
        content
    }

    /// Makes all bytes zero, so that nothing that was read or sealed stays here.
    pub fn wipe(&mut self)
        ensures { IsBlank self.new }
    {
        self.page.fill(0);
        self.body.fill(0);
        self.zeros = 0;
    }

    /// Makes the body the data record of `block` at `addr`: at most 4,096 bytes of content, and zeros behind.
    pub fn put_block(&mut self, addr: u64, block: u64, content: &[u8])
        requires block { block < 1048576 }
        requires content { length content.now ≤ 4096 }
        ensures { (version : ℕ) → self.new ≡ record self.old {
          body = record_bytes version addr (DataRecord block (padded content.now));
        } }
    {
        encode_block_over(addr, block, content, self.zeros, &mut self.body);
        self.zeros = HEAD + content.len();
    }

    /// Makes the body the node of `level` with these entries at `addr`, in the version.
    pub fn put_node(&mut self, addr: u64, level: u8, version: u8, entries: &[Entry])
        requires { FitsNode version addr level entries.now }
        ensures { self.new ≡ record self.old {
          body = record_bytes version addr (NodeRecord level entries.now);
        } }
    {
        encode_node(addr, level, version, entries, &mut self.body);
        self.zeros = RECORD;
    }

    /// Whether the page that was read last has the digest that a key names, if it names one. This hashes the page.
    pub(crate) fn has_digest_of(&self, key: &Key) -> bool
        ensures { IsTrue result ↔ FitsDigest key.now self.now.page }
    {
        fits_digest(key, &self.page)
    }

    /// Reads the page at `addr` and unseals it under the key. After a fault the buffers may hold anything.
    pub(crate) fn load<P: Platform>(
        &mut self,
        platform: &mut P,
        addr: u64,
        key: &Key,
    ) -> Result<(), PlatformFault>
        requires { addr < P.head platform.old }
        ensures page { P.tells → OnOk result
            (slice_get (P.history platform.old).present.readable addr ≡ Some self.new.page) }
        ensures body { OnOk result (self.new.body ≡ masked key.now self.new.page) }
        ensures size { OnOk result (length self.new.body ≡ 4128) }
        ensures reads_page { ReadsPage P.Platform platform.old platform.new }
        ensures reads_ok { P.tells → OnOk result (P.reads platform.new ≡ P.reads platform.old + 1) }
        ensures cause { Tells result (P.faults platform.old) (P.faults platform.new) }
    {
        platform.read(addr, &mut self.page)?;
        unseal(key, &self.page, &mut self.body);
        self.zeros = RECORD;
        Ok(())
    }
}
