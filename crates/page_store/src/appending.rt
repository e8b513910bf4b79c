ghost use Rattle.std.specs.Prelude.{◌≡◌, ◌<◌, ◌≤◌, ℕ, All, Contains, IfOk, OnErr, IsErrOf, length};
ghost use Rattle.sdbt_base.specs.Faults.{Tells, TellsOf};
ghost use Rattle.sdbt_base.specs.Bytes.{IsBytes};
ghost use Rattle.sdbt_base.specs.Keys.{bare, IsKeyOf};
ghost use Rattle.sdbt_base.specs.Told.{Drew};
ghost use Rattle.record_versions.specs.Versions.{IsVersion};
ghost use Rattle.seal_record.specs.Sealing.{masked};
ghost use Rattle.page_digest.specs.Digest.{FitsDigest};
ghost use Rattle.node_codec.specs.Record.{Record, FitsRecord, record_bytes};
ghost use Rattle.page_store.specs.Appending.{IsPlaced, MayBePlaced, AddsOne};
ghost use Rattle.page_store.specs.Keeping.{KeepsKeys, IsNextRecord};

use crate::buffers::Buffers;
use crate::refusals::AppendFault;
use page_digest::digest_of;
use platform::Platform;
use sdbt_base::{Key, Tape, TapeFault};
use seal_record::seal;

/// Where a record was appended, and the key that names it there.
#[derive(Clone, Copy, PartialEq, Eq)]
pub struct Placed {
    /// The address of its page.
    pub addr: u64,
    /// The key that it was sealed under, which was drawn for it; in version 2 with the digest of its page.
    pub key: Key,
}

impl Buffers {
    /// Draws a key, seals the body under it and appends the page. In version 2 the key that is answered has the digest of that
    /// page, which is hashed for it; in version 1 nothing is hashed. The body stays as it is.
    ///
    /// After a `TapeFault` nothing was handed over; after a `PlatformFault` a key was drawn, and the page
    /// sealed under it may have been handed over, as the head tells.
    pub fn append<P: Platform, T: Tape>(
        &mut self,
        platform: &mut P,
        tape: &mut T,
        version: u8,
    ) -> Result<Placed, AppendFault>
        requires room { P.head platform.old < P.capacity platform.old }
        requires version { IsVersion version }

        ensures placed { IfOk result (IsPlaced P.Platform T.Tape version self.old.body platform.old platform.new tape.old tape.new) }
        ensures idle { IsErrOf result AppendFault.TapeFault →
            (platform.new ≡ platform.old) × (T.drawn tape.new ≡ T.drawn tape.old) }
        ensures spent { IsErrOf result AppendFault.PlatformFault →
            MayBePlaced P.Platform T.Tape self.old.body platform.old platform.new tape.old tape.new }

        // Where the body is a record of the next address: a page that was handed over is that record, sealed under the key that
        // was drawn, and with this key each moment keeps the keys that the image kept before.
        ensures keeps { (any : ℕ) (value : Record) → FitsRecord any (P.head platform.old) value
            → self.old.body ≡ record_bytes any (P.head platform.old) value
            → KeepsKeys P.tells (T.drawn tape.old) (T.drawn tape.new) (P.history platform.old) (P.history platform.new)
            (IsNextRecord (P.history platform.old).present value)
            (λ keys. IfOk result (λ placed. Contains keys (bare placed.key))) }

        ensures adds { AddsOne P.Platform T.Tape platform.old platform.new tape.old tape.new }
        ensures body { self.new.body ≡ self.old.body }

        ensures platform_cause { TellsOf AppendFault.PlatformFault result (P.faults platform.old) (P.faults platform.new) }
        ensures tape_cause { TellsOf AppendFault.TapeFault result (T.faults tape.old) (T.faults tape.new) }
    {
        let Ok(key) = self.seal_body(tape) else {
            return Err(AppendFault::TapeFault);
        };
        let Ok(addr) = platform.append(&self.page) else {
            return Err(AppendFault::PlatformFault);
        };
        let key = self.key_with_digest(key, version);
        Ok(Placed { addr, key })
    }

    /// Draws a key and seals the body under it, into the page. After a fault the buffers are as they were.
    fn seal_body<T: Tape>(&mut self, tape: &mut T) -> Result<Key, TapeFault>
        ensures drew { IfOk result (λ key. Drew (T.drawn tape.old) key (T.drawn tape.new)) }
        ensures key { IfOk result (λ key. IsBytes 32 key) }
        ensures page { IfOk result (λ key. self.new ≡ record self.old { page = masked key self.old.body }) }
        ensures undrawn { OnErr result (T.drawn tape.new ≡ T.drawn tape.old) }
        ensures stays { OnErr result (self.new ≡ self.old) }
        ensures count { T.faults tape.old ≤ T.faults tape.new }
        ensures cause { Tells result (T.faults tape.old) (T.faults tape.new) }
    {
        tape.draw(&mut self.key)?;
        let key = seal(&mut self.key, &self.body, &mut self.page);
        are_key(&key);
        Ok(key)
    }

    /// The key as it names the page in a version: with the digest of the page in version 2, else as it is.
    fn key_with_digest(&self, key: Key, version: u8) -> Key
        requires key { IsBytes 32 key }
        requires version { IsVersion version }
        ensures key { IsKeyOf version result }
        ensures bare { bare result ≡ key }
        ensures digest { FitsDigest result self.now.page }
    {
        if version == 2 {
            let digest = digest_of(&self.page);
            key.with_digest(digest)
        } else {
            key
        }
    }
}

/// A fact: a key is 32 bytes.
fn are_key(key: &Key)
    requires { length key.now ≡ 32 }
    ensures { IsBytes 32 key.now }
{
    let bytes = key.bytes();
    are_bytes(&bytes);
}

/// A fact: each is below 256.
fn are_bytes(bytes: &[u8])
    ensures { All (λ b. b < 256) bytes.now }
{}
