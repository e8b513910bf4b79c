//! Which slots may have a node of an address: each address belongs into one bucket.
ghost use Rattle.std.specs.Prelude.{◌≡◌, ◌≢◌, ◌%◌, ◌<◌, ℕ, Some, IfSome, IfNone, IsTrue, IsFalse, IfOk, length, slice_get, vec_capacity, vec_len};
ghost use Rattle.std.proofs.Math.ListN.{set};
ghost use Rattle.node_cache.specs.Slots.{IsUnlisted};
ghost use Rattle.node_cache.specs.Buckets.{Covers, IsIn, IsShared, MayHave};

use sdbt_base::Memory;
use std::alloc::Global;

/// The slots with addresses of one bucket.
#[derive(Clone, Copy, Debug, PartialEq, Eq)]
pub enum Bucket {
    /// There is none.
    Empty,
    /// There is no other than this. Two bytes are enough for a number: there are 4,096 slots at most.
    One(u16),
    /// There may be any.
    Many,
}

/// So many buckets without slots, in a room for no more than these.
pub(crate) fn empty_buckets(alloc: Global, count: usize) -> Result<Vec<Bucket>, Memory>
    ensures count { IfOk result (λ buckets. vec_len buckets ≡ count) }
    ensures room { IfOk result (λ buckets. vec_capacity buckets ≡ count) }
{
    let mut buckets = Vec::with_capacity(alloc, count)?;
    'buckets: while buckets.len() < count {
        buckets.push_reserved(Bucket::Empty);
    }
    Ok(buckets)
}

/// The number of the slot in which the node of an address stands.
pub(crate) fn slot_of(buckets: &[Bucket], addrs: &[Option<u64>], addr: u64) -> Option<usize>
    requires { Covers buckets.now addrs.now }
    ensures found { IfSome result (λ number. slice_get addrs.now number ≡ Some (Some addr)) }
    ensures none { IfNone result (IsUnlisted addrs.now addr) }
{
    let Some(bucket) = bucket_of(buckets, addr) else {
        return None;
    };
    match bucket {
        Bucket::Empty => None,
        Bucket::One(number) => find_in(addrs, number as usize, addr),
        Bucket::Many => find(addrs, addr),
    }
}

/// Notes that the node of an address comes into a slot, of those that have these addresses so far.
pub(crate) fn note(buckets: &mut [Bucket], addrs: &[Option<u64>], number: usize, addr: u64)
    requires some { 0 < length buckets.old }
    requires covers { Covers buckets.old addrs.now }
    ensures covers { Covers buckets.new (set addrs.now number (Some addr)) }
    ensures count { length buckets.new ≡ length buckets.old }
{
    let count = buckets.len();
    let place = place_of(count, addr);
    let old = bucket_of(buckets, addr);
    buckets[place] = bucket_with(old, addrs, number, count, place);
}

/// What a bucket is once the slot may have an address of it, of those that the slots have so far.
fn bucket_with(
    old: Option<Bucket>,
    addrs: &[Option<u64>],
    number: usize,
    count: usize,
    place: usize,
) -> Bucket
    requires { 0 < count }
    ensures here { MayHave (Some result) number }
    ensures others { (slot addr : ℕ) → slot ≢ number → slice_get addrs.now slot ≡ Some (Some addr) → addr % count ≡ place → MayHave old slot → MayHave (Some result) slot }
    ensures shared { number < 65536 → result ≡ Bucket.Many → IsShared addrs.now number count place }
{
    let is_shared = match old {
        None => false,
        Some(Bucket::Empty) => false,
        Some(Bucket::One(other)) => shares(addrs, other as usize, number, count, place),
        Some(Bucket::Many) => has_other(addrs, number, count, place),
    };
    match u16::try_from(number) {
        Ok(number) if !is_shared => Bucket::One(number),
        _ => Bucket::Many,
    }
}

/// The bucket into which an address belongs, if there are any.
fn bucket_of(buckets: &[Bucket], addr: u64) -> Option<Bucket>
    ensures { result ≡ slice_get buckets.now (addr % length buckets.now) }
{
    if buckets.is_empty() {
        return None;
    }
    buckets.get(place_of(buckets.len(), addr)).copied()
}

/// The place of the bucket into which an address belongs, of so many.
fn place_of(count: usize, addr: u64) -> usize
    requires { 0 < count }
    ensures place { result ≡ addr % count }
    ensures within { result < count }
{
    (addr % count as u64) as usize
}

/// The number of a slot, if the node of the address stands there.
fn find_in(addrs: &[Option<u64>], number: usize, addr: u64) -> Option<usize>
    ensures found { IfSome result (λ found. slice_get addrs.now found ≡ Some (Some addr)) }
    ensures none { IfNone result (slice_get addrs.now number ≢ Some (Some addr)) }
{
    match addrs.get(number) {
        Some(Some(here)) if *here == addr => Some(number),
        _ => None,
    }
}

/// The number of the slot in which the node of an address stands, by a look at all of them.
fn find(addrs: &[Option<u64>], addr: u64) -> Option<usize>
    ensures found { IfSome result (λ number. slice_get addrs.now number ≡ Some (Some addr)) }
    ensures none { IfNone result (IsUnlisted addrs.now addr) }
{
    addrs.iter().position(|kept| *kept == Some(addr))
}

/// Whether the address of a slot belongs into the bucket at a place, of so many.
fn is_at(addrs: &[Option<u64>], number: usize, count: usize, place: usize) -> bool
    requires { 0 < count }
    ensures away { IsFalse result → (addr : ℕ) → slice_get addrs.now number ≡ Some (Some addr) → addr % count ≢ place }
    ensures there { IsTrue result → IsIn addrs.now number count place }
{
    match addrs.get(number) {
        Some(Some(addr)) => place_of(count, *addr) == place,
        _ => false,
    }
}

/// Whether the address of another slot than this belongs into the bucket at a place, of so many.
fn shares(addrs: &[Option<u64>], other: usize, number: usize, count: usize, place: usize) -> bool
    requires { 0 < count }
    ensures away { IsFalse result → (addr : ℕ) → other ≢ number → slice_get addrs.now other ≡ Some (Some addr) → addr % count ≢ place }
    ensures there { IsTrue result → (other ≢ number) × IsIn addrs.now other count place }
{
    other != number && is_at(addrs, other, count, place)
}

/// Whether the address of a slot but this belongs into the bucket at a place, of so many.
fn has_other(addrs: &[Option<u64>], number: usize, count: usize, place: usize) -> bool
    requires { 0 < count }
    ensures away { IsFalse result → (other addr : ℕ) → other ≢ number → slice_get addrs.now other ≡ Some (Some addr) → addr % count ≢ place }
    ensures there { IsTrue result → IsShared addrs.now number count place }
{
    for other in 0..addrs.len() {
        if shares(addrs, other, number, count, place) {
            return true;
        }
    }
    false
}
