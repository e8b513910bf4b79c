//! Pages that are appended and fetched, and the root record that is looked for.
ghost use Rattle.std.specs.Prelude.{◌≡◌, ◌⊎◌, length};

use arrayvec::ArrayVec;
use node_codec::Entry;
use page_digest::digest_of;
use page_store::{
    AppendFault, Buffers, CurrentRefusal, FetchRefusal, Placed, Want, current, fetch_block,
    fetch_node,
};
use platform::{CallKind, Failure, MemPlatform, Platform};
use root_codec::{Root, encode_root};
use sdbt_base::{Key, ListTape, Memory, ROOT};
use std::alloc::Global;
use std::test::Fail;

/// A medium of eight pages, and two keys for them. Its calls say nothing, so that the proofs of
/// tests don't carry what those of a store say.
#[derive(Drop)]
struct Fixture {
    platform: MemPlatform,
    tape: ListTape,
    buffers: Buffers,
}

/// A key of one byte.
fn key(byte: u8) -> Key
    ensures { length result ≡ 32 }
{
    Key::from_bytes([byte; 32])
}

/// The root of a device of 8 blocks and order 4: a leaf at address 0.
fn root() -> Root {
    Root {
        version: 1,
        order: 4,
        level: 1,
        blocks: 8,
        commit: 0,
        addr: 0,
        key: key(1),
        mapped: 0,
        head: 1,
    }
}

impl Fixture {
    /// A blank medium. The draws of these numbers fail.
    fn new(alloc: Global, failing: &[u64]) -> Result<Fixture, Memory> {
        Ok(Fixture {
            platform: MemPlatform::blank(alloc, 8),
            tape: ListTape::new(alloc, &[[1; 32], [2; 32]], failing)?,
            buffers: Buffers::new(alloc)?,
        })
    }

    /// Appends what the buffers hold, in a version, if there is room.
    fn place(&mut self, version: u8) -> Option<Result<Placed, AppendFault>>
        requires { (version ≡ 1) ⊎ (version ≡ 2) }
    {
        if self.platform.head() >= self.platform.capacity() {
            return None;
        }
        Some(
            self.buffers
                .append(&mut self.platform, &mut self.tape, version),
        )
    }

    /// Appends the data record of block 3 for address 0.
    fn place_block(&mut self) -> Option<Result<Placed, AppendFault>> {
        self.buffers.put_block(0, 3, b"hi");
        self.place(1)
    }

    /// Appends a leaf for address 1, with an entry of block 3 for the page at address 0.
    fn place_leaf(&mut self) -> Option<Result<Placed, AppendFault>> {
        let entry = Entry {
            low: 3,
            addr: 0,
            key: key(1),
        };
        self.buffers.put_node(1, 1, 1, &[entry]);
        self.place(1)
    }

    /// Appends an empty leaf for address 0.
    fn place_empty_leaf(&mut self) -> Option<Result<Placed, AppendFault>> {
        self.buffers.put_node(0, 1, 1, &[]);
        self.place(1)
    }

    /// Appends an empty leaf of the second version for address 0.
    fn place_second_leaf(&mut self) -> Option<Result<Placed, AppendFault>> {
        self.buffers.put_node(0, 1, 2, &[]);
        self.place(2)
    }

    /// The digest of the page at an address; none where there is no such page.
    fn digest(&self, addr: usize) -> Option<[u8; 32]> {
        let pages = self.platform.recorded();
        if addr < pages.len() {
            Some(digest_of(pages.at(addr)))
        } else {
            None
        }
    }

    /// The number of entries of the node that is fetched; none where there is no such page.
    fn node(&mut self, want: &Want, byte: u8) -> Option<Result<usize, FetchRefusal>> {
        self.node_under(want, &key(byte))
    }

    /// The same under a key, which may name a digest.
    fn node_under(&mut self, want: &Want, key: &Key) -> Option<Result<usize, FetchRefusal>> {
        if want.addr >= self.platform.head() || want.level == 0 {
            return None;
        }
        let mut entries = ArrayVec::new();
        let fetched = fetch_node(
            &mut self.platform,
            want,
            key,
            &mut self.buffers,
            &mut entries,
        );
        Some(fetched.map(|()| entries.len()))
    }

    /// Whether the data record of a block is there; none where there is no such page.
    fn block(&mut self, addr: u64, block: u64, byte: u8) -> Option<Result<(), FetchRefusal>> {
        if addr >= self.platform.head() {
            return None;
        }
        let want = Want::of_block(addr, block);
        Some(fetch_block(&mut self.platform, &want, &key(byte), &mut self.buffers))
    }

    /// The root record that is there.
    fn current(&mut self) -> Result<Option<Root>, CurrentRefusal> {
        current(&mut self.platform)
    }

    /// Puts these bytes into the root cell.
    fn swap(&mut self, bytes: &[u8; ROOT]) -> bool {
        self.platform.swap_root(bytes).is_ok()
    }

    /// Has the first append fail though the page is recorded, and the first read and load.
    fn fail(&mut self) -> Result<(), Memory> {
        let list = [
            (CallKind::Append, true),
            (CallKind::Read, false),
            (CallKind::Load, false),
        ];
        let list = list.map(|(call, effect)| Failure {
            call,
            nth: 1,
            effect,
        });
        self.platform.set_failures(&list)
    }

    /// How many pages there are, and how many reads were made.
    fn counts(&self) -> (u64, u64) {
        (self.platform.head(), self.platform.reads())
    }
}

/// The record of a root, if it is one.
fn record_of(root: &Root) -> Option<[u8; ROOT]> {
    if !root.is_in_range() {
        return None;
    }
    let mut bytes = [0; ROOT];
    encode_root(root, &mut bytes);
    Some(bytes)
}

/// An append at an address, under a key of one byte.
fn placed(addr: u64, byte: u8) -> Option<Result<Placed, AppendFault>> {
    let key = key(byte);
    Some(Ok(Placed { addr, key }))
}

/// A medium with a data record and a leaf, if these have the keys of their draws.
fn filled(alloc: Global) -> Option<Fixture> {
    let mut fixture = Fixture::new(alloc, &[]).ok()?;
    if fixture.place_block() == placed(0, 1) && fixture.place_leaf() == placed(1, 2) {
        Some(fixture)
    } else {
        None
    }
}

/// A node as it may be wanted: its address and level, its bounds, and its least and greatest number
/// of entries.
fn want_of(addr: u64, level: u8, bounds: (u64, u64), counts: (u16, u16)) -> Want {
    Want {
        addr,
        level,
        low: bounds.0,
        high: bounds.1,
        least: counts.0,
        most: counts.1,
    }
}

/// A refusal of the page at an address.
fn bad(addr: u64) -> Option<Result<usize, FetchRefusal>> {
    Some(Err(FetchRefusal::BadRecord { addr }))
}

/// Nodes that are wanted under a key of one byte: the one that is there, one of another level, with bounds that the entry crosses,
/// with too few entries and too many, and another page.
fn wants() -> [(Want, u8); 7] {
    [
        (want_of(1, 1, (0, 8), (0, 4)), 2),
        (want_of(1, 2, (0, 8), (0, 4)), 2),
        (want_of(1, 1, (4, 8), (0, 4)), 2),
        (want_of(1, 1, (0, 3), (0, 4)), 2),
        (want_of(1, 1, (0, 8), (2, 4)), 2),
        (want_of(1, 1, (0, 8), (0, 0)), 2),
        (want_of(0, 1, (0, 8), (0, 4)), 1),
    ]
}

/// What comes of each of these, and how many pages and reads there are then.
fn fetched_nodes(fixture: &mut Fixture) -> ([Option<Result<usize, FetchRefusal>>; 7], (u64, u64)) {
    let wants = wants();
    let mut came = [None; 7];
    for (place, (want, byte)) in came.iter_mut().zip(wants) {
        *place = fixture.node(&want, byte);
    }
    (came, fixture.counts())
}

#[test]
fn fetches_what_is_wanted_and_nothing_else(rt: HostRuntime) -> Result<(), Fail> {
    let mut fixture = filled(rt.alloc()).ok_or("not filled")?;
    let (came, counts) = fetched_nodes(&mut fixture);
    assert!(rt; came == [Some(Ok(1)), bad(1), bad(1), bad(1), bad(1), bad(1), bad(0)]);
    assert!(rt; counts == (2, 7), "one read each");
    Ok(())
}

/// What comes of reads of the empty leaf at address 0 under its key and three others: under another one with the same digest, with
/// another digest, and without one.
fn under_keys(fixture: &mut Fixture, digest: [u8; 32]) -> [Option<Result<usize, FetchRefusal>>; 4] {
    let keys = [
        key(1).with_digest(digest),
        key(2).with_digest(digest),
        key(1).with_digest([7; 32]),
        key(1),
    ];
    let empty = want_of(0, 1, (0, 8), (0, 4));
    let mut came = [None; 4];
    for (place, key) in came.iter_mut().zip(keys) {
        *place = fixture.node_under(&empty, &key);
    }
    came
}

/// Whether a node of the second version is placed under the key that names its digest, and found under that alone.
fn finds_second(fixture: &mut Fixture) -> Option<bool> {
    let placed = fixture.place_second_leaf();
    let digest = fixture.digest(0)?;
    let named = Placed {
        addr: 0,
        key: key(1).with_digest(digest),
    };
    let came = under_keys(fixture, digest);
    Some(placed == Some(Ok(named)) && came == [Some(Ok(0)), bad(0), bad(0), bad(0)])
}

/// The same of one of the first version, which has no digest.
fn finds_first(fixture: &mut Fixture) -> Option<bool> {
    let is_placed = fixture.place_empty_leaf() == placed(0, 1);
    let digest = fixture.digest(0)?;
    let came = under_keys(fixture, digest);
    Some(is_placed && came == [bad(0), bad(0), bad(0), Some(Ok(0))])
}

#[test]
fn fetches_a_node_of_the_version_of_its_key(rt: HostRuntime) -> Result<(), Fail> {
    let mut fixture = Fixture::new(rt.alloc(), &[])?;
    assert!(rt; finds_second(&mut fixture) == Some(true));
    Ok(())
}

#[test]
fn fetches_a_node_without_a_digest(rt: HostRuntime) -> Result<(), Fail> {
    let mut fixture = Fixture::new(rt.alloc(), &[])?;
    assert!(rt; finds_first(&mut fixture) == Some(true));
    Ok(())
}

/// What comes of reads of another block, under another key, of a leaf, and of the block that is there.
fn fetched_blocks(fixture: &mut Fixture) -> [Option<Result<(), FetchRefusal>>; 4] {
    let mut came = [None; 4];
    let wants = [(0, 4, 1), (0, 3, 2), (1, 3, 2), (0, 3, 1)];
    for (place, (addr, block, byte)) in came.iter_mut().zip(wants) {
        *place = fixture.block(addr, block, byte);
    }
    came
}

/// A refusal of the data record at an address.
fn bad_block(addr: u64) -> Option<Result<(), FetchRefusal>> {
    Some(Err(FetchRefusal::BadRecord { addr }))
}

/// Whether the content in the buffers begins with that of the block, and with zeros once it is wiped.
fn is_wiped(buffers: &mut Buffers) -> bool {
    let was_there = buffers.content().starts_with(b"hi\0");
    buffers.wipe();
    was_there && buffers.content().starts_with(b"\0\0")
}

#[test]
fn fetches_a_block_and_nothing_else(rt: HostRuntime) -> Result<(), Fail> {
    let mut fixture = filled(rt.alloc()).ok_or("not filled")?;
    let came = fetched_blocks(&mut fixture);
    assert!(rt; came == [bad_block(0), bad_block(0), bad_block(1), Some(Ok(()))]);
    assert!(rt; fixture.counts() == (2, 4), "one read each");
    assert!(rt; is_wiped(&mut fixture.buffers));
    Ok(())
}

/// Whether a draw that fails is told, and no page is handed over then.
fn tells_a_tape(fixture: &mut Fixture) -> bool {
    let is_told = fixture.place_block() == Some(Err(AppendFault::TapeFault));
    is_told && fixture.counts() == (0, 0)
}

/// Whether the calls on the medium that fail are told, the first of which has recorded a page.
fn tells_a_platform(fixture: &mut Fixture) -> bool {
    let is_placed_untold = fixture.place_block() == Some(Err(AppendFault::PlatformFault));
    is_placed_untold
        && fixture.counts() == (1, 0)
        && fixture.block(0, 3, 1) == Some(Err(FetchRefusal::PlatformFault))
        && fixture.current() == Err(CurrentRefusal::PlatformFault)
}

#[test]
fn hands_faults_on(rt: HostRuntime) -> Result<(), Fail> {
    let mut fixture = Fixture::new(rt.alloc(), &[1])?;
    assert!(rt; tells_a_tape(&mut fixture));
    fixture.fail()?;
    assert!(rt; tells_a_platform(&mut fixture));
    Ok(())
}

/// What the root cell comes to with this root record in it; `None` where it is none, or isn't put there.
fn current_with(
    fixture: &mut Fixture,
    root: &Root,
) -> Option<Result<Option<Root>, CurrentRefusal>> {
    let record = record_of(root)?;
    if !fixture.swap(&record) {
        return None;
    }
    Some(fixture.current())
}

/// The root of the second version, with a digest.
fn second_root() -> Root {
    Root {
        version: 2,
        key: key(1).with_digest([7; 32]),
        ..root()
    }
}

/// Whether there is no root on a blank medium, and a record of one is bad there as long as its page is not.
fn needs_a_page(fixture: &mut Fixture) -> bool {
    let is_blank = fixture.current() == Ok(None);
    is_blank && current_with(fixture, &root()) == Some(Err(CurrentRefusal::BadRoot))
}

/// Whether the root is found that the cell names, and its node.
fn finds_roots(fixture: &mut Fixture) -> bool {
    fixture.current() == Ok(Some(root()))
        && fixture.node(&Want::of_root(&root()), 1) == Some(Ok(0))
        && current_with(fixture, &second_root()) == Some(Ok(Some(second_root())))
}

#[test]
fn finds_the_root_of_pages_that_are_there(rt: HostRuntime) -> Result<(), Fail> {
    let mut fixture = Fixture::new(rt.alloc(), &[])?;
    assert!(rt; needs_a_page(&mut fixture));
    assert!(rt; fixture.place_empty_leaf() == placed(0, 1));
    assert!(rt; finds_roots(&mut fixture));
    assert!(rt; fixture.swap(&[7; ROOT]));
    assert!(rt;
        fixture.current() == Err(CurrentRefusal::BadRoot),
        "no root record"
    );
    Ok(())
}
