//! Tables of volumes: the worked one, bytes that are none, and where volumes are put.
use std::marker::Model;
use std::test::Fail;
use volume_table::{BLOCK, Name, Table, decode, encode};

/// The blocks of the device of most tables here.
const BLOCKS: u64 = 16;

/// Volumes `a` of 3 blocks and `b-1` of 2: their entries, and zeros.
fn table_bytes() -> [u8; BLOCK] {
    let mut bytes = [0; BLOCK];
    bytes[0] = 1;
    bytes[1] = b'a';
    bytes[55] = 1;
    bytes[63] = 3;
    bytes[64] = 3;
    bytes[65..68].copy_from_slice(b"b-1");
    bytes[119] = 4;
    bytes[127] = 2;
    bytes
}

/// Decodes these with some bytes replaced.
fn decode_with(at: usize, with: &[u8]) -> Option<Table> {
    let mut bytes = table_bytes();
    if at < 1000 && with.len() < 1000 {
        bytes[at..at + with.len()].copy_from_slice(with);
    }
    decode(&bytes, BLOCKS)
}

/// The number of blocks of a device, and its table. Its calls say nothing, so that the proofs of tests don't carry what those
/// of a table say.
#[derive(Drop)]
struct Device {
    blocks: u64,
    table: Table,
}

impl Model for Device {
    ghost use Rattle.volume_table.specs.Tables.{IsTable};

    ghost Value = { Unit {0} };

    ghost view = { λ d. tt };

    ghost invariant = { λ d. IsTable d.blocks d.table };
}

impl Device {
    /// The device of so many blocks whose table these bytes are.
    fn of(bytes: &[u8; BLOCK], blocks: u64) -> Option<Device> {
        let table = decode(bytes, blocks)?;
        Some(Device { blocks, table })
    }

    /// How many volumes there are.
    fn count(&self) -> usize {
        self.table.volumes().len()
    }

    /// The place of a volume in the table, its first block, and how many it has.
    fn find(&self, text: &[u8]) -> Option<(usize, u64, u64)> {
        let (at, volume) = self.table.find(&Name::new(text)?)?;
        Some((at, volume.start, volume.count))
    }

    /// The bytes of the table.
    fn bytes(&self) -> [u8; BLOCK] {
        let mut bytes = [0xff; BLOCK];
        encode(&self.table, &mut bytes);
        bytes
    }

    /// Puts a volume into the table where it can, and answers its first block.
    fn put(&mut self, text: &[u8], count: u64) -> Option<u64> {
        let name = Name::new(text)?;
        if count == 0 || self.table.find(&name).is_some() {
            return None;
        }
        let volume = self.table.put(name, count, self.blocks)?;
        Some(volume.start)
    }

    /// Takes a volume out of the table.
    fn take_out(&mut self, at: usize) {
        if at < self.table.volumes().len() {
            self.table.remove(at);
        }
    }
}

/// How many volumes the table of a device of so many blocks has that has these bytes.
fn count_of(bytes: &[u8; BLOCK], blocks: u64) -> Option<usize> {
    Some(Device::of(bytes, blocks)?.count())
}

/// Where the table of these bytes has a volume.
fn place_in(bytes: &[u8; BLOCK], text: &[u8]) -> Option<(usize, u64, u64)> {
    Device::of(bytes, BLOCKS)?.find(text)
}

/// These bytes, read and written again.
fn written_again(bytes: &[u8; BLOCK]) -> Option<[u8; BLOCK]> {
    Some(Device::of(bytes, BLOCKS)?.bytes())
}

#[test]
fn worked_table(rt: HostRuntime) {
    let bytes = table_bytes();
    assert!(rt; count_of(&bytes, BLOCKS) == Some(2));
    assert!(rt; place_in(&bytes, b"b-1") == Some((1, 4, 2)));
    assert!(rt; written_again(&bytes) == Some(bytes));
    assert!(rt; count_of(&[0; BLOCK], 1) == Some(0));
}

/// What is replaced, and by what: each makes one thing wrong.
const WRONG: [(usize, &[u8]); 17] = [
    (0, &[0]),
    (0, &[48]),
    (0, &[255]),
    (1, b"A"),
    (1, b" "),
    (1, b"\n"),
    (2, &[1]),
    (47, &[1]),
    (55, &[0]),
    (63, &[0]),
    (63, &[4]),
    (48, &[255, 255, 255, 255, 255, 255, 255, 253]),
    (127, &[13]),
    (119, &[0]),
    (64, &[1, b'a', 0, 0]),
    (64, &[0, 0, 0, 0]),
    (200, &[1]),
];

#[test]
fn refused(rt: HostRuntime) {
    for (at, with) in WRONG {
        assert!(rt; decode_with(at, with).is_none(), "{with:?} at {at}");
    }
    assert!(rt; decode_with(127, &[12]).is_some());
}

/// Volumes that are put into a table one after the other: a name, the number of blocks, and the first of them.
type Puts = [(&'static str, u64, Option<u64>); 4];

/// The fourth one finds no room.
const PUTS: Puts = [
    ("a", 3, Some(1)),
    ("b", 2, Some(4)),
    ("c", 10, Some(6)),
    ("d", 1, None),
];

/// Once `b` is taken out: three blocks have no room, and one does, but not under a name that is there.
const PUTS_BETWEEN: Puts = [
    ("d", 3, None),
    ("e", 1, Some(4)),
    ("e", 1, None),
    ("f", 1, Some(5)),
];

/// The name of the first volume that is put elsewhere, or `None`.
fn first_elsewhere(device: &mut Device, puts: &Puts) -> Option<&'static str> {
    for (name, count, start) in puts {
        if device.put(name.as_bytes(), *count) != *start {
            return Some(name);
        }
    }
    None
}

#[test]
fn least_starts(rt: HostRuntime) -> Result<(), Fail> {
    let mut device = Device::of(&[0; BLOCK], BLOCKS).ok_or("a table")?;
    assert!(rt; first_elsewhere(&mut device, &PUTS) == None);
    device.take_out(1);
    assert!(rt; device.count() == 2);
    assert!(rt; first_elsewhere(&mut device, &PUTS_BETWEEN) == None);
    Ok(())
}

/// A device of so many blocks with 64 volumes of one block each, put one behind the other, if each has its place.
fn full(blocks: u64) -> Option<Device> {
    let mut device = Device::of(&[0; BLOCK], blocks)?;
    for i in 0..64u8 {
        let text = [b'a' + i % 8, b'a' + i / 8];
        if device.put(&text, 1) != Some(1 + u64::from(i)) {
            return None;
        }
    }
    Some(device)
}

#[test]
fn sixty_four(rt: HostRuntime) -> Result<(), Fail> {
    let mut device = full(1000).ok_or("64 volumes")?;
    assert!(rt; device.put(b"one-more", 1).is_none());
    let bytes = device.bytes();
    assert!(rt; count_of(&bytes, 65) == Some(64));
    assert!(rt; count_of(&bytes, 64) == None);
    Ok(())
}

#[test]
fn names(rt: HostRuntime) {
    let names: [(&[u8], bool); 5] = [
        (b"", false),
        (&[b'z'; 47], true),
        (&[b'z'; 48], false),
        (b"0123-_", true),
        (b"a b", false),
    ];
    for (name, is_one) in names {
        assert!(rt; Name::new(name).is_some() == is_one, "{name:?}");
    }
}
