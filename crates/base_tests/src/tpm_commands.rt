//! Commands to a TPM and its replies, as a software TPM was seen to give them, and words that name an index.
use std::test::Fail;
use tpm_nv::{
    Attribute, BadIndex, Content, DATA, Failure, Fault, Index, READ_COMMAND, READ_PUBLIC_COMMAND,
    Refusal, WRITE_COMMAND, parse_cell, put_read, put_read_public, put_write, read_data,
    read_public, read_written,
};

/// The index of all commands and replies here.
const HANDLE: u32 = 0x1500020;

/// What the reply to the first command carries: an index of 128 bytes that its password reads and
/// writes, and that doesn't count towards the lockout.
const PUBLIC: [u8; 62] = [
    0x80, 0x01, 0, 0, 0, 62, 0, 0, 0, 0, 0, 14, 0x01, 0x50, 0x00, 0x20, 0x00, 0x0b, 0x02, 0x04,
    0x00, 0x04, 0, 0, 0x00, 0x80, 0, 34, 0x00, 0x0b, 0xe1, 0x26, 0x23, 0x4d, 0x59, 0xb7, 0x11,
    0xe5, 0xa0, 0xd5, 0x5b, 0x1f, 0xdb, 0xce, 0x14, 0x1c, 0x23, 0xce, 0x78, 0x2c, 0x11, 0x34, 0xd5,
    0x9b, 0xc4, 0xf9, 0x82, 0x6e, 0xf3, 0x82, 0x2e, 0x8f,
];

/// A refusal with a code of two bytes.
fn refusal(high: u8, low: u8) -> [u8; 10] {
    [0x80, 0x01, 0, 0, 0, 10, 0, 0, high, low]
}

#[test]
fn indices(rt: HostRuntime) {
    for (handle, is_one) in [
        (0xff_ffff, false),
        (0x100_0000, true),
        (0x1ff_ffff, true),
        (0x200_0000, false),
    ] {
        assert!(rt; Index::new(handle).is_some() == is_one, "{handle}");
    }
}

/// The command that asks what the index is, and the one that reads it.
const ASKS: [u8; READ_PUBLIC_COMMAND] = [
    0x80, 0x01, 0, 0, 0, 14, 0, 0, 0x01, 0x69, 0x01, 0x50, 0x00, 0x20,
];

const READS: [u8; READ_COMMAND] = [
    0x80, 0x02, 0, 0, 0, 35, 0, 0, 0x01, 0x4e, 0x01, 0x50, 0x00, 0x20, 0x01, 0x50, 0x00, 0x20, 0,
    0, 0, 9, 0x40, 0, 0, 9, 0, 0, 0, 0, 0, 0, 0x80, 0, 0,
];

fn asking(index: Index) -> [u8; READ_PUBLIC_COMMAND] {
    let mut command = [0xff; READ_PUBLIC_COMMAND];
    put_read_public(index, &mut command);
    command
}

fn reading(index: Index) -> [u8; READ_COMMAND] {
    let mut command = [0xff; READ_COMMAND];
    put_read(index, &mut command);
    command
}

fn writing(index: Index) -> [u8; WRITE_COMMAND] {
    let mut command = [0xff; WRITE_COMMAND];
    put_write(index, &[0x5a; DATA], &mut command);
    command
}

#[test]
fn commands(rt: HostRuntime) -> Result<(), Fail> {
    let index = Index::new(HANDLE).ok_or("an index")?;
    assert!(rt; asking(index) == ASKS);
    assert!(rt; reading(index) == READS);
    let writes = writing(index);
    assert!(rt; writes.starts_with(&[0x80, 0x02, 0, 0, 0, 163, 0, 0, 0x01, 0x37]));
    assert!(rt; writes.ends_with(&[0x5a, 0x5a, 0, 0]));
    Ok(())
}

/// The attributes and the size of the index of a handle, by a reply, or why it is refused.
fn seen(reply: &[u8], handle: u32) -> Option<Result<(u32, u16), Refusal>> {
    match read_public(reply, Index::new(handle)?) {
        Ok(public) => Some(Ok((public.attributes, public.size))),
        Err(refusal) => Some(Err(refusal)),
    }
}

/// Why the reply with one byte replaced is refused.
fn unusable(at: usize, byte: u8) -> Option<Result<(u32, u16), Refusal>> {
    let mut reply = PUBLIC;
    if at < reply.len() {
        reply[at] = byte;
    }
    seen(&reply, HANDLE)
}

/// A refusal of an index that is there.
fn fault(fault: Fault) -> Option<Result<(u32, u16), Refusal>> {
    Some(Err(Refusal::Unusable(fault)))
}

#[test]
fn what_an_index_is(rt: HostRuntime) {
    assert!(rt; seen(&PUBLIC, HANDLE) == Some(Ok((0x204_0004, 128))));
    assert!(rt; seen(&refusal(0x01, 0x8b), HANDLE) == Some(Err(Refusal::Absent)));
    assert!(rt; unusable(18, 0x06) == fault(Fault::Has(Attribute::Orderly)));
    assert!(rt; unusable(25, 0x40) == fault(Fault::Size(64)));
}

/// Whether a reply is refused for an index.
fn is_refused(reply: &[u8], handle: u32) -> bool {
    matches!(seen(reply, handle), Some(Err(_)))
}

#[test]
fn no_other_index_and_no_part_of_a_reply(rt: HostRuntime) {
    assert!(rt; is_refused(&PUBLIC, HANDLE + 1));
    for n in 0..PUBLIC.len() {
        assert!(rt; is_refused(&PUBLIC[..n], HANDLE), "{n}");
    }
}

/// The reply that an index holds 128 bytes of this one.
fn data_reply(byte: u8) -> [u8; 149] {
    let mut reply = [byte; 149];
    reply[..16].copy_from_slice(&[0x80, 0x02, 0, 0, 0, 149, 0, 0, 0, 0, 0, 0, 0, 130, 0, 128]);
    reply[144..].copy_from_slice(&[0, 0, 1, 0, 0]);
    reply
}

/// What an index holds by a reply, if it was written: whether that is 128 bytes of this one.
fn held(reply: &[u8], byte: u8) -> Result<Option<bool>, Failure> {
    match read_data(reply)? {
        Content::Bytes(bytes) => Ok(Some(bytes == [byte; DATA].as_slice())),
        Content::Unwritten => Ok(None),
    }
}

#[test]
fn what_an_index_holds(rt: HostRuntime) {
    let mut reply = data_reply(0x5a);
    assert!(rt; held(&reply, 0x5a) == Ok(Some(true)));
    assert!(rt; held(&refusal(0x01, 0x4a), 0x5a) == Ok(None));
    assert!(rt; held(&refusal(0x01, 0x48), 0x5a) == Err(Failure::Code(0x148)));
    reply[13] = 66;
    reply[15] = 64;
    assert!(rt; held(&reply, 0x5a) == Err(Failure::Malformed));
}

#[test]
fn what_was_written(rt: HostRuntime) {
    let done = [
        0x80, 0x02, 0, 0, 0, 19, 0, 0, 0, 0, 0, 0, 0, 0, 0, 0, 1, 0, 0,
    ];
    assert!(rt; read_written(&done) == Ok(()));
    assert!(rt; read_written(&done[..18]).is_err());
    assert!(rt; read_written(&refusal(0x09, 0x20)) == Err(Failure::Code(0x920)));
}

/// The index that a word names, and whether it names a device too; `None` where it names no index.
fn named(word: &str) -> Result<Option<(u32, bool)>, BadIndex> {
    match parse_cell(word) {
        Ok(Some(cell)) => Ok(Some((cell.index.handle(), cell.device.is_some()))),
        Ok(None) => Ok(None),
        Err(bad) => Err(bad),
    }
}

#[test]
fn words_that_name_an_index(rt: HostRuntime) {
    assert!(rt; named("tpm:0x1500020") == Ok(Some((HANDLE, false))));
    assert!(rt; named("tpm:0x01AbcDeF") == Ok(Some((0x1ab_cdef, false))));
    assert!(rt; named("tpm:0x1500020@/dev/tpm1") == Ok(Some((HANDLE, true))));
    assert!(rt; named("tpm:0x1500020@a@b") == Ok(Some((HANDLE, true))));
}

/// Words of which none names an index, a line for each.
const BAD: &str = "\
tpm:\n\
tpm:0x\n\
tpm:0x1500020@\n\
tpm:0x+1500020\n\
tpm:0x001500020\n\
tpm:0X1500020\n\
tpm:1500020\n\
tpm:0x150002g\n\
tpm:0x81000001\n\
tpm:0x2000000\n\
tpm:0x1500020 ";

/// Words that name folders: the first one is empty.
const FOLDERS: &str = "\n\
tpm\n\
./tpm:0x1500020\n\
TPM:0x1500020\n\
/var/lib/keys";

/// The place of the first line of which something else comes, or `None`.
fn first_unlike(words: &str, wanted: Result<Option<(u32, bool)>, BadIndex>) -> Option<usize> {
    for (i, word) in words.lines().enumerate() {
        if named(word) != wanted {
            return Some(i);
        }
    }
    None
}

#[test]
fn words_that_name_none(rt: HostRuntime) {
    assert!(rt; first_unlike(BAD, Err(BadIndex)) == None);
    assert!(rt; first_unlike(FOLDERS, Ok(None)) == None);
}
