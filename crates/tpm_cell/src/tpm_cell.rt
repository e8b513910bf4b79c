//! A cell in an index of a TPM.
ghost use Rattle.std.specs.Prelude.{◌≡◌, ℕ, List, Option, Some, None, if◌then◌else◌, length, IfOk, IfErr, OnOk, IsTrue, ◌↔◌};
ghost use Rattle.tpm_nv.specs.Messages.{read_public_bytes, read_bytes, write_bytes, IsWritten};
ghost use Rattle.tpm_nv.specs.Replies.{IsContent};
ghost use Rattle.tpm_cell.specs.Asking.{no_root, IsInCell, FailsAs, Reads, Writes, Stores, ReadsOther, StoresNot, IsUsableIndex, Replies, Opens, OpensNot};

use crate::{CellRefusal, TpmCalls, TpmFault};
use tpm_nv::{
    Content, DATA, Index, READ_COMMAND, READ_PUBLIC_COMMAND, REPLY, Refusal, WRITE_COMMAND,
    put_read, put_read_public, put_write, read_data, read_public, read_written,
};

/// What stands in an index that is cleared.
static NO_ROOT: [u8; DATA] = [0; DATA];

/// An index of a TPM in which a root record can stand.
#[derive(Drop)]
pub struct TpmCell<T: TpmCalls + Drop> {
    pub(crate) tpm: T,
    index: Index,
}

impl<T: TpmCalls + Drop> TpmCell<T> {
    /// The cell in an index. It is looked at, and read once; nothing is written.
    pub fn open(mut tpm: T, index: Index) -> Result<TpmCell<T>, CellRefusal>
        ensures opened { IfOk result (λ cell. (cell.index ≡ index) × Opens T.TpmCalls.asks index tpm cell.tpm) }
        ensures refused { IfErr result (λ refusal. (now : T) × OpensNot T.TpmCalls.asks index tpm now refusal) }
    {
        look(&mut tpm, index)?;
        if let Err(fault) = read_index(&mut tpm, index) {
            return Err(CellRefusal::Failed(fault));
        }
        Ok(TpmCell { tpm, index })
    }

    /// Whether the cell is full: what it holds is in the buffer of 128 bytes then.
    pub fn load(&mut self, into: &mut [u8]) -> Result<bool, TpmFault>
        requires { length into.old ≡ DATA }
        ensures index { self.new.index ≡ self.old.index }
        ensures loaded { IfOk result (λ full. (held : Option (List ℕ)) × Reads T.TpmCalls.asks self.old.index held self.old.tpm self.new.tpm
            × IsInCell held (if full then Some into.new else None)) }
        ensures failed { IfErr result (FailsAs T.TpmCalls.asks (read_bytes self.old.index) IsContent self.old.tpm self.new.tpm) }
    {
        match read_index(&mut self.tpm, self.index)? {
            Some(bytes) if !is_no_root(&bytes) => {
                into.copy_from_slice(&bytes);
                Ok(true)
            }
            _ => Ok(false),
        }
    }

    /// The cell holds these 128 bytes: they were written, and read back.
    pub fn replace(&mut self, bytes: &[u8]) -> Result<(), TpmFault>
        requires { length bytes.now ≡ DATA }
        ensures index { self.new.index ≡ self.old.index }
        ensures stored { OnOk result (Stores T.TpmCalls.asks self.old.index bytes.now self.old.tpm self.new.tpm) }
        ensures failed { IfErr result (StoresNot T.TpmCalls.asks self.old.index bytes.now self.old.tpm self.new.tpm) }
    {
        let mut all = [0; DATA];
        all.copy_from_slice(bytes);
        store(&mut self.tpm, self.index, &all)
    }

    /// The cell holds nothing: zeros were written, and read back.
    #[tactic(auto, unfolding(crate::specs::Asking::no_root))]
    pub fn clear(&mut self) -> Result<(), TpmFault>
        ensures index { self.new.index ≡ self.old.index }
        ensures stored { OnOk result (Stores T.TpmCalls.asks self.old.index no_root self.old.tpm self.new.tpm) }
        ensures failed { IfErr result (StoresNot T.TpmCalls.asks self.old.index no_root self.old.tpm self.new.tpm) }
    {
        store(&mut self.tpm, self.index, &NO_ROOT)
    }
}

// Whether a root record can stand in an index.
fn look<T: TpmCalls>(tpm: &mut T, index: Index) -> Result<(), CellRefusal>
    ensures usable { OnOk result (Replies T.asks (read_public_bytes index) (IsUsableIndex index) tpm.old tpm.new) }
    ensures refused { IfErr result (OpensNot T.asks index tpm.old tpm.new) }
{
    let mut command = [0; READ_PUBLIC_COMMAND];
    put_read_public(index, &mut command);
    let mut reply = [0; REPLY];
    let n = match tpm.send(&command, &mut reply) {
        Ok(n) => n,
        Err(error) => return Err(CellRefusal::Failed(TpmFault::Io(error))),
    };
    match read_public(&reply[..n], index) {
        Ok(_) => Ok(()),
        Err(Refusal::Absent) => Err(CellRefusal::Absent(index.handle())),
        Err(Refusal::Unusable(fault)) => Err(CellRefusal::Unusable(fault)),
        Err(Refusal::Failed(failure)) => Err(CellRefusal::Failed(TpmFault::Reply(failure))),
    }
}

// What an index holds: nothing, if it was never written.
fn read_index<T: TpmCalls>(tpm: &mut T, index: Index) -> Result<Option<[u8; DATA]>, TpmFault>
    ensures held { IfOk result (λ held. Reads T.asks index held tpm.old tpm.new) }
    ensures failed { IfErr result (FailsAs T.asks (read_bytes index) IsContent tpm.old tpm.new) }
{
    let mut command = [0; READ_COMMAND];
    put_read(index, &mut command);
    let mut reply = [0; REPLY];
    let n = match tpm.send(&command, &mut reply) {
        Ok(n) => n,
        Err(error) => return Err(TpmFault::Io(error)),
    };
    match read_data(&reply[..n]) {
        Ok(Content::Unwritten) => Ok(None),
        Ok(Content::Bytes(bytes)) => {
            let mut all = [0; DATA];
            all.copy_from_slice(bytes);
            Ok(Some(all))
        }
        Err(failure) => Err(TpmFault::Reply(failure)),
    }
}

// These bytes stand in an index, by its reply.
fn write_index<T: TpmCalls>(tpm: &mut T, index: Index, bytes: &[u8; DATA]) -> Result<(), TpmFault>
    ensures written { OnOk result (Writes T.asks index bytes.now tpm.old tpm.new) }
    ensures failed { IfErr result (FailsAs T.asks (write_bytes index bytes.now) IsWritten tpm.old tpm.new) }
{
    let mut command = [0; WRITE_COMMAND];
    put_write(index, bytes, &mut command);
    let mut reply = [0; REPLY];
    let n = match tpm.send(&command, &mut reply) {
        Ok(n) => n,
        Err(error) => return Err(TpmFault::Io(error)),
    };
    match read_written(&reply[..n]) {
        Ok(()) => Ok(()),
        Err(failure) => Err(TpmFault::Reply(failure)),
    }
}

// These bytes are what an index holds.
fn read_back<T: TpmCalls>(tpm: &mut T, index: Index, bytes: &[u8; DATA]) -> Result<(), TpmFault>
    ensures held { OnOk result (Reads T.asks index (Some bytes.now) tpm.old tpm.new) }
    ensures failed { IfErr result (ReadsOther T.asks index bytes.now tpm.old tpm.new) }
{
    match read_index(tpm, index)? {
        Some(held) if is_same(&held, bytes) => Ok(()),
        _ => Err(TpmFault::Unkept),
    }
}

// An index was written with these bytes, and holds them.
fn store<T: TpmCalls>(tpm: &mut T, index: Index, bytes: &[u8; DATA]) -> Result<(), TpmFault>
    ensures stored { OnOk result (Stores T.asks index bytes.now tpm.old tpm.new) }
    ensures failed { IfErr result (StoresNot T.asks index bytes.now tpm.old tpm.new) }
{
    write_index(tpm, index, bytes)?;
    read_back(tpm, index, bytes)
}

fn is_same(bytes: &[u8; DATA], other: &[u8; DATA]) -> bool
    ensures { IsTrue result ↔ (bytes.now ≡ other.now) }
{
    bytes == other
}

// Whether these are the bytes of a cell that holds nothing.
#[tactic(auto, unfolding(crate::specs::Asking::no_root))]
fn is_no_root(bytes: &[u8; DATA]) -> bool
    ensures { IsTrue result ↔ (bytes.now ≡ no_root) }
{
    bytes == &NO_ROOT
}
