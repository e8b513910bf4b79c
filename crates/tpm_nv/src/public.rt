//! The reply to the command that asks what an index is.
ghost use Rattle.std.specs.Prelude.{◌≡◌, ℕ, List, ◌<◌, ◌++◌, ◌^◌, IfOk, IfErr, IfSome, IfNone, IsOkAnd, IsSomeAnd, length};
ghost use Rattle.std.specs.Int.{w16, to_be_bytes};
ghost use Rattle.tpm_nv.specs.Fields.{sized};
ghost use Rattle.tpm_nv.specs.Attributes.{IsUsable};
ghost use Rattle.tpm_nv.specs.Areas.{Area, FitsArea, area_of, area_bytes, described, Describes, IsFault, IsRefused};

use crate::attributes::{Attribute, first_clear, first_set};
use crate::commands::{DATA, NO_SESSIONS};
use crate::fields::{take_sized, take_u16, take_u32};
use crate::heads::{Failure, body_of};
use crate::index::Index;

/// The code of an index that isn't there (TPM_RC_HANDLE of the first handle).
const NO_INDEX: u32 = 0x18b;

/// What an index needs: its password reads and writes it.
const NEEDED: [Attribute; 2] = [Attribute::AuthWrite, Attribute::AuthRead];

/// What an index must not have: what was written could be lost, or stay.
const REFUSED: [Attribute; 8] = [
    Attribute::WriteLocked,
    Attribute::WriteDefine,
    Attribute::WriteStClear,
    Attribute::GlobalLock,
    Attribute::Orderly,
    Attribute::ClearStClear,
    Attribute::ReadLocked,
    Attribute::ReadStClear,
];

/// What an index is (part 2, TPMS_NV_PUBLIC).
#[derive(Clone, Copy)]
pub struct Public<'a> {
    /// The hash of its name and its policy.
    pub algorithm: u16,
    /// Its attributes, as bits.
    pub attributes: u32,
    /// The policy that permits what a password doesn't.
    pub policy: &'a [u8],
    /// Its size in bytes.
    pub size: u16,
    /// Its name: that hash of all of this.
    pub name: &'a [u8],
}

/// Why a root record can't stand in an index.
#[derive(Clone, Copy, Debug, PartialEq, Eq)]
pub enum Fault {
    /// It has another size than 128 bytes.
    Size(u16),
    /// It isn't an ordinary one, but of this type (part 2, TPM_NT).
    Kind(u32),
    /// It lacks an attribute.
    Lacks(Attribute),
    /// It has an attribute by which what is written could be lost, or stay.
    Has(Attribute),
}

/// Why an index is not used.
#[derive(Clone, Copy, Debug, PartialEq, Eq)]
pub enum Refusal {
    /// There is no such index.
    Absent,
    /// It is another kind of index than it has to be.
    Unusable(Fault),
    /// The reply says nothing of it.
    Failed(Failure),
}

/// What an index is, by the reply to the command that asks so, where a root record can stand in it.
pub fn read_public(reply: &[u8], index: Index) -> Result<Public<'_>, Refusal>
    ensures found { IfOk result (λ public. Describes index (area_of public) reply.now) }
    ensures usable { IfOk result (λ public. IsUsable public.attributes public.size) }
    ensures refused { IfErr result (λ refusal. IsRefused index reply.now refusal) }
    // What a reply says is read as that.
    ensures again { (area : Area) → Describes index area reply.now → IsUsable area.attributes area.size
        → IsOkAnd result (λ public. area_of public ≡ area) }
{
    let public = public_in(reply, index)?;
    match fault_of(public.attributes, public.size) {
        Some(fault) => Err(Refusal::Unusable(fault)),
        None => Ok(public),
    }
}

/// What is wrong with an index of these attributes and this size.
fn fault_of(attributes: u32, size: u16) -> Option<Fault>
    ensures found { IfSome result (λ fault. IsFault attributes size fault) }
    ensures none { IfNone result (IsUsable attributes size) }
{
    if size as usize != DATA {
        return Some(Fault::Size(size));
    }
    let kind = (attributes >> 4) % 16;
    if kind != 0 {
        return Some(Fault::Kind(kind));
    }
    if let Some(attribute) = first_clear(attributes, &NEEDED) {
        return Some(Fault::Lacks(attribute));
    }
    first_set(attributes, &REFUSED).map(Fault::Has)
}

/// What an index is, whether it can be used or not.
fn public_in(reply: &[u8], index: Index) -> Result<Public<'_>, Refusal>
    ensures found { IfOk result (λ public. Describes index (area_of public) reply.now) }
    ensures refused { IfErr result (λ refusal. IsRefused index reply.now refusal) }
    ensures again { (area : Area) → Describes index area reply.now → IsOkAnd result (λ public. area_of public ≡ area) }
{
    match body_of(reply, NO_SESSIONS) {
        Ok(body) => match described_in(body, index) {
            Some(public) => Ok(public),
            None => Err(Refusal::Failed(Failure::Malformed)),
        },
        Err(failure) => {
            if failure == Failure::Code(NO_INDEX) {
                Err(Refusal::Absent)
            } else {
                Err(Refusal::Failed(failure))
            }
        }
    }
}

/// What a reply carries: what the index is, and its name.
fn described_in(body: &[u8], index: Index) -> Option<Public<'_>>
    ensures found { IfSome result (λ public. FitsArea (area_of public) × (body.now ≡ described index (area_of public))) }
    ensures only { (area : Area) → FitsArea area → length (area_bytes index area) < 2 ^ 16 → length area.name < 2 ^ 16 → body.now ≡ described index area
        → IsSomeAnd result (λ public. area_of public ≡ area) }
{
    let (area, rest) = take_sized(body)?;
    let (name, rest) = take_sized(rest)?;
    if rest.is_empty() {
        area_in(area, index, name)
    } else {
        None
    }
}

/// What the index of this name is.
#[tactic(auto, unfolding(crate::specs::Areas::area_bytes))]
fn area_in<'a>(bytes: &'a [u8], index: Index, name: &'a [u8]) -> Option<Public<'a>>
    ensures found { IfSome result (λ public. FitsArea (area_of public) × (bytes.now ≡ area_bytes index (area_of public))) }
    ensures name { IfSome result (λ public. public.name.now ≡ name.now) }
    ensures only { (area : Area) → FitsArea area → length area.policy < 2 ^ 16 → bytes.now ≡ area_bytes index area → name.now ≡ area.name
        → IsSomeAnd result (λ public. area_of public ≡ area) }
{
    let (found, rest) = take_u32(bytes)?;
    let (algorithm, rest) = take_u16(rest)?;
    let (attributes, rest) = take_u32(rest)?;
    let (policy, rest) = take_sized(rest)?;
    let (size, rest) = take_u16(rest)?;
    if found != index.handle() || !rest.is_empty() {
        return None;
    }
    Some(Public {
        algorithm,
        attributes,
        policy,
        size,
        name,
    })
}
