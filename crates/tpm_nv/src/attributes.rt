//! The attributes of an index.
ghost use Rattle.std.specs.Prelude.{◌≡◌, ◌↔◌, ◌<◌, All, Contains, IfSome, IfNone, IsTrue, IsFalse};
ghost use Rattle.tpm_nv.specs.Attributes.{bit_of, IsFirst, IsSet, IsClear};

/// The attributes that an index has to have, or must not have (part 2, TPMA_NV).
#[derive(Clone, Copy, Debug, PartialEq, Eq)]
pub enum Attribute {
    /// Its password writes it.
    AuthWrite,
    /// It can't be written until a restart.
    WriteLocked,
    /// It can be locked for good.
    WriteDefine,
    /// It can be locked until a restart.
    WriteStClear,
    /// It can be locked with others.
    GlobalLock,
    /// Its password reads it.
    AuthRead,
    /// It is kept in memory until an orderly shutdown.
    Orderly,
    /// A restart takes what was written.
    ClearStClear,
    /// It can't be read until a restart.
    ReadLocked,
    /// It can be locked for reading until a restart.
    ReadStClear,
}

impl Attribute {
    /// Its bit.
    fn bit(self) -> u32
        ensures value { result ≡ bit_of self }
        ensures below { result < 32 }
    {
        match self {
            Attribute::AuthWrite => 2,
            Attribute::WriteLocked => 11,
            Attribute::WriteDefine => 13,
            Attribute::WriteStClear => 14,
            Attribute::GlobalLock => 15,
            Attribute::AuthRead => 18,
            Attribute::Orderly => 26,
            Attribute::ClearStClear => 27,
            Attribute::ReadLocked => 28,
            Attribute::ReadStClear => 31,
        }
    }

    /// Whether it is among these.
    fn is_set(self, attributes: u32) -> bool
        ensures set { IsTrue result → IsSet attributes self }
        ensures clear { IsFalse result → IsClear attributes self }
    {
        (attributes >> self.bit()) % 2 == 1
    }
}

/// The first of a list that isn't among the attributes.
pub(crate) fn first_clear(attributes: u32, list: &[Attribute]) -> Option<Attribute>
    ensures found { IfSome result (λ attribute. Contains list.now attribute × IsClear attributes attribute) }
    ensures first { IfSome result (λ attribute. IsFirst (IsSet attributes) list.now attribute) }
    ensures none { IfNone result (All (IsSet attributes) list.now) }
{
    for attribute in list {
        if !attribute.is_set(attributes) {
            return Some(*attribute);
        }
    }
    None
}

/// The first of a list that is among the attributes.
pub(crate) fn first_set(attributes: u32, list: &[Attribute]) -> Option<Attribute>
    ensures found { IfSome result (λ attribute. Contains list.now attribute × IsSet attributes attribute) }
    ensures first { IfSome result (λ attribute. IsFirst (IsClear attributes) list.now attribute) }
    ensures none { IfNone result (All (IsClear attributes) list.now) }
{
    for attribute in list {
        if attribute.is_set(attributes) {
            return Some(*attribute);
        }
    }
    None
}
