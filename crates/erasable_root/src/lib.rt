//! A cell in memory that holds one root record, or none. What is replaced or cleared leaves nothing behind.
#![tactic(auto)]

ghost use Rattle.std.specs.Prelude.{◌≡◌, Option, Some, None, List, ℕ, length};
ghost use Rattle.erasable_root.specs.Cell.{IsCell};

use std::marker::Model;

/// The bytes of a root record.
pub const ROOT: usize = 128;

/// The cell; contracts see the bytes that it holds, if it holds any.
///
/// These bytes are all that it is: its field can be told from them alone, so that it has no room for a record that was replaced or
/// cleared. What the memory held before, a contract can't say.
#[derive(Drop)]
pub struct RootCell {
    record: Option<[u8; ROOT]>,
}

impl Model for RootCell {
    ghost Value = { Option (List ℕ) };

    ghost view = { λ cell. cell.record };

    ghost invariant = { λ cell. IsCell cell.record };

    ghost inverse = { λ held. record { «record» = held } };
}

impl RootCell {
    /// A cell that holds nothing.
    pub fn empty() -> Self
        ensures { result ≡ None }
    {
        RootCell { record: None }
    }

    /// What it holds.
    pub fn get(&self) -> Option<[u8; ROOT]>
        ensures held { result ≡ self.now }
        ensures bytes { IsCell self.now }
    {
        self.record
    }

    /// Puts a record in the place of what it held.
    pub fn replace(&mut self, bytes: &[u8; ROOT])
        ensures held { self.new ≡ Some bytes.now }
        ensures bytes { IsCell self.new }
    {
        is_record(bytes);
        self.record = Some(*bytes);
    }

    /// Takes away what it held.
    pub fn clear(&mut self)
        ensures { self.new ≡ None }
    {
        self.record = None;
    }
}

// What the type of a record says of its bytes.
fn is_record(bytes: &[u8])
    requires { length bytes.now ≡ ROOT }
    ensures { IsCell (Some bytes.now) }
{
    let _ = bytes;
}
