use crate::fault::FieldFault;
use crate::field::field_at;
use crate::value::Field;
use std::marker::Model;

/// The fields of a message, from the first to the last. Contracts see the bytes that are left.
///
/// A field is answered as often as it occurs, whatever its number and its wire type: what a known field
/// may hold, and which occurrence counts, is for the caller to judge.
#[derive(Drop)]
pub struct Fields<'a> {
    rest: &'a [u8],
}

impl<'a> Model for Fields<'a> {
    ghost use Rattle.std.specs.Prelude.{List, ℕ};

    ghost Value = { List ℕ };

    ghost view = { λ s. s.rest.now };
}

impl<'a> Fields<'a> {
    ghost use Rattle.std.specs.Prelude.{◌≡◌};
    ghost use Rattle.proto_fields.specs.Fields.{TakesField};

    /// The fields of the whole bytes, none of which is read yet.
    pub fn new(bytes: &'a [u8]) -> Fields<'a>
        ensures { result ≡ bytes.now }
    {
        Fields { rest: bytes }
    }

    /// The next field, or none at the end. A fault leaves the bytes where they were, so that the
    /// same fault is answered ever after.
    pub fn next(&mut self) -> Result<Option<Field<'a>>, FieldFault>
        ensures { TakesField self.old result self.new }
    {
        if self.rest.is_empty() {
            return Ok(None);
        }
        let (field, rest) = field_at(self.rest)?;
        self.rest = rest;
        Ok(Some(field))
    }
}
