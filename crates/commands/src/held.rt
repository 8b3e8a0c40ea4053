ghost use Rattle.std.specs.Prelude.{◌≡◌};
ghost use Rattle.commands.specs.Kept.{seen, with_number, with_content, held_with, number_in, content_in, is_there};

use crate::fault::CommandFault;
use proto_fields::{ByteSlice, Value};

/// What a message keeps of the fields of one number.
#[derive(Clone, Copy)]
pub enum Held<'a> {
    /// No field has the number.
    Absent,
    /// Each of them is a varint, the last with this number.
    Number(u64),
    /// The only one holds these bytes.
    Content(&'a [u8]),
    /// There are several, each holds bytes, and the last these.
    LastContent(&'a [u8]),
    /// One is of another wire type, or they are of several.
    Other,
}

impl<'a> Held<'a> {
    /// What is kept once one more field of the number is read.
    pub fn with(self, value: &Value<'a>) -> Held<'a>
        ensures { seen result ≡ held_with (seen self.entry) value.now }
    {
        match value {
            Value::Varint(number) => self.with_number(*number),
            Value::Bytes(content) => self.with_content(content.as_slice()),
            Value::Fixed64(_) | Value::Fixed32(_) => Held::Other,
        }
    }

    fn with_number(self, number: u64) -> Held<'a>
        ensures { seen result ≡ with_number (seen self.entry) number }
    {
        match self {
            Held::Absent | Held::Number(_) => Held::Number(number),
            Held::Content(_) | Held::LastContent(_) | Held::Other => Held::Other,
        }
    }

    fn with_content(self, content: &'a [u8]) -> Held<'a>
        ensures { seen result ≡ with_content (seen self.entry) content.now }
    {
        match self {
            Held::Absent => Held::Content(content),
            Held::Content(_) | Held::LastContent(_) => Held::LastContent(content),
            Held::Number(_) | Held::Other => Held::Other,
        }
    }

    /// The number of the last field.
    pub fn number(self) -> Result<Option<u64>, CommandFault>
        ensures { result ≡ number_in (seen self.entry) }
    {
        match self {
            Held::Absent => Ok(None),
            Held::Number(number) => Ok(Some(number)),
            Held::Content(_) | Held::LastContent(_) | Held::Other => Err(CommandFault::Unreadable),
        }
    }

    /// The bytes of the last field.
    pub fn content(self) -> Result<Option<ByteSlice<'a>>, CommandFault>
        ensures { result ≡ content_in (seen self.entry) }
    {
        match self {
            Held::Absent => Ok(None),
            Held::Content(content) | Held::LastContent(content) => {
                Ok(Some(ByteSlice::new(content)))
            }
            Held::Number(_) | Held::Other => Err(CommandFault::Unreadable),
        }
    }

    /// Whether there is a field of the number.
    pub fn is_there(self) -> bool
        ensures { result ≡ is_there (seen self.entry) }
    {
        !matches!(self, Held::Absent)
    }
}
