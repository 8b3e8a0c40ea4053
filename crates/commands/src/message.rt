ghost use Rattle.std.specs.Prelude.{◌≡◌, ◌++◌, [], ◌∷◌, IfOk, Ok, unwrap_or};
ghost use Rattle.commands.specs.Reading.{Reads};
ghost use Rattle.commands.specs.Message.{in_message, u64_field, bytes_field, message_field, has_field, occurrences, content_of};

use crate::content::Content;
use crate::fault::CommandFault;
use crate::held::Held;
use crate::kinds::{as_bool, as_i32, as_text, as_u32, content_of, required, varint_of};
use crate::sequence::Sequence;
use crate::text::Text;
use proto_fields::{ByteSlice, Fields};
use std::alloc::{AllocError, Global};
use std::marker::Model;

/// A message whose bytes are fields and nothing else. Contracts see the list of its fields. What the calls ask of the
/// fields of the first numbers is kept beside it, for as many numbers as whoever reads it has room for; for others, and
/// for an embedded message that occurs more than once, they go over the bytes again.
#[derive(Drop)]
pub struct Message<'a, 'k> {
    bytes: &'a [u8],
    held: &'k [Held<'a>],
}

impl<'a, 'k> Model for Message<'a, 'k> {
    ghost use Rattle.std.specs.Prelude.{List};
    ghost use Rattle.proto_fields.specs.declared.value.Field.{Field};
    ghost use Rattle.commands.specs.Message.{known_fields};
    ghost use Rattle.commands.specs.Kept.{IsRead};

    ghost Value = { List Field };

    ghost view = { λ m. known_fields m.bytes.now };

    ghost invariant = { λ m. IsRead m.bytes.now m.held.now };
}

impl<'a, 'k> Message<'a, 'k> {
    ghost use Rattle.std.specs.Prelude.{◌≡◌, Ok, IfSome, length, replicate};
    ghost use Rattle.commands.specs.declared.held.Held.TheVariants.{Absent};
    ghost use Rattle.commands.specs.Reading.{Reads};
    ghost use Rattle.commands.specs.Kept.{seen, held_of};
    ghost use Rattle.commands.specs.Message.{message_fields, u64_field, required_u64_field, u32_field, bool_field, i32_field, i64_field, bytes_field, text_field, required_text_field, message_field, has_field, occurrences, content_of};

    /// The message of these bytes. What is asked of the fields of a number is kept at its place in `held`.
    pub fn read(bytes: &'a [u8], held: &'k mut [Held<'a>]) -> Result<Message<'a, 'k>, CommandFault>
        requires { held.old ≡ replicate (length held.old) Absent }
        ensures { result ≡ message_fields bytes.now }
    {
        let mut input = Fields::new(bytes);
        'fields: while let Some(field) = input.next()? {
            let number = field.number as usize;
            if number < held.len() {
                held[number] = held[number].with(&field.value);
            }
        }
        Ok(Message { bytes, held })
    }

    /// What is kept of the fields of this number, if it is one that the field tables name.
    fn held(&self, number: u32) -> Option<Held<'a>>
        ensures { IfSome result (λ held. seen held ≡ held_of number self.now) }
    {
        let number = number as usize;
        if number < self.held.len() {
            Some(self.held[number])
        } else {
            None
        }
    }

    /// The number of a field.
    pub fn u64(&self, number: u32) -> Result<Option<u64>, CommandFault>
        ensures { result ≡ u64_field number self.now }
    {
        match self.held(number) {
            None => last_varint(self.bytes, number),
            Some(held) => held.number(),
        }
    }

    /// The number of a required field.
    #[inline(always)]
    pub fn required_u64(&self, number: u32) -> Result<u64, CommandFault>
        ensures { result ≡ required_u64_field number self.now }
    {
        required(self.u64(number)?)
    }

    /// The number of 32 bits without a sign of a field.
    #[tactic(auto, unfolding(crate::specs::Message::u32_field))]
    pub fn u32(&self, number: u32) -> Result<Option<u32>, CommandFault>
        ensures { result ≡ u32_field number self.now }
    {
        match self.u64(number)? {
            None => Ok(None),
            Some(value) => Ok(Some(as_u32(value)?)),
        }
    }

    /// The truth value of a field.
    #[tactic(auto, unfolding(crate::specs::Message::bool_field))]
    pub fn bool(&self, number: u32) -> Result<Option<bool>, CommandFault>
        ensures { result ≡ bool_field number self.now }
    {
        match self.u64(number)? {
            None => Ok(None),
            Some(value) => Ok(Some(as_bool(value)?)),
        }
    }

    /// The number of 32 bits of a field.
    #[tactic(auto, unfolding(crate::specs::Message::i32_field))]
    pub fn i32(&self, number: u32) -> Result<Option<i32>, CommandFault>
        ensures { result ≡ i32_field number self.now }
    {
        match self.u64(number)? {
            None => Ok(None),
            Some(value) => Ok(Some(as_i32(value)?)),
        }
    }

    /// The number of 64 bits with a sign of a field.
    #[tactic(auto, unfolding(crate::specs::Message::i64_field))]
    pub fn i64(&self, number: u32) -> Result<Option<i64>, CommandFault>
        ensures { result ≡ i64_field number self.now }
    {
        match self.u64(number)? {
            None => Ok(None),
            Some(value) => Ok(Some(value.cast_signed())),
        }
    }

    /// The bytes of a field where they stand.
    fn content(&self, number: u32) -> Result<Option<ByteSlice<'a>>, CommandFault>
        ensures { result ≡ bytes_field number self.now }
    {
        match self.held(number) {
            None => last_content(self.bytes, number),
            Some(held) => held.content(),
        }
    }

    /// The text of a field.
    #[tactic(auto, unfolding(crate::specs::Message::text_field))]
    pub fn text(&self, alloc: Global, number: u32) -> Result<Option<Text>, CommandFault>
        ensures { Reads result (text_field number self.now) }
    {
        match self.content(number)? {
            None => Ok(None),
            Some(bytes) => Ok(Some(as_text(alloc, bytes.as_slice())?)),
        }
    }

    /// The text of a required field.
    pub fn required_text(&self, alloc: Global, number: u32) -> Result<Text, CommandFault>
        ensures { Reads result (required_text_field number self.now) }
    {
        required(self.text(alloc, number)?)
    }

    /// The bytes of a field.
    pub fn bytes(&self, alloc: Global, number: u32) -> Result<Option<Sequence<u8>>, CommandFault>
        ensures { Reads result (bytes_field number self.now) }
    {
        match self.content(number)? {
            None => Ok(None),
            Some(bytes) => Ok(Some(Sequence::new(Vec::from_slice(alloc, bytes.as_slice())?))),
        }
    }

    /// The bytes of an embedded message, all of its occurrences as one.
    pub fn message(&self, alloc: Global, number: u32) -> Result<Option<Content<'a>>, CommandFault>
        ensures { Reads result (message_field number self.now) }
    {
        match self.held(number) {
            Some(Held::Content(part)) => Ok(Some(Content::new(ByteSlice::new(part)))),
            _ => joined_contents(alloc, self.bytes, number),
        }
    }

    /// The bytes of an embedded message that occurs once, if that is kept.
    pub fn only(&self, number: u32) -> Option<ByteSlice<'a>>
        ensures { IfSome result (λ part. occurrences content_of number self.now ≡ Ok (part ∷ [])) }
    {
        match self.held(number) {
            Some(Held::Content(part)) => Some(ByteSlice::new(part)),
            _ => None,
        }
    }

    /// The bytes of each occurrence of an embedded message, in order.
    pub fn parts(&self, alloc: Global, number: u32) -> Result<Sequence<ByteSlice<'a>>, CommandFault>
        ensures { Reads result (occurrences content_of number self.now) }
    {
        match self.held(number) {
            Some(Held::Content(part)) => only_part(alloc, part),
            _ => each_content(alloc, self.bytes, number),
        }
    }

    /// Whether the field is there, of whatever wire type.
    pub fn has(&self, number: u32) -> Result<bool, CommandFault>
        ensures { result ≡ Ok (has_field number self.now) }
    {
        match self.held(number) {
            None => has_number(self.bytes, number),
            Some(held) => Ok(held.is_there()),
        }
    }
}

fn last_varint(bytes: &[u8], number: u32) -> Result<Option<u64>, CommandFault>
    ensures { result ≡ in_message (u64_field number) bytes.now }
{
    let mut found = None;
    let mut input = Fields::new(bytes);
    'fields: while let Some(field) = input.next()? {
        if field.number != number {
            continue;
        }
        found = Some(varint_of(&field.value)?);
    }
    Ok(found)
}

fn last_content(bytes: &[u8], number: u32) -> Result<Option<ByteSlice<'_>>, CommandFault>
    ensures { result ≡ in_message (bytes_field number) bytes.now }
{
    let mut found = None;
    let mut input = Fields::new(bytes);
    'fields: while let Some(field) = input.next()? {
        if field.number != number {
            continue;
        }
        found = Some(content_of(&field.value)?);
    }
    Ok(found)
}

fn joined_contents(
    alloc: Global,
    bytes: &[u8],
    number: u32,
) -> Result<Option<Content<'_>>, CommandFault>
    ensures { Reads result (in_message (message_field number) bytes.now) }
{
    let mut found = None;
    let mut input = Fields::new(bytes);
    'fields: while let Some(field) = input.next()? {
        if field.number != number {
            continue;
        }
        found = Some(joined(alloc, found, content_of(&field.value)?)?);
    }
    Ok(found)
}

fn joined<'a>(
    alloc: Global,
    found: Option<Content<'a>>,
    part: ByteSlice<'a>,
) -> Result<Content<'a>, AllocError>
    ensures { IfOk result (λ c. c ≡ unwrap_or found.entry [] ++ part.entry) }
{
    match found {
        None => Ok(Content::new(part)),
        Some(content) => content.with(alloc, part.as_slice()),
    }
}

fn only_part<'a>(alloc: Global, part: &'a [u8]) -> Result<Sequence<ByteSlice<'a>>, CommandFault>
    ensures { Reads result (Ok (part.now ∷ [])) }
{
    let mut parts = Vec::new(alloc);
    parts.push(ByteSlice::new(part))?;
    Ok(Sequence::new(parts))
}

fn each_content(
    alloc: Global,
    bytes: &[u8],
    number: u32,
) -> Result<Sequence<ByteSlice<'_>>, CommandFault>
    ensures { Reads result (in_message (occurrences content_of number) bytes.now) }
{
    let mut found = Vec::new(alloc);
    let mut input = Fields::new(bytes);
    'fields: while let Some(field) = input.next()? {
        if field.number != number {
            continue;
        }
        found.push(content_of(&field.value)?)?;
    }
    Ok(Sequence::new(found))
}

fn has_number(bytes: &[u8], number: u32) -> Result<bool, CommandFault>
    ensures { result ≡ in_message (λ fields. Ok (has_field number fields)) bytes.now }
{
    let mut found = false;
    let mut input = Fields::new(bytes);
    'fields: while let Some(field) = input.next()? {
        if field.number != number {
            continue;
        }
        found = true;
    }
    Ok(found)
}
