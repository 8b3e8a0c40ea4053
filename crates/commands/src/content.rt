use crate::sequence::Sequence;
use proto_fields::ByteSlice;
use std::alloc::{AllocError, Global};
use std::marker::Model;

/// The bytes of an embedded message: those of its one occurrence where they stand, or those of several,
/// joined. Contracts see the list of them.
#[derive(Drop)]
pub struct Content<'a> {
    parts: Parts<'a>,
}

#[derive(Drop)]
enum Parts<'a> {
    One(ByteSlice<'a>),
    Joined(Sequence<u8>),
}

impl<'a> Model for Content<'a> {
    ghost use Rattle.std.specs.Prelude.{List, ℕ};

    ghost Value = { List ℕ };

    ghost use Rattle.commands.specs.Content.{bytes_of};

    ghost view = { λ c. bytes_of c.parts };
}

impl<'a> Content<'a> {
    ghost use Rattle.std.specs.Prelude.{◌≡◌, ◌++◌, IfOk};

    pub fn new(part: ByteSlice<'a>) -> Content<'a>
        ensures { result ≡ part.entry }
    {
        Content {
            parts: Parts::One(part),
        }
    }

    /// The bytes of one more occurrence behind these.
    pub fn with(self, alloc: Global, part: &[u8]) -> Result<Content<'a>, AllocError>
        ensures { IfOk result (λ c. c ≡ self.entry ++ part.now) }
    {
        let Content { parts } = self;
        let mut bytes = match parts {
            Parts::One(first) => Vec::from_slice(alloc, first.as_slice())?,
            Parts::Joined(bytes) => bytes.into_vec(),
        };
        bytes.extend_from_slice(part)?;
        Ok(Content {
            parts: Parts::Joined(Sequence::new(bytes)),
        })
    }

    pub fn as_slice(&self) -> &[u8]
        ensures { result.now ≡ self.now }
    {
        match &self.parts {
            Parts::One(part) => part.as_slice(),
            Parts::Joined(bytes) => bytes.as_slice(),
        }
    }
}
