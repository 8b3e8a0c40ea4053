// The bytes of a whole frame.
ghost use Rattle.std.specs.Prelude.{◌≡◌, IfOk};
ghost use Rattle.frames.specs.Reading.{bytes_of};

use std::alloc::{AllocError, Global};

/// The bytes of a whole frame.
#[derive(Drop)]
pub(crate) enum Whole<'a> {
    /// Where they stand in a piece.
    Lent(&'a [u8]),
    /// In memory of their own.
    Own(Vec<u8>),
}

impl<'a> Whole<'a> {
    pub(crate) fn as_slice(&self) -> &[u8]
        ensures { result.now ≡ bytes_of self.now }
    {
        match self {
            Whole::Lent(bytes) => bytes,
            Whole::Own(bytes) => bytes.as_slice(),
        }
    }

    /// The bytes in memory of their own, if need be a copy of them.
    pub(crate) fn into_vec(self, alloc: Global) -> Result<Vec<u8>, AllocError>
        ensures { IfOk result (λ bytes. bytes.items ≡ bytes_of self.entry) }
    {
        match self {
            Whole::Lent(bytes) => Vec::from_slice(alloc, bytes),
            Whole::Own(bytes) => Ok(bytes),
        }
    }
}
