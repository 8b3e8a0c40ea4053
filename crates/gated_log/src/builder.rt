// The body of a batch is built in the memory from which it is written.
ghost use Rattle.std.specs.Prelude.{◌≡◌, ◌++◌, [], ◌∷◌, length, IfOk, OnOk, OnErr};

use std::alloc::{AllocError, Global};
use std::marker::Model;

/// A batch that is being built: its body so far, which is what contracts see, and before it room for its length.
#[derive(Drop)]
pub struct BatchBuilder {
    pub(crate) bytes: Vec<u8>,
}

impl Model for BatchBuilder {
    ghost use Rattle.std.specs.Prelude.{List, ℕ, ◌≤◌, drop, vec_len};

    ghost Value = { List ℕ };

    ghost view = { λ b. drop 4 b.bytes.items };

    ghost invariant = { λ b. 4 ≤ vec_len b.bytes };
}

impl BatchBuilder {
    /// A batch without a body yet, with room for a body of so many bytes and for what stands around it.
    pub fn with_capacity(alloc: Global, size: usize) -> Result<BatchBuilder, AllocError>
        ensures { IfOk result (λ builder. builder ≡ []) }
    {
        let mut bytes = Vec::with_capacity(alloc, size.saturating_add(5))?;
        bytes.extend_from_slice(&[0; 4])?;
        Ok(BatchBuilder { bytes })
    }

    /// How many bytes its body has.
    pub fn len(&self) -> usize
        ensures { result ≡ length self.now }
    {
        self.bytes.len() - 4
    }

    /// Adds a byte to the body, or nothing. Takes memory only where the room is used up.
    pub fn push(&mut self, byte: u8) -> Result<(), AllocError>
        ensures pushed { OnOk result (self.new ≡ self.old ++ byte ∷ []) }
        ensures refused { OnErr result (self.new ≡ self.old) }
    {
        self.bytes.push(byte)?;
        Ok(())
    }

    /// Adds bytes to the body, all or none. Takes memory only where the room is used up.
    pub fn extend_from_slice(&mut self, bytes: &[u8]) -> Result<(), AllocError>
        ensures extended { OnOk result (self.new ≡ self.old ++ bytes.now) }
        ensures refused { OnErr result (self.new ≡ self.old) }
    {
        self.bytes.extend_from_slice(bytes)?;
        Ok(())
    }
}
