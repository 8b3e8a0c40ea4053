// A body is built behind its kind.
ghost use Rattle.std.specs.Prelude.{◌≡◌, ◌<◌, ◌↔◌, ◌++◌, [], length, IfOk, OnOk, OnErr, IsErrOf};

use crate::Journal;
use gated_log::{BatchBuilder, BatchList, PrepareError, PreparedBatch};
use std::alloc::AllocError;
use std::marker::Model;

// The kind of a batch with a body.
const ENTRY: u8 = 0;

/// A body that is being built, in the memory from which it is written: behind the kind of its batch. Contracts see the body
/// so far.
#[derive(Drop)]
pub struct BodyBuilder {
    pub(crate) batch: BatchBuilder,
}

impl Model for BodyBuilder {
    ghost use Rattle.std.specs.Prelude.{◌≡◌, List, ℕ, drop};
    ghost use Rattle.journal.specs.Chains.{entry};

    ghost Value = { List ℕ };

    ghost view = { λ b. drop 1 b.batch };

    ghost invariant = { λ b. b.batch ≡ entry (drop 1 b.batch) };
}

impl BodyBuilder {
    ghost use Rattle.gated_log.specs.Logs.{IsBatchOf};
    ghost use Rattle.journal.specs.Chains.{entry};

    /// Adds bytes, all or none. Takes memory only where the room is used up.
    pub fn extend_from_slice(&mut self, bytes: &[u8]) -> Result<(), AllocError>
        ensures extended { OnOk result (self.new ≡ self.old ++ bytes.now) }
        ensures refused { OnErr result (self.new ≡ self.old) }
    {
        self.batch.extend_from_slice(bytes)
    }

    /// The batch that an append of this body writes, in the builder's own memory. A batch has at most 33,554,432 bytes,
    /// one of which is its kind.
    pub fn into_batch(self) -> Result<PreparedBatch, PrepareError>
        ensures built { IfOk result (λ batch. IsBatchOf batch (entry self)) }
        ensures too_large { IsErrOf result PrepareError.TooLarge ↔ (33554431 < length self) }
    {
        PreparedBatch::new(self.batch)
    }
}

impl Journal {
    /// An empty body, with room for so many bytes and for what stands around them in a batch.
    pub fn builder(&self, size: usize) -> Result<BodyBuilder, AllocError>
        ensures { IfOk result (λ builder. builder ≡ []) }
    {
        let mut batch = self.last.builder(size.saturating_add(1))?;
        batch.push(ENTRY)?;
        Ok(BodyBuilder { batch })
    }
}
