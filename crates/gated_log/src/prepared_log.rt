// A whole log is built in memory before it is written.
ghost use Rattle.std.specs.Prelude.{◌+◌, ◌≤◌, vec_len};
ghost use Rattle.gated_log.specs.Labels.{header_size};

use crate::prepared::{CLOSED, OPEN};
use crate::{MAX_BODY, PrepareError, header_size};
use disk::Folder;
use std::alloc::{AllocError, Global};

/// A whole log that is being built for a file of a folder of this version: its batches so far, behind open gates, and before them room for the header.
#[derive(Drop)]
pub struct LogBuilder {
    pub(crate) alloc: Global,
    pub(crate) folder: Folder,
    pub(crate) count: u64,
    pub(crate) bytes: Vec<u8>,
    ghost roomy: { header_size folder ≤ vec_len bytes + 1 },
    ghost few: { count ≤ vec_len bytes },
}

/// A whole log that stands in memory, ready to be written over a file: its batches, a closed gate behind them, and before
/// them room for the header.
#[derive(Drop)]
pub struct PreparedLog {
    pub(crate) alloc: Global,
    pub(crate) folder: Folder,
    pub(crate) count: u64,
    pub(crate) bytes: Vec<u8>,
    ghost roomy: { header_size folder ≤ vec_len bytes },
    ghost few: { count ≤ vec_len bytes },
}

impl LogBuilder {
    ghost use Rattle.std.specs.Prelude.{◌≡◌, ◌<◌, ◌↔◌, ◌++◌, [], ◌∷◌, length, IfOk, IsErrOf};
    ghost use Rattle.gated_log.specs.Batches.{Bodies};
    ghost use Rattle.gated_log.specs.Wholes.{Builds, IsLogOf};

    /// No batch yet, of a log in a folder of this version.
    pub fn new(alloc: Global, folder: Folder) -> Result<LogBuilder, AllocError>
        ensures folder { IfOk result (λ builder. builder.folder ≡ folder) }
        ensures built { IfOk result (λ builder. Builds builder []) }
    {
        let size = header_size(folder);
        let mut bytes = Vec::with_capacity(alloc, size)?;
        bytes.extend_from_slice(&[0; 31][..size - 1])?;
        Ok(LogBuilder {
            alloc,
            folder,
            count: 0,
            bytes,
        })
    }

    /// With the batch of a body more.
    pub fn with_body(mut self, body: &[u8]) -> Result<LogBuilder, PrepareError>
        ensures grown { (bodies : Bodies) → Builds self bodies → IfOk result (λ builder. Builds builder (bodies ++ body.now ∷ [])) }
        ensures folder { IfOk result (λ builder. builder.folder ≡ self.folder) }
        ensures too_large { IsErrOf result PrepareError.TooLarge ↔ (33554432 < length body.now) }
    {
        if body.len() > MAX_BODY {
            return Err(PrepareError::TooLarge);
        }
        self.bytes.push(OPEN)?;
        self.bytes
            .extend_from_slice(&(body.len() as u32).to_le_bytes())?;
        self.bytes.extend_from_slice(body)?;
        self.count += 1;
        Ok(self)
    }

    /// The whole log.
    pub fn finish(mut self) -> Result<PreparedLog, AllocError>
        ensures folder { IfOk result (λ log. log.folder ≡ self.folder) }
        ensures built { (bodies : Bodies) → Builds self bodies → IfOk result (λ log. IsLogOf log bodies) }
    {
        self.bytes.push(CLOSED)?;
        Ok(PreparedLog {
            alloc: self.alloc,
            folder: self.folder,
            count: self.count,
            bytes: self.bytes,
        })
    }
}
