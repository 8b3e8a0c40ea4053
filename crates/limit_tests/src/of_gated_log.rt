use crate::outcome::{Outcome, batch_in, size_of};
use anyhow::Error;
use disk::{CATALOG, FileId};
use disk_mem::MemShelf;
use gated_log::{BatchList, GatedLog, Label, MAX_BODY, PreparedBatch};
use std::alloc::Global;

const FILE: FileId = CATALOG;

fn append(log: &mut GatedLog, shelf: &mut MemShelf, body: &[u8]) -> Result<Outcome, Error> {
    let mut builder = log.builder(body.len())?;
    builder.extend_from_slice(body)?;
    let batch = batch_in(PreparedBatch::new(builder))?;
    let refused = batch.is_none();
    if let Some(batch) = batch {
        log.append_prepared(shelf, batch)?;
    }
    Ok(Outcome {
        bytes: body.len(),
        refused,
        count: log.count(),
        size: size_of(shelf, FILE)?,
    })
}

/// What became of a body that is a byte too long, and of the longest one behind it.
pub(crate) fn limits(alloc: Global) -> Result<(Outcome, Outcome), Error> {
    let mut shelf = MemShelf::new(alloc);
    let mut log = GatedLog::create(alloc, &mut shelf, FILE, Label::plain(7))?;
    let mut body = vec![in alloc; 9u8; MAX_BODY]?;
    body.push(9)?;
    let longer = append(&mut log, &mut shelf, &body)?;
    body.truncate(MAX_BODY);
    let longest = append(&mut log, &mut shelf, &body)?;
    Ok((longer, longest))
}
