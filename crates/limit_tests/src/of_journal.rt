use crate::outcome::{Outcome, batch_in, size_of};
use crate::sizes::Sizes;
use anyhow::Error;
use disk::{FileId, Folder, TopicId};
use disk_mem::MemShelf;
use gated_log::MAX_BODY;
use journal::Journal;
use std::alloc::Global;

const TOPIC: TopicId = TopicId {
    folder: Folder::Two,
    number: 3,
};

fn append(journal: &mut Journal, shelf: &mut MemShelf, body: &[u8]) -> Result<Outcome, Error> {
    let mut builder = journal.builder(body.len())?;
    builder.extend_from_slice(body)?;
    let batch = batch_in(builder.into_batch())?;
    let refused = batch.is_none();
    if let Some(batch) = batch {
        journal.append_prepared(shelf, batch)?;
    }
    let segment = FileId::Segment {
        topic: TOPIC,
        number: 0,
    };
    Ok(Outcome {
        bytes: body.len(),
        refused,
        count: journal.last_count(),
        size: size_of(shelf, segment)?,
    })
}

/// What became of a body that is a byte too long, and of the longest one behind it; and once the journal was opened again,
/// the size of each body that was handed over, and the end of the longest one as it is read.
#[derive(Drop)]
pub(crate) struct JournalLimits {
    pub(crate) longer: Outcome,
    pub(crate) longest: Outcome,
    pub(crate) sizes: Vec<usize>,
    pub(crate) end: Option<Vec<u8>>,
}

/// Tries both, one after another.
pub(crate) fn limits(alloc: Global) -> Result<JournalLimits, Error> {
    let mut shelf = MemShelf::new(alloc);
    let mut journal = Journal::create(alloc, &mut shelf, TOPIC, 0, 0)?;
    let mut body = vec![in alloc; 9u8; MAX_BODY]?;
    let longer = append(&mut journal, &mut shelf, &body)?;
    body.truncate(MAX_BODY - 1);
    let longest = append(&mut journal, &mut shelf, &body)?;
    let (opened, taken) = Journal::open_with(alloc, &mut shelf, TOPIC, 0, Sizes::new(alloc))?;
    // The body stands behind a header, a gate, a length and its kind.
    let last = 22 + (MAX_BODY - 2) as u64;
    let end = opened.read_at(&mut shelf, 0, last, 1)?;
    Ok(JournalLimits {
        longer,
        longest,
        sizes: taken.sizes,
        end,
    })
}
