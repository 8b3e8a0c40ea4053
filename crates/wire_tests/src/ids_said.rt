use anyhow::{Error, bail};
use ids::{MessageIdData, from_id, to_id};
use std::alloc::Global;

/// The id of a position, where a ledger has so many entries.
pub(crate) fn id(alloc: Global, asked: &str) -> Result<String, Error> {
    let Some((position, entries)) = asked.split_once(' ') else {
        bail!("no position and entries of a ledger: {asked}");
    };
    let entries: u32 = entries.parse()?;
    if entries == 0 {
        bail!("a ledger has an entry");
    }
    let id = to_id(position.parse()?, entries);
    Ok(format!(in alloc; "{}:{}", id.ledger_id, id.entry_id)?)
}

fn named(words: &[&str]) -> Result<MessageIdData, Error> {
    let [ledger, entry, partition, batch, ack_set @ ..] = words else {
        bail!("no ledger, entry, partition and batch index");
    };
    Ok(MessageIdData {
        ledger_id: ledger.parse()?,
        entry_id: entry.parse()?,
        partition: partition.parse()?,
        batch_index: batch.parse()?,
        has_ack_set: !ack_set.is_empty(),
    })
}

/// The position that an id names, where a ledger has so many entries.
pub(crate) fn position(alloc: Global, asked: &str) -> Result<String, Error> {
    let words: Vec<&str> = asked.split(' ').collect(alloc)?;
    let [entries, words @ ..] = words.as_slice() else {
        bail!("no entries of a ledger");
    };
    let entries: u32 = entries.parse()?;
    if entries == 0 {
        bail!("a ledger has an entry");
    }
    let position = from_id(&named(words)?, entries);
    Ok(format!(in alloc; "{position:?}")?)
}
