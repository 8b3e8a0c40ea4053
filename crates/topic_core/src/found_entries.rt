// The entries of a topic that is opened.
ghost use Rattle.std.specs.Prelude.{◌≡◌, map};
ghost use Rattle.managed_ledger.specs.Entries.{whole};
ghost use Rattle.topic_core.specs.Messages.{messages_of_entry};
ghost use Rattle.topic_core.specs.Slots.{slot_of_entry};

use crate::durable::Durable;
use crate::messages::messages_of_meta;
use crate::slots::slot_of_meta;
use commands::MessageMeta;
use managed_ledger::EntryFold;
use std::alloc::AllocError;
use subscriptions::EntryMarks;

/// What takes the entries of an opening: it keeps the slot of each and how many messages it has, and for proofs the entries.
#[derive(Drop)]
pub(crate) struct FoundEntries {
    pub(crate) marks: EntryMarks,
    pub(crate) durable: Durable,
}

impl EntryFold for FoundEntries {
    ghost holds = { λ found entries. (found.durable.ledger ≡ whole entries) × (found.marks ≡ record { slots = map slot_of_entry entries; messages = map messages_of_entry entries }) };

    fn entry(&mut self, entry: &[u8], metadata: &MessageMeta) -> Result<(), AllocError> {
        self.marks
            .push(slot_of_meta(metadata), messages_of_meta(metadata))?;
        self.durable = self.durable.and_entry(entry);
        Ok(())
    }
}
