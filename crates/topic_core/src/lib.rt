//! One topic: its producers, the entries that wait for a flush, its subscriptions, and the replies that it owes to its sessions.
//! Each call moves an abstract topic by one step that is stated whole: which refusal is answered, which effect is had, and that want of memory changes nothing.
//! A receipt is due only after the flush that committed its entry, and receipts never outnumber the committed entries.
//! A message is the committed entry of a position that its consumer was admitted to, and the answer to a SUBSCRIBE, an
//! UNSUBSCRIBE or an ACK is due only after the flush that made its changes durable, and a closed producer's id and name are
//! taken until the flush that answers it. A crash at any moment of a flush leaves all its entries and
//! changes, its entries, or nothing of it; a failure of the device fails the topic until it is opened again.
#![tactic(auto)]

mod activity;
mod closing;
mod command;
mod consuming;
mod dispatch;
mod durable;
mod flush;
mod found_entries;
mod id_counts;
mod laws;
mod making;
mod messages;
mod name_counts;
mod opening;
mod producer;
mod producer_counts;
mod producers;
mod read_at;
mod recent;
mod redelivering;
mod slots;
mod summary;
mod topic;
mod unsubscribing;

pub use activity::Activity;
pub use command::{Answer, PlainEntry, Send, SentEntry, Subscribe, TopicCommand};
pub use dispatch::{AtHand, Outgoing};
pub use laws::{
    answers_are_no_receipts, answers_fit, commands_hand_out_nothing, entries_are_published,
    flushes_commit, flushes_keep, ids_are_positions, messages_are_admitted, messages_are_counted,
    messages_go_to_their_ranges, receipts_are_covered, stays_sound, topics_go_on,
};
pub use permits::TooManyPermits;
pub use producer::{Producer, ProducerState};
pub use read_at::ReadAt;
pub use summary::TopicSummary;
pub use topic::TopicCore;
pub use topic_stores::{Batch, FileStores, ReadError, TopicStore, TopicStores, WriteError};
