//! What a client's command says is the value of its bytes under the field tables of PulsarApi.proto, and bytes that
//! have none are refused for just that reason. The same holds of an entry's metadata. Each reply has one
//! spelling, which is appended whole or not at all.
#![tactic(auto)]

mod command;
mod connection;
mod consuming;
mod content;
mod fault;
mod giving_back;
mod held;
mod key_shared;
mod kinds;
mod laws;
mod lookup;
mod message;
mod message_ids;
mod metadata;
mod producing;
mod reply;
mod reply_text;
mod sequence;
mod server_error;
mod text;
mod writing;

pub use command::{Command, read_command};
pub use connection::Connect;
pub use consuming::{
    Ack, AckType, Flow, InitialPosition, Subscribe, SubscriptionType, Unsubscribe,
};
pub use fault::CommandFault;
pub use giving_back::{CloseConsumer, Redeliver};
pub use ids::{MessageId, MessageIdData};
pub use key_shared::{IntRange, KeySharedMeta, KeySharedMode};
pub use laws::{reads_commands, reads_entries, reads_occurrences, spells_fields, tells_replies};
pub use lookup::{LookupTopic, PartitionedTopicMetadata};
pub use metadata::{MessageMeta, read_entry, read_meta, size_at};
pub use producing::{CloseProducer, Producer, Send};
pub use reply::Reply;
pub use reply_text::ReplyText;
pub use sequence::Sequence;
pub use server_error::ServerError;
pub use text::Text;
pub use writing::write_reply;
