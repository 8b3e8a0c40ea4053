ghost use Rattle.std.specs.Prelude.{◌≡◌};
ghost use Rattle.proto_fields.specs.Fields.{IsFieldNumber};
ghost use Rattle.commands.specs.Replies.{reply_type};

use crate::reply_text::ReplyText;
use crate::server_error::ServerError;
use ids::MessageId;

/// What the broker answers.
#[derive(Drop)]
pub enum Reply {
    Connected,
    SendReceipt {
        producer_id: u64,
        sequence_id: u64,
        message_id: MessageId,
    },
    SendError {
        producer_id: u64,
        sequence_id: u64,
        error: ServerError,
    },
    /// The entry stands behind it.
    Message {
        consumer_id: u64,
        message_id: MessageId,
        redelivery_count: u32,
    },
    Success {
        request_id: u64,
    },
    Error {
        request_id: u64,
        error: ServerError,
    },
    ProducerSuccess {
        request_id: u64,
        producer_name: ReplyText,
    },
    Pong,
    /// A topic has no partitions, or is refused.
    PartitionedMetadataResponse {
        request_id: u64,
        error: Option<ServerError>,
    },
    /// The URL of the broker that serves a topic, which a client then connects to; or the topic is refused.
    LookupResponse {
        request_id: u64,
        service_url: Result<ReplyText, ServerError>,
    },
    AckResponse {
        consumer_id: u64,
        error: Option<ServerError>,
        request_id: u64,
    },
}

impl Reply {
    /// The type of the reply (PulsarApi.proto, BaseCommand.Type).
    pub fn kind(&self) -> u32
        ensures value { result ≡ reply_type self.now }
        ensures field { IsFieldNumber result }
    {
        match self {
            Reply::Connected => 3,
            Reply::SendReceipt { .. } => 7,
            Reply::SendError { .. } => 8,
            Reply::Message { .. } => 9,
            Reply::Success { .. } => 13,
            Reply::Error { .. } => 14,
            Reply::ProducerSuccess { .. } => 17,
            Reply::Pong => 19,
            Reply::PartitionedMetadataResponse { .. } => 22,
            Reply::LookupResponse { .. } => 24,
            Reply::AckResponse { .. } => 38,
        }
    }
}
