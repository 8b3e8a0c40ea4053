ghost use Rattle.std.specs.Prelude.{◌≡◌, ◌≤◌, length};
ghost use Rattle.commands.specs.Replies.{error_code, error_name};

/// The errors that replies tell (PulsarApi.proto, ServerError).
#[derive(Clone, Copy, Debug, PartialEq, Eq)]
pub enum ServerError {
    PersistenceError,
    ConsumerBusy,
    ChecksumError,
    ConsumerNotFound,
    TooManyRequests,
    ProducerBusy,
    InvalidTopicName,
    ConsumerAssignError,
    NotAllowedError,
}

impl ServerError {
    /// The number of the error.
    pub fn code(self) -> u64
        ensures { result ≡ error_code self }
    {
        match self {
            ServerError::PersistenceError => 2,
            ServerError::ConsumerBusy => 5,
            ServerError::ChecksumError => 9,
            ServerError::ConsumerNotFound => 13,
            ServerError::TooManyRequests => 14,
            ServerError::ProducerBusy => 16,
            ServerError::InvalidTopicName => 17,
            ServerError::ConsumerAssignError => 19,
            ServerError::NotAllowedError => 22,
        }
    }

    /// The name of the error.
    pub fn name(self) -> &'static str
        ensures value { result.now ≡ error_name self }
        ensures short { length result.now ≤ 20 }
    {
        match self {
            ServerError::PersistenceError => "PersistenceError",
            ServerError::ConsumerBusy => "ConsumerBusy",
            ServerError::ChecksumError => "ChecksumError",
            ServerError::ConsumerNotFound => "ConsumerNotFound",
            ServerError::TooManyRequests => "TooManyRequests",
            ServerError::ProducerBusy => "ProducerBusy",
            ServerError::InvalidTopicName => "InvalidTopicName",
            ServerError::ConsumerAssignError => "ConsumerAssignError",
            ServerError::NotAllowedError => "NotAllowedError",
        }
    }
}
