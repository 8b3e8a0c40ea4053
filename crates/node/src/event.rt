use crate::octets::Octets;
use gated_log::Refusal;
use session::Fault;

/// What comes to a node. Sessions and topics go by their numbers, which count from 0.
#[derive(Drop)]
pub enum Event {
    /// A client connects, and its session takes the next number.
    Open,
    /// Bytes of a session's client come, cut anywhere.
    Bytes(u64, Octets),
    /// A session collects the replies that are due to it, and then messages.
    Pump(u64),
    /// A session's client is gone.
    Close(u64),
    /// An event of one topic comes.
    OnTopic(u64, TopicEvent),
}

/// What comes to one topic.
#[derive(Clone, Copy)]
pub enum TopicEvent {
    /// What waits is to be committed.
    Flush,
    /// A flush in parts begins: a batch of what waits is taken, where no flush is under way.
    Take,
    /// The batch that was taken is to be written.
    Write,
    /// The flush whose batch was written ends as its write did.
    Finish,
    /// Where the topic failed it is to be opened again.
    Reopen,
}

/// How an event went.
#[derive(Clone, Copy, Debug, PartialEq, Eq)]
pub enum Verdict {
    Done,
    /// The session ended by this fault, and has left.
    Ended(Fault),
    /// A store refused. For want of memory nothing changed; a failure of the device fails the topic that was flushed.
    Refused(Refusal),
    /// No session can be opened, and nothing changed.
    Full,
    /// There is no such session, topic or batch, and nothing changed.
    Unknown,
}

/// What a node answers to an event.
#[derive(Drop)]
pub struct Output {
    /// For the client of the event's session.
    pub bytes: Octets,
    pub result: Verdict,
}

/// What happens to a machine: an event of its node, or the power is cut and comes back.
#[derive(Drop)]
pub enum Happening {
    Event(Event),
    Crash,
}
