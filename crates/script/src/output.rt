ghost use Rattle.std.specs.Prelude.{◌≡◌, IfOk, string_bytes};
ghost use Rattle.script.specs.Output.{output_line as line_of_output, hex_or_dash as text_of_bytes, word_of_outcome, word_of_fault, word_of_refusal};

use std::alloc::{AllocError, Global};

/// A fault that ended a session, `F1` to `F9` in this order.
#[derive(Clone, Copy, Debug, PartialEq, Eq)]
pub enum SessionFault {
    TooLarge,
    BadSizes,
    Unreadable,
    Missing,
    BadPayload,
    UnknownCommand,
    OutOfTurn,
    TooManyPermits,
    NoMemory,
}

/// A refusal of the stores, `S1` to `S6` in this order.
#[derive(Clone, Copy, Debug, PartialEq, Eq)]
pub enum StorageRefusal {
    /// The device failed.
    Device,
    /// A file holds bytes that no crash leaves.
    Damaged,
    NotInitialised,
    /// A file is of another version.
    Version,
    /// Memory was refused, and nothing changed.
    NoMemory,
    /// A batch is too large, and nothing changed.
    TooLarge,
}

/// How an event ended.
#[derive(Clone, Copy, Debug, PartialEq, Eq)]
pub enum Outcome {
    Done,
    /// The session of the event ended.
    Ended(SessionFault),
    Refused(StorageRefusal),
    /// No more sessions are taken.
    Full,
    /// No such session or topic; nothing changed.
    Unknown,
}

impl SessionFault {
    /// The fault as a printed line names it.
    pub fn as_str(self) -> &'static str
        ensures { result.now ≡ word_of_fault self }
    {
        match self {
            SessionFault::TooLarge => "F1",
            SessionFault::BadSizes => "F2",
            SessionFault::Unreadable => "F3",
            SessionFault::Missing => "F4",
            SessionFault::BadPayload => "F5",
            SessionFault::UnknownCommand => "F6",
            SessionFault::OutOfTurn => "F7",
            SessionFault::TooManyPermits => "F8",
            SessionFault::NoMemory => "F9",
        }
    }
}

impl StorageRefusal {
    /// The refusal as a printed line names it.
    pub fn as_str(self) -> &'static str
        ensures { result.now ≡ word_of_refusal self }
    {
        match self {
            StorageRefusal::Device => "S1",
            StorageRefusal::Damaged => "S2",
            StorageRefusal::NotInitialised => "S3",
            StorageRefusal::Version => "S4",
            StorageRefusal::NoMemory => "S5",
            StorageRefusal::TooLarge => "S6",
        }
    }
}

impl Outcome {
    /// The ending as a printed line names it: `ok`, the session's fault, the stores' refusal, `full` or `none`.
    pub fn as_str(self) -> &'static str
        ensures { result.now ≡ word_of_outcome self }
    {
        match self {
            Outcome::Done => "ok",
            Outcome::Ended(why) => why.as_str(),
            Outcome::Refused(why) => why.as_str(),
            Outcome::Full => "full",
            Outcome::Unknown => "none",
        }
    }
}

/// The line that a replay prints of one event. Our own rule: its number, counted from 1, the bytes out in lower-case
/// hex or `-` for none, and how it ended, one space apart, and a line feed.
pub fn output_line(
    alloc: Global,
    number: u64,
    bytes: &[u8],
    outcome: Outcome,
) -> Result<String, AllocError>
    ensures { IfOk result (λ line. string_bytes line ≡ line_of_output number bytes.now outcome) }
{
    let hex = hex_or_dash(alloc, bytes)?;
    let word = outcome.as_str();
    format!(in alloc; "{number} {hex} {word}\n")
}

fn hex_or_dash(alloc: Global, bytes: &[u8]) -> Result<String, AllocError>
    ensures { IfOk result (λ text. string_bytes text ≡ text_of_bytes bytes.now) }
{
    if bytes.is_empty() {
        return String::from_str(alloc, "-");
    }
    hex::encode(alloc, bytes)
}
