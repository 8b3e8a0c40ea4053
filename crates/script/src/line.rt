ghost use Rattle.script.specs.Reading.{ReadsLine, ReadsBytes, line_of, hex_of, byte_of, bytes_line_of, crash_as_of, numbered_line_of, event_of, init_of};
ghost use Rattle.std.specs.Prelude.{◌≡◌};

use crate::number::read_number;
use crate::sequence::Sequence;
use crate::text::{after, around};
use hex::{FromHex, FromHexError};
use std::alloc::Global;

/// What a crash leaves of the device's files.
#[derive(Clone, Copy, Debug, PartialEq, Eq)]
pub enum CrashAs {
    /// `old`: what the last good sync of each left.
    Old,
    /// `new`: what reads gave.
    New,
    /// `fill HH`: this byte, two hex digits in either case, wherever a byte may be anything, and each file as long as it may be.
    Fill(u8),
}

/// One event of a script, and the line that says it. Our own rule: words one space apart, sessions and topics by their
/// numbers, which count from 0, in decimal. A device call is a write, a cut or a sync; they count from 1, and number 0
/// never comes.
#[derive(Drop)]
pub enum Line {
    /// `open`: a client connects, and its session takes the next number.
    Open,
    /// `bytes S HEX`: bytes of a session's client come, one or more, two hex digits a byte in either case.
    Bytes { session: u64, bytes: Sequence<u8> },
    /// `pump S`: a session collects what is due to it.
    Pump(u64),
    /// `close S`: a session's client is gone.
    Close(u64),
    /// `flush T`: what waits on a topic is to be committed.
    Flush(u64),
    /// `take T`: a flush of a topic begins that comes in parts: a batch of what waits is taken.
    Take(u64),
    /// `write T`: the batch that was taken is written.
    Write(u64),
    /// `finish T`: that flush ends as its write did.
    Finish(u64),
    /// `fail K`: this device call from now fails, once.
    Fail(u64),
    /// `stop K`: this device call from now and all later ones fail, until the next crash.
    Stop(u64),
    /// `failread K`: this read from now fails, once. Reads are counted by themselves, from 1.
    FailRead(u64),
    /// `crash old`, `crash new` or `crash fill HH`: the power is cut, and the node starts again.
    Crash(CrashAs),
    /// `reopen T`: a topic's files are opened again.
    Reopen(u64),
    /// `status`: the status lines are to be printed.
    Status,
}

/// Why a line isn't read.
#[derive(Clone, Copy, Debug, PartialEq, Eq)]
pub enum LineFault {
    /// It is no line of a script.
    Bad,
    NoMemory,
}

const MOST_ENTRIES_A_LEDGER: u64 = 50_000;

/// How many entries a ledger has, where the text is the first line of a script.
#[tactic(auto, unfolding(crate::specs::Reading::init_of))]
pub(crate) fn read_init(text: &[u8]) -> Option<u64>
    ensures { result ≡ init_of text.now }
{
    let per_ledger = read_number(after(b"init ", text)?)?;
    if per_ledger < 1 || MOST_ENTRIES_A_LEDGER < per_ledger {
        return None;
    }
    Some(per_ledger)
}

/// The event of a further line.
#[tactic(auto, unfolding(crate::specs::Reading::line_of))]
pub(crate) fn read_line(alloc: Global, text: &[u8]) -> Result<Line, LineFault>
    ensures { ReadsLine result (line_of text.now) }
{
    if text == b"open".as_slice() {
        return Ok(Line::Open);
    }
    if text == b"status".as_slice() {
        return Ok(Line::Status);
    }
    if let Some(words) = after(b"bytes ", text) {
        return read_bytes_line(alloc, words);
    }
    if let Some(words) = after(b"crash ", text) {
        return Ok(Line::Crash(read_crash_as(words).ok_or(LineFault::Bad)?));
    }
    read_numbered_line(text).ok_or(LineFault::Bad)
}

#[tactic(auto, unfolding(crate::specs::Reading::numbered_line_of))]
// A word, one space and a number.
fn read_numbered_line(text: &[u8]) -> Option<Line>
    ensures { result ≡ numbered_line_of text.now }
{
    let (word, number) = around(b' ', text)?;
    event(word, read_number(number)?)
}

// The event of a word and a number.
fn event(word: &[u8], number: u64) -> Option<Line>
    ensures { result ≡ event_of word.now number }
{
    if word == b"pump".as_slice() {
        return Some(Line::Pump(number));
    }
    if word == b"close".as_slice() {
        return Some(Line::Close(number));
    }
    if word == b"flush".as_slice() {
        return Some(Line::Flush(number));
    }
    if word == b"take".as_slice() {
        return Some(Line::Take(number));
    }
    if word == b"write".as_slice() {
        return Some(Line::Write(number));
    }
    if word == b"finish".as_slice() {
        return Some(Line::Finish(number));
    }
    if word == b"fail".as_slice() {
        return Some(Line::Fail(number));
    }
    if word == b"stop".as_slice() {
        return Some(Line::Stop(number));
    }
    if word == b"failread".as_slice() {
        return Some(Line::FailRead(number));
    }
    if word == b"reopen".as_slice() {
        return Some(Line::Reopen(number));
    }
    None
}

#[tactic(auto, unfolding(crate::specs::Reading::crash_as_of))]
fn read_crash_as(text: &[u8]) -> Option<CrashAs>
    ensures { result ≡ crash_as_of text.now }
{
    if text == b"old".as_slice() {
        return Some(CrashAs::Old);
    }
    if text == b"new".as_slice() {
        return Some(CrashAs::New);
    }
    let byte = read_byte(after(b"fill ", text)?)?;
    Some(CrashAs::Fill(byte))
}

#[tactic(auto, unfolding(crate::specs::Reading::byte_of))]
// Two hex digits.
fn read_byte(text: &[u8]) -> Option<u8>
    ensures { result ≡ byte_of text.now }
{
    let [byte] = <[u8; 1] as FromHex>::from_hex(text).ok()?;
    Some(byte)
}

#[tactic(auto, unfolding(crate::specs::Reading::bytes_line_of))]
// A session's number, one space and hex.
fn read_bytes_line(alloc: Global, words: &[u8]) -> Result<Line, LineFault>
    ensures { ReadsLine result (bytes_line_of words.now) }
{
    let (number, hex) = around(b' ', words).ok_or(LineFault::Bad)?;
    let session = read_number(number).ok_or(LineFault::Bad)?;
    let bytes = read_hex(alloc, hex)?;
    Ok(Line::Bytes { session, bytes })
}

#[tactic(auto, unfolding(crate::specs::Reading::hex_of))]
fn read_hex(alloc: Global, text: &[u8]) -> Result<Sequence<u8>, LineFault>
    ensures { ReadsBytes result (hex_of text.now) }
{
    if text.is_empty() {
        return Err(LineFault::Bad);
    }
    match hex::decode(alloc, text) {
        Ok(bytes) => Ok(Sequence::new(bytes)),
        Err(FromHexError::OutOfMemory) => Err(LineFault::NoMemory),
        Err(
            FromHexError::InvalidHexCharacter { .. }
            | FromHexError::OddLength
            | FromHexError::InvalidStringLength,
        ) => Err(LineFault::Bad),
    }
}
