// What the words of a line spell, and how answers are spelled.

use anyhow::{Error, bail};
use disk::{CATALOG, CrashForm, CursorSlot, FileId, Folder, TopicId};
use gated_log::Start;
use std::alloc::{AllocError, Global};

/// The topic whose files there are.
pub(crate) const TOPIC: TopicId = TopicId {
    folder: Folder::Two,
    number: 3,
};

pub(crate) fn words<'a>(alloc: Global, asked: &'a str) -> Result<Vec<&'a str>, AllocError> {
    asked.split(' ').collect(alloc)
}

/// The bytes of hex digits; `-` is none.
pub(crate) fn bytes(alloc: Global, word: &str) -> Result<Vec<u8>, Error> {
    if word == "-" {
        return Ok(Vec::new(alloc));
    }
    Ok(hex::decode(alloc, word)?)
}

/// Bytes as hex digits; `-` where there are none.
pub(crate) fn spelled(alloc: Global, bytes: &[u8]) -> Result<String, AllocError> {
    if bytes.is_empty() {
        return String::from_str(alloc, "-");
    }
    hex::encode(alloc, bytes)
}

pub(crate) fn slot(slot: CursorSlot) -> FileId {
    FileId::Slot { topic: TOPIC, slot }
}

/// A file: `catalog`, a slot `c0` or `c1`, or a segment, as `e12`.
pub(crate) fn file(word: &str) -> Result<FileId, Error> {
    match word.split_once('e') {
        Some(("", number)) => Ok(FileId::Segment {
            topic: TOPIC,
            number: number.parse()?,
        }),
        _ => match word {
            "c0" => Ok(slot(CursorSlot::Zero)),
            "c1" => Ok(slot(CursorSlot::One)),
            "catalog" => Ok(CATALOG),
            _ => bail!("no file is called {word}"),
        },
    }
}

/// A form of a crash: `old`, `new`, or the byte of all that may be anything.
pub(crate) fn form(alloc: Global, word: &str) -> Result<CrashForm, Error> {
    match word {
        "old" => Ok(CrashForm::Old),
        "new" => Ok(CrashForm::New),
        _ => match bytes(alloc, word)?.as_slice() {
            [byte] => Ok(CrashForm::Fill(*byte)),
            _ => bail!("no form of a crash is {word}"),
        },
    }
}

/// Whether a store works or has failed.
pub(crate) fn standing(is_failed: bool) -> &'static str {
    if is_failed { "failed" } else { "works" }
}

pub(crate) fn yes(is: bool) -> &'static str {
    if is { "yes" } else { "no" }
}

/// Puts a position and the number of a segment, or that there is none.
pub(crate) fn tell_start(
    alloc: Global,
    start: Option<Start>,
    said: &mut String,
) -> Result<(), Error> {
    let Some(Start { base, first }) = start else {
        return Ok(said.push_str("none")?);
    };
    Ok(said.push_str(format!(in alloc; "{base} {first}")?.as_str())?)
}
