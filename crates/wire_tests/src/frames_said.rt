use crate::commands_said;
use anyhow::{Error, bail};
use commands::CommandFault;
use frames::{Fault, Frame, FrameEntry, Parser, PlainEntry};
use std::alloc::{AllocError, Global};

const PING: &[u8; 13] = b"\x00\x00\x00\x09\x00\x00\x00\x05\x08\x12\x92\x01\x00";

fn entry(alloc: Global, entry: &PlainEntry) -> Result<String, AllocError> {
    let bytes = hex::encode(alloc, entry.bytes.as_slice())?;
    let metadata = commands_said::meta_text(alloc, &entry.metadata)?;
    format!(in alloc; "{bytes} of {metadata}")
}

fn frame(alloc: Global, frame: &Frame) -> Result<String, AllocError> {
    let command = commands_said::text(alloc, &frame.command)?;
    match &frame.entry {
        FrameEntry::Nothing => format!(in alloc; "{command}; "),
        FrameEntry::Checksummed => format!(in alloc; "{command} with a checksum; "),
        FrameEntry::Entry(plain) => {
            let plain = entry(alloc, plain)?;
            format!(in alloc; "{command} with {plain}; ")
        }
    }
}

/// Feeds the stream in pieces of this size, up to a fault.
fn fed(
    parser: &mut Parser,
    stream: &[u8],
    size: usize,
    frames: &mut Vec<Frame>,
) -> Result<(), Fault> {
    for piece in stream.chunks(size.max(1)) {
        parser.feed(piece, frames)?;
    }
    Ok(())
}

/// Whether a whole frame and no bytes at all are answered by this fault too, and give no frame.
fn stays(parser: &mut Parser, fault: Fault, frames: &mut Vec<Frame>) -> bool {
    let count = frames.len();
    parser.feed(PING, frames) == Err(fault)
        && parser.feed(&[], frames) == Err(fault)
        && frames.len() == count
}

/// How the stream ends: in a frame that goes on or at the end of one, or by a fault.
fn end(
    alloc: Global,
    read: Result<(), Fault>,
    parser: &mut Parser,
    frames: &mut Vec<Frame>,
) -> Result<String, Error> {
    match read {
        Ok(()) => Ok(String::from_str(alloc, "and goes on")?),
        Err(Fault::NoMemory) => bail!("{}", Fault::NoMemory),
        Err(fault) => {
            if !stays(parser, fault, frames) {
                bail!("the stream goes on behind a fault: {fault}");
            }
            Ok(format!(in alloc; "{fault}")?)
        }
    }
}

/// The frames of a stream that comes in pieces of a size, and how it ends.
fn read(alloc: Global, stream: &[u8], size: usize) -> Result<String, Error> {
    let mut parser = Parser::new(alloc);
    let mut frames = Vec::new(alloc);
    let read = fed(&mut parser, stream, size, &mut frames);
    let end = end(alloc, read, &mut parser, &mut frames)?;
    let mut said = String::new(alloc);
    for next in &frames {
        said.push_str(frame(alloc, next)?.as_str())?;
    }
    said.push_str(end.as_str())?;
    Ok(said)
}

fn sized(asked: &str) -> Result<(usize, &str), Error> {
    let Some((size, stream)) = asked.split_once(' ') else {
        bail!("no size of the pieces and stream: {asked}");
    };
    Ok((size.parse()?, stream))
}

/// The frames of a stream.
pub(crate) fn frames(alloc: Global, asked: &str) -> Result<String, Error> {
    let (size, stream) = sized(asked)?;
    let stream = hex::decode(alloc, stream)?;
    read(alloc, &stream, size)
}

fn append(stream: &mut Vec<u8>, count: u32) -> Result<(), AllocError> {
    for _ in 0..count {
        stream.push(7)?;
    }
    Ok(())
}

/// The frames of a stream that ends with so many bytes of 7.
pub(crate) fn long(alloc: Global, asked: &str) -> Result<String, Error> {
    let (size, asked) = sized(asked)?;
    let Some((stream, count)) = asked.split_once(' ') else {
        bail!("no stream and count: {asked}");
    };
    let mut stream = hex::decode(alloc, stream)?;
    append(&mut stream, count.parse()?)?;
    read(alloc, &stream, size)
}

/// What is printed of want of memory, which no bytes show.
pub(crate) fn want_of_memory(alloc: Global) -> Result<String, Error> {
    let fault = CommandFault::NoMemory;
    Ok(format!(in alloc; "{fault}, {}", Fault::NoMemory)?)
}
