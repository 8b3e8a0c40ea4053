//! Prints what the crates of the wire make of bytes: a line of standard input asks, and a line of standard output answers. They
//! stand in the files stdin and stdout, and `tests/wire.py` computes the same answers from the pages of the protocol.
#![tactic(auto)]

mod commands_said;
mod fields_said;
mod frames_said;
mod ids_said;
mod replies_said;

use anyhow::{Error, bail};
use std::alloc::Global;

/// What is answered to a line: a word, and behind a space what it asks. An empty line and a title stay as they are.
fn said(alloc: Global, line: &str) -> Result<String, Error> {
    let (word, asked) = line.split_once(' ').unwrap_or((line, ""));
    match word {
        "" | "#" => Ok(String::from_str(alloc, line)?),
        "fields" => fields_said::fields(alloc, &hex::decode(alloc, asked)?),
        "varint" => fields_said::varint(alloc, asked),
        "number" => fields_said::number(alloc, asked),
        "bytes" => fields_said::bytes(alloc, asked),
        "command" => commands_said::command(alloc, &hex::decode(alloc, asked)?),
        "metadata" => commands_said::metadata(alloc, &hex::decode(alloc, asked)?),
        "entry" => commands_said::entry(alloc, &hex::decode(alloc, asked)?),
        "size" => commands_said::size(alloc, &hex::decode(alloc, asked)?),
        "stream" => frames_said::frames(alloc, asked),
        "long" => frames_said::long(alloc, asked),
        "memory" => frames_said::want_of_memory(alloc),
        "id" => ids_said::id(alloc, asked),
        "position" => ids_said::position(alloc, asked),
        "reply" => replies_said::reply(alloc, asked),
        "error" => replies_said::error(alloc, asked),
        _ => bail!("no line begins with the word {word}"),
    }
}

fn main(rt: HostRuntime) -> Result<(), Error> {
    for line in rt.lines(rt.alloc()) {
        let line = line?;
        println!(rt; "{}", said(rt.alloc(), line.as_str())?)?;
    }
    Ok(())
}
