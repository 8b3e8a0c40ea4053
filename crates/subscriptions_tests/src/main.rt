//! Prints what a cursor, what is held, the modes of dispatch and the subscriptions of a topic answer: a line of standard input
//! asks, and a line of standard output answers. They stand in the files stdin and stdout, and `tests/subscriptions.py` computes
//! the same answers by a plain model of sets and lists.
#![tactic(auto)]

mod consumers;
mod cursors;
mod held;
mod modes;
mod reading;
mod told;
mod topic;

use anyhow::Error;
use cursor::Cursor;
use holds::Holds;
use modes::Bench;
use std::alloc::Global;
use std::io;
use topic::Topic;

/// What lines ask.
#[derive(Drop)]
struct Asked {
    topic: Topic,
    cursor: Cursor,
    held: Holds,
    bench: Bench,
}

/// What is answered to a line: a word, and behind a space what it asks. An empty line and a title stay as they are.
fn said(alloc: Global, all: &mut Asked, line: &str) -> Result<String, Error> {
    let (word, asked) = line.split_once(' ').unwrap_or((line, ""));
    match word {
        "" | "#" => Ok(String::from_str(alloc, line)?),
        "cursor" => cursors::answer(alloc, &mut all.cursor, asked),
        "held" => held::answer(alloc, &mut all.held, asked),
        "mode" => modes::answer(&mut all.bench, asked),
        "slot" => modes::slot_of(alloc, asked),
        _ => topic::answer(&mut all.topic, word, asked),
    }
}

/// The same of a line that was read.
fn answer(
    alloc: Global,
    all: &mut Asked,
    line: Result<String, io::Error>,
) -> Result<String, Error> {
    let line = line?;
    said(alloc, all, line.as_str())
}

fn main(rt: HostRuntime) -> Result<(), Error> {
    let mut all = Asked {
        topic: Topic::new(rt.alloc()),
        cursor: Cursor::new(rt.alloc()),
        held: Holds::new(rt.alloc()),
        bench: Bench::new(rt.alloc()),
    };
    for line in rt.lines(rt.alloc()) {
        let answer = match answer(rt.alloc(), &mut all, line) {
            Ok(answer) => answer,
            Err(error) => {
                drop(all);
                return Err(error);
            }
        };
        if let Err(error) = println!(rt; "{answer}") {
            drop(all);
            return Err(Error::from(error));
        }
    }
    drop(all);
    Ok(())
}
