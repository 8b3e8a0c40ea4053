//! Prints what an opening of a topic's store answers, over files that are laid on a device in memory, changed and cut: a line of
//! standard input asks, and a line of standard output answers. They stand in the files stdin and stdout, and `tests/openings.py`
//! computes the same answers by a plain reader of the files.
#![tactic(auto)]

mod answer;
mod changes;
mod folder;
mod reading;
mod taken;

use anyhow::Error;
use folder::Folder;
use std::alloc::Global;

/// What is answered to a line: a word, and behind a space what it asks. An empty line and a title stay as they are.
fn said(alloc: Global, folder: &mut Folder, line: &str) -> Result<String, Error> {
    let (word, asked) = line.split_once(' ').unwrap_or((line, ""));
    match word {
        "" | "#" => Ok(String::from_str(alloc, line)?),
        "open" => answer::opening(alloc, folder, asked),
        _ => folder::lay(alloc, folder, word, asked),
    }
}

fn main(rt: HostRuntime) -> Result<(), Error> {
    let mut folder = Folder::new(rt.alloc(), 1);
    for line in rt.lines(rt.alloc()) {
        let line = line?;
        let answer = said(rt.alloc(), &mut folder, line.as_str())?;
        println!(rt; "{answer}")?;
    }
    Ok(())
}
