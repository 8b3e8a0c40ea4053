//! The work that `bench/frames`, `bench/ledger` and `bench/reopen` run; it times nothing and weighs nothing itself. The words on
//! its command line are a piece of work and two numbers. `frames`, with MiB and bytes: feeds a parser a stream of so many MiB, in
//! pieces of so many bytes, and prints how many frames came out. `topic`, with entries and records: opens the store of a topic that
//! has so many, and prints what that asked of the device. All others, with how many entries a managed ledger on a device in memory
//! gets, and how many of them an append adds: `append` prints the last append's calls of the device; `open` and `read` those of
//! opening the ledger again, and of reading its first, its middle and its last entry; `keep` ends with the ledger open once,
//! `twice` with two of it.
#![tactic(auto)]

mod counted;
mod filled;
mod ledger;
mod stream;
mod topic;

use anyhow::{Context, Error, bail};
use std::env;

fn main(rt: HostRuntime) -> Result<(), Error> {
    let words: Vec<String> = env::args(&rt)?.skip(1).collect(rt.alloc())?;
    let [work, first, second] = words.as_slice() else {
        bail!("give a piece of work and two numbers");
    };
    let first: u64 = first.parse().context("the first number")?;
    let second: u64 = second.parse().context("the second number")?;
    if work.as_str() == "frames" {
        let count = stream::frames_of(rt.alloc(), first, second)?;
        println!(rt; "{count} frames")?;
        return Ok(());
    }
    if work.as_str() == "topic" {
        return topic::work(&rt, first, second);
    }
    ledger::work(&rt, work.as_str(), first, second)
}
