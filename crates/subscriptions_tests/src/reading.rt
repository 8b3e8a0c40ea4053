// What the words of a line spell.
ghost use Rattle.std.specs.Prelude.{◌^◌, ◌<◌, ◌≤◌, IfOk};

use anyhow::{Error, bail};
use holds::{ConsumerKey, SlotRange};
use std::alloc::Global;
use subscriptions::{InitialPosition, Mode};

/// The words behind the first one.
pub(crate) fn words<'a>(alloc: Global, asked: &'a str) -> Result<Vec<&'a str>, Error> {
    if asked.is_empty() {
        return Ok(Vec::new(alloc));
    }
    Ok(asked.split(' ').collect(alloc)?)
}

/// A position, or a place behind the last one.
pub(crate) fn place(word: &str) -> Result<u64, Error>
    ensures { IfOk result (λ place. place ≤ 2 ^ 62) }
{
    let place: u64 = word.parse()?;
    if place > 1 << 62 {
        bail!("no position is as high as {word}");
    }
    Ok(place)
}

pub(crate) fn position(word: &str) -> Result<u64, Error>
    ensures { IfOk result (λ position. position < 2 ^ 62) }
{
    let position: u64 = word.parse()?;
    if position >= 1 << 62 {
        bail!("no position is as high as {word}");
    }
    Ok(position)
}

/// A session and an id there, with a dot between.
pub(crate) fn key(word: &str) -> Result<ConsumerKey, Error> {
    let Some((session, id)) = word.split_once('.') else {
        bail!("no session and id of a consumer: {word}");
    };
    Ok(ConsumerKey {
        session: session.parse()?,
        id: id.parse()?,
    })
}

/// The slot of an entry, and how many messages it has: one, but for a number behind an "x".
pub(crate) fn mark(word: &str) -> Result<(u16, u32), Error>
    ensures some { IfOk result (λ mark. 0 < mark.1) }
    ensures few { IfOk result (λ mark. mark.1 ≤ 1048576) }
{
    let Some((slot, messages)) = word.split_once('x') else {
        return Ok((word.parse()?, 1));
    };
    let messages: u32 = messages.parse()?;
    if messages == 0 || messages > 1_048_576 {
        bail!("no entry has so many messages: {word}");
    }
    Ok((slot.parse()?, messages))
}

pub(crate) fn mode(word: &str) -> Result<Mode, Error> {
    match word {
        "Exclusive" => Ok(Mode::Exclusive),
        "Failover" => Ok(Mode::Failover),
        "Shared" => Ok(Mode::Shared),
        "KeyShared" => Ok(Mode::KeyShared),
        _ => bail!("no mode has the name {word}"),
    }
}

pub(crate) fn initial(word: &str) -> Result<InitialPosition, Error> {
    match word {
        "Latest" => Ok(InitialPosition::Latest),
        "Earliest" => Ok(InitialPosition::Earliest),
        _ => bail!("no subscription begins at {word}"),
    }
}

fn range(word: &str) -> Result<SlotRange, Error> {
    let Some((start, end)) = word.split_once('-') else {
        bail!("no start and end of a range: {word}");
    };
    Ok(SlotRange {
        start: start.parse()?,
        end: end.parse()?,
    })
}

/// A range of each word.
pub(crate) fn ranges(alloc: Global, words: &[&str]) -> Result<Vec<SlotRange>, Error> {
    let mut ranges = Vec::new(alloc);
    for word in words {
        ranges.push(range(word)?)?;
    }
    Ok(ranges)
}

/// A number of each word.
pub(crate) fn numbers(alloc: Global, words: &[&str]) -> Result<Vec<u64>, Error> {
    let mut numbers = Vec::new(alloc);
    for word in words {
        numbers.push(word.parse()?)?;
    }
    Ok(numbers)
}
