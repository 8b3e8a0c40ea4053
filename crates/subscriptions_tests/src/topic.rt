// The subscriptions of a topic, and the lines that ask them.
ghost use Rattle.std.specs.Prelude.{◌≤◌, OnOk, length};

use crate::{consumers, reading, told};
use anyhow::{Error, bail};
use holds::{Consumer as Seat, SlotRanges};
use permits::{BothEnds, Fresh, Gauge};
use std::alloc::{AllocError, Global};
use subscriptions::{InitialPosition, Mode, Refusal, Subscriptions};

/// The subscriptions of a topic of which so many entries are committed.
#[derive(Drop)]
pub(crate) struct Topic {
    pub(crate) alloc: Global,
    pub(crate) subs: Subscriptions<BothEnds>,
    pub(crate) committed: u32,
}

impl Topic {
    pub(crate) fn new(alloc: Global) -> Topic {
        Topic {
            alloc,
            subs: Subscriptions::new(alloc),
            committed: 0,
        }
    }
}

/// Adds so many entries of one message and slot 0, so that each committed one is known. What stands behind them nobody gets.
pub(crate) fn add_entries<G: Gauge>(
    subs: &mut Subscriptions<G>,
    count: u32,
) -> Result<(), AllocError>
    ensures { OnOk result ((count ≤ length subs.new.slots) × (count ≤ length subs.new.messages)) }
{
    for i in 0..count {
        subs.add_mark(0, 1)?;
    }
    Ok(())
}

/// Attaches a consumer without permits where nothing is against it.
fn attach(
    topic: &mut Topic,
    name: &str,
    mode: Mode,
    seat: Seat,
    initial: InitialPosition,
) -> Result<Option<Refusal>, AllocError> {
    let refusal = topic.subs.refusal(name, mode, seat.ranges.as_slice());
    if refusal.is_some() {
        return Ok(refusal);
    }
    let gauge = BothEnds::fresh(topic.alloc, &mut None)?;
    let committed = u64::from(topic.committed);
    topic
        .subs
        .attach(name, mode, seat, gauge, initial, 0, committed)?;
    Ok(None)
}

fn seat(alloc: Global, key: &str, ranges: &[&str]) -> Result<Seat, Error> {
    Ok(Seat {
        key: reading::key(key)?,
        ranges: SlotRanges::new(reading::ranges(alloc, ranges)?),
    })
}

fn subscribe(topic: &mut Topic, asked: &[&str]) -> Result<String, Error> {
    let [name, mode, key, initial, ranges @ ..] = asked else {
        bail!("no name, mode, consumer and initial position");
    };
    let seat = seat(topic.alloc, key, ranges)?;
    if topic.subs.has_consumer(seat.key) {
        return Ok(String::from_str(topic.alloc, "attached")?);
    }
    let (mode, initial) = (reading::mode(mode)?, reading::initial(initial)?);
    let refusal = attach(topic, name, mode, seat, initial)?;
    Ok(format!(in topic.alloc; "{refusal:?}")?)
}

fn refusal(topic: &Topic, asked: &[&str]) -> Result<String, Error> {
    let [name, mode, ranges @ ..] = asked else {
        bail!("no name and mode");
    };
    let ranges = reading::ranges(topic.alloc, ranges)?;
    let mode = reading::mode(mode)?;
    let refusal = topic.subs.refusal(name, mode, ranges.as_slice());
    Ok(format!(in topic.alloc; "{refusal:?}")?)
}

/// The entries that follow have these slots and numbers of messages.
fn add_marks<G: Gauge>(subs: &mut Subscriptions<G>, marks: &[&str]) -> Result<(), Error> {
    for mark in marks {
        let (slot, messages) = reading::mark(mark)?;
        subs.add_mark(slot, messages)?;
    }
    Ok(())
}

fn settle<G: Gauge>(subs: &mut Subscriptions<G>, count: usize) -> Result<(), Error> {
    if count > subs.changes().len() {
        bail!("fewer changes wait than {count}");
    }
    subs.settle(count);
    Ok(())
}

/// Whether nothing is for a session's consumers.
fn quiet(topic: &mut Topic, who: u64) -> Result<String, Error> {
    let is_quiet = topic.subs.is_quiet(who, u64::from(topic.committed));
    Ok(format!(in topic.alloc; "{is_quiet}")?)
}

/// A word with one number behind it.
fn counted(topic: &mut Topic, word: &str, asked: &[&str]) -> Result<String, Error> {
    let [number, ..] = asked else {
        bail!("no number behind {word}");
    };
    match word {
        "commit" => topic.committed = number.parse()?,
        "leave" => topic.subs.leave(number.parse()?),
        "settle" => settle(&mut topic.subs, number.parse()?)?,
        "quiet" => return quiet(topic, number.parse()?),
        _ => {
            let has_room = topic.subs.has_room(number.parse()?);
            return Ok(format!(in topic.alloc; "{has_room}")?);
        }
    }
    Ok(String::from_str(topic.alloc, "done")?)
}

fn changed(topic: &mut Topic, word: &str, asked: &[&str]) -> Result<String, Error> {
    match word {
        "slots" => add_marks(&mut topic.subs, asked)?,
        _ => *topic = Topic::new(topic.alloc),
    }
    Ok(String::from_str(topic.alloc, "done")?)
}

/// What is answered to a line of this word.
pub(crate) fn answer(topic: &mut Topic, word: &str, asked: &str) -> Result<String, Error> {
    let asked = reading::words(topic.alloc, asked)?;
    let asked = asked.as_slice();
    match word {
        "topic" | "slots" => changed(topic, word, asked),
        "commit" | "leave" | "settle" | "quiet" | "room" => counted(topic, word, asked),
        "subscribe" => subscribe(topic, asked),
        "refusal" => refusal(topic, asked),
        "changes" => told::changes(topic.alloc, &topic.subs),
        "count" => Ok(format!(in topic.alloc; "{}", topic.subs.changes().len())?),
        "statuses" => told::statuses(topic.alloc, &topic.subs),
        "summaries" => told::summaries(topic.alloc, &topic.subs),
        _ => consumers::answer(topic, word, asked),
    }
}
