// Lines that ask what is held of the positions that were sent.
use crate::reading;
use anyhow::{Error, bail};
use holds::{ConsumerKey, Holds};
use std::alloc::{AllocError, Global};

/// The positions are sent to a consumer.
fn hold(held: &mut Holds, asked: &[&str]) -> Result<(), Error> {
    let [key, positions @ ..] = asked else {
        bail!("no consumer");
    };
    let key = reading::key(key)?;
    for position in positions {
        held.hold(position.parse()?, key)?;
    }
    Ok(())
}

/// Who holds the position, and how often it was sent.
fn delivery(alloc: Global, held: &Holds, position: u64) -> Result<String, AllocError> {
    let times = held.sent_before(position);
    match held.holder(position) {
        Some(ConsumerKey { session, id }) => format!(in alloc; " {session}.{id}x{times}"),
        None => format!(in alloc; " -x{times}"),
    }
}

/// Each position from the first place on and below the second one.
fn look(alloc: Global, held: &Holds, asked: &[&str]) -> Result<String, Error> {
    let [from, end, ..] = asked else {
        bail!("no two places");
    };
    let (from, end): (u64, u64) = (from.parse()?, end.parse()?);
    let mut said = String::from_str(alloc, "held")?;
    for position in from..end {
        said.push_str(delivery(alloc, held, position)?.as_str())?;
    }
    Ok(said)
}

/// What a line of this word does.
fn change(held: &mut Holds, word: &str, asked: &[&str]) -> Result<(), Error> {
    let [one, ..] = asked else {
        bail!("no consumer or position behind {word}");
    };
    match word {
        "hold" => hold(held, asked)?,
        "give_back" => held.give_back(reading::key(one)?),
        "release" => held.release(one.parse()?),
        "forget" => held.forget(one.parse()?),
        "forget_below" => held.forget_below(one.parse()?),
        _ => bail!("of what is held no line asks {word}"),
    }
    Ok(())
}

/// The first position that a consumer holds.
fn first(alloc: Global, held: &Holds, asked: &[&str]) -> Result<String, Error> {
    let [key, ..] = asked else {
        bail!("no consumer");
    };
    let first = held.first_held(reading::key(key)?);
    Ok(format!(in alloc; "{first:?}")?)
}

/// What is answered to a line behind the word held.
pub(crate) fn answer(alloc: Global, held: &mut Holds, asked: &str) -> Result<String, Error> {
    let words = reading::words(alloc, asked)?;
    let [word, behind @ ..] = words.as_slice() else {
        bail!("nothing is asked of what is held");
    };
    match *word {
        "new" => *held = Holds::new(alloc),
        "look" => return look(alloc, held, behind),
        "first" => return first(alloc, held, behind),
        word => change(held, word, behind)?,
    }
    Ok(String::from_str(alloc, "done")?)
}
