// Lines that ask a cursor.
use crate::reading::{place, position, words};
use anyhow::{Error, bail};
use cursor::Cursor;
use std::alloc::{AllocError, Global};

/// A cursor without acknowledged positions, or with all below a place.
fn made(alloc: Global, asked: &[&str]) -> Result<Cursor, Error> {
    match asked {
        [] => Ok(Cursor::new(alloc)),
        [start, ..] => Ok(Cursor::starting_at(alloc, place(start)?)),
    }
}

fn acknowledge_one(cursor: &mut Cursor, asked: &[&str]) -> Result<(), Error> {
    let [one, ..] = asked else {
        bail!("no position");
    };
    cursor.ack(position(one)?)?;
    Ok(())
}

fn acknowledge_through(cursor: &mut Cursor, asked: &[&str]) -> Result<(), Error> {
    let [last, ..] = asked else {
        bail!("no last position");
    };
    cursor.ack_through(position(last)?);
    Ok(())
}

fn acknowledge_range(cursor: &mut Cursor, asked: &[&str]) -> Result<(), Error> {
    let [first, last, ..] = asked else {
        bail!("no first and last position");
    };
    let (first, last) = (position(first)?, position(last)?);
    if first > last {
        bail!("a range ends before it starts");
    }
    cursor.ack_range(first, last)?;
    Ok(())
}

fn acknowledge(cursor: &mut Cursor, asked: &[&str]) -> Result<(), Error> {
    let [word, asked @ ..] = asked else {
        bail!("nothing to acknowledge");
    };
    match *word {
        "one" => acknowledge_one(cursor, asked),
        "through" => acknowledge_through(cursor, asked),
        "range" => acknowledge_range(cursor, asked),
        word => bail!("a cursor knows no word {word}"),
    }
}

/// The mark-delete position and the number of ranges.
fn text(alloc: Global, cursor: &Cursor) -> Result<String, AllocError> {
    format!(in alloc; "{} {}", cursor.mark_delete(), cursor.ranges())
}

/// What a copy says and what its cursor does, of which one went on.
fn both(alloc: Global, copy: &Cursor, cursor: &Cursor) -> Result<String, Error> {
    let copy = text(alloc, copy)?;
    let cursor = text(alloc, cursor)?;
    Ok(format!(in alloc; "{copy}, {cursor}")?)
}

/// Each position from the first place on and below the second one: whether it is acknowledged, and the first one from there on
/// that isn't.
fn look(alloc: Global, cursor: &Cursor, asked: &[&str]) -> Result<String, Error> {
    let [from, end, ..] = asked else {
        bail!("no two places");
    };
    let (from, end) = (place(from)?, place(end)?);
    let mut said = text(alloc, cursor)?;
    for position in from..end {
        let mark = if cursor.contains(position) { "a" } else { "." };
        let open = cursor.first_open(position);
        said.push_str(format!(in alloc; " {mark}{open}")?.as_str())?;
    }
    Ok(said)
}

/// What is answered to a line behind the word cursor.
pub(crate) fn answer(alloc: Global, cursor: &mut Cursor, asked: &str) -> Result<String, Error> {
    let words = words(alloc, asked)?;
    let [word, behind @ ..] = words.as_slice() else {
        bail!("nothing is asked of the cursor");
    };
    match *word {
        "new" => *cursor = made(alloc, behind)?,
        "look" => return look(alloc, cursor, behind),
        "copy" => {
            let mut copy = cursor.clone()?;
            acknowledge(&mut copy, behind)?;
            return both(alloc, &copy, cursor);
        }
        "own" => {
            let copy = cursor.clone()?;
            acknowledge(cursor, behind)?;
            return both(alloc, &copy, cursor);
        }
        _ => acknowledge(cursor, words.as_slice())?,
    }
    Ok(text(alloc, cursor)?)
}
