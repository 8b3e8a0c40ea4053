// Lines that ask a consumer.
use crate::reading;
use crate::topic::{Topic, add_entries};
use anyhow::{Error, bail};
use holds::ConsumerKey;
use permits::Gauge;
use std::alloc::AllocError;
use subscriptions::{Refusal, Subscriptions};

/// The position that a consumer may get of so many committed ones.
fn pick<G: Gauge>(
    subs: &mut Subscriptions<G>,
    key: ConsumerKey,
    committed: u32,
) -> Result<Option<u64>, AllocError> {
    add_entries(subs, committed)?;
    Ok(subs.pick(key, u64::from(committed)))
}

/// What a consumer gets of so many committed positions: one of them, and how often it was sent before.
fn send<G: Gauge>(
    subs: &mut Subscriptions<G>,
    key: ConsumerKey,
    committed: u32,
) -> Result<Option<(u64, u32)>, AllocError> {
    add_entries(subs, committed)?;
    let Some(position) = subs.pick(key, u64::from(committed)) else {
        return Ok(None);
    };
    let before = subs.send(key, position, u64::from(committed))?;
    Ok(Some((position, before)))
}

/// Acknowledges one position where there is room, and answers whether there was.
fn acknowledge<G: Gauge>(
    subs: &mut Subscriptions<G>,
    key: ConsumerKey,
    position: u32,
) -> Result<bool, AllocError> {
    if !subs.has_room(1) {
        return Ok(false);
    }
    subs.acknowledge(key, &[u64::from(position)])?;
    Ok(true)
}

/// Acknowledges all positions up to one where there is room, and answers whether there was.
fn acknowledge_through<G: Gauge>(
    subs: &mut Subscriptions<G>,
    key: ConsumerKey,
    position: u32,
) -> Result<bool, AllocError> {
    if !subs.has_room(1) {
        return Ok(false);
    }
    subs.acknowledge_through(key, u64::from(position))?;
    Ok(true)
}

/// Removes the consumer's subscription where nothing is against it.
fn unsubscribe<G: Gauge>(
    subs: &mut Subscriptions<G>,
    key: ConsumerKey,
) -> Result<Option<Refusal>, AllocError> {
    let refusal = subs.unsubscribe_refusal(key);
    if refusal.is_some() {
        return Ok(refusal);
    }
    subs.unsubscribe(key)?;
    Ok(None)
}

fn answer_of_room(topic: &Topic, has_room: bool) -> Result<String, Error> {
    let said = if has_room { "done" } else { "no room" };
    Ok(String::from_str(topic.alloc, said)?)
}

/// How often a position is acknowledged: once, where nothing is said.
fn times(asked: &[&str]) -> Result<u32, Error> {
    match asked {
        [] => Ok(1),
        [times, ..] => Ok(times.parse()?),
    }
}

fn ack(topic: &mut Topic, key: ConsumerKey, asked: &[&str]) -> Result<String, Error> {
    let [position, behind @ ..] = asked else {
        bail!("no position");
    };
    let position: u32 = position.parse()?;
    for _ in 0..times(behind)? {
        if !acknowledge(&mut topic.subs, key, position)? {
            return answer_of_room(topic, false);
        }
    }
    answer_of_room(topic, true)
}

fn through(topic: &mut Topic, key: ConsumerKey, asked: &[&str]) -> Result<String, Error> {
    let [position, ..] = asked else {
        bail!("no position");
    };
    let has_room = acknowledge_through(&mut topic.subs, key, position.parse()?)?;
    answer_of_room(topic, has_room)
}

fn grant(topic: &mut Topic, key: ConsumerKey, asked: &[&str]) -> Result<String, Error> {
    let [permits, ..] = asked else {
        bail!("no permits");
    };
    let granted = topic.subs.grant(key, permits.parse()?);
    Ok(format!(in topic.alloc; "{granted:?}")?)
}

/// The consumer gives back these positions, or all where none is named.
fn redeliver(topic: &mut Topic, key: ConsumerKey, asked: &[&str]) -> Result<String, Error> {
    let positions = reading::numbers(topic.alloc, asked)?;
    if positions.is_empty() {
        topic.subs.redeliver(key, None);
    } else {
        topic.subs.redeliver(key, Some(positions.as_slice()));
    }
    answer_of_room(topic, true)
}

/// Whether the consumer is attached, and whether its subscription has a mode that serves many.
fn has(topic: &Topic, key: ConsumerKey) -> Result<String, Error> {
    let (has, shares) = (topic.subs.has_consumer(key), topic.subs.shares(key));
    Ok(format!(in topic.alloc; "{has} {shares}")?)
}

fn picked(topic: &mut Topic, key: ConsumerKey) -> Result<String, Error> {
    let picked = pick(&mut topic.subs, key, topic.committed)?;
    Ok(format!(in topic.alloc; "{picked:?}")?)
}

fn sent(topic: &mut Topic, key: ConsumerKey) -> Result<String, Error> {
    let sent = send(&mut topic.subs, key, topic.committed)?;
    Ok(format!(in topic.alloc; "{sent:?}")?)
}

fn unsubscribed(topic: &mut Topic, key: ConsumerKey) -> Result<String, Error> {
    let refusal = unsubscribe(&mut topic.subs, key)?;
    Ok(format!(in topic.alloc; "{refusal:?}")?)
}

fn closed(topic: &mut Topic, key: ConsumerKey) -> Result<String, Error> {
    topic.subs.detach(key);
    answer_of_room(topic, true)
}

/// What is answered to a line of this word and a consumer.
pub(crate) fn answer(topic: &mut Topic, word: &str, asked: &[&str]) -> Result<String, Error> {
    let [key, behind @ ..] = asked else {
        bail!("no line begins with the word {word}, or it lacks a consumer");
    };
    let key = reading::key(key)?;
    match word {
        "has" => has(topic, key),
        "grant" => grant(topic, key, behind),
        "pick" => picked(topic, key),
        "send" => sent(topic, key),
        "ack" => ack(topic, key, behind),
        "through" => through(topic, key, behind),
        "redeliver" => redeliver(topic, key, behind),
        "unsubscribe" => unsubscribed(topic, key),
        "close" => closed(topic, key),
        _ => bail!("no line begins with the word {word}"),
    }
}
