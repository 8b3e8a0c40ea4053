// Entries that were committed since an opening are given out without a read; older ones have to be read.
ghost use Rattle.topic_core_tests.specs.Matching.{AreMatched};

use super::{PLAIN, Topic, position_in, producer, send, subscribe};
use disk::CrashShelf;
use gated_log::Refusal;
use permits::BothEnds;
use std::alloc::Global;
use std::test::Fail;
use topic_core::{AtHand, ReadAt, ReadError, TopicCore};

// The position of an entry that has to be read, and that of a message.
type Told = (Option<u64>, Option<u64>);

// What session 1's consumer 5, which gets a permit, is told, by what was read.
fn next(core: &mut TopicCore<BothEnds>, read: Option<ReadAt>) -> Result<Told, ReadError> {
    if core.grant(1, 5, 1).is_err() {
        return Ok((None, None));
    }
    match core.dispatch_at_hand(1, 5, read)? {
        AtHand::Message(outgoing) if outgoing.entry.as_slice() == PLAIN => {
            Ok((None, position_in(&outgoing.reply)))
        }
        AtHand::Unread(position) => Ok((Some(position), None)),
        _ => Ok((None, None)),
    }
}

// An entry is sent and committed.
fn commit(topic: &mut Topic, alloc: Global, sequence_id: u64) -> Result<(), Refusal>
    requires { AreMatched topic.old.core topic.old.stores }
    ensures { AreMatched topic.new.core topic.new.stores }
{
    topic.ask(0, send(alloc, sequence_id)?)?;
    topic.flush()?;
    Ok(())
}

// An entry is committed before the power is cut, and three more behind it, by a flush each.
fn fall_behind(topic: &mut Topic, alloc: Global) -> Result<(), Refusal>
    requires { AreMatched topic.old.core topic.old.stores }
{
    topic.begin(alloc)?;
    topic.shelf.crash();
    let (core, stores) = TopicCore::open(alloc, &mut topic.shelf, 0, 1)?;
    topic.core = core;
    topic.stores = stores;
    topic.ask(0, producer(alloc)?)?;
    topic.ask(1, subscribe(alloc)?)?;
    commit(topic, alloc, 11)?;
    commit(topic, alloc, 12)?;
    commit(topic, alloc, 13)
}

// What is told where nothing was read, where another entry was, and where the entry was read.
fn read(topic: &mut Topic) -> Result<[Told; 3], ReadError> {
    let Topic {
        core,
        stores,
        shelf,
    } = topic;
    let unread = next(core, None)?;
    let other = next(core, Some(ReadAt::read(stores, shelf, 1)))?;
    let given = next(core, Some(ReadAt::read(stores, shelf, 0)))?;
    Ok([unread, other, given])
}

// The position of a message whose entry is at hand. One that has to be read had no place, for want of memory.
fn next_at_hand(core: &mut TopicCore<BothEnds>) -> Result<Option<u64>, ReadError> {
    match next(core, None)? {
        (None, position) => Ok(position),
        (Some(_), _) => Err(ReadError::NoMemory),
    }
}

// What is told of an entry that is read, and the messages behind it.
fn catch_up(topic: &mut Topic) -> Result<([Told; 3], [Option<u64>; 4]), ReadError> {
    let first = read(topic)?;
    let second = next_at_hand(&mut topic.core)?;
    let third = next_at_hand(&mut topic.core)?;
    let fourth = next_at_hand(&mut topic.core)?;
    let none = next_at_hand(&mut topic.core)?;
    Ok((first, [second, third, fourth, none]))
}

// The entries that were committed since the opening are at hand; the one before it is given once it was read.
#[test]
fn entries_committed_since_an_opening_are_at_hand(rt: HostRuntime) -> Result<(), Fail> {
    let mut topic = Topic::new(rt.alloc())?;
    let behind = fall_behind(&mut topic, rt.alloc());
    let seen = catch_up(&mut topic);
    drop(topic);
    behind?;
    let read = [(Some(0), None), (Some(0), None), (None, Some(0))];
    let wanted = (read, [Some(1), Some(2), Some(3), None]);
    assert_eq!(rt; seen?, wanted);
    Ok(())
}
