// A topic that failed, and want of memory in the midst of a flush and of an opening. One entry a ledger makes each flush of
// further entries roll, by nine calls of the device; four write the entries, and four the changes. With the first entry acknowledged
// six more replace the slot, whose header says where the ledger begins, and two cut its first segment.
ghost use Rattle.topic_core_tests.specs.Matching.{AreMatched};

use super::{Seen, Topic, position_in, refusal};
use disk::{CrashShelf, Fuse};
use gated_log::Refusal;
use std::alloc::Global;
use std::test::Fail;

// A flush that fails at that call of the device.
fn fail(topic: &mut Topic, alloc: Global, call: u64) -> Result<Seen, Refusal>
    requires { AreMatched topic.old.core topic.old.stores }
    ensures { AreMatched topic.new.core topic.new.stores }
{
    topic.wait(alloc)?;
    topic.shelf.arm(Fuse::Fail(call))?;
    let refused = refusal(topic.flush().err())?;
    Ok(topic.seen(refused))
}

// An opening that fails at that read, and one behind it.
fn reopen_twice(topic: &mut Topic, read: u64) -> Result<(Seen, Seen), Refusal>
    requires { AreMatched topic.old.core topic.old.stores }
{
    topic.shelf.arm(Fuse::FailRead(read))?;
    let refused = refusal(topic.reopen().err())?;
    let first = topic.seen(refused);
    topic.reopen()?;
    Ok((first, topic.seen(None)))
}

// A flush that fails at its first call, and those openings of what it leaves.
fn reopen_failed(
    topic: &mut Topic,
    alloc: Global,
    read: u64,
) -> Result<(Seen, (Seen, Seen)), Refusal>
    requires { AreMatched topic.old.core topic.old.stores }
{
    let flushed = fail(topic, alloc, 1)?;
    Ok((flushed, reopen_twice(topic, read)?))
}

// Each read of an opening fails in turn: of the heads of three files, and of the gates and bodies behind them. The topic stays
// failed, until it is opened well.
#[test]
fn a_failing_read_leaves_a_topic_failed(rt: HostRuntime) -> Result<(), Fail> {
    let failed = (Some(Refusal::Device), true, 1);
    for read in 1..=9u64 {
        let mut topic = Topic::new(rt.alloc())?;
        let seen = reopen_failed(&mut topic, rt.alloc(), read);
        drop(topic);
        assert_eq!(rt; seen?, (failed, (failed, (None, false, 1))), "{read}");
    }
    Ok(())
}

// Flushes, a second time where memory was wanting: how many entries that commits, and whether the topic was as before then.
fn flush_again(topic: &mut Topic) -> Result<(usize, bool), Refusal>
    requires { AreMatched topic.old.core topic.old.stores }
{
    let before = (topic.seen(None), topic.counts());
    let first = topic.flush();
    if first != Err(Refusal::NoMemory) {
        return Ok((first?, true));
    }
    if (topic.seen(None), topic.counts()) != before {
        return Ok((0, false));
    }
    Ok((topic.flush()?, true))
}

// The same, of what waits.
fn flush_what_waits(topic: &mut Topic, alloc: Global) -> Result<(usize, bool), Refusal>
    requires { AreMatched topic.old.core topic.old.stores }
{
    topic.wait(alloc)?;
    flush_again(topic)
}

// The position of the next receipt of session 0.
fn receipt(topic: &mut Topic) -> Option<u64> {
    match topic.core.collect(0) {
        Some(reply) => position_in(&reply),
        None => None,
    }
}

// Where memory is wanting within a flush, nothing has changed, and no call of the device was made.
#[test]
fn want_of_memory_changes_nothing(rt: HostRuntime) -> Result<(), Fail> {
    let mut topic = Topic::new(rt.alloc())?;
    let seen = flush_what_waits(&mut topic, rt.alloc());
    let counts = topic.counts();
    let first = receipt(&mut topic);
    let second = receipt(&mut topic);
    let third = receipt(&mut topic);
    drop(topic);
    assert_eq!(rt; (seen?, counts), ((2, true), (3, 3)));
    assert_eq!(rt; [first, second, third], [Some(0), Some(1), Some(2)]);
    Ok(())
}

// Opens again, a second time where memory was wanting: whether the topic was as before then.
fn reopen_again(topic: &mut Topic) -> Result<bool, Refusal>
    requires { AreMatched topic.old.core topic.old.stores }
{
    let before = (topic.seen(None), topic.counts());
    let first = topic.reopen();
    if first != Err(Refusal::NoMemory) {
        first?;
        return Ok(true);
    }
    if (topic.seen(None), topic.counts()) != before {
        return Ok(false);
    }
    topic.reopen()?;
    Ok(true)
}

// A flush that fails where the entries' gate was written and synced, and the changes' one wasn't; and that opening. Where the
// device wanted memory before it came so far, that is its failure.
fn reopen_half(topic: &mut Topic, alloc: Global) -> Result<(Seen, bool), Refusal>
    requires { AreMatched topic.old.core topic.old.stores }
{
    let flushed = fail(topic, alloc, 16)?;
    if topic.counts() != (1, 3) {
        return Err(Refusal::Device);
    }
    Ok((flushed, reopen_again(topic)?))
}

// Where memory is wanting within an opening, the topic is failed as before; the next one finds what the flush left.
#[test]
fn want_of_memory_leaves_a_topic_failed(rt: HostRuntime) -> Result<(), Fail> {
    let failed = (Some(Refusal::Device), true, 1);
    let mut topic = Topic::new(rt.alloc())?;
    let seen = reopen_half(&mut topic, rt.alloc());
    let counts = topic.counts();
    drop(topic);
    assert_eq!(rt; (seen?, counts), ((failed, true), (3, 3)));
    Ok(())
}
