// Segments go once each of their entries is acknowledged on all subscriptions. One entry a ledger makes each flush of further
// entries roll, so the flush that finds the first entry acknowledged gives the first segment back.
ghost use Rattle.topic_core_tests.specs.Matching.{AreMatched};

use super::{Topic, refusal};
use disk::{CrashShelf, Fuse};
use gated_log::Refusal;
use std::alloc::Global;
use std::test::Fail;
use topic_core::TopicCore;

// Where the ledger begins before and behind a flush of further entries, with the first one acknowledged.
fn trim(topic: &mut Topic, alloc: Global) -> Result<[u64; 2], Refusal>
    requires { AreMatched topic.old.core topic.old.stores }
    ensures { AreMatched topic.new.core topic.new.stores }
{
    topic.wait(alloc)?;
    let before = topic.core.base();
    topic.flush()?;
    Ok([before, topic.core.base()])
}

// The same, with the first entry not acknowledged.
fn keep(topic: &mut Topic, alloc: Global) -> Result<[u64; 2], Refusal>
    requires { AreMatched topic.old.core topic.old.stores }
{
    topic.begin(alloc)?;
    let before = topic.core.base();
    topic.ask(0, super::send(alloc, 11)?)?;
    topic.flush()?;
    Ok([before, topic.core.base()])
}

// Where it begins and how many entries came in all after the power was cut, and the positions that the subscription gets then.
fn find(topic: &mut Topic, alloc: Global) -> Result<(u64, u64, [Option<u64>; 3]), Refusal>
    requires { AreMatched topic.old.core topic.old.stores }
{
    trim(topic, alloc)?;
    topic.shelf.crash();
    let (core, stores) = TopicCore::open(alloc, &mut topic.shelf, 0, 1)?;
    topic.core = core;
    topic.stores = stores;
    let (base, count) = (topic.core.base(), topic.core.committed());
    topic.ask(1, super::subscribe(alloc)?)?;
    let given = [topic.next(1)?, topic.next(1)?, topic.next(1)?];
    Ok((base, count, given))
}

#[test]
fn an_acknowledged_segment_is_given_back(rt: HostRuntime) -> Result<(), Fail> {
    let mut topic = Topic::new(rt.alloc())?;
    let seen = trim(&mut topic, rt.alloc());
    drop(topic);
    assert_eq!(rt; seen?, [0, 1]);
    Ok(())
}

#[test]
fn a_segment_that_a_subscription_needs_stays(rt: HostRuntime) -> Result<(), Fail> {
    let mut topic = Topic::new(rt.alloc())?;
    let seen = keep(&mut topic, rt.alloc());
    drop(topic);
    assert_eq!(rt; seen?, [0, 0]);
    Ok(())
}

#[test]
fn what_is_left_is_found_behind_a_crash(rt: HostRuntime) -> Result<(), Fail> {
    let mut topic = Topic::new(rt.alloc())?;
    let seen = find(&mut topic, rt.alloc());
    drop(topic);
    assert_eq!(rt; seen?, (1, 3, [Some(1), Some(2), None]));
    Ok(())
}

// Whether the device refused a flush, where the ledger begins behind that, and how many entries came in all.
type Left = (bool, u64, u64);

// A flush of it that fails at that call of the device, behind which an opening finds what is left.
fn fail(topic: &mut Topic, alloc: Global, call: u64) -> Result<Left, Refusal>
    requires { AreMatched topic.old.core topic.old.stores }
{
    topic.wait(alloc)?;
    topic.shelf.arm(Fuse::Fail(call))?;
    let refused = refusal(topic.flush().err())?;
    topic.reopen()?;
    let core = &topic.core;
    Ok((refused.is_some(), core.base(), core.committed()))
}

// Where the device wanted memory before it came so far, that is its failure.
fn unless_short(seen: Left, wanted: Left) -> Result<Left, Refusal> {
    if seen.0 && !wanted.0 || seen.1 < wanted.1 || seen.2 < wanted.2 {
        return Err(Refusal::Device);
    }
    Ok(seen)
}

// Behind the seventeen calls for the roll, the entries and the changes six replace the slot by one whose header says where the
// ledger begins, and two cut the first segment. What is said there stands once its gate is written, also where a later call fails.
#[test]
fn a_failing_trim_leaves_one_of_both_beginnings(rt: HostRuntime) -> Result<(), Fail> {
    for (call, refused, base) in [
        (18, true, 0),
        (19, true, 0),
        (20, true, 0),
        (21, true, 0),
        (22, true, 0),
        (23, true, 1),
        (24, true, 1),
        (25, true, 1),
        (26, false, 1),
    ] {
        let mut topic = Topic::new(rt.alloc())?;
        let seen = fail(&mut topic, rt.alloc(), call);
        drop(topic);
        let wanted = (refused, base, 3);
        assert_eq!(rt; unless_short(seen?, wanted)?, wanted, "{call}");
    }
    Ok(())
}
