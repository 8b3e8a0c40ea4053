// What is told of a topic that is served, and of its subscriptions.
ghost use Rattle.topic_core_tests.specs.Matching.{AreMatched};

use super::{PLAIN, Topic, refusal};
use disk::{CrashShelf, Fuse};
use gated_log::Refusal;
use permits::BothEnds;
use std::alloc::{AllocError, Global};
use std::test::Fail;
use subscriptions::Mode;
use topic_core::{TopicCore, TopicSummary};

// Of a topic without entries, which nobody has asked.
const NEW: TopicSummary = TopicSummary {
    entries: 0,
    waiting: 0,
    waiting_bytes: 0,
    accepted: 0,
    handed: 0,
    producers: 0,
    subscriptions: 0,
    is_failed: false,
};

// Of a topic of one committed entry, with a producer and a subscription, for which two entries wait.
const WAITING: TopicSummary = TopicSummary {
    entries: 1,
    waiting: 2,
    waiting_bytes: 28,
    accepted: 3,
    handed: 0,
    producers: 1,
    subscriptions: 1,
    is_failed: false,
};

// What is told of a new topic, while two entries wait behind the first, and behind their flush, when a receipt was collected.
fn summaries(topic: &mut Topic, alloc: Global) -> Result<[TopicSummary; 3], Refusal>
    requires { AreMatched topic.old.core topic.old.stores }
{
    let new = topic.core.summary();
    topic.wait(alloc)?;
    let waiting = topic.core.summary();
    topic.flush()?;
    drop(topic.core.collect(0));
    Ok([new, waiting, topic.core.summary()])
}

// What waits is told apart from what is committed, and receipts are told once they were collected.
#[test]
fn what_waits_is_told_beside_the_entries(rt: HostRuntime) -> Result<(), Fail> {
    let mut topic = Topic::new(rt.alloc())?;
    let seen = summaries(&mut topic, rt.alloc());
    drop(topic);
    let flushed = TopicSummary {
        entries: 3,
        waiting: 0,
        waiting_bytes: 0,
        handed: 1,
        ..WAITING
    };
    assert_eq!(rt; (seen?, 2 * PLAIN.len()), ([NEW, WAITING, flushed], 28));
    Ok(())
}

// Why a flush failed, and what is told behind it, and behind an opening.
fn summary_of_a_failure(
    topic: &mut Topic,
    alloc: Global,
) -> Result<(Option<Refusal>, [TopicSummary; 2]), Refusal>
    requires { AreMatched topic.old.core topic.old.stores }
{
    topic.wait(alloc)?;
    topic.shelf.arm(Fuse::Fail(1))?;
    let refused = refusal(topic.flush().err())?;
    let failed = topic.core.summary();
    topic.reopen()?;
    Ok((refused, [failed, topic.core.summary()]))
}

// A failed topic says so until it is opened again, which loses what waited, and goes on with the counters.
#[test]
fn a_failed_topic_is_told_as_failed(rt: HostRuntime) -> Result<(), Fail> {
    let mut topic = Topic::new(rt.alloc())?;
    let seen = summary_of_a_failure(&mut topic, rt.alloc());
    drop(topic);
    let failed = TopicSummary {
        is_failed: true,
        ..WAITING
    };
    let opened = TopicSummary {
        entries: 1,
        subscriptions: 1,
        accepted: 3,
        ..NEW
    };
    assert_eq!(rt; seen?, (Some(Refusal::Device), [failed, opened]));
    Ok(())
}

// What is told of the subscription `s` at a place: its mark-delete position, the runs behind it, its consumers and their permits.
type Told = Option<(u64, usize, usize, u64)>;

fn told(core: &TopicCore<BothEnds>, place: usize) -> Result<Told, AllocError> {
    match core.subscription(place)? {
        Some(summary) if summary.mode == Mode::Exclusive => {
            let status = &summary.status;
            if status.name.as_str() != "s" {
                return Ok(None);
            }
            let (mark, ranges) = (status.mark_delete, status.ranges);
            Ok(Some((mark, ranges, summary.consumers, summary.permits)))
        }
        _ => Ok(None),
    }
}

// What is told of it before two permits are granted, behind that, behind a message, when the consumer has left, and of a second place.
fn subscription(topic: &mut Topic, alloc: Global) -> Result<[Told; 5], Refusal>
    requires { AreMatched topic.old.core topic.old.stores }
{
    topic.wait(alloc)?;
    topic.flush()?;
    let begun = told(&topic.core, 0)?;
    let _ = topic.core.grant(1, 5, 2);
    let granted = told(&topic.core, 0)?;
    let _ = topic.message(1)?;
    let sent = told(&topic.core, 0)?;
    topic.core.leave(1);
    let left = told(&topic.core, 0)?;
    Ok([begun, granted, sent, left, told(&topic.core, 1)?])
}

// A subscription is told by its place, with what its consumers have left.
#[test]
fn a_subscription_is_told_with_its_permits(rt: HostRuntime) -> Result<(), Fail> {
    let mut topic = Topic::new(rt.alloc())?;
    let seen = subscription(&mut topic, rt.alloc());
    drop(topic);
    let told = [
        Some((1, 0, 1, 0)),
        Some((1, 0, 1, 2)),
        Some((1, 0, 1, 1)),
        Some((1, 0, 0, 0)),
        None,
    ];
    assert_eq!(rt; seen?, told);
    Ok(())
}
