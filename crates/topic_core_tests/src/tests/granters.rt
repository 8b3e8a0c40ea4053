// Permits that are granted without the topic, by the granter that a SUBSCRIBE leaves.
ghost use Rattle.topic_core_tests.specs.Matching.{AreMatched};

use super::{Topic, TopicOf, producer, send, subscribe};
use gated_log::Refusal;
use permits::{Granter, Taker};
use std::alloc::Global;
use std::test::Fail;

// Of a new topic: an entry is committed, and session 1 gets the consumer 5. The same is refused to session 2, which leaves the
// granter as it is.
fn begin(topic: &mut TopicOf<Taker>, alloc: Global) -> Result<Option<Granter>, Refusal>
    requires { AreMatched topic.old.core topic.old.stores }
{
    let mut granter = None;
    topic.ask(0, producer(alloc)?)?;
    topic.ask(0, send(alloc, 7)?)?;
    topic.ask_for(1, subscribe(alloc)?, &mut granter)?;
    topic.ask_for(2, subscribe(alloc)?, &mut granter)?;
    topic.flush()?;
    Ok(granter)
}

// Whether there is no message for session 1: before a permit is granted, and behind it, before and behind a look; and the
// position of the message.
fn grant(
    topic: &mut TopicOf<Taker>,
    granter: &mut Granter,
) -> Result<([bool; 3], Option<u64>), Refusal> {
    let before = topic.core.is_quiet(1);
    if granter.grant(1).is_err() {
        return Ok(([before, before, before], None));
    }
    let noted = topic.core.is_quiet(1);
    topic.core.look(1, 5);
    let seen = topic.core.is_quiet(1);
    Ok(([before, noted, seen], topic.message(1)?))
}

// What the granter of session 1's consumer brings it.
fn begin_and_grant(
    topic: &mut TopicOf<Taker>,
    alloc: Global,
) -> Result<([bool; 3], Option<u64>), Refusal>
    requires { AreMatched topic.old.core topic.old.stores }
{
    match begin(topic, alloc)? {
        Some(mut granter) => grant(topic, &mut granter),
        None => Ok(([false; 3], None)),
    }
}

// That there is nothing to get is remembered until a look; then what was granted is seen, and the message comes.
#[test]
fn a_look_sees_what_was_granted(rt: HostRuntime) -> Result<(), Fail> {
    let mut topic = TopicOf::<Taker>::new(rt.alloc())?;
    let seen = begin_and_grant(&mut topic, rt.alloc());
    drop(topic);
    assert_eq!(rt; seen?, ([true, true, false], Some(0)));
    Ok(())
}

// How much the granter that was there has granted, behind a SUBSCRIBE that needs none.
fn subscribe_beside_a_granter(topic: &mut Topic, alloc: Global) -> Result<Option<u64>, Refusal>
    requires { AreMatched topic.old.core topic.old.stores }
{
    let (mut other, _taker) = permits::permits(alloc)?;
    let _ = other.grant(3);
    let mut granter = Some(other);
    topic.ask_for(1, subscribe(alloc)?, &mut granter)?;
    match granter {
        Some(other) => Ok(Some(other.count())),
        None => Ok(None),
    }
}

// A topic that grants its consumers' permits leaves a granter as it is.
#[test]
fn a_granter_that_is_not_needed_stays(rt: HostRuntime) -> Result<(), Fail> {
    let mut topic = Topic::new(rt.alloc())?;
    let seen = subscribe_beside_a_granter(&mut topic, rt.alloc());
    drop(topic);
    assert_eq!(rt; seen?, Some(3));
    Ok(())
}
