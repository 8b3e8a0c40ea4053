use super::{PING, PONG, RECEIPT_AND_MESSAGE, SUBSCRIBE, SUBSCRIBE_NEXT, Stage};
use disk::{FileId, served};
use session::{Fault, More, PumpFault};
use std::alloc::Global;
use std::process::Abort;
use std::test::Fail;

// MESSAGE for consumer 2 with the first entry.
const MESSAGE: &[u8] =
    b"\0\0\0\x1e\0\0\0\x0c\x08\x09\x4a\x08\x08\x02\x12\x04\x08\0\x10\0\0\0\0\x0a\x0a\x01p\x10\0\x18\x01\xc0>\x05";

// How the first pump went whose second dispatch fails so, and whether it handed out what it had; then the same of the next one;
// and whether a PING behind them is answered.
type Pumps = ([Result<More, PumpFault>; 2], [bool; 3]);

fn goes_on(stage: &mut Stage, why: PumpFault) -> Result<Pumps, Fault> {
    stage.begin(&[SUBSCRIBE], &[None, Some(why), None])?;
    stage.owe();
    let first = stage.pumped()?;
    let handed_out = stage.out.as_slice() == RECEIPT_AND_MESSAGE;
    let second = stage.pumped()?;
    let went_on = stage.out.as_slice() == MESSAGE;
    stage.feed(PING)?;
    let answered = stage.out.as_slice() == PONG;
    Ok(([first, second], [handed_out, went_on, answered]))
}

// Checks that a pump stops there, and that the session goes on.
fn stops(rt: &impl Abort, alloc: Global, why: PumpFault) -> Result<(), Fail> {
    let mut stage = Stage::new(alloc);
    let went = goes_on(&mut stage, why);
    let ended = (stage.session.fault(), stage.board.left);
    drop(stage);
    assert_eq!(rt; went?, ([Err(why), Ok(More::No)], [true; 3]));
    assert_eq!(rt; ended, (None, None));
    Ok(())
}

#[test]
fn a_device_that_fails_stops_a_pump(rt: HostRuntime) -> Result<(), Fail> {
    stops(&rt, rt.alloc(), PumpFault::Device)
}

#[test]
fn a_damaged_file_stops_a_pump(rt: HostRuntime) -> Result<(), Fail> {
    let (topic, number) = (served(0), 3);
    let file = FileId::Segment { topic, number };
    stops(&rt, rt.alloc(), PumpFault::Damaged { file, offset: 40 })
}

#[test]
fn a_message_that_finds_no_memory_ends_the_session(rt: HostRuntime) -> Result<(), Fail> {
    let no_memory = PumpFault::Ended(Fault::NoMemory);
    let mut stage = Stage::new(rt.alloc());
    let begun = stage.begin(&[SUBSCRIBE], &[None, Some(no_memory)]);
    let pumps = [stage.pump(), stage.pump()];
    let ended = (stage.session.fault(), stage.board.left);
    drop(stage);
    begun?;
    assert_eq!(rt; pumps, [Err(no_memory); 2]);
    assert_eq!(rt; ended, (Some(Fault::NoMemory), Some(3)));
    Ok(())
}

// How a pump went whose first dispatch fails before two consumers, and how many dispatches are left then.
fn is_left(stage: &mut Stage) -> Result<(Result<More, PumpFault>, usize), Fault> {
    stage.begin(
        &[SUBSCRIBE, SUBSCRIBE_NEXT],
        &[None, Some(PumpFault::Device)],
    )?;
    Ok((stage.pumped()?, stage.board.dispatches.len()))
}

#[test]
fn a_device_that_fails_leaves_the_consumers_behind_unserved(rt: HostRuntime) -> Result<(), Fail> {
    let mut stage = Stage::new(rt.alloc());
    let went = is_left(&mut stage);
    let is_silent = stage.out.is_empty();
    drop(stage);
    assert_eq!(rt; went?, (Err(PumpFault::Device), 1));
    assert!(rt; is_silent);
    Ok(())
}

// How two pumps went to which 65 messages come, how many bytes the first one handed out, how many messages it left, and whether
// the second one handed out a last one.
fn at_bound(stage: &mut Stage) -> Result<([Result<More, PumpFault>; 2], [usize; 2], bool), Fault> {
    stage.begin(&[SUBSCRIBE], &[None; 65])?;
    let first = stage.pumped()?;
    let counts = [stage.out.len(), stage.board.dispatches.len()];
    let second = stage.pumped()?;
    Ok(([first, second], counts, stage.out.as_slice() == MESSAGE))
}

#[test]
fn a_pump_sends_sixty_four_messages(rt: HostRuntime) -> Result<(), Fail> {
    let mut stage = Stage::new(rt.alloc());
    let went = at_bound(&mut stage);
    drop(stage);
    assert_eq!(rt; went?, ([Ok(More::Yes), Ok(More::No)], [64 * 34, 1], true));
    Ok(())
}

// How two pumps went for two consumers of a topic that has one message, how many questions had come after each, and what the first
// one handed out.
fn asks(stage: &mut Stage) -> Result<([Result<More, PumpFault>; 2], [u32; 2], bool), Fault> {
    stage.begin(&[SUBSCRIBE, SUBSCRIBE_NEXT], &[None])?;
    let first = stage.pumped()?;
    let handed_out = stage.out.as_slice() == MESSAGE;
    let once = stage.board.questions;
    let second = stage.pumped()?;
    Ok(([first, second], [once, stage.board.questions], handed_out))
}

#[test]
fn a_pump_asks_the_topic_of_two_consumers_once(rt: HostRuntime) -> Result<(), Fail> {
    let mut stage = Stage::new(rt.alloc());
    let went = asks(&mut stage);
    drop(stage);
    assert_eq!(rt; went?, ([Ok(More::No); 2], [1, 2], true));
    Ok(())
}
