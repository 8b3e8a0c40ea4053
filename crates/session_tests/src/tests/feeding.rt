use super::board::Outage;
use super::{CONNECT, NO_TOPIC, PING, PONG, SUBSCRIBE, SUBSCRIBE_ON_NO_TOPIC, Stage};
use session::{Fault, PumpFault};
use std::test::Fail;

const CONNECTED: &[u8] =
    b"\0\0\0\x16\0\0\0\x12\x08\x03\x1a\x0e\x0a\x06node-1\x10\x05\x18\x80\x80\x40";

// Of producer 1 on `persistent://a/b/c`, with request 7 and no name.
const PRODUCER: &[u8] =
    b"\0\0\0\x20\0\0\0\x1c\x08\x05\x2a\x18\x0a\x12persistent://a/b/c\x10\x01\x18\x07";

// The name is `s3-p1`.
const PRODUCER_SUCCESS: &[u8] = b"\0\0\0\x12\0\0\0\x0e\x08\x11\x8a\x01\x09\x08\x07\x12\x05s3-p1";

const SEND: &[u8] =
    b"\0\0\0\x1a\0\0\0\x08\x08\x06\x32\x04\x08\x01\x10\0\0\0\0\x0a\x0a\x01p\x10\0\x18\x01\xc0>\x05";

// SEND_ERROR of producer 1, sequence id 0, with NotAllowedError.
const SEND_NOT_ALLOWED: &[u8] =
    b"\0\0\0\x1f\0\0\0\x1b\x08\x08\x42\x17\x08\x01\x10\0\x18\x16\x22\x0fNotAllowedError";

// Of producer 1, with request 8.
const CLOSE_PRODUCER: &[u8] = b"\0\0\0\x0c\0\0\0\x08\x08\x0f\x7a\x04\x08\x01\x10\x08";

// PRODUCER with a name of 256 bytes.
const PRODUCER_OF_A_LONG_NAME: &[u8] =
    b"\0\0\x01\x24\0\0\x01\x20\x08\x05\x2a\x9b\x02\x0a\x12persistent://a/b/c\x10\x01\x18\x07\x22\x80\x02\
aaaaaaaaaaaaaaaaaaaaaaaaaaaaaaaaaaaaaaaaaaaaaaaaaaaaaaaaaaaaaaaaaaaaaaaaaaaaaaaaaaaaaaaaaaaaaaaaaaaaaaaaaaaaaaaaaaaaaaaaaaaaaaaa\
aaaaaaaaaaaaaaaaaaaaaaaaaaaaaaaaaaaaaaaaaaaaaaaaaaaaaaaaaaaaaaaaaaaaaaaaaaaaaaaaaaaaaaaaaaaaaaaaaaaaaaaaaaaaaaaaaaaaaaaaaaaaaaaa";

// ERROR of request 7 with NotAllowedError.
const NAME_NOT_ALLOWED: &[u8] =
    b"\0\0\0\x1d\0\0\0\x19\x08\x0e\x72\x15\x08\x07\x10\x16\x1a\x0fNotAllowedError";

// SUBSCRIBE to a subscription whose name is `/`.
const SUBSCRIBE_TO_NO_NAME: &[u8] =
    b"\0\0\0\x27\0\0\0\x23\x08\x04\x22\x1f\x0a\x12persistent://a/b/c\x12\x01/\x18\0\x20\x02\x28\x08\x68\x01";

// PRODUCER 2 on `persistent://a/b/d`, with request 7 and no name.
const PRODUCER_ON_ANOTHER: &[u8] =
    b"\0\0\0\x20\0\0\0\x1c\x08\x05\x2a\x18\x0a\x12persistent://a/b/d\x10\x02\x18\x07";

// The name is `s3-p2`.
const ANOTHER_SUCCESS: &[u8] = b"\0\0\0\x12\0\0\0\x0e\x08\x11\x8a\x01\x09\x08\x07\x12\x05s3-p2";

// ERROR of request 8 with NotAllowedError.
const NOT_ALLOWED: &[u8] =
    b"\0\0\0\x1d\0\0\0\x19\x08\x0e\x72\x15\x08\x08\x10\x16\x1a\x0fNotAllowedError";

// ERROR of request 7 with TooManyRequests.
const TOO_MANY_PRODUCERS: &[u8] =
    b"\0\0\0\x1d\0\0\0\x19\x08\x0e\x72\x15\x08\x07\x10\x0e\x1a\x0fTooManyRequests";

// ERROR of request 8 with TooManyRequests.
const TOO_MANY_CONSUMERS: &[u8] =
    b"\0\0\0\x1d\0\0\0\x19\x08\x0e\x72\x15\x08\x08\x10\x0e\x1a\x0fTooManyRequests";

// ERROR of request 7 with PersistenceError.
const PRODUCER_FAILED: &[u8] =
    b"\0\0\0\x1e\0\0\0\x1a\x08\x0e\x72\x16\x08\x07\x10\x02\x1a\x10PersistenceError";

// ERROR of request 8 with PersistenceError.
const CONSUMER_FAILED: &[u8] =
    b"\0\0\0\x1e\0\0\0\x1a\x08\x0e\x72\x16\x08\x08\x10\x02\x1a\x10PersistenceError";

// One permit for consumer 2.
const FLOW: &[u8] = b"\0\0\0\x0c\0\0\0\x08\x08\x0b\x5a\x04\x08\x02\x10\x01";

// Of the first entry by consumer 2, with request 9.
const ACK: &[u8] =
    b"\0\0\0\x14\0\0\0\x10\x08\x0a\x52\x0c\x08\x02\x10\0\x1a\x04\x08\0\x10\0\x40\x09";

// The same without a request.
const SILENT_ACK: &[u8] = b"\0\0\0\x12\0\0\0\x0e\x08\x0a\x52\x0a\x08\x02\x10\0\x1a\x04\x08\0\x10\0";

// ACK_RESPONSE of request 9 to consumer 2 with ConsumerNotFound.
const ACK_NOT_FOUND: &[u8] =
    b"\0\0\0\x21\0\0\0\x1d\x08\x26\xb2\x02\x18\x08\x02\x20\x0d\x2a\x10ConsumerNotFound\x30\x09";

// Of consumer 2, with request 8.
const UNSUBSCRIBE: &[u8] = b"\0\0\0\x0c\0\0\0\x08\x08\x0c\x62\x04\x08\x02\x10\x08";

// The same.
const CLOSE_CONSUMER: &[u8] = b"\0\0\0\x0d\0\0\0\x09\x08\x10\x82\x01\x04\x08\x02\x10\x08";

// ERROR of request 8 with ConsumerNotFound.
const NOT_FOUND: &[u8] =
    b"\0\0\0\x1e\0\0\0\x1a\x08\x0e\x72\x16\x08\x08\x10\x0d\x1a\x10ConsumerNotFound";

// Of the entries 7 and 1 of ledger 0 by consumer 2.
const REDELIVER: &[u8] =
    b"\0\0\0\x17\0\0\0\x13\x08\x14\xa2\x01\x0e\x08\x02\x12\x04\x08\0\x10\x07\x12\x04\x08\0\x10\x01";

// How many commands are answered so, where sixty-four topics are there and none is of their name; and then, where one is.
fn with_a_full_broker(stage: &mut Stage) -> Result<[usize; 2], Fault> {
    stage.fill(b'-')?;
    let refused = stage.answered(&[
        (CONNECT, CONNECTED),
        (PRODUCER, TOO_MANY_PRODUCERS),
        (SUBSCRIBE, TOO_MANY_CONSUMERS),
        (PING, PONG),
    ])?;
    stage.fill(b'c')?;
    let accepted = stage.answered(&[(PRODUCER, PRODUCER_SUCCESS), (SUBSCRIBE, b"")])?;
    Ok([refused, accepted])
}

#[test]
fn a_sixty_fifth_topic_is_refused(rt: HostRuntime) -> Result<(), Fail> {
    let mut stage = Stage::new(rt.alloc());
    let answered = with_a_full_broker(&mut stage);
    let count = stage.board.topics.len();
    drop(stage);
    assert_eq!(rt; answered?, [4, 2]);
    assert_eq!(rt; count, 64);
    Ok(())
}

// Where looking for a topic finds no memory: how many commands are refused without it, what a PRODUCER ends in, and the session
// that left.
fn without_memory(stage: &mut Stage) -> Result<(usize, Result<(), Fault>, Option<u64>), Fault> {
    stage.fill(b'c')?;
    stage.feed(CONNECT)?;
    stage.board.outage = Some(Outage::NoMemory);
    let refused = stage.answered(&[
        (PRODUCER_OF_A_LONG_NAME, NAME_NOT_ALLOWED),
        (SUBSCRIBE_TO_NO_NAME, NOT_ALLOWED),
        (SUBSCRIBE_ON_NO_TOPIC, NO_TOPIC),
    ])?;
    Ok((refused, stage.feed(PRODUCER), stage.board.left))
}

#[test]
fn a_topic_that_finds_no_memory_ends_the_session(rt: HostRuntime) -> Result<(), Fail> {
    let mut stage = Stage::new(rt.alloc());
    let seen = without_memory(&mut stage);
    let is_silent = stage.out.is_empty();
    drop(stage);
    assert_eq!(rt; seen?, (3, Err(Fault::NoMemory), Some(3)));
    assert!(rt; is_silent);
    Ok(())
}

// How many commands are answered so where the device fails in looking for a topic, and then where it works again.
fn with_a_failing_device(stage: &mut Stage) -> Result<[usize; 2], Fault> {
    stage.feed(CONNECT)?;
    stage.board.outage = Some(Outage::Device);
    let failed = stage.answered(&[
        (PRODUCER, PRODUCER_FAILED),
        (SUBSCRIBE, CONSUMER_FAILED),
        (PING, PONG),
    ])?;
    stage.board.outage = None;
    let worked = stage.answered(&[
        (PRODUCER_ON_ANOTHER, ANOTHER_SUCCESS),
        (PRODUCER, PRODUCER_SUCCESS),
        (SUBSCRIBE, b""),
    ])?;
    Ok([failed, worked])
}

// The search for another topic settles that of the failed ones, which stands before it.
#[test]
fn a_failed_search_is_told_and_the_next_one_settles_it(rt: HostRuntime) -> Result<(), Fail> {
    let mut stage = Stage::new(rt.alloc());
    let answered = with_a_failing_device(&mut stage);
    let (fault, left) = (stage.session.fault(), stage.board.left);
    let is_settled = stage.board.doubtful.is_none()
        && stage.board.topics.as_slice() == b"cd".as_slice();
    drop(stage);
    assert_eq!(rt; answered?, [3, 3]);
    assert_eq!(rt; (fault, left), (None, None));
    assert!(rt; is_settled);
    Ok(())
}

// How many attachments are answered so, and then, where their topic is gone, how many commands.
fn without_topic(stage: &mut Stage) -> Result<[usize; 2], Fault> {
    stage.feed(CONNECT)?;
    let attached = stage.answered(&[(PRODUCER, PRODUCER_SUCCESS), (SUBSCRIBE, b"")])?;
    stage.board.topics.clear();
    let refused = stage.answered(&[
        (FLOW, b""),
        (SILENT_ACK, b""),
        (REDELIVER, b""),
        (ACK, ACK_NOT_FOUND),
        (UNSUBSCRIBE, NOT_FOUND),
        (CLOSE_CONSUMER, NOT_FOUND),
        (SEND, SEND_NOT_ALLOWED),
        (CLOSE_PRODUCER, NOT_ALLOWED),
    ])?;
    Ok([attached, refused])
}

// A command that reached the broker would end the session.
#[test]
fn commands_on_a_topic_that_is_gone_are_refused(rt: HostRuntime) -> Result<(), Fail> {
    let mut stage = Stage::new(rt.alloc());
    let answered = without_topic(&mut stage);
    drop(stage);
    assert_eq!(rt; answered?, [2, 8]);
    Ok(())
}

// What a FLOW and the PING behind it end in.
fn granted(stage: &mut Stage) -> Result<[Option<Fault>; 2], Fault> {
    stage.feed(CONNECT)?;
    stage.feed(SUBSCRIBE)?;
    Ok([stage.fault_of(FLOW)?, stage.fault_of(PING)?])
}

#[test]
fn too_many_permits_end_the_session(rt: HostRuntime) -> Result<(), Fail> {
    let mut stage = Stage::new(rt.alloc());
    let faults = granted(&mut stage);
    let left = stage.board.left;
    drop(stage);
    assert_eq!(rt; faults?, [Some(Fault::TooManyPermits); 2]);
    assert_eq!(rt; left, Some(3));
    Ok(())
}

// What a second CONNECT and the PING behind it end in.
fn connected_twice(stage: &mut Stage) -> Result<[Option<Fault>; 2], Fault> {
    stage.fill(b'c')?;
    stage.feed(CONNECT)?;
    Ok([stage.fault_of(CONNECT)?, stage.fault_of(PING)?])
}

#[test]
fn an_ended_session_has_left_and_answers_nothing(rt: HostRuntime) -> Result<(), Fail> {
    let mut stage = Stage::new(rt.alloc());
    let faults = connected_twice(&mut stage);
    let (fault, pumped, left) = (stage.session.fault(), stage.pump(), stage.board.left);
    let is_silent = stage.out.is_empty();
    drop(stage);
    assert_eq!(rt; faults?, [Some(Fault::OutOfTurn); 2]);
    assert_eq!(rt; fault, Some(Fault::OutOfTurn));
    assert_eq!(rt; pumped, Err(PumpFault::Ended(Fault::OutOfTurn)));
    assert_eq!(rt; left, Some(3));
    assert!(rt; is_silent);
    Ok(())
}

#[test]
fn a_session_leaves_at_its_end(rt: HostRuntime) -> Result<(), Fail> {
    let mut stage = Stage::new(rt.alloc());
    let filled = stage.fill(b'c');
    let number = stage.session.number();
    stage.session.end(&mut stage.board);
    let left = stage.board.left;
    drop(stage);
    filled?;
    assert_eq!(rt; number, 3);
    assert_eq!(rt; left, Some(3));
    Ok(())
}
