// Names that are none of a topic, and commands that ask for a topic's broker and its partitions.
use super::{CONNECT, NO_TOPIC, PING, PONG, SUBSCRIBE_ON_NO_TOPIC, Stage};
use session::Fault;
use std::test::Fail;

// Of `persistent://a/b/c`, with request 9.
const LOOKUP: &[u8] = b"\0\0\0\x1f\0\0\0\x1b\x08\x17\xba\x01\x16\x0a\x12persistent://a/b/c\x10\x09";

// LOOKUP_RESPONSE to request 9 with the URL of the board.
const FOUND: &[u8] =
    b"\0\0\0\x1f\0\0\0\x1b\x08\x18\xc2\x01\x16\x0a\x0epulsar://board\x18\x01\x20\x09\x28\x01";

// Of what is no name of a topic, with request 9.
const LOOKUP_OF_NONE: &[u8] =
    b"\0\0\0\x1f\0\0\0\x1b\x08\x17\xba\x01\x16\x0a\x12persistent://a/b/+\x10\x09";

// LOOKUP_RESPONSE to request 9 with InvalidTopicName.
const NOT_FOUND: &[u8] =
    b"\0\0\0\x21\0\0\0\x1d\x08\x18\xc2\x01\x18\x18\x02\x20\x09\x30\x11\x3a\x10InvalidTopicName";

// Of `persistent://a/b/c`, with request 9.
const PARTITIONS: &[u8] =
    b"\0\0\0\x1f\0\0\0\x1b\x08\x15\xaa\x01\x16\x0a\x12persistent://a/b/c\x10\x09";

// PARTITIONED_METADATA_RESPONSE to request 9 with no partition.
const NO_PARTITIONS: &[u8] = b"\0\0\0\x0f\0\0\0\x0b\x08\x16\xb2\x01\x06\x08\0\x10\x09\x18\0";

// Of what is no name of a topic, with request 9.
const PARTITIONS_OF_NONE: &[u8] =
    b"\0\0\0\x1f\0\0\0\x1b\x08\x15\xaa\x01\x16\x0a\x12persistent://a/b/+\x10\x09";

// PARTITIONED_METADATA_RESPONSE to request 9 with InvalidTopicName.
const NOT_PARTITIONED: &[u8] =
    b"\0\0\0\x21\0\0\0\x1d\x08\x16\xb2\x01\x18\x10\x09\x18\x01\x20\x11\x2a\x10InvalidTopicName";

// PRODUCER 1 on such a name, with request 7 and no name.
const PRODUCER_OF_NONE: &[u8] =
    b"\0\0\0\x20\0\0\0\x1c\x08\x05\x2a\x18\x0a\x12persistent://a/b/+\x10\x01\x18\x07";

// ERROR of request 7 with InvalidTopicName.
const PRODUCER_REFUSED: &[u8] =
    b"\0\0\0\x1e\0\0\0\x1a\x08\x0e\x72\x16\x08\x07\x10\x11\x1a\x10InvalidTopicName";

// How many commands are answered so behind CONNECT, and how many topics there are then.
fn answered(stage: &mut Stage, steps: &[(&[u8], &[u8])]) -> Result<(usize, usize), Fault> {
    stage.feed(CONNECT)?;
    Ok((stage.answered(steps)?, stage.board.topics.len()))
}

#[test]
fn a_name_of_no_topic_is_refused(rt: HostRuntime) -> Result<(), Fail> {
    let mut stage = Stage::new(rt.alloc());
    let seen = answered(
        &mut stage,
        &[
            (PRODUCER_OF_NONE, PRODUCER_REFUSED),
            (SUBSCRIBE_ON_NO_TOPIC, NO_TOPIC),
            (LOOKUP_OF_NONE, NOT_FOUND),
            (PARTITIONS_OF_NONE, NOT_PARTITIONED),
            (PING, PONG),
        ],
    );
    drop(stage);
    assert_eq!(rt; seen?, (5, 0));
    Ok(())
}

#[test]
fn a_lookup_makes_no_topic(rt: HostRuntime) -> Result<(), Fail> {
    let mut stage = Stage::new(rt.alloc());
    let seen = answered(
        &mut stage,
        &[(LOOKUP, FOUND), (PARTITIONS, NO_PARTITIONS), (PING, PONG)],
    );
    drop(stage);
    assert_eq!(rt; seen?, (3, 0));
    Ok(())
}
