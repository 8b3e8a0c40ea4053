// Exchanges of clients as lists of events and of what happens: what the program's scripts show, of the node itself.
use super::steps::Step;
use super::{CONNECT, CONNECTED, PRODUCER, PRODUCER_SUCCESS, RECEIPT, SEND, are, drives, ran};
use node::Verdict;
use std::test::Fail;

/// To `s` on `persistent://a/b/c`, durable, Earliest, of consumer 2, with request 8.
const SUBSCRIBE: [u8; 43] = [
    0, 0, 0, 0x27, 0, 0, 0, 0x23, 8, 4, 0x22, 0x1f, 0x0a, 0x12, 0x70, 0x65, 0x72, 0x73, 0x69, 0x73,
    0x74, 0x65, 0x6e, 0x74, 0x3a, 0x2f, 0x2f, 0x61, 0x2f, 0x62, 0x2f, 0x63, 0x12, 1, 0x73, 0x18, 0,
    0x20, 2, 0x28, 8, 0x68, 1,
];

const SUCCESS: [u8; 14] = [0, 0, 0, 0x0a, 0, 0, 0, 6, 8, 0x0d, 0x6a, 2, 8, 8];

/// One permit for consumer 2.
const FLOW: [u8; 16] = [0, 0, 0, 0x0c, 0, 0, 0, 8, 8, 0x0b, 0x5a, 4, 8, 2, 0x10, 1];

/// By consumer 2, of the entry 0 of the ledger 0.
const ACK: [u8; 22] = [
    0, 0, 0, 0x12, 0, 0, 0, 0x0e, 8, 0x0a, 0x52, 0x0a, 8, 2, 0x10, 0, 0x1a, 4, 8, 0, 0x10, 0,
];

const MESSAGE: [u8; 34] = [
    0, 0, 0, 0x1e, 0, 0, 0, 0x0c, 8, 9, 0x4a, 8, 8, 2, 0x12, 4, 8, 0, 0x10, 0, 0, 0, 0, 0x0a, 0x0a,
    1, 0x70, 0x10, 0, 0x18, 1, 0xc0, 0x3e, 5,
];

/// What the first exchange puts out: a producer connects and sends, and gets its receipt behind the flush.
const OF_THE_FIRST: [(&[u8], Verdict); 6] = [
    (&[], Verdict::Done),
    (&CONNECTED, Verdict::Done),
    (&PRODUCER_SUCCESS, Verdict::Done),
    (&[], Verdict::Done),
    (&[], Verdict::Done),
    (&RECEIPT, Verdict::Done),
];

/// The first exchange.
const FIRST: [Step; 6] = [
    Step::Open,
    Step::Bytes(&CONNECT),
    Step::Bytes(&PRODUCER),
    Step::Bytes(&SEND),
    Step::Flush,
    Step::Pump,
];

#[test]
fn the_first_exchange_is_one_run(rt: HostRuntime) -> Result<(), Fail> {
    let outputs = ran(rt.alloc(), &FIRST)?;
    assert!(rt; are(outputs, &OF_THE_FIRST)?);
    Ok(())
}

/// The opening, and what a machine puts out through `LOSING`. The message comes again, for the acknowledgement wasn't flushed.
const OF_A_LOST_ACKNOWLEDGEMENT: [(&[u8], Verdict); 19] = [
    (&[], Verdict::Done),
    (&[], Verdict::Done),
    (&CONNECTED, Verdict::Done),
    (&PRODUCER_SUCCESS, Verdict::Done),
    (&[], Verdict::Done),
    (&[], Verdict::Done),
    (&SUCCESS, Verdict::Done),
    (&[], Verdict::Done),
    (&[], Verdict::Done),
    (&[], Verdict::Done),
    (&RECEIPT_AND_MESSAGE, Verdict::Done),
    (&[], Verdict::Done),
    (&[], Verdict::Done),
    (&[], Verdict::Done),
    (&CONNECTED, Verdict::Done),
    (&[], Verdict::Done),
    (&[], Verdict::Done),
    (&[], Verdict::Done),
    (&SUCCESS_AND_MESSAGE, Verdict::Done),
];

const RECEIPT_AND_MESSAGE: [u8; 56] = [
    0, 0, 0, 0x12, 0, 0, 0, 0x0e, 8, 7, 0x3a, 0x0a, 8, 1, 0x10, 0, 0x1a, 4, 8, 0, 0x10, 0, 0, 0, 0,
    0x1e, 0, 0, 0, 0x0c, 8, 9, 0x4a, 8, 8, 2, 0x12, 4, 8, 0, 0x10, 0, 0, 0, 0, 0x0a, 0x0a, 1, 0x70,
    0x10, 0, 0x18, 1, 0xc0, 0x3e, 5,
];

const SUCCESS_AND_MESSAGE: [u8; 48] = [
    0, 0, 0, 0x0a, 0, 0, 0, 6, 8, 0x0d, 0x6a, 2, 8, 8, 0, 0, 0, 0x1e, 0, 0, 0, 0x0c, 8, 9, 0x4a, 8,
    8, 2, 0x12, 4, 8, 0, 0x10, 0, 0, 0, 0, 0x0a, 0x0a, 1, 0x70, 0x10, 0, 0x18, 1, 0xc0, 0x3e, 5,
];

/// A consumer acknowledges a message, and the power is cut before the next flush; it comes again, and subscribes again.
const LOSING: [Step; 18] = [
    Step::Open,
    Step::Bytes(&CONNECT),
    Step::Bytes(&PRODUCER),
    Step::Bytes(&SUBSCRIBE),
    Step::Flush,
    Step::Pump,
    Step::Bytes(&SEND),
    Step::Bytes(&FLOW),
    Step::Flush,
    Step::Pump,
    Step::Bytes(&ACK),
    Step::Crash,
    Step::Open,
    Step::Bytes(&CONNECT),
    Step::Bytes(&SUBSCRIBE),
    Step::Flush,
    Step::Bytes(&FLOW),
    Step::Pump,
];

#[test]
fn an_acknowledgement_that_a_crash_loses_is_one_drive(rt: HostRuntime) -> Result<(), Fail> {
    drop(drives(rt.alloc(), &LOSING, &OF_A_LOST_ACKNOWLEDGEMENT)?);
    Ok(())
}
