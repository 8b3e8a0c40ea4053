// Each output was worked out by hand from the protocol.
use disk::{CATALOG, CursorSlot, DeviceError, FileId, Folder, Fuse, Shelf, TopicId};
use disk_mem::MemShelf;
use node::{
    EntriesPerLedger, Event, Fault, Happening, Machine, Node, Octets, Output, Refusal, ReplyText,
    Site, TopicEvent, Verdict, drive, folders_hold_one_content, lives_account, lives_unfold,
    messages_are_admitted, moves_publish, new_folders_are_served, openings_have_one_fault,
    receipts_are_covered, receipts_are_found, runs_unfold, stays_sound, upgrades_have_one_fault,
    words_are_kept,
};
use std::alloc::{AllocError, Global};
use std::test::Fail;
use steps::{Step, events, happenings};
use topic_core::FileStores;

mod exchanges;
mod steps;
mod stops;
mod upgrades;

/// A node and a machine whose device is in memory.
type MemNode = Node<FileStores, MemShelf>;

type MemMachine = Machine<FileStores, MemShelf>;

const CONNECT: [u8; 17] = [
    0, 0, 0, 0x0d, 0, 0, 0, 9, 8, 2, 0x12, 5, 0x0a, 1, 0x63, 0x20, 5,
];

const CONNECTED: [u8; 26] = [
    0, 0, 0, 0x16, 0, 0, 0, 0x12, 8, 3, 0x1a, 0x0e, 0x0a, 6, 0x6e, 0x6f, 0x64, 0x65, 0x2d, 0x31,
    0x10, 5, 0x18, 0x80, 0x80, 0x40,
];

/// Of producer 1 on `persistent://a/b/c`, with request 7 and no name.
const PRODUCER: [u8; 36] = [
    0, 0, 0, 0x20, 0, 0, 0, 0x1c, 8, 5, 0x2a, 0x18, 0x0a, 0x12, 0x70, 0x65, 0x72, 0x73, 0x69, 0x73,
    0x74, 0x65, 0x6e, 0x74, 0x3a, 0x2f, 0x2f, 0x61, 0x2f, 0x62, 0x2f, 0x63, 0x10, 1, 0x18, 7,
];

/// The name is `s0-p1`.
const PRODUCER_SUCCESS: [u8; 22] = [
    0, 0, 0, 0x12, 0, 0, 0, 0x0e, 8, 0x11, 0x8a, 1, 9, 8, 7, 0x12, 5, 0x73, 0x30, 0x2d, 0x70, 0x31,
];

const SEND: [u8; 30] = [
    0, 0, 0, 0x1a, 0, 0, 0, 8, 8, 6, 0x32, 4, 8, 1, 0x10, 0, 0, 0, 0, 0x0a, 0x0a, 1, 0x70, 0x10, 0,
    0x18, 1, 0xc0, 0x3e, 5,
];

const RECEIPT: [u8; 22] = [
    0, 0, 0, 0x12, 0, 0, 0, 0x0e, 8, 7, 0x3a, 0x0a, 8, 1, 0x10, 0, 0x1a, 4, 8, 0, 0x10, 0,
];

/// CONNECT in two pieces.
const CONNECT_HEAD: [u8; 16] = [
    0, 0, 0, 0x0d, 0, 0, 0, 9, 8, 2, 0x12, 5, 0x0a, 1, 0x63, 0x20,
];

const CONNECT_END: [u8; 1] = [5];

const PING: [u8; 13] = [0, 0, 0, 9, 0, 0, 0, 5, 8, 0x12, 0x92, 1, 0];

const PONG: [u8; 13] = [0, 0, 0, 9, 0, 0, 0, 5, 8, 0x13, 0x9a, 1, 0];

fn octets(alloc: Global, bytes: &[u8]) -> Result<Octets, AllocError> {
    Ok(Octets::from(bytes.to_vec(alloc)?))
}

/// Its topics.
const FIRST: TopicId = TopicId {
    folder: Folder::Two,
    number: 0,
};

const SECOND: TopicId = TopicId {
    folder: Folder::Two,
    number: 1,
};

/// The files of a node of two topics.
const FILES: [FileId; 7] = [
    CATALOG,
    FileId::Segment {
        topic: FIRST,
        number: 0,
    },
    FileId::Slot {
        topic: FIRST,
        slot: CursorSlot::Zero,
    },
    FileId::Slot {
        topic: FIRST,
        slot: CursorSlot::One,
    },
    FileId::Segment {
        topic: SECOND,
        number: 0,
    },
    FileId::Slot {
        topic: SECOND,
        slot: CursorSlot::Zero,
    },
    FileId::Slot {
        topic: SECOND,
        slot: CursorSlot::One,
    },
];

/// A file that was once long.
fn was_long(shelf: &mut MemShelf, file: FileId) -> Result<(), DeviceError> {
    shelf.write_at(file, 0, &[b'-'; 512])?;
    shelf.sync(file)?;
    shelf.cut(file, 0)?;
    shelf.sync(file)
}

/// Makes a node whose files were once long, so that its device takes no more memory for their bytes.
fn initialise(alloc: Global, shelf: &mut MemShelf) -> Result<(), Fail> {
    for file in FILES {
        was_long(shelf, file)?;
    }
    let Some(entries_per_ledger) = EntriesPerLedger::new(1_000) else {
        return Err(Fail::new("a ledger may have a thousand entries"));
    };
    MemNode::init(alloc, entries_per_ledger, shelf)?;
    Ok(())
}

/// The site of a new node.
fn made(alloc: Global) -> Result<Site<MemShelf>, Fail> {
    let url = ReplyText::new(String::from_str(alloc, "pulsar://test")?);
    let mut site = Site {
        url,
        shelf: MemShelf::new(alloc),
    };
    if let Err(fail) = initialise(alloc, &mut site.shelf) {
        drop(site);
        return Err(fail);
    }
    Ok(site)
}

/// How an event went, other than by want of memory.
fn worked(output: &Output) -> Result<Verdict, Refusal> {
    match output.result {
        Verdict::Refused(Refusal::NoMemory) | Verdict::Ended(Fault::NoMemory) => {
            Err(Refusal::NoMemory)
        }
        result => Ok(result),
    }
}

/// The same of an output that nobody reads.
fn result_of(output: Output) -> Result<Verdict, Refusal> {
    let result = worked(&output);
    drop(output);
    result
}

/// Whether the outputs are these, each by its bytes and how it went.
fn are_those(outputs: &[Output], expected: &[(&[u8], Verdict)]) -> Result<bool, Refusal> {
    let mut same = outputs.len() == expected.len();
    for (output, (bytes, wanted)) in outputs.iter().zip(expected.iter()) {
        let result = worked(output)?;
        same = same && output.bytes.as_slice() == *bytes && result == *wanted;
    }
    Ok(same)
}

/// The same of outputs that nobody reads behind this.
fn are(outputs: Vec<Output>, expected: &[(&[u8], Verdict)]) -> Result<bool, Refusal> {
    let same = are_those(outputs.as_slice(), expected);
    drop(outputs);
    same
}

/// A node without topics.
fn opened(alloc: Global) -> Result<MemNode, Fail> {
    match Node::open(alloc, made(alloc)?) {
        Ok(node) => Ok(node),
        Err((refusal, site)) => {
            drop(site);
            Err(Fail::from(refusal))
        }
    }
}

/// What a node without topics puts out through these events.
fn ran(alloc: Global, steps: &[Step]) -> Result<Vec<Output>, Fail> {
    let events = events(alloc, steps)?;
    let mut node = match opened(alloc) {
        Ok(node) => node,
        Err(fail) => {
            drop(events);
            return Err(fail);
        }
    };
    let mut outputs = Vec::new(alloc);
    let ran = node.run(events, &mut outputs);
    drop(node);
    if ran.is_err() {
        drop(outputs);
        return Err(Fail::from(AllocError));
    }
    Ok(outputs)
}

#[test]
fn open_never_has_memory(rt: HostRuntime) -> Result<(), Fail> {
    let mut node = opened(rt.alloc())?;
    let output = node.step(Event::OnTopic(0, TopicEvent::Flush));
    drop(node);
    assert_eq!(rt; result_of(output)?, Verdict::Unknown);
    Ok(())
}

/// A client that connects in two pieces, pings and goes; another topic is opened again, and the session that is gone pumped.
const CONNECTING: [Step; 7] = [
    Step::Open,
    Step::Bytes(&CONNECT_HEAD),
    Step::Bytes(&CONNECT_END),
    Step::Bytes(&PING),
    Step::Reopen(1),
    Step::Close,
    Step::Pump,
];

/// What a node puts out through these.
const OF_A_RUN: [(&[u8], Verdict); 7] = [
    (&[], Verdict::Done),
    (&[], Verdict::Done),
    (&CONNECTED, Verdict::Done),
    (&PONG, Verdict::Done),
    (&[], Verdict::Unknown),
    (&[], Verdict::Done),
    (&[], Verdict::Unknown),
];

#[test]
fn a_run_works_its_events_in_order(rt: HostRuntime) -> Result<(), Fail> {
    let outputs = ran(rt.alloc(), &CONNECTING)?;
    assert!(rt; are(outputs, &OF_A_RUN)?);
    Ok(())
}

/// A client that connects and sends an entry, which is committed.
const SENDING: [Step; 5] = [
    Step::Open,
    Step::Bytes(&CONNECT),
    Step::Bytes(&PRODUCER),
    Step::Bytes(&SEND),
    Step::Flush,
];

/// The same, a pump, a crash and a pump of a session that is gone.
const OVER_A_CRASH: [Step; 8] = [
    Step::Open,
    Step::Bytes(&CONNECT),
    Step::Bytes(&PRODUCER),
    Step::Bytes(&SEND),
    Step::Flush,
    Step::Pump,
    Step::Crash,
    Step::Pump,
];

/// The opening, and what a machine puts out through these.
const OF_A_MACHINE: [(&[u8], Verdict); 9] = [
    (&[], Verdict::Done),
    (&[], Verdict::Done),
    (&CONNECTED, Verdict::Done),
    (&PRODUCER_SUCCESS, Verdict::Done),
    (&[], Verdict::Done),
    (&[], Verdict::Done),
    (&RECEIPT, Verdict::Done),
    (&[], Verdict::Done),
    (&[], Verdict::Unknown),
];

/// Whether a machine puts out these, behind its opening.
fn drives(alloc: Global, steps: &[Step], wanted: &[(&[u8], Verdict)]) -> Result<MemMachine, Fail> {
    let mut outputs = Vec::new(alloc);
    let machine = match driven(alloc, steps, &mut outputs) {
        Ok(machine) => machine,
        Err(fail) => {
            drop(outputs);
            return Err(fail);
        }
    };
    match are(outputs, wanted) {
        Ok(true) => Ok(machine),
        Ok(false) => {
            drop(machine);
            Err(Fail::new("other outputs"))
        }
        Err(refusal) => {
            drop(machine);
            Err(Fail::from(refusal))
        }
    }
}

#[test]
fn a_machine_is_driven_through_events_and_crashes(rt: HostRuntime) -> Result<(), Fail> {
    let machine = drives(rt.alloc(), &OVER_A_CRASH, &OF_A_MACHINE)?;
    let entries = entries(&machine);
    drop(machine);
    assert_eq!(rt; entries?, Some(1));
    Ok(())
}

// What follows stands between the tests and calls whose contracts say much, of which a test needs nothing.

/// The machine behind what happened, and its outputs.
fn driven(alloc: Global, steps: &[Step], outputs: &mut Vec<Output>) -> Result<MemMachine, Fail> {
    let happenings = happenings(alloc, steps)?;
    let site = match made(alloc) {
        Ok(site) => site,
        Err(fail) => {
            drop(happenings);
            return Err(fail);
        }
    };
    Ok(drive(alloc, site, happenings, outputs)?)
}

/// The machine behind a crash, and what its opening answered.
fn crashed(alloc: Global, machine: MemMachine) -> (MemMachine, Result<Verdict, Refusal>) {
    let (machine, output) = machine.crash(alloc);
    (machine, result_of(output))
}

/// How many entries the topic has, where the node is up.
fn entries(machine: &MemMachine) -> Result<Option<u64>, Refusal> {
    let status = machine.status(0)?;
    let entries = match &status {
        Some(status) => Some(status.entries),
        None => None,
    };
    drop(status);
    Ok(entries)
}

/// Whether all went well. What found no memory, in the node or within the device, is an error.
fn all_done(outputs: &[Output]) -> Result<(), Refusal> {
    for output in outputs {
        done(output)?;
    }
    Ok(())
}

/// A machine whose node has one entry.
fn with_an_entry(alloc: Global) -> Result<MemMachine, Fail> {
    let mut outputs = Vec::new(alloc);
    let machine = driven(alloc, &SENDING, &mut outputs);
    let done = all_done(outputs.as_slice());
    drop(outputs);
    match (machine, done) {
        (Ok(machine), Ok(())) => Ok(machine),
        (Ok(machine), Err(refusal)) => {
            drop(machine);
            Err(Fail::from(refusal))
        }
        (Err(fail), _) => Err(fail),
    }
}

/// What found no memory, in the node or within the device, is an error.
fn done(output: &Output) -> Result<(), Refusal> {
    match output.result {
        Verdict::Refused(refusal) => Err(refusal),
        Verdict::Ended(Fault::NoMemory) => Err(Refusal::NoMemory),
        Verdict::Done | Verdict::Ended(_) | Verdict::Full | Verdict::Unknown => Ok(()),
    }
}

/// Whether a machine with one entry is refused by an opening in which a read fails, and whether the next crash's opening finds the entry.
fn refuses_and_finds(alloc: Global, read: u64) -> Result<(bool, bool), Fail> {
    let mut machine = with_an_entry(alloc)?;
    let armed = machine.arm(Fuse::FailRead(read));
    let (machine, refused) = crashed(alloc, machine);
    let down = entries(&machine);
    let (machine, found) = crashed(alloc, machine);
    let up = entries(&machine);
    drop(machine);
    armed?;
    Ok((
        refused? == Verdict::Refused(Refusal::Device) && down?.is_none(),
        found? == Verdict::Done && up? == Some(1),
    ))
}

// Each read of an opening fails in turn: of the heads of four files, and of the gates, the name and the entry behind them.
#[test]
fn a_failing_read_refuses_an_opening(rt: HostRuntime) -> Result<(), Fail> {
    for read in 1..=11u64 {
        assert_eq!(rt;
            refuses_and_finds(rt.alloc(), read)?,
            (true, true),
            "{read}"
        );
    }
    Ok(())
}

#[test]
fn laws_cost_nothing() {
    runs_unfold();
    lives_unfold();
    stays_sound();
    moves_publish();
    receipts_are_covered();
    receipts_are_found();
    words_are_kept();
    messages_are_admitted();
    lives_account();
    folders_hold_one_content();
    upgrades_have_one_fault();
    new_folders_are_served::<MemShelf>();
}
