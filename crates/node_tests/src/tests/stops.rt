// A topic is made beside another one, while the device stops or fails, and the power is cut.
use super::{CONNECT, MemMachine, crashed, done, octets, with_an_entry, worked};
use disk::{CrashForm, Fuse};
use node::{Event, Output, Refusal, Verdict};
use std::alloc::Global;
use std::test::Fail;

/// Of producer 2 on `persistent://a/b/d`, with request 8 and no name.
const OTHER: [u8; 36] = [
    0, 0, 0, 0x20, 0, 0, 0, 0x1c, 8, 5, 0x2a, 0x18, 0x0a, 0x12, 0x70, 0x65, 0x72, 0x73, 0x69, 0x73,
    0x74, 0x65, 0x6e, 0x74, 0x3a, 0x2f, 0x2f, 0x61, 0x2f, 0x62, 0x2f, 0x64, 0x10, 2, 0x18, 8,
];

/// The name is `s0-p2`.
const OTHER_SUCCESS: [u8; 22] = [
    0, 0, 0, 0x12, 0, 0, 0, 0x0e, 8, 0x11, 0x8a, 1, 9, 8, 8, 0x12, 5, 0x73, 0x30, 0x2d, 0x70, 0x32,
];

/// The error is PersistenceError.
const OTHER_REFUSED: [u8; 34] = [
    0, 0, 0, 0x1e, 0, 0, 0, 0x1a, 8, 0x0e, 0x72, 0x16, 8, 8, 0x10, 2, 0x1a, 0x10, 0x50, 0x65, 0x72,
    0x73, 0x69, 0x73, 0x74, 0x65, 0x6e, 0x63, 0x65, 0x45, 0x72, 0x72, 0x6f, 0x72,
];

/// More device calls than the making of a topic has.
const CALLS: u64 = 24;

/// Whether a producer on the other topic was answered its name. Any answer but that and the error is a fault.
fn is_named(output: &Output) -> Result<bool, Fail> {
    let bytes = output.bytes.as_slice();
    let is_named = bytes == OTHER_SUCCESS.as_slice();
    if worked(output)? != Verdict::Done || !is_named && bytes != OTHER_REFUSED.as_slice() {
        return Err(Fail::new("neither the name nor the error"));
    }
    Ok(is_named)
}

/// Asks for the producer on the other topic, and tells whether it was answered its name.
fn attaches(alloc: Global, machine: &mut MemMachine) -> Result<bool, Fail> {
    let asked = octets(alloc, &OTHER)?;
    let output = machine.event(alloc, Event::Bytes(0, asked));
    let is_named = is_named(&output);
    drop(output);
    is_named
}

/// Whether the topic is there: the first one with one entry, and any other with none.
fn is_there(machine: &MemMachine, number: u64) -> Result<bool, Fail> {
    let status = machine.status(number)?;
    let told = match &status {
        Some(status) => Some((status.number, status.entries)),
        None => None,
    };
    drop(status);
    let Some(told) = told else {
        return Ok(false);
    };
    if told != (number, u64::from(number == 0)) {
        return Err(Fail::new("an entry is lost, or of another topic"));
    }
    Ok(true)
}

/// How many topics there are.
fn topics(machine: &MemMachine) -> Result<u64, Fail> {
    for number in 0..3u64 {
        if !is_there(machine, number)? {
            return Ok(number);
        }
    }
    Err(Fail::new("a topic too many"))
}

/// Whether a failure at this call fails the making of the other topic, and whether there are as many topics as there must be: where it
/// fails one, and behind the next search two.
fn settles(alloc: Global, call: u64, machine: &mut MemMachine) -> Result<(bool, bool), Fail> {
    machine.arm(Fuse::Fail(call))?;
    let failed = !attaches(alloc, machine)?;
    let mut is_settled = true;
    if failed {
        is_settled = topics(machine)? == 1 && attaches(alloc, machine)?;
    }
    Ok((failed, is_settled && topics(machine)? == 2))
}

/// The same of a machine that has one topic, with one entry.
fn fails_and_settles(alloc: Global, call: u64) -> Result<(bool, bool), Fail> {
    let mut machine = with_an_entry(alloc)?;
    let seen = settles(alloc, call, &mut machine);
    drop(machine);
    seen
}

#[test]
fn a_failure_in_making_a_topic_is_settled_by_the_next_search(rt: HostRuntime) -> Result<(), Fail> {
    let mut failures = 0u64;
    for call in 1..=CALLS {
        let (failed, is_settled) = fails_and_settles(rt.alloc(), call)?;
        assert!(rt; is_settled, "{call}");
        failures = failures.saturating_add(u64::from(failed));
    }
    assert!(rt; 3 < failures && failures < CALLS, "{failures}");
    Ok(())
}

/// A device that stops in making a topic, and what the next cut of its power leaves. Tells whether the topic was made.
fn stopped(
    alloc: Global,
    call: u64,
    form: CrashForm,
    machine: &mut MemMachine,
) -> Result<bool, Fail> {
    machine.arm(Fuse::Stop(call))?;
    let made = attaches(alloc, machine)?;
    machine.arm(Fuse::CrashAs(form))?;
    Ok(made)
}

/// An event that is worked.
fn work(alloc: Global, event: Event, machine: &mut MemMachine) -> Result<(), Refusal> {
    let output = machine.event(alloc, event);
    let done = done(&output);
    drop(output);
    done
}

/// Whether the name is there or not, where it wasn't answered, and the other topic is as it was; a session that connects then makes it.
fn comes_again(alloc: Global, made: bool, machine: &mut MemMachine) -> Result<bool, Fail> {
    work(alloc, Event::Open, machine)?;
    let connect = octets(alloc, &CONNECT)?;
    work(alloc, Event::Bytes(0, connect), machine)?;
    let found = topics(machine)?;
    if found != 2 && (made || found != 1) {
        return Ok(false);
    }
    Ok(attaches(alloc, machine)? && topics(machine)? == 2)
}

/// A device that stops in making a topic, and the power is cut: the name is there or it isn't, and the other topic is as it was.
fn stops(alloc: Global, call: u64, form: CrashForm) -> Result<bool, Fail> {
    let mut machine = with_an_entry(alloc)?;
    let made = stopped(alloc, call, form, &mut machine);
    let (mut machine, opened) = crashed(alloc, machine);
    let seen = match (made, opened) {
        (Ok(made), Ok(Verdict::Done)) => comes_again(alloc, made, &mut machine),
        (Err(fail), _) => Err(fail),
        (_, Err(refusal)) => Err(Fail::from(refusal)),
        _ => Err(Fail::new("not opened")),
    };
    drop(machine);
    seen
}

#[test]
fn a_stop_in_making_a_topic_leaves_its_name_or_not(rt: HostRuntime) -> Result<(), Fail> {
    for call in 1..=CALLS {
        for form in [
            CrashForm::Old,
            CrashForm::New,
            CrashForm::Fill(1),
            CrashForm::Fill(7),
        ] {
            assert!(rt; stops(rt.alloc(), call, form)?, "{call}");
        }
    }
    Ok(())
}
