// What no line can ask of subscriptions: whether permits are closed, and who sees what was granted from outside.
ghost use Rattle.std.specs.Prelude.{◌≡◌, ◌≤◌, OnOk, length};

use holds::{Consumer as Seat, ConsumerKey, SlotRanges};
use permits::{Gauge, Granter, PlainGauge, PlainTold, Taker, permits};
use std::alloc::{AllocError, Global};
use std::cell::Cell;
use std::test::Fail;
use subscriptions::{InitialPosition, Mode, Subscriptions};

const FIRST: ConsumerKey = ConsumerKey { session: 0, id: 2 };

const SECOND: ConsumerKey = ConsumerKey { session: 1, id: 2 };

/// A consumer without ranges.
fn seat(alloc: Global, key: ConsumerKey) -> Seat {
    Seat {
        key,
        ranges: SlotRanges::new(Vec::new(alloc)),
    }
}

/// Adds so many entries of slot 0, so that each committed one has a slot.
fn add_entries<G: Gauge>(subs: &mut Subscriptions<G>, count: u32) -> Result<(), AllocError>
    ensures { OnOk result ((count ≤ length subs.new.slots) × (count ≤ length subs.new.messages)) }
{
    for i in 0..count {
        subs.add_mark(0, 1)?;
    }
    Ok(())
}

/// The position that a consumer may get of so many committed ones.
fn pick<G: Gauge>(
    subs: &mut Subscriptions<G>,
    key: ConsumerKey,
    committed: u32,
) -> Result<Option<u64>, AllocError> {
    add_entries(subs, committed)?;
    Ok(subs.pick(key, u64::from(committed)))
}

/// What a consumer gets of so many committed positions: one of them, and how often it was sent before.
fn send<G: Gauge>(
    subs: &mut Subscriptions<G>,
    key: ConsumerKey,
    committed: u32,
) -> Result<Option<(u64, u32)>, AllocError> {
    add_entries(subs, committed)?;
    let Some(position) = subs.pick(key, u64::from(committed)) else {
        return Ok(None);
    };
    let before = subs.send(key, position, u64::from(committed))?;
    Ok(Some((position, before)))
}

/// Attaches a consumer with these permits where nothing is against it, and answers whether it did.
fn subscribe<G: Gauge>(
    subs: &mut Subscriptions<G>,
    alloc: Global,
    name: &str,
    key: ConsumerKey,
    gauge: G,
) -> Result<bool, AllocError>
    requires none_known { G.known gauge ≡ 0 }
    requires none_sent { G.sent gauge ≡ 0 }
    requires none_looked { G.looks gauge ≡ 0 }
{
    let seat = seat(alloc, key);
    let refusal = subs.refusal(name, Mode::Shared, seat.ranges.as_slice());
    if refusal.is_some() {
        return Ok(false);
    }
    subs.attach(
        name,
        Mode::Shared,
        seat,
        gauge,
        InitialPosition::Earliest,
        0,
        0,
    )?;
    Ok(true)
}

/// Permits of which it is counted how often any were closed.
#[derive(Drop)]
struct Watched<'a> {
    permits: PlainGauge,
    closed: &'a Cell<u32>,
}

impl<'a> Watched<'a> {
    fn new(closed: &'a Cell<u32>) -> Self
        ensures known { result.permits.granted ≡ 0 }
        ensures sent { result.permits.sent ≡ 0 }
    {
        Self {
            permits: PlainGauge::new(),
            closed,
        }
    }
}

impl<'a> Gauge for Watched<'a> {
    type Told = PlainTold;

    ghost use Rattle.std.specs.Prelude.{None};

    ghost sent = { λ w. w.permits.sent };

    ghost known = { λ w. w.permits.granted };

    ghost word = { λ w. None };

    ghost tells = { λ t. t.known };

    ghost told_of = { λ t. None };

    ghost exact = { Unit {0} };

    ghost looks = { λ w. 0 };

    fn sent(&self) -> u64 {
        self.permits.sent()
    }

    fn left(&self) -> u64 {
        self.permits.left()
    }

    fn learn(&mut self, told: PlainTold) {
        self.permits.learn(told);
    }

    fn look(&mut self) -> bool {
        self.permits.look()
    }

    fn take(&mut self, messages: u32) -> bool {
        self.permits.take(messages)
    }

    fn close(&mut self) {
        self.closed.set(self.closed.get().saturating_add(1));
        self.permits.close();
    }
}

/// How often permits were closed: at first, behind one consumer that goes, behind a session of two, and behind a subscription's end.
fn closings<'a>(
    subs: &mut Subscriptions<Watched<'a>>,
    alloc: Global,
    closed: &'a Cell<u32>,
) -> Result<[u32; 4], AllocError> {
    subscribe(subs, alloc, "s", FIRST, Watched::new(closed))?;
    subscribe(subs, alloc, "s", SECOND, Watched::new(closed))?;
    subscribe(subs, alloc, "t", SECOND, Watched::new(closed))?;
    let at_first = closed.get();
    subs.detach(FIRST);
    let behind_one = closed.get();
    subs.leave(1);
    let behind_two = closed.get();
    subscribe(subs, alloc, "s", FIRST, Watched::new(closed))?;
    if subs.unsubscribe_refusal(FIRST).is_none() {
        subs.unsubscribe(FIRST)?;
    }
    let behind_all = closed.get();
    subscribe(subs, alloc, "t", FIRST, Watched::new(closed))?;
    Ok([at_first, behind_one, behind_two, behind_all])
}

/// The permits of the last consumer are closed with the subscriptions.
#[test]
fn permits_are_closed_when_a_consumer_goes(rt: HostRuntime) -> Result<(), Fail> {
    let closed = Cell::new(0u32);
    let mut subs = Subscriptions::new(rt.alloc());
    let seen = closings(&mut subs, rt.alloc(), &closed);
    drop(subs);
    assert_eq!(rt; (seen?, closed.get()), ([0, 1, 3, 4], 5));
    Ok(())
}

/// Attaches a consumer whose permits are granted from outside.
fn attach(subs: &mut Subscriptions<Taker>, alloc: Global) -> Result<Option<Granter>, AllocError> {
    let (granter, taker) = permits(alloc)?;
    match subscribe(subs, alloc, "s", FIRST, taker) {
        Ok(true) => Ok(Some(granter)),
        Ok(false) => {
            drop(granter);
            Ok(None)
        }
        Err(error) => {
            drop(granter);
            Err(error)
        }
    }
}

/// What the consumer would get, before a permit is granted and behind the first one; and what it gets then, once more, and behind the
/// second permit.
type Got = ([Option<u64>; 2], [Option<(u64, u32)>; 3]);

fn gets(subs: &mut Subscriptions<Taker>, granter: &mut Granter) -> Result<Got, AllocError> {
    let before = pick(subs, FIRST, 2)?;
    if granter.grant(1).is_err() {
        return Ok(([before, None], [None; 3]));
    }
    let behind = pick(subs, FIRST, 2)?;
    let first = send(subs, FIRST, 2)?;
    let without = send(subs, FIRST, 2)?;
    if granter.grant(1).is_err() {
        return Ok(([before, behind], [first, without, None]));
    }
    let second = send(subs, FIRST, 2)?;
    Ok(([before, behind], [first, without, second]))
}

#[test]
fn a_pick_sees_what_was_granted_from_outside(rt: HostRuntime) -> Result<(), Fail> {
    let mut subs = Subscriptions::new(rt.alloc());
    let seen = match attach(&mut subs, rt.alloc()) {
        Ok(Some(mut granter)) => gets(&mut subs, &mut granter),
        Ok(None) => Ok(([None; 2], [None; 3])),
        Err(error) => Err(error),
    };
    drop(subs);
    assert_eq!(rt;
        seen?,
        ([None, Some(0)], [Some((0, 0)), None, Some((1, 0))])
    );
    Ok(())
}

/// Whether the session is quiet: before a permit is granted, as it was told behind that, by a look, as that told, and behind a message.
fn quiets(
    subs: &mut Subscriptions<Taker>,
    granter: &mut Granter,
) -> Result<([bool; 5], Option<(u64, u32)>), AllocError> {
    let before = subs.is_quiet(FIRST.session, 1);
    if granter.grant(1).is_err() {
        return Ok(([before; 5], None));
    }
    let told = subs.was_quiet(FIRST.session, 1);
    let looked = subs.is_quiet(FIRST.session, 1);
    let told_then = subs.was_quiet(FIRST.session, 1);
    let sent = send(subs, FIRST, 1)?;
    let behind = subs.is_quiet(FIRST.session, 1);
    Ok(([before, told, looked, told_then, behind], sent))
}

#[test]
fn a_session_is_not_quiet_once_permits_were_granted_from_outside(
    rt: HostRuntime,
) -> Result<(), Fail> {
    let mut subs = Subscriptions::new(rt.alloc());
    let seen = match attach(&mut subs, rt.alloc()) {
        Ok(Some(mut granter)) => quiets(&mut subs, &mut granter),
        Ok(None) => Ok(([false; 5], None)),
        Err(error) => Err(error),
    };
    drop(subs);
    assert_eq!(rt; seen?, ([true, true, false, false, true], Some((0, 0))));
    Ok(())
}
