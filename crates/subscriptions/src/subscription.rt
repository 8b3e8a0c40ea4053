mod summary;

ghost use Rattle.std.specs.Prelude.{◌≡◌, ◌+◌, ◌^◌, ◌<◌, ◌≤◌, ◌++◌, ◌∷◌, [], ℕ, All, IfOk, IfNone, IfSome, MatchResult, OnOk, OnErr, Some, None, true, false, ◌&&◌, filter, length, nat_eq, not, nat_lt, position, cond, map as each};
ghost use Rattle.std.specs.Option.{option_map, option_copied};
ghost use Rattle.std.specs.List.{find, list_any};
ghost use Rattle.std.specs.FinMap as map;
ghost use Rattle.holds.specs.Backlog.{IsOpenAt, attached};
ghost use Rattle.holds.specs.Deliveries.{times, given_back, same_key};
ghost use Rattle.holds.specs.declared.consumer.Consumer.{Consumer as TheSeat};
ghost use Rattle.subscriptions.specs.Steps.{is_consumer, is_on, first_changed, first_standing, same_mode, is_exclusive, is_failover, serves_many, is_shared_mode, is_key_shared, attach_refusals, refuses_ranges, attached_to, made, opened_one, granted_to, granted_on, is_past, learnt_to, learnt_on, IsLearnt, IsLooked, HasLearntOn, HaveLooked, HasLookedOn, acked_on, acked_through_on, has_permit, AdmitsBy, sent_on, left_on, detached_on, is_asked_back, redelivered_on};
ghost use Rattle.subscriptions.specs.Dispatching.{mode_of, seats_of, keys};
ghost use Rattle.subscriptions.specs.Hints.{IsPassed};
ghost use Rattle.subscriptions.specs.Freeing.{freed_among};
ghost use Rattle.subscriptions.specs.Quiet.{IsQuietOn, has_permits};
ghost use Rattle.subscriptions.specs.Statuses.{IsStatus};
ghost use Rattle.subscriptions.specs.Trimming.{IsPast};

use crate::backlog::Backlog;
use crate::consumer::{Consumer, Mode, Refusal};
use crate::consumers::Consumers;
use crate::dispatch::Dispatch;
use crate::entry_marks::EntryMarks;
use crate::progress::{Progress, lowered};
use crate::status::SubscriptionStatus;
use cursor::Cursor;
use holds::{Consumer as Seat, ConsumerKey, SlotRange};
use permits::{Gauge, Grant, TooManyPermits};
use records::Name;
use std::alloc::{AllocError, Global};
use std::marker::Model;

/// How many consumers a subscription takes. Our own rule.
const MOST_CONSUMERS: usize = 64;

#[derive(Drop)]
pub(crate) struct Subscription<G: Gauge> {
    name: Name,
    dispatch: Dispatch,
    consumers: Consumers<G>,
    progress: Progress,
}

impl<G: Gauge> Model for Subscription<G> {
    ghost use Rattle.std.specs.Coded.{codes};
    ghost use Rattle.cursor.specs.Positions.{positions_code};
    ghost use Rattle.holds.specs.Deliveries.{deliveries_code};
    ghost use Rattle.subscriptions.specs.State.{Subscription as State};

    ghost Value = { State };

    ghost coded = { Prim.hlevel (codes, positions_code, deliveries_code) };

    ghost use Rattle.subscriptions.specs.Held.{subscription_of};
    ghost use Rattle.subscriptions.specs.Soundness.{IsSoundSubscription};

    ghost view = { subscription_of };

    ghost invariant = { λ s. IsSoundSubscription (subscription_of s) };
}

impl<G: Gauge> Subscription<G> {
    /// All positions below `start` are acknowledged, and nobody is attached.
    pub(crate) fn new(alloc: Global, name: Name, mode: Mode, start: u64) -> Subscription<G>
        requires { start ≤ 2 ^ 62 }
        ensures { result ≡ made name mode start }
    {
        Subscription {
            name,
            dispatch: Dispatch::new(alloc, mode),
            consumers: Consumers::new(alloc),
            progress: Progress::new(alloc, start),
        }
    }

    /// These positions are acknowledged, and nobody is attached.
    pub(crate) fn opened(alloc: Global, name: Name, acked: Cursor) -> Subscription<G>
        ensures { result ≡ opened_one (name, acked) }
    {
        Subscription {
            name,
            dispatch: Dispatch::new(alloc, Mode::Exclusive),
            consumers: Consumers::new(alloc),
            progress: Progress::opened(alloc, acked),
        }
    }

    pub(crate) fn name(&self) -> &str
        ensures { result.now ≡ self.now.name }
    {
        self.name.as_str()
    }

    /// Its name, of which clones are shares.
    pub(crate) fn shared_name(&self) -> &Name
        ensures { result.now ≡ self.now.name }
    {
        &self.name
    }

    /// What is told of it.
    pub(crate) fn status(&self, alloc: Global) -> Result<SubscriptionStatus, AllocError>
        ensures { IfOk result (IsStatus self.now.name self.now.acked) }
    {
        let name = Name::new(alloc, self.name())?;
        self.progress.status(name)
    }

    /// A position below which all are acknowledged. Those for which there was no memory are left aside.
    pub(crate) fn mark_delete(&self) -> u64
        ensures { IsPast result self.now }
    {
        self.progress.mark_delete()
    }

    /// Whether the consumer is attached.
    pub(crate) fn is_on(&self, key: ConsumerKey) -> bool
        ensures { result ≡ is_on key self.now }
    {
        self.consumers.is_attached(key)
    }

    /// Why one more consumer is refused.
    pub(crate) fn refusal(&self, mode: Mode, ranges: &[SlotRange]) -> Option<Refusal>
        ensures { result ≡ first_standing (attach_refusals mode ranges.now self.now) }
    {
        if !self.consumers.is_empty() && !same_mode(self.dispatch.mode(), mode) {
            return Some(Refusal::ConsumerBusy);
        }
        if !self.consumers.is_empty() && is_exclusive(mode) {
            return Some(Refusal::ConsumerBusy);
        }
        if self.consumers.len() >= MOST_CONSUMERS {
            return Some(Refusal::TooManyRequests);
        }
        if is_key_shared(mode) && self.dispatch.refuses_ranges(ranges) {
            return Some(Refusal::ConsumerAssignError);
        }
        None
    }

    /// Attaches a consumer behind the others. The first one sets the mode. A refusal changes
    /// nothing.
    pub(crate) fn attach(
        &mut self,
        alloc: Global,
        mode: Mode,
        seat: Seat,
        gauge: G,
    ) -> Result<(), AllocError>
        requires allowed { first_standing (attach_refusals mode seat.ranges self.old) ≡ None }
        requires none_known { G.known gauge ≡ 0 }
        requires none_sent { G.sent gauge ≡ 0 }
        requires none_looked { G.looks gauge ≡ 0 }
        ensures ok { OnOk result (self.new ≡ attached_to mode seat (G.word gauge) self.old) }
        ensures err { OnErr result (self.new ≡ self.old) }
    {
        let newcomer = Consumer::new(seat.key, gauge);
        if self.consumers.is_empty() {
            let dispatch = match first_one(alloc, mode, seat) {
                Ok(dispatch) => dispatch,
                Err(refused) => {
                    drop(newcomer);
                    return Err(refused);
                }
            };
            if let Err(refused) = self.consumers.push(newcomer) {
                drop(dispatch);
                return Err(refused);
            }
            self.dispatch = dispatch;
            return Ok(());
        }
        if let Err(refused) = self.consumers.push(newcomer) {
            drop(seat);
            return Err(refused);
        }
        match self.dispatch.attach(seat) {
            Ok(()) => Ok(()),
            Err(refused) => {
                self.consumers.pop();
                Err(refused)
            }
        }
    }

    /// Acknowledges positions. A refusal changes nothing.
    pub(crate) fn acknowledge(&mut self, positions: &[u64]) -> Result<(), AllocError>
        requires { All (λ p. p < 2 ^ 62) positions.now }
        ensures ok { OnOk result (self.new ≡ acked_on positions.now self.old) }
        ensures err { OnErr result (self.new ≡ self.old) }
    {
        self.progress.acknowledge(positions)?;
        Ok(())
    }

    /// Acknowledges all positions up to and with this one.
    pub(crate) fn acknowledge_through(&mut self, position: u64)
        requires { position < 2 ^ 62 }
        ensures { self.new ≡ acked_through_on position self.old }
    {
        self.progress.acknowledge_through(position);
    }

    /// Whether more than one consumer is attached.
    pub(crate) fn is_shared(&self) -> bool
        ensures { result ≡ nat_lt 1 (length self.now.consumers) }
    {
        self.consumers.len() > 1
    }

    /// Looks whether the consumer is attached and has a permit left.
    pub(crate) fn look(&mut self, key: ConsumerKey) -> bool
        ensures looked { IsLooked G.exact (λ n. learnt_on key n self.old) self.new }
        ensures exact { G.exact → self.new ≡ self.old }
        ensures permit { result ≡ has_permit (find (is_consumer key) self.new.consumers) }
    {
        self.consumers.look(key)
    }

    /// The position that the consumer may get, its permits aside. On Key_Shared the search begins at `from`, below which
    /// nothing is left for it. What is acknowledged or held in front is passed over once, and not by later calls.
    pub(crate) fn pick(
        &mut self,
        key: ConsumerKey,
        marks: &EntryMarks,
        committed: u64,
        from: u64,
    ) -> Option<u64>
        requires fits { committed ≤ 2 ^ 62 }
        requires known { committed ≤ length marks.now.slots }
        requires there { is_on key self.old ≡ true }
        requires passed { IsPassed (attached key self.old.seats) self.old.acked self.old.deliveries marks.now.slots from }
        ensures same { self.new ≡ self.old }
        ensures some { IfSome result (AdmitsBy self.old.mode key self.old marks.now.slots (IsOpenAt committed self.old.acked self.old.deliveries)) }
        ensures none { IfNone result ((i : ℕ) → AdmitsBy self.old.mode key self.old marks.now.slots (IsOpenAt committed self.old.acked self.old.deliveries) i → ⊥) }
    {
        let Some(place) = self.consumers.place_of(key) else {
            unreachable!()
        };
        let first = self.progress.settle(committed);
        let backlog = Backlog {
            progress: &self.progress,
            marks,
            committed,
            first,
        };
        self.dispatch.pick(&backlog, key, place, from)
    }

    /// Whether something is open, and a consumer of the session has a permit for it: where something is, it is looked what was
    /// granted to them.
    pub(crate) fn may_serve(&mut self, who: u64, committed: u64) -> bool
        requires { committed ≤ 2 ^ 62 }
        ensures learnt { HasLearntOn who self.old self.new }
        ensures looked { result ≡ false → HasLookedOn G.exact who committed self.old self.new }
        ensures exact { G.exact → self.new ≡ self.old }
        ensures quiet { result ≡ false → IsQuietOn who committed self.new }
        ensures busy { result ≡ true → IsQuietOn who committed self.new → ⊥ }
    {
        if !self.has_open(committed) {
            return false;
        }
        self.have_permit(who)
    }

    /// Whether a position is open. What is acknowledged or held in front is passed over once, and not by later calls.
    fn has_open(&mut self, committed: u64) -> bool
        requires { committed ≤ 2 ^ 62 }
        ensures same { self.new ≡ self.old }
        ensures none { result ≡ false → (i : ℕ) → IsOpenAt committed self.old.acked self.old.deliveries i → ⊥ }
        ensures some { result ≡ true → ((i : ℕ) → IsOpenAt committed self.old.acked self.old.deliveries i → ⊥) → ⊥ }
    {
        self.progress.settle(committed).is_some()
    }

    /// Looks whether a consumer of the session has a permit left, up to the first one that has.
    fn have_permit(&mut self, who: u64) -> bool
        ensures learnt { HasLearntOn who self.old self.new }
        ensures looked { result ≡ false → HaveLooked G.exact who self.old.consumers self.new.consumers }
        ensures exact { G.exact → self.new ≡ self.old }
        ensures permit { result ≡ has_permits who self.new.consumers }
    {
        self.consumers.have_permit(who)
    }

    /// Whether each consumer gets the entries of its ranges.
    pub(crate) fn is_key_shared(&self) -> bool
        ensures { result ≡ is_key_shared self.now.mode }
    {
        is_key_shared(self.dispatch.mode())
    }

    /// The consumer gets a position that it may get, with so many messages, and the answer is how often that was sent
    /// before. A refusal changes nothing.
    pub(crate) fn send(
        &mut self,
        key: ConsumerKey,
        position: u64,
        committed: u64,
        messages: u32,
    ) -> Result<u32, AllocError>
        requires fits { committed ≤ 2 ^ 62 }
        requires some { 0 < messages }
        requires few { messages ≤ 1048576 }
        requires permit { has_permit (find (is_consumer key) self.old.consumers) ≡ true }
        requires is_open { IsOpenAt committed self.old.acked self.old.deliveries position }
        ensures ok { OnOk result (IsLearnt (λ n. learnt_on key n (sent_on key messages position self.old)) self.new) }
        ensures exact { G.exact → OnOk result (self.new ≡ sent_on key messages position self.old) }
        ensures before { IfOk result (λ before. before ≡ times self.old.deliveries position) }
        ensures err { OnErr result (self.new ≡ self.old) }
    {
        let before = self.progress.sent_before(position);
        self.progress.hold(position, key, committed)?;
        self.consumers.take(key, messages);
        Ok(before)
    }

    /// Whether a consumer of the session is attached. Where none is, the session's end changes nothing.
    pub(crate) fn has_session(&self, who: u64) -> bool
        ensures value { result ≡ list_any (λ c. nat_eq c.key.session who) self.now.consumers }
        ensures none { result ≡ false → left_on who self.now ≡ self.now }
    {
        has_session(self.consumers.as_slice(), who)
    }

    /// The session's consumers go, and what they hold is free.
    pub(crate) fn leave(&mut self, who: u64)
        ensures { self.new ≡ left_on who self.old }
    {
        free_all(&mut self.progress, self.consumers.as_slice(), who);
        detach_all(&mut self.dispatch, self.consumers.as_slice(), who);
        self.consumers.leave(who);
    }

    /// The consumer goes, and what it holds is free.
    pub(crate) fn detach(&mut self, key: ConsumerKey)
        ensures { self.new ≡ detached_on key self.old }
    {
        self.progress.give_back(key);
        self.dispatch.detach(key);
        self.consumers.remove(key);
    }

    /// The consumer gives back what it holds: the positions that are asked for, where the mode
    /// serves many, and else all.
    pub(crate) fn redeliver(&mut self, key: ConsumerKey, asked: Option<&[u64]>)
        ensures { self.new ≡ redelivered_on key (option_copied asked.entry) self.old }
    {
        let mode = self.dispatch.mode();
        give_back_asked(&mut self.progress, key, mode, asked);
    }

    /// A place below which no position is asked back: the positions that are named are, where the mode
    /// serves many, and else all.
    pub(crate) fn asked_from(&self, asked: Option<&[u64]>) -> u64
        ensures { (i : ℕ) → i < result → is_asked_back self.now.mode (option_copied asked.entry) i ≡ false }
    {
        asked_from(self.dispatch.mode(), asked)
    }

    /// Whether the mode serves many consumers.
    pub(crate) fn shares(&self) -> bool
        ensures { result ≡ serves_many self.now.mode }
    {
        serves_many(self.dispatch.mode())
    }
}

impl<G: Grant> Subscription<G> {
    /// Grants a consumer more permits, unless it would have more than 2^62 in all.
    pub(crate) fn grant(&mut self, key: ConsumerKey, permits: u64) -> Result<(), TooManyPermits>
        ensures ok { OnOk result ((is_past permits (find (is_consumer key) self.old.consumers) ≡ false) × (self.new ≡ granted_on key permits self.old)) }
        ensures err { OnErr result ((is_past permits (find (is_consumer key) self.old.consumers) ≡ true) × (self.new ≡ self.old)) }
    {
        self.consumers.grant(key, permits)?;
        Ok(())
    }
}

fn same_mode(a: Mode, b: Mode) -> bool
    ensures { result ≡ same_mode a b }
{
    match a {
        Mode::Exclusive => is_exclusive(b),
        Mode::Failover => is_failover(b),
        Mode::Shared => is_shared_mode(b),
        Mode::KeyShared => is_key_shared(b),
    }
}

fn is_exclusive(mode: Mode) -> bool
    ensures { result ≡ is_exclusive mode }
{
    matches!(mode, Mode::Exclusive)
}

fn is_failover(mode: Mode) -> bool
    ensures { result ≡ is_failover mode }
{
    matches!(mode, Mode::Failover)
}

fn is_shared_mode(mode: Mode) -> bool
    ensures { result ≡ is_shared_mode mode }
{
    matches!(mode, Mode::Shared)
}

pub(crate) fn is_key_shared(mode: Mode) -> bool
    ensures { result ≡ is_key_shared mode }
{
    matches!(mode, Mode::KeyShared)
}

/// Whether more than one consumer is served.
fn serves_many(mode: Mode) -> bool
    ensures { result ≡ serves_many mode }
{
    matches!(mode, Mode::Shared | Mode::KeyShared)
}

/// A dispatcher with its first consumer.
fn first_one(alloc: Global, mode: Mode, seat: Seat) -> Result<Dispatch, AllocError>
    requires { refuses_ranges mode [] seat.ranges ≡ false }
    ensures mode { IfOk result (λ d. mode_of d ≡ mode) }
    ensures seats { IfOk result (λ d. seats_of d ≡ seat ∷ []) }
{
    let mut dispatch = Dispatch::new(alloc, mode);
    if let Err(refused) = dispatch.attach(seat) {
        drop(dispatch);
        return Err(refused);
    }
    Ok(dispatch)
}

/// Whether one of the consumers is of the session.
fn has_session<G: Gauge>(consumers: &[Consumer<G>], who: u64) -> bool
    ensures { result ≡ list_any (λ c. nat_eq c.key.session who) consumers.now }
{
    consumers.iter().any(|c| c.key().session == who)
}

/// What the consumers of the session hold is free.
fn free_all<G: Gauge>(progress: &mut Progress, consumers: &[Consumer<G>], who: u64)
    ensures acked { progress.new.acked ≡ progress.old.acked }
    ensures freed { (q : ℕ) → map.get progress.new.deliveries q ≡ option_map (freed_among who consumers.now) (map.get progress.old.deliveries q) }
{
    for consumer in consumers {
        if consumer.key().session == who {
            progress.give_back(consumer.key());
        }
    }
}

/// The consumer gives back what it holds of the positions that are asked for.
fn give_back_asked(progress: &mut Progress, key: ConsumerKey, mode: Mode, asked: Option<&[u64]>)
    ensures acked { progress.new.acked ≡ progress.old.acked }
    ensures deliveries { (q : ℕ) → map.get progress.new.deliveries q ≡ option_map (λ d. cond (is_asked_back mode (option_copied asked.entry) q) (given_back key d) d) (map.get progress.old.deliveries q) }
{
    let Some(positions) = asked else {
        progress.give_back(key);
        return;
    };
    if !serves_many(mode) {
        progress.give_back(key);
        return;
    }
    progress.give_back_among(key, positions);
}

/// A place below which no position is asked back.
fn asked_from(mode: Mode, asked: Option<&[u64]>) -> u64
    ensures { (i : ℕ) → i < result → is_asked_back mode (option_copied asked.entry) i ≡ false }
{
    let Some(positions) = asked else {
        return 0;
    };
    if !serves_many(mode) {
        return 0;
    }
    lowered(u64::MAX, positions)
}

/// The dispatcher lets the session's consumers go.
fn detach_all<G: Gauge>(dispatch: &mut Dispatch, consumers: &[Consumer<G>], who: u64)
    requires { each (λ (seat : TheSeat). seat.key) (seats_of dispatch.old) ≡ keys consumers.now }
    ensures mode { mode_of dispatch.new ≡ mode_of dispatch.old }
    ensures seats { seats_of dispatch.new ≡ filter (λ c. not (nat_eq c.key.session who)) (seats_of dispatch.old) }
{
    for consumer in consumers {
        detach_of(dispatch, consumer.key(), who);
    }
}

/// The dispatcher lets a consumer go, if it is of the session.
fn detach_of(dispatch: &mut Dispatch, key: ConsumerKey, who: u64)
    ensures mode { mode_of dispatch.new ≡ mode_of dispatch.old }
    ensures seats { seats_of dispatch.new ≡ filter (λ c. not (nat_eq key.session who && same_key c.key key)) (seats_of dispatch.old) }
{
    if key.session != who {
        return;
    }
    dispatch.detach(key);
}
