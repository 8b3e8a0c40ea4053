mod summary;

ghost use Rattle.std.specs.Prelude.{◌≡◌, ◌+◌, ◌^◌, ◌<◌, ◌≤◌, ◌++◌, ◌∷◌, [], ℕ, List, All, IfOk, IfNone, IfSome, OnOk, OnErr, Some, None, true, false, drop, take, length, nat_le, position, vec_len, vec_capacity, map as each};
ghost use Rattle.std.specs.List.{AllByRecursion, AllZip, IsDistinct, find};
ghost use Rattle.std.specs.Str.{bytes_eq};
ghost use Rattle.records.specs.declared.kept_cursor.KeptCursor.{KeptCursor};
ghost use Rattle.records.specs.declared.record.Record.TheVariants.{Acknowledged as acknowledged_change, Made as made_of};
ghost use Rattle.subscriptions.specs.Steps.{none_yet, opened_one, opened_all, first_changed, is_on, is_named, has_consumer, first_standing, making_refusals, subscribe_refusals, attach_refusals, refuses_ranges, attached_to, attached, attached_at, start_of, made, granted, granted_on, grants_too_many, learnt, learnt_on, IsLearnt, IsLooked, HasLearnt, HasLearntOn, HasLookedOn, has_permit_at, acknowledged, acked_on, acknowledged_through, acked_through_on, is_shared, unsubscribe_refusals, unsubscribed, Admits, AdmitsAt, AdmitsOn, sent, sent_on, sent_before, times_at, left, left_on, detached, detached_on, redelivered, redelivered_on, shares, is_among_many, settled, marked, forgotten};
ghost use Rattle.std.specs.Option.{option_copied};
ghost use Rattle.subscriptions.specs.Hints.{AreHintsOf, AreHintsOn};
ghost use Rattle.subscriptions.specs.Quiet.{IsQuiet};
ghost use Rattle.subscriptions.specs.Statuses.{AreStatuses};
ghost use Rattle.subscriptions.specs.Trimming.{IsPast};
ghost use Rattle.holds.specs.declared.consumer.ConsumerKey.{ConsumerKey as Key};

use crate::consumer::{Mode, Refusal};
use crate::directory::Directory;
use crate::entry_marks::EntryMarks;
use crate::hint::Hint;
use crate::hints::Hints;
use crate::initial_position::InitialPosition;
use crate::quiet::Quiet;
use crate::status::SubscriptionStatus;
use crate::statuses::{sort_by_name, statuses_of};
use crate::subscription::{Subscription, is_key_shared};
use holds::{Consumer, ConsumerKey, SlotRange};
use key_shared::are_refused;
use permits::{Gauge, Grant, TooManyPermits};
use records::{KeptCursor, Name, Record};
use std::alloc::{AllocError, Global};
use std::marker::Model;

/// How many subscriptions a topic has. Our own rule.
const MOST_SUBSCRIPTIONS: usize = 64;

/// How many changes wait for a flush. Our own rule.
const MOST_CHANGES: usize = 65_536;

/// For how many changes a list without one keeps its room. Our own rule.
const KEPT_ROOM: usize = 1_024;

/// The subscriptions of one topic, each with the hints of its consumers at the same place, a directory
/// that finds a consumer's subscription however many there are, the sessions for which nothing was found, and the changes that
/// aren't durable yet.
#[derive(Drop)]
pub struct Subscriptions<G: Gauge> {
    alloc: Global,
    subs: Vec<Subscription<G>>,
    changes: Vec<Record>,
    marks: EntryMarks,
    hints: Vec<Hints>,
    directory: Directory,
    quiet: Quiet,
}

impl<G: Gauge> Model for Subscriptions<G> {
    ghost use Rattle.std.specs.Coded.{codes};
    ghost use Rattle.cursor.specs.Positions.{positions_code};
    ghost use Rattle.holds.specs.Deliveries.{deliveries_code};
    ghost use Rattle.subscriptions.specs.State.{Subscriptions as State};
    ghost use Rattle.subscriptions.specs.Soundness.{HasLimits};

    ghost Value = { State };

    ghost coded = { Prim.hlevel (codes, positions_code, deliveries_code) };

    ghost use Rattle.subscriptions.specs.Hints.{AreHints};
    ghost use Rattle.subscriptions.specs.Directory.{ArePlaces};
    ghost use Rattle.subscriptions.specs.Quiet.{AreQuiet};

    ghost view = { λ t. record { subs = t.subs.items; changes = t.changes.items; slots = t.marks.slots; messages = t.marks.messages } };

    ghost invariant = { λ t. HasLimits (record { subs = t.subs.items; changes = t.changes.items; slots = t.marks.slots; messages = t.marks.messages }) × AreHints (record { subs = t.subs.items; changes = t.changes.items; slots = t.marks.slots; messages = t.marks.messages }) t.hints.items × ArePlaces t.subs.items t.directory × AreQuiet t.subs.items t.quiet };
}

impl<G: Gauge> Subscriptions<G> {
    /// No subscription, and no change.
    pub fn new(alloc: Global) -> Subscriptions<G>
        ensures { result ≡ none_yet }
    {
        Subscriptions {
            alloc,
            subs: Vec::new(alloc),
            changes: Vec::new(alloc),
            marks: EntryMarks::new(alloc),
            hints: Vec::new(alloc),
            directory: Directory::new(alloc),
            quiet: Quiet::new(),
        }
    }

    /// The subscriptions of a topic that was opened, with these durable ones, and the slots and counts of its entries.
    pub fn opened(
        alloc: Global,
        kept: Vec<KeptCursor>,
        marks: EntryMarks,
    ) -> Result<Subscriptions<G>, AllocError>
        requires few { length kept.items ≤ 64 }
        requires distinct { IsDistinct bytes_eq (each (λ (c : KeptCursor). c.name) kept.items) }
        ensures { IfOk result (λ t. t ≡ marked (opened_all (each (λ (c : KeptCursor). (c.name, c.acked)) kept.items)) marks.slots marks.messages) }
    {
        let hints = without_hints(alloc, kept.len())?;
        Ok(Subscriptions {
            alloc,
            subs: open_all(alloc, kept)?,
            changes: Vec::new(alloc),
            marks,
            hints,
            directory: Directory::new(alloc),
            quiet: Quiet::new(),
        })
    }

    /// Whether the consumer is attached to a subscription.
    pub fn has_consumer(&self, key: ConsumerKey) -> bool
        ensures { result ≡ has_consumer self.now key }
    {
        self.directory.of(key).is_some()
    }

    /// The changes that aren't durable yet, the earliest first.
    pub fn changes(&self) -> &[Record]
        ensures { result.now ≡ self.now.changes }
    {
        self.changes.as_slice()
    }

    /// What is told of each subscription, in the order of the names' bytes.
    pub fn statuses(&self) -> Result<Vec<SubscriptionStatus>, AllocError>
        ensures { IfOk result (λ statuses. AreStatuses self.now.subs statuses.items) }
    {
        let mut statuses = statuses_of(self.alloc, self.subs.as_slice())?;
        sort_by_name(&mut statuses);
        Ok(statuses)
    }

    /// Whether so many more changes may wait for a flush.
    pub fn has_room(&self, count: usize) -> bool
        ensures { result ≡ nat_le (length self.now.changes + count) 65536 }
    {
        count <= MOST_CHANGES - self.changes.len()
    }

    /// Why a SUBSCRIBE to this name is refused.
    pub fn refusal(&self, name: &str, mode: Mode, ranges: &[SlotRange]) -> Option<Refusal>
        ensures { result ≡ first_standing (subscribe_refusals self.now name.now mode ranges.now) }
    {
        let Some(place) = place_named(self.subs.as_slice(), name) else {
            return self.making_refusal(mode, ranges);
        };
        let sub = &self.subs[place];
        sub.refusal(mode, ranges)
    }

    /// Why a new name is refused.
    fn making_refusal(&self, mode: Mode, ranges: &[SlotRange]) -> Option<Refusal>
        ensures { result ≡ first_standing (making_refusals mode ranges.now self.now) }
    {
        if self.subs.len() >= MOST_SUBSCRIPTIONS {
            return Some(Refusal::TooManyRequests);
        }
        if is_key_shared(mode) && are_refused(&[], ranges) {
            return Some(Refusal::ConsumerAssignError);
        }
        if self.changes.len() >= MOST_CHANGES {
            return Some(Refusal::TooManyRequests);
        }
        None
    }

    /// SUBSCRIBE: a name that is there gains a consumer, and another name is made with it, which begins at the first position that
    /// is to be had, or behind the committed ones. A refusal changes nothing, and the gauge goes.
    pub fn attach(
        &mut self,
        name: &str,
        mode: Mode,
        seat: Consumer,
        gauge: G,
        initial: InitialPosition,
        first: u64,
        committed: u64,
    ) -> Result<(), AllocError>
        requires low { first ≤ committed }
        requires fits { committed ≤ 2 ^ 62 }
        requires allowed { first_standing (subscribe_refusals self.old name.now mode seat.ranges) ≡ None }
        requires none_known { G.known gauge ≡ 0 }
        requires none_sent { G.sent gauge ≡ 0 }
        requires none_looked { G.looks gauge ≡ 0 }
        ensures ok { OnOk result (self.new ≡ attached self.old name.now mode seat (G.word gauge) (start_of initial first committed)) }
        ensures err { OnErr result (self.new ≡ self.old) }
    {
        let Some(place) = place_named(self.subs.as_slice(), name) else {
            return self.make(name, mode, seat, gauge, start_of(initial, first, committed));
        };
        let key = seat.key;
        let former = self.directory.of(key);
        if let Err(refused) = self.directory.add(key, place) {
            drop(seat);
            drop(gauge);
            return Err(refused);
        }
        let sub = &mut self.subs[place];
        match sub.attach(self.alloc, mode, seat, gauge) {
            Ok(()) => {
                let hints = &mut self.hints[place];
                hints.forget(key);
                Ok(())
            }
            Err(refused) => {
                self.directory.set(key, former);
                Err(refused)
            }
        }
    }

    /// A subscription of a name that isn't there yet is made, with its first consumer.
    fn make(
        &mut self,
        name: &str,
        mode: Mode,
        seat: Consumer,
        gauge: G,
        start: u64,
    ) -> Result<(), AllocError>
        requires fits { start ≤ 2 ^ 62 }
        requires absent { position (is_named name.now) self.old.subs ≡ None }
        requires allowed { first_standing (subscribe_refusals self.old name.now mode seat.ranges) ≡ None }
        requires none_known { G.known gauge ≡ 0 }
        requires none_sent { G.sent gauge ≡ 0 }
        requires none_looked { G.looks gauge ≡ 0 }
        ensures ok { OnOk result (self.new ≡ attached self.old name.now mode seat (G.word gauge) start) }
        ensures err { OnErr result (self.new ≡ self.old) }
    {
        let key = seat.key;
        if let Err(refused) = reserve_one(&mut self.changes, &mut self.subs, &mut self.hints) {
            drop(seat);
            drop(gauge);
            return Err(refused);
        }
        let sub = new_subscription(self.alloc, name, mode, seat, gauge, start)?;
        let change = match made_change(self.alloc, name, start) {
            Ok(change) => change,
            Err(refused) => {
                drop(sub);
                return Err(refused);
            }
        };
        if let Err(refused) = self.directory.add(key, self.subs.len()) {
            drop(change);
            drop(sub);
            return Err(refused);
        }
        self.changes.push(change).unwrap();
        self.subs.push(sub).unwrap();
        self.hints.push(Hints::new(self.alloc)).unwrap();
        Ok(())
    }

    /// ACK: the positions are acknowledged, with one change for each. An unknown consumer changes nothing, and neither does a refusal.
    pub fn acknowledge(&mut self, key: ConsumerKey, positions: &[u64]) -> Result<(), AllocError>
        requires fits { All (λ p. p < 2 ^ 62) positions.now }
        requires room { length self.old.changes + length positions.now ≤ 65536 }
        ensures ok { OnOk result (self.new ≡ acknowledged self.old key positions.now) }
        ensures err { OnErr result (self.new ≡ self.old) }
    {
        let Some(place) = self.directory.of(key) else {
            return Ok(());
        };
        let sub = &mut self.subs[place];
        let before = self.changes.len();
        add_acknowledgements(&mut self.changes, sub.shared_name(), positions)?;
        if let Err(refused) = sub.acknowledge(positions) {
            self.changes.truncate(before);
            return Err(refused);
        }
        Ok(())
    }

    /// ACK of all positions up to one: they are acknowledged, with one change. An unknown consumer changes nothing, and neither does a refusal.
    pub fn acknowledge_through(&mut self, key: ConsumerKey, position: u64) -> Result<(), AllocError>
        requires fits { position < 2 ^ 62 }
        requires room { length self.old.changes + 1 ≤ 65536 }
        ensures ok { OnOk result (self.new ≡ acknowledged_through self.old key position) }
        ensures err { OnErr result (self.new ≡ self.old) }
    {
        let Some(place) = self.directory.of(key) else {
            return Ok(());
        };
        let sub = &mut self.subs[place];
        let change = Record::AcknowledgedThrough {
            name: sub.shared_name().clone()?,
            position,
        };
        self.changes.push(change)?;
        sub.acknowledge_through(position);
        Ok(())
    }

    /// Why the UNSUBSCRIBE of an attached consumer is refused.
    pub fn unsubscribe_refusal(&self, key: ConsumerKey) -> Option<Refusal>
        ensures { result ≡ first_standing (unsubscribe_refusals self.now key) }
    {
        if is_shared(self.subs.as_slice(), self.directory.of(key)) {
            return Some(Refusal::ConsumerBusy);
        }
        if !self.has_room(1) {
            return Some(Refusal::TooManyRequests);
        }
        None
    }

    /// UNSUBSCRIBE: the consumer's subscription goes, with the consumer and one change. An unknown consumer changes nothing, and neither does a refusal.
    pub fn unsubscribe(&mut self, key: ConsumerKey) -> Result<(), AllocError>
        requires { first_standing (unsubscribe_refusals self.old key) ≡ None }
        ensures ok { OnOk result (self.new ≡ unsubscribed self.old key) }
        ensures err { OnErr result (self.new ≡ self.old) }
    {
        let Some(place) = self.directory.of(key) else {
            return Ok(());
        };
        let sub = &self.subs[place];
        let name = sub.shared_name().clone()?;
        self.changes.push(Record::Removed { name })?;
        drop(self.subs.remove(place));
        drop(self.hints.remove(place));
        self.directory.move_up(place);
        let next = place_of(self.subs.as_slice(), key);
        self.directory.set(key, next);
        Ok(())
    }

    /// The position that the consumer may get: one exactly where one is admitted, once it was
    /// looked what was granted to it. What is passed over on Key_Shared is remembered, as far as
    /// memory goes. Takes no permit.
    pub fn pick(&mut self, key: ConsumerKey, committed: u64) -> Option<u64>
        requires fits { committed ≤ 2 ^ 62 }
        requires known { committed ≤ length self.old.slots }
        ensures looked { IsLooked G.exact (learnt self.old key) self.new }
        ensures exact { G.exact → self.new ≡ self.old }
        ensures some { IfSome result (Admits self.new key committed) }
        ensures none { IfNone result ((i : ℕ) → Admits self.new key committed i → ⊥) }
    {
        if !self.look(key) {
            return None;
        }
        self.pick_permitted(key, committed)
    }

    /// Looks whether the consumer is attached and has a permit left. Takes none.
    pub fn look(&mut self, key: ConsumerKey) -> bool
        ensures looked { IsLooked G.exact (learnt self.old key) self.new }
        ensures exact { G.exact → self.new ≡ self.old }
        ensures permit { result ≡ has_permit_at key (find (is_on key) self.new.subs) }
    {
        self.directory.remember(key);
        let Some(place) = self.directory.of(key) else {
            return false;
        };
        let sub = &mut self.subs[place];
        let has_permit = sub.look(key);
        self.quiet.forget(key.session);
        has_permit
    }

    /// The position that a consumer may get, which has a permit left.
    fn pick_permitted(&mut self, key: ConsumerKey, committed: u64) -> Option<u64>
        requires fits { committed ≤ 2 ^ 62 }
        requires known { committed ≤ length self.old.slots }
        requires permit { has_permit_at key (find (is_on key) self.old.subs) ≡ true }
        ensures same { self.new ≡ self.old }
        ensures some { IfSome result (Admits self.old key committed) }
        ensures none { IfNone result ((i : ℕ) → Admits self.old key committed i → ⊥) }
    {
        let Some(place) = self.directory.of(key) else {
            return None;
        };
        let sub = &mut self.subs[place];
        let hints = &self.hints[place];
        let from = hints.beginning(key);
        let picked = sub.pick(key, &self.marks, committed, from);
        if sub.is_key_shared() {
            let below = picked.unwrap_or(committed);
            let hints = &mut self.hints[place];
            hints.note(Hint { key, below });
        }
        picked
    }

    /// Whether nothing is for the session's consumers: where one of them has a permit, nothing is open on its subscription. On
    /// each subscription on which something is open it is looked what was granted to them, up to the first one that has a permit.
    /// That nothing was found is remembered until something may change it, as far as that is known.
    pub fn is_quiet(&mut self, who: u64, committed: u64) -> bool
        requires fits { committed ≤ 2 ^ 62 }
        ensures learnt { HasLearnt who self.old self.new }
        ensures looked { result ≡ true → AllZip (HasLookedOn G.exact who committed) self.old.subs self.new.subs }
        ensures exact { G.exact → self.new ≡ self.old }
        ensures quiet { result ≡ true → IsQuiet who committed self.new.subs }
        ensures busy { result ≡ false → IsQuiet who committed self.new.subs → ⊥ }
        ensures none { result ≡ true → (id i : ℕ) → Admits self.new (record { session = who; id = id }) committed i → ⊥ }
    {
        let is_served = may_serve(&mut self.subs, who, committed);
        self.quiet.forget(who);
        if is_served {
            return false;
        }
        self.quiet.note(who, committed);
        true
    }

    /// Whether nothing was found for the session's consumers at this committed length, and nothing has changed that since, as far
    /// as is known: what was granted to them in the meantime isn't looked at. Costs the same however many consumers there are.
    pub fn was_quiet(&self, who: u64, committed: u64) -> bool
        ensures quiet { result ≡ true → IsQuiet who committed self.now.subs }
        ensures none { result ≡ true → (id i : ℕ) → Admits self.now (record { session = who; id = id }) committed i → ⊥ }
    {
        self.quiet.is_noted(who, committed)
    }

    /// MESSAGE: the consumer holds a position that it may get, and got as many messages more as its entry has. The answer
    /// is how often that was sent before. A refusal changes nothing.
    pub fn send(
        &mut self,
        key: ConsumerKey,
        position: u64,
        committed: u64,
    ) -> Result<u32, AllocError>
        requires fits { committed ≤ 2 ^ 62 }
        requires known { committed ≤ length self.old.messages }
        requires admitted { Admits self.old key committed position }
        ensures ok { OnOk result (IsLearnt (learnt (sent self.old key position) key) self.new) }
        ensures exact { G.exact → OnOk result (self.new ≡ sent self.old key position) }
        ensures before { IfOk result (λ before. before ≡ sent_before self.old key position) }
        ensures err { OnErr result (self.new ≡ self.old) }
    {
        let Some(place) = self.directory.of(key) else {
            unreachable!()
        };
        let sub = &mut self.subs[place];
        let messages = self.marks.messages(position);
        let before = sub.send(key, position, committed, messages)?;
        self.quiet.forget(key.session);
        Ok(before)
    }

    /// A session leaves: its consumers go, and what they hold is free.
    pub fn leave(&mut self, who: u64)
        ensures { self.new ≡ left self.old who }
    {
        leave_all(&mut self.subs, &mut self.hints, who);
        self.directory.leave(who);
        self.quiet.clear();
    }

    /// CLOSE_CONSUMER: the consumer goes, and what it holds is free. An unknown consumer changes nothing. Takes no memory.
    pub fn detach(&mut self, key: ConsumerKey)
        ensures { self.new ≡ detached self.old key }
    {
        let Some(place) = self.directory.of(key) else {
            return;
        };
        let sub = &mut self.subs[place];
        sub.detach(key);
        let hints = &mut self.hints[place];
        hints.clear();
        let next = place_of(self.subs.as_slice(), key);
        self.directory.set(key, next);
        self.quiet.clear();
    }

    /// REDELIVER: the consumer gives back what it holds: the positions that are asked for, where
    /// its mode serves many, and else all. Counts stay, and permits are spent. An unknown consumer
    /// changes nothing. Takes no memory.
    pub fn redeliver(&mut self, key: ConsumerKey, asked: Option<&[u64]>)
        ensures { self.new ≡ redelivered self.old key (option_copied asked.entry) }
    {
        let Some(place) = self.directory.of(key) else {
            return;
        };
        let sub = &mut self.subs[place];
        let from = sub.asked_from(asked);
        sub.redeliver(key, asked);
        let hints = &mut self.hints[place];
        hints.lower(from);
        self.quiet.clear();
    }

    /// Whether the consumer is attached to a subscription of which the mode serves many.
    pub fn shares(&self, key: ConsumerKey) -> bool
        ensures { result ≡ shares self.now key }
    {
        is_among_many(self.subs.as_slice(), self.directory.of(key))
    }

    /// The slot of a further entry, and how many messages it has. A refusal changes nothing.
    pub fn add_mark(&mut self, slot: u16, messages: u32) -> Result<(), AllocError>
        requires some { 0 < messages }
        requires few { messages ≤ 1048576 }
        ensures ok { OnOk result (self.new ≡ marked self.old (slot ∷ []) (messages ∷ [])) }
        ensures err { OnErr result (self.new ≡ self.old) }
    {
        self.marks.push(slot, messages)?;
        Ok(())
    }

    /// A position, not above this one, below which each subscription has acknowledged all; acknowledgements for whose places memory
    /// was refused are left aside. None where there is no subscription.
    pub fn all_past(&self, most: u64) -> Option<u64>
        ensures some { IfSome result (λ _. 0 < length self.now.subs) }
        ensures within { IfSome result (λ position. position ≤ most) }
        ensures past { IfSome result (λ position. AllByRecursion (IsPast position) self.now.subs) }
    {
        if self.subs.is_empty() {
            return None;
        }
        Some(least_mark(self.subs.as_slice(), most))
    }

    /// The slots and counts of entries of positions below this one take no memory from now on. Takes none.
    pub fn forget_below(&mut self, position: u64)
        requires { position ≤ length self.old.slots }
        ensures { self.new ≡ forgotten self.old position }
    {
        if self.marks.forget_below(position) {
            clear_all(&mut self.hints);
        }
    }

    /// The first changes are durable, and go.
    pub fn settle(&mut self, count: usize)
        requires { count ≤ length self.old.changes }
        ensures { self.new ≡ settled self.old count }
    {
        drop_first(self.alloc, &mut self.changes, count);
    }
}

impl<G: Grant> Subscriptions<G> {
    /// FLOW: the consumer has so many permits more, unless it would have more than 2^62 in all. An unknown consumer changes nothing.
    pub fn grant(&mut self, key: ConsumerKey, permits: u64) -> Result<(), TooManyPermits>
        ensures ok { OnOk result ((grants_too_many self.old key permits ≡ false) × (self.new ≡ granted self.old key permits)) }
        ensures err { OnErr result ((grants_too_many self.old key permits ≡ true) × (self.new ≡ self.old)) }
    {
        let Some(place) = self.directory.of(key) else {
            return Ok(());
        };
        let sub = &mut self.subs[place];
        sub.grant(key, permits)?;
        self.quiet.forget(key.session);
        Ok(())
    }
}

/// The position below which all is acknowledged on a new subscription.
fn start_of(initial: InitialPosition, first: u64, committed: u64) -> u64
    requires low { first ≤ committed }
    requires fits { committed ≤ 2 ^ 62 }
    ensures start { result ≡ start_of initial first committed }
    ensures fits { result ≤ 2 ^ 62 }
{
    match initial {
        InitialPosition::Latest => committed,
        InitialPosition::Earliest => first,
    }
}

/// A new subscription with its first consumer.
fn new_subscription<G: Gauge>(
    alloc: Global,
    name: &str,
    mode: Mode,
    seat: Consumer,
    gauge: G,
    start: u64,
) -> Result<Subscription<G>, AllocError>
    requires fits { start ≤ 2 ^ 62 }
    requires none_known { G.known gauge ≡ 0 }
    requires none_sent { G.sent gauge ≡ 0 }
    requires none_looked { G.looks gauge ≡ 0 }
    requires allowed { refuses_ranges mode [] seat.ranges ≡ false }
    ensures { IfOk result (λ s. s ≡ attached_to mode seat (G.word gauge) (made name.now mode start)) }
{
    let name = match Name::new(alloc, name) {
        Ok(name) => name,
        Err(refused) => {
            drop(seat);
            drop(gauge);
            return Err(refused);
        }
    };
    let mut sub = Subscription::new(alloc, name, mode, start);
    if let Err(refused) = sub.attach(alloc, mode, seat, gauge) {
        drop(sub);
        return Err(refused);
    }
    Ok(sub)
}

/// The change that tells of a new subscription.
fn made_change(alloc: Global, name: &str, start: u64) -> Result<Record, AllocError>
    ensures { IfOk result (λ change. change ≡ made_of name.now start) }
{
    let name = Name::new(alloc, name)?;
    Ok(Record::Made { name, start })
}

/// Room for a subscription more, its change and its hints.
fn reserve_one<G: Gauge>(
    changes: &mut Vec<Record>,
    subs: &mut Vec<Subscription<G>>,
    hints: &mut Vec<Hints>,
) -> Result<(), AllocError>
    ensures same { (changes.new.items ≡ changes.old.items) × (subs.new.items ≡ subs.old.items) × (hints.new.items ≡ hints.old.items) }
    ensures room { OnOk result ((vec_len changes.new < vec_capacity changes.new) × (vec_len subs.new < vec_capacity subs.new) × (vec_len hints.new < vec_capacity hints.new)) }
{
    changes.reserve(1)?;
    subs.reserve(1)?;
    hints.reserve(1)
}

/// Durable subscriptions, without consumers and deliveries.
fn open_all<G: Gauge>(
    alloc: Global,
    kept: Vec<KeptCursor>,
) -> Result<Vec<Subscription<G>>, AllocError>
    ensures { IfOk result (λ subs. subs.items ≡ each opened_one (each (λ (c : KeptCursor). (c.name, c.acked)) kept.items)) }
{
    let mut subs = Vec::with_capacity(alloc, kept.len())?;
    for cursor in kept {
        let KeptCursor { name, acked } = cursor;
        subs.push(Subscription::opened(alloc, name, acked))?;
    }
    Ok(subs)
}

/// So many subscriptions without hints.
fn without_hints(alloc: Global, count: usize) -> Result<Vec<Hints>, AllocError>
    ensures same { IfOk result (λ hints. length hints.items ≡ count) }
    ensures empty { IfOk result (λ hints. AllByRecursion (λ h. h ≡ []) hints.items) }
{
    let mut hints = Vec::with_capacity(alloc, count)?;
    for _ in 0..count {
        hints.push(Hints::new(alloc))?;
    }
    Ok(hints)
}

/// Where the subscription of this name stands.
fn place_named<G: Gauge>(subs: &[Subscription<G>], name: &str) -> Option<usize>
    ensures place { result ≡ position (is_named name.now) subs.now }
    ensures within { IfSome result (λ place. place < length subs.now) }
{
    subs.iter().position(|s| s.name() == name)
}

/// Where the subscription of this consumer stands, by a search of all.
fn place_of<G: Gauge>(subs: &[Subscription<G>], key: ConsumerKey) -> Option<usize>
    ensures { result ≡ position (is_on key) subs.now }
{
    subs.iter().position(|s| s.is_on(key))
}

/// Whether the subscription at this place has more than one consumer.
fn is_shared<G: Gauge>(subs: &[Subscription<G>], place: Option<usize>) -> bool
    requires { IfSome place (λ place. place < length subs.now) }
    ensures { (key : Key) → place ≡ position (is_on key) subs.now → result ≡ is_shared (find (is_on key) subs.now) }
{
    let Some(place) = place else {
        return false;
    };
    let sub = &subs[place];
    sub.is_shared()
}

/// Whether the mode of the subscription at this place serves many.
fn is_among_many<G: Gauge>(subs: &[Subscription<G>], place: Option<usize>) -> bool
    requires { IfSome place (λ place. place < length subs.now) }
    ensures { (key : Key) → place ≡ position (is_on key) subs.now → result ≡ is_among_many (find (is_on key) subs.now) }
{
    let Some(place) = place else {
        return false;
    };
    let sub = &subs[place];
    sub.shares()
}

/// Looks whether something is for the session's consumers on one of the subscriptions.
fn may_serve<G: Gauge>(subs: &mut Vec<Subscription<G>>, who: u64, committed: u64) -> bool
    requires { committed ≤ 2 ^ 62 }
    ensures learnt { AllZip (HasLearntOn who) subs.old.items subs.new.items }
    ensures looked { result ≡ false → AllZip (HasLookedOn G.exact who committed) subs.old.items subs.new.items }
    ensures exact { G.exact → subs.new.items ≡ subs.old.items }
    ensures quiet { result ≡ false → IsQuiet who committed subs.new.items }
    ensures busy { result ≡ true → IsQuiet who committed subs.new.items → ⊥ }
{
    for i in 0..subs.len() {
        let sub = &mut subs[i];
        if sub.may_serve(who, committed) {
            return true;
        }
    }
    false
}

/// Adds a change for each position, with a share of the name. A refusal changes nothing.
fn add_acknowledgements(
    changes: &mut Vec<Record>,
    name: &Name,
    positions: &[u64],
) -> Result<(), AllocError>
    ensures ok { OnOk result (changes.new.items ≡ changes.old.items ++ each (λ p. acknowledged_change name.now p) positions.now) }
    ensures err { OnErr result (changes.new.items ≡ changes.old.items) }
{
    let before = changes.len();
    changes.reserve(positions.len())?;
    if let Err(refused) = push_acknowledgements(changes, name, positions) {
        changes.truncate(before);
        return Err(refused);
    }
    Ok(())
}

/// Adds a change for each position. A refusal may leave some of them behind what was there.
fn push_acknowledgements(
    changes: &mut Vec<Record>,
    name: &Name,
    positions: &[u64],
) -> Result<(), AllocError>
    ensures ok { OnOk result (changes.new.items ≡ changes.old.items ++ each (λ p. acknowledged_change name.now p) positions.now) }
    ensures err { OnErr result (take (length changes.old.items) changes.new.items ≡ changes.old.items) }
{
    for position in positions {
        changes.push(Record::Acknowledged {
            name: name.clone()?,
            position: *position,
        })?;
    }
    Ok(())
}

/// The session leaves each subscription.
fn leave_all<G: Gauge>(subs: &mut Vec<Subscription<G>>, hints: &mut Vec<Hints>, who: u64)
    requires { length hints.old.items ≡ length subs.old.items }
    ensures left { subs.new.items ≡ each (λ s. left_on who s) subs.old.items }
    ensures hints { (slots : List ℕ) → AreHintsOf slots subs.old.items hints.old.items → AreHintsOf slots subs.new.items hints.new.items }
{
    for i in 0..subs.len() {
        let sub = &mut subs[i];
        let noted = &mut hints[i];
        leave_one(sub, noted, who);
    }
}

/// The least of a position and of those below which a subscription has acknowledged all.
fn least_mark<G: Gauge>(subs: &[Subscription<G>], most: u64) -> u64
    ensures within { result ≤ most }
    ensures past { AllByRecursion (IsPast result) subs.now }
{
    let mut least = most;
    for sub in subs {
        least = least.min(sub.mark_delete());
    }
    least
}

/// Drops all hints.
fn clear_all(hints: &mut Vec<Hints>)
    ensures same { length hints.new.items ≡ length hints.old.items }
    ensures empty { AllByRecursion (λ h. h ≡ []) hints.new.items }
{
    for i in 0..hints.len() {
        let noted = &mut hints[i];
        noted.clear();
    }
}

/// The session leaves a subscription. Where no consumer of it is attached, the hints stay.
fn leave_one<G: Gauge>(sub: &mut Subscription<G>, hints: &mut Hints, who: u64)
    ensures left { sub.new ≡ left_on who sub.old }
    ensures hints { (slots : List ℕ) → AreHintsOn slots sub.old hints.old → AreHintsOn slots sub.new hints.new }
{
    if !sub.has_session(who) {
        return;
    }
    sub.leave(who);
    hints.clear();
}

/// Drops the first changes. Where none is left, a list that took much room gives it back.
fn drop_first(alloc: Global, changes: &mut Vec<Record>, count: usize)
    requires { count ≤ length changes.old.items }
    ensures { changes.new.items ≡ drop count changes.old.items }
{
    let left = changes.len() - count;
    changes.rotate_left(count);
    changes.truncate(left);
    if left == 0 && changes.capacity() > KEPT_ROOM {
        *changes = Vec::new(alloc);
    }
}
