// A port over the topics' locks.
ghost use Rattle.std.specs.Prelude.{◌≡◌, ◌+◌, ◌-◌, ◌<◌, ◌≤◌, ◌^◌, ℕ, true, false, length, min, position, Some, None, Ok, IfOk, IfErr, IfSome};
ghost use Rattle.std.specs.Str.{bytes_eq};
ghost use Rattle.topic_core.specs.Steps.{Fits, has_producer, has_consumer};
ghost use Rattle.session.specs.declared.port.Found.TheVariants.{TooMany, NoMemory as OutOfMemory};
ghost use Rattle.session.specs.Broker.{CommandStep, GrantAt, CollectedAt, DispatchAt, SendsTo, FindStep, IfFound, IfFailed};
ghost use Rattle.topic_lock.specs.Counting.{sends_of, receipts_collected, is_later};
ghost use Rattle.topic_lock.specs.Granting.{GrantsBy};
ghost use Rattle.topic_lock.specs.Locked.{unknown_broker};
ghost use Rattle.topic_lock.specs.Handing.{topic_of, who_of, asked_of, said_of, IsHeard};
ghost use Rattle.topic_lock.specs.Hearing.{put_off};
ghost use Rattle.topic_lock.specs.Places.{AreNumberedFrom};
ghost use Rattle.topic_lock.specs.Portions.{is_full, left_behind};
ghost use Rattle.std.specs.Sync.Mutex.{mutex_guard_value};

use crate::asking::length_of;
use crate::broker::{Seat, SharedBroker};
use crate::counted::{Heard, Sent};
use crate::granting::Granting;
use crate::handing::Handed;
use crate::holding::Hold;
use crate::parts::PortShares;
use crate::places::{Known, SharedTopic, place_named};
use crate::portion::Portion;
use crate::resting::RestingPort;
use crate::tally::{AcceptedByPorts, HandedByPorts, Tallies};
use crate::troubles::{Reading, Troubles};
use crate::turns::Turns;
use commands::Reply;
use disk::Shelf;
use gated_log::Refusal;
use log::{Log, error, info};
use names::TopicName;
use permits::{Granter, TooManyPermits};
use session::{Found, Member, Port};
use std::alloc::{AllocError, Global};
use std::cell::Cell;
use std::sync::Wait;
use std::sync::atomic::Ordering;
use std::sync::ledger::Share;
use topic_core::{Answer, ReadError, TopicCommand, TopicStore};

/// A port over the topics' locks, with shares of what all ports were told. It knows the topics that were there when it last looked.
/// In a turn it keeps the lock of the topic that it was asked for last, until it is asked for another one or for something else.
#[derive(Drop)]
pub struct LockedPort<'p, 'a, T: TopicStore, S: Shelf + Drop, K: Tallies, R: Wait> {
    rt: &'p R,
    alloc: Global,
    broker: &'p SharedBroker<'a, T, S, K>,
    seat: &'p Seat,
    known: Vec<Known<'a, T, S, K>>,
    accepted: Share<AcceptedByPorts<K>>,
    handed: Share<HandedByPorts<K>>,
    /// Of the consumer that the last command attached, until it is taken.
    lent: Option<Granter>,
    held: Cell<Option<Hold<'a, K>>>,
    is_in_turn: bool,
    portion: Portion,
    troubles: Troubles,
    ghost parts: { (accepted.parts ≡ 1) × (handed.parts ≡ 1) },
    ghost numbered: { AreNumberedFrom (λ it. it.token.value.number) 0 known.items },
}

impl<'p, 'a, T: TopicStore, S: Shelf + Drop, K: Tallies, R: Wait> LockedPort<'p, 'a, T, S, K, R> {
    /// A port of the connection that sits here, which knows no topic yet, with the shares of one. A connection's two ports share
    /// its seat.
    pub fn new(
        rt: &'p R,
        alloc: Global,
        broker: &'p SharedBroker<'a, T, S, K>,
        seat: &'p Seat,
        shares: PortShares<K>,
    ) -> LockedPort<'p, 'a, T, S, K, R>
        ensures { (result.accepted.amount ≡ shares.accepted.amount) × (result.handed.amount ≡ shares.handed.amount) }
    {
        let PortShares { accepted, handed } = shares;
        LockedPort {
            rt,
            broker,
            seat,
            known: Vec::new(alloc),
            alloc,
            accepted,
            handed,
            lent: None,
            held: Cell::new(None),
            is_in_turn: false,
            portion: Portion::new(),
            troubles: Troubles::new(alloc),
        }
    }

    /// The port at rest, with its shares. It knows no topic then, and keeps no lock.
    pub fn rest(self) -> RestingPort<'p, 'a, T, S, K, R>
        ensures { (result.shares.accepted.amount ≡ self.entry.accepted.amount) × (result.shares.handed.amount ≡ self.entry.handed.amount) }
    {
        self.let_go();
        let LockedPort {
            rt,
            alloc,
            broker,
            seat,
            accepted,
            handed,
            held,
            ..
        } = self;
        drop(held);
        RestingPort {
            rt,
            alloc,
            broker,
            seat,
            shares: PortShares { accepted, handed },
        }
    }

    /// The shares, each with what all ports counted.
    pub fn settle(
        self,
    ) -> (
        (Share<AcceptedByPorts<K>>, u64),
        (Share<HandedByPorts<K>>, u64),
    )
        ensures accepted { (result.0.0.parts ≡ 1) × (result.0.0.amount ≡ self.entry.accepted.amount) × (min result.0.0.amount (2 ^ 64 - 1) ≤ result.0.1) }
        ensures handed { (result.1.0.parts ≡ 1) × (result.1.0.amount ≡ self.entry.handed.amount) × (min result.1.0.amount (2 ^ 64 - 1) ≤ result.1.1) }
    {
        self.let_go();
        let LockedPort {
            rt,
            broker,
            mut accepted,
            mut handed,
            held,
            ..
        } = self;
        drop(held);
        let all_accepted = broker.totals.accepted.lock(rt).total(&mut accepted);
        let all_handed = broker.totals.handed.lock(rt).total(&mut handed);
        ((accepted, all_accepted), (handed, all_handed))
    }

    /// The topic of a number that the port knows.
    fn topic(&self, topic: u64) -> &'a SharedTopic<T, S, K>
        requires { topic < length self.now.known.items }
        ensures { result.now.number ≡ topic }
    {
        self.known[topic as usize].get()
    }

    /// The lock of the topic of a number, once there is room for an entry of this length: what is behind it has that number. One that
    /// is kept is kept on where it is of this topic.
    fn hold(&self, topic: u64, entry_length: Option<usize>) -> Hold<'a, K>
        requires { topic < length self.now.known.items }
        ensures { (mutex_guard_value result.topic).number ≡ topic }
    {
        let kept = self.held.take();
        let place = self.seat.place;
        self.topic(topic)
            .enter(self.rt, &self.broker.bells, place, entry_length, kept)
    }

    /// Keeps a lock until the port is asked for something else, where a turn is on.
    fn keep(&self, hold: Hold<'a, K>) {
        if self.is_in_turn {
            self.held.set(Some(hold));
        } else {
            hold.release(&self.broker.bells);
        }
    }

    /// Lets go the lock that is kept, if one is.
    fn let_go(&self) {
        if let Some(hold) = self.held.take() {
            hold.release(&self.broker.bells);
        }
    }

    /// Learns of the topics that are there by now.
    fn learn(&mut self, known: &Vec<Known<'a, T, S, K>>) -> Result<(), AllocError>
        requires { AreNumberedFrom (λ it. it.token.value.number) 0 known.now.items }
        ensures grows { length self.old.known.items ≤ length self.new.known.items }
        ensures all { IfOk result (λ _. length known.now.items ≤ length self.new.known.items) }
        ensures accepted { (self.new.accepted.amount ≡ self.old.accepted.amount) × (self.new.handed.amount ≡ self.old.handed.amount) }
    {
        let LockedPort { known: mine, .. } = self;
        for number in mine.len()..known.len() {
            mine.push(known[number].again())?;
        }
        Ok(())
    }

    /// The number of the topic of this name, among those that the port knows.
    fn number_of(&self, name: &TopicName) -> Option<u64>
        ensures number { result ≡ position (λ known. bytes_eq known.token.value.name name.now) self.now.known.items }
        ensures there { IfSome result (λ number. number < length self.now.known.items) }
    {
        match place_named(self.known.as_slice(), name) {
            Some(place) => Some(place as u64),
            None => None,
        }
    }

    /// What a search for a name found, where the topic of that number has that name, as the port knows it.
    fn confirm(&self, found: Found, name: &TopicName) -> Found
        requires { IfFound found (λ number. number < length self.now.known.items) }
        ensures there { IfFound result (λ number. number < length self.now.known.items) }
        ensures named { IfFound result (λ number. position (λ known. bytes_eq known.token.value.name name.now) self.now.known.items ≡ Some number) }
        ensures refused { (found ≡ TooMany → result ≡ TooMany) × (found ≡ OutOfMemory → result ≡ OutOfMemory) }
    {
        let Found::Topic(_) = found else {
            return found;
        };
        match self.number_of(name) {
            Some(number) => Found::Topic(number),
            None => Found::Failed,
        }
    }

    /// Learns of the topics that are there by now, without the catalog's lock.
    fn look_around(&mut self) -> Result<(), AllocError>
        ensures grows { length self.old.known.items ≤ length self.new.known.items }
        ensures counts { (self.new.accepted.amount ≡ self.old.accepted.amount) × (self.new.handed.amount ≡ self.old.handed.amount) }
    {
        let LockedPort { broker, known, .. } = self;
        let places = broker.places;
        for number in known.len()..places.len() {
            let place = &places[number];
            let Some(token) = place.witness() else {
                break;
            };
            let next = Known::new(place, token);
            if !next.is_numbered(number as u64) {
                drop(next);
                break;
            }
            known.push(next)?;
        }
        Ok(())
    }
}

impl<'p, 'a, T: TopicStore, S: Shelf + Drop, K: Tallies, R: Wait + Log> LockedPort<
    'p,
    'a,
    T,
    S,
    K,
    R,
> {
    /// The topic of this name, which the port doesn't know, by the catalog.
    fn find_or_make(&mut self, name: &TopicName) -> Found
        ensures there { IfFound result (λ number. number < length self.new.known.items) }
        ensures named { IfFound result (λ number. position (λ known. bytes_eq known.token.value.name name.now) self.new.known.items ≡ Some number) }
        ensures grows { length self.old.known.items ≤ length self.new.known.items }
    {
        let broker = self.broker;
        let mut catalog = broker.catalog.lock(self.rt);
        let (found, news) = catalog.find_or_make(self.rt, &broker.totals.durable, name);
        let learnt = self.learn(&catalog.known);
        drop(catalog);
        log_news(self.rt, name, news);
        match learnt {
            Ok(()) => self.confirm(found, name),
            Err(AllocError) => Found::NoMemory,
        }
    }

    /// Hands on what a topic gave a consumer. A message that can't be read is none for now: the log tells that once, and once that it
    /// can be read again, and the writer tries again behind a pause.
    fn pass_on(&mut self, reading: Reading, sent: Heard<u64, Sent>) -> Heard<u64, Sent>
        requires known { reading.topic < length self.old.known.items }
        ensures passed { result ≡ record sent { said = put_off sent.said } }
        ensures counted { IfOk sent.said (λ given. IfSome given (λ message. self.new.portion.left ≡ left_behind self.old.portion.left (length message.entry))) }
        ensures passes { self.new.known ≡ self.old.known }
    {
        let rt = self.rt;
        let name = &self.topic(reading.topic).name;
        let id = reading.consumer_id;
        match sent.said() {
            Err(ReadError::NoMemory) | Ok(None) => {}
            Err(why) => {
                if self.troubles.meet(reading) {
                    error!(rt; "topic {name}: a message for consumer {id} can't be read: {why}");
                }
            }
            Ok(Some(message)) => {
                self.portion.add(message);
                if self.troubles.end(reading) {
                    info!(rt; "topic {name}: messages for consumer {id} can be read again");
                }
            }
        }
        sent.put_off()
    }
}

impl<'p, 'a, T: TopicStore, S: Shelf + Drop, K: Tallies, R: Wait> Turns
    for LockedPort<'p, 'a, T, S, K, R> {
    fn begin_turn(&mut self) {
        // Where memory is refused, the topics that aren't known are passed over in this turn.
        let _ = self.look_around();
        self.is_in_turn = true;
        self.portion = Portion::new();
    }

    fn end_turn(&mut self) {
        self.is_in_turn = false;
        self.let_go();
        let bells = &self.broker.bells;
        if self.portion.is_cut_short() {
            bells.ring_writer(self.seat.place);
        }
        if let Some(pause) = self.troubles.end_turn() {
            bells.hurry_writer(self.seat.place, pause);
        }
    }
}

impl<'p, 'a, T: TopicStore, S: Shelf + Drop, K: Tallies, R: Wait + Log> Port
    for LockedPort<'p, 'a, T, S, K, R> {
    ghost broker = { λ _. unknown_broker };

    ghost count = { λ port. length port.known.items };

    ghost sole = { λ _. ⊥ };

    ghost passes = { λ old new. length new.known.items ≡ length old.known.items };

    ghost works = { λ _ old new. length old.known.items ≤ length new.known.items };

    ghost fails = { λ _ _. Unit {0} };

    ghost refuses = { λ _ _ _ _. Unit {0} };

    type Answered = Heard<TopicCommand, Answer>;

    type Sent = Handed;

    type Had = Heard<Member, bool>;

    type Looked = Heard<u64, ()>;

    type Quiet = Heard<(), bool>;

    type Collected = Heard<(), Option<Reply>>;

    type Left = Heard<(), ()>;

    fn service_url(&self) -> &str {
        self.broker.url.as_str()
    }

    fn topics(&self) -> u64 {
        self.known.len() as u64
    }

    fn has_producer(&self, topic: u64, who: u64, producer_id: u64) -> Heard<Member, bool> {
        self.let_go();
        let locked = self.topic(topic).lock(self.rt);
        locked.has_producer(who, producer_id)
    }

    fn has_consumer(&self, topic: u64, who: u64, consumer_id: u64) -> Heard<Member, bool> {
        self.let_go();
        let locked = self.topic(topic).lock(self.rt);
        locked.has_consumer(who, consumer_id)
    }

    // A topic that is there is found without the catalog's lock, which somebody may have who makes one.
    fn find(&mut self, name: &TopicName) -> Found
        ensures step { ⊥ → FindStep unknown_broker name.now result unknown_broker }
        ensures there { IfFound result (λ number. number < length self.new.known.items) }
        ensures failed { IfFailed result (Unit {0}) }
        ensures works { length self.old.known.items ≤ length self.new.known.items }
        ensures named { IfFound result (λ number. position (λ known. bytes_eq known.token.value.name name.now) self.new.known.items ≡ Some number) }
    {
        self.let_go();
        // Where memory is refused, the topics that aren't known yet are asked for behind the catalog's lock.
        let _ = self.look_around();
        if let Some(number) = self.number_of(name) {
            return self.seat.use_topic(Found::Topic(number));
        }
        let found = self.find_or_make(name);
        self.seat.use_topic(found)
    }

    fn command(
        &mut self,
        topic: u64,
        who: u64,
        command: TopicCommand,
    ) -> Heard<TopicCommand, Answer>
        requires { topic < length self.old.known.items }
        ensures about { (result.topic ≡ topic) × (result.who ≡ who) × (result.asked.value ≡ command) }
        ensures step { ⊥ → CommandStep unknown_broker topic who command result.said unknown_broker }
        ensures fits { Fits command result.said }
        ensures passes { length self.new.known.items ≡ length self.old.known.items }
        ensures accepted { self.new.accepted.amount ≡ self.old.accepted.amount + sends_of command result.said }
        ensures handed { self.new.handed.amount ≡ self.old.handed.amount }
        ensures lent { is_later result.said ≡ false → self.new.lent ≡ None }
    {
        let mut hold = self.hold(topic, length_of(&command));
        let LockedPort {
            rt,
            broker,
            seat,
            accepted,
            lent,
            ..
        } = self;
        let tally = &broker.totals.accepted;
        let mut granter = None;
        let heard = hold.command(*rt, seat.place, tally, accepted, who, command, &mut granter);
        *lent = if_later(heard.said(), granter);
        self.keep(hold);
        heard
    }

    fn take_granter(&mut self) -> Option<Granter>
        ensures same { ⊥ → unknown_broker ≡ unknown_broker }
        ensures passes { length self.new.known.items ≡ length self.old.known.items }
        ensures given { result ≡ self.old.lent }
        ensures once { self.new.lent ≡ None }
    {
        self.lent.take()
    }

    // No lock is taken for it, and the one that is kept stays.
    fn grant(
        &mut self,
        _topic: u64,
        _who: u64,
        _consumer_id: u64,
        granter: &mut Option<Granter>,
        permits: u32,
    ) -> Result<(), TooManyPermits>
        requires { _topic < length self.old.known.items }
        ensures step { ⊥ → GrantAt unknown_broker _topic _who _consumer_id permits result unknown_broker }
        ensures passes { length self.new.known.items ≡ length self.old.known.items }
        ensures granted { GrantsBy granter.old permits result granter.new }
    {
        let granting = Granting {
            bells: &self.broker.bells,
            place: self.seat.place,
        };
        granting.grant(granter, permits)
    }

    fn look(&mut self, topic: u64, who: u64, consumer_id: u64) -> Heard<u64, ()> {
        let mut hold = self.hold(topic, None);
        let heard = hold.look(who, consumer_id);
        self.keep(hold);
        heard
    }

    fn dispatch(&mut self, topic: u64, who: u64, consumer_id: u64) -> Handed
        requires { topic < length self.old.known.items }
        ensures about { (topic_of result ≡ topic) × (who_of result ≡ who) × (asked_of result ≡ consumer_id) }
        ensures step { ⊥ → DispatchAt unknown_broker topic who consumer_id (said_of result) unknown_broker }
        ensures sends { SendsTo consumer_id (said_of result) }
        ensures refused { IfErr (said_of result) (λ why. Unit {0}) }
        ensures passes { length self.new.known.items ≡ length self.old.known.items }
        ensures full { is_full self.old.portion ≡ true → said_of result ≡ Ok None }
        ensures asks { is_full self.old.portion ≡ false → IsHeard result }
        ensures counted { IfOk (said_of result) (λ sent. IfSome sent (λ message. self.new.portion.left ≡ left_behind self.old.portion.left (length message.entry))) }
    {
        if self.portion.ends() {
            return Handed::Full {
                topic,
                who,
                consumer_id,
            };
        }
        let held = self.hold(topic, None);
        let shared = self.topic(topic);
        let place = self.seat.place;
        let bells = &self.broker.bells;
        let (hold, sent) = shared.dispatch(self.rt, bells, held, place, who, consumer_id);
        self.keep(hold);
        Handed::Heard(self.pass_on(Reading { topic, consumer_id }, sent))
    }

    fn is_quiet(&mut self, topic: u64, who: u64) -> Heard<(), bool> {
        let mut hold = self.hold(topic, None);
        let heard = hold.is_quiet(self.seat.place, who);
        self.keep(hold);
        heard
    }

    fn next_due(&self, _who: u64, from: u64) -> Option<u64> {
        let topic = self.seat.first_used(from)?;
        if topic < self.topics() {
            Some(topic)
        } else {
            None
        }
    }

    fn collect(&mut self, topic: u64, who: u64) -> Heard<(), Option<Reply>>
        requires { topic < length self.old.known.items }
        ensures about { (result.topic ≡ topic) × (result.who ≡ who) }
        ensures step { ⊥ → CollectedAt unknown_broker topic who result.said unknown_broker }
        ensures passes { length self.new.known.items ≡ length self.old.known.items }
        ensures accepted { self.new.accepted.amount ≡ self.old.accepted.amount }
        ensures handed { self.new.handed.amount ≡ self.old.handed.amount + receipts_collected result.said }
    {
        let mut hold = self.hold(topic, None);
        let LockedPort {
            rt,
            broker,
            handed,
            ..
        } = self;
        let heard = hold.topic.collect(*rt, &broker.totals.handed, handed, who);
        self.keep(hold);
        heard
    }

    fn leave(&mut self, topic: u64, who: u64) -> Heard<(), ()> {
        self.let_go();
        let place = self.seat.place;
        self.topic(topic)
            .leave(self.rt, &self.broker.bells, place, who)
    }

    ghost use Rattle.std.proofs.Common.{refl, sym, ap, ◌∙◌, arith};

    ghost passes_nothing = { λ port. refl };

    ghost passes_both = { λ a b c first second. second ∙ first };

    ghost passes_sole = { λ a b passes sole. sole };

    ghost passes_works = { λ names a b passes. omega (arith, passes) };

    ghost works_both = { λ names a b c first second. omega (arith, first, second) };

    ghost works_more = { λ few more a b within works. works };

    ghost works_sole = { λ names a b works sole. sole };

    ghost works_count = { λ names a b works. works };

    ghost fails_within = { λ names a b c d before between after fails. tt };

    ghost refuses_within = { λ a b c d topic why before between after refused. tt };

    ghost passes_count = { λ a b passes. omega (arith, passes) };

    ghost counts_topics = { λ port sole. elim sole [ ] };
}

/// Logs why no topic is made for a name, where that is news.
fn log_news<R: Log>(rt: &R, name: &TopicName, news: Option<Refusal>) {
    if let Some(why) = news {
        error!(rt; "no topic is made for {}: {why}", name.as_str());
    }
}

/// The granter that a command which was answered so lends: one that isn't answered later has attached no consumer.
fn if_later(answer: &Answer, granter: Option<Granter>) -> Option<Granter>
    ensures later { is_later answer.now ≡ true → result ≡ granter }
    ensures none { is_later answer.now ≡ false → result ≡ None }
{
    match answer {
        Answer::Later => granter,
        Answer::Now(_) | Answer::Nothing | Answer::NoMemory => None,
    }
}
