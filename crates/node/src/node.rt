ghost use Rattle.std.specs.Prelude.{◌≡◌, ◌<◌, ◌≤◌, [], length, IfSome, vec_len};
ghost use Rattle.disk.specs.Disk.{Leaves};
ghost use Rattle.session.specs.Broker.{topic_at};
ghost use Rattle.node.specs.State.{is_full, place_in, place_of, verdict_of, verdict_of_pump, settled};
ghost use Rattle.node.specs.Standing.{state_of, disk_of, broker_of, StillKnow, Stands, StandsForSome, Passes, Works};
ghost use Rattle.node.specs.Steps.{OpenStep, BytesStep, PumpStep, CloseStep, WorkStep, BrokerStep, SearchesBy, Amid};
ghost use Rattle.node.specs.Opening.{TellsOn, TellsIn};
ghost use Rattle.node.specs.Runs.{Ran, Reached};
ghost use Rattle.node.specs.declared.event.Event.TheVariants as asked;

use crate::event::{Event, Output, TopicEvent, Verdict};
use crate::octets::Octets;
use crate::topics::Topics;
use disk::Shelf;
use gated_log::Refusal;
use session::{Fault, More, PumpFault, Session};
use std::alloc::{AllocError, Global};
use topic_core::TopicStore;

/// The most sessions that are open. Our own rule.
pub(crate) const MOST_SESSIONS: usize = 256;

/// The most numbers of sessions that are given out. Our own rule.
const MOST_NUMBERS: u64 = 1 << 62;

/// A broker of one node, over its device.
#[derive(Drop)]
pub struct Node<T: TopicStore, S> {
    pub(crate) alloc: Global,
    pub(crate) topics: Topics<T, S>,
    pub(crate) sessions: Vec<Session>,
    pub(crate) used: u64,
}

/// An answer without bytes.
pub(crate) fn only(alloc: Global, verdict: Verdict) -> Output
    ensures { result ≡ record { bytes = []; result = verdict } }
{
    Output {
        bytes: Octets::new(Vec::new(alloc)),
        result: verdict,
    }
}

/// Where a session stands.
fn place_of(sessions: &[Session], who: u64) -> Option<usize>
    ensures place { result ≡ place_of sessions.now who }
    ensures within { IfSome result (λ place. place < length sessions.now) }
{
    sessions.iter().position(|s| s.number() == who)
}

fn verdict_of(fault: Option<Fault>) -> Verdict
    ensures { result ≡ verdict_of fault }
{
    match fault {
        None => Verdict::Done,
        Some(why) => Verdict::Ended(why),
    }
}

fn verdict_of_pump(pumped: Result<More, PumpFault>) -> Verdict
    ensures { result ≡ verdict_of_pump pumped }
{
    match pumped {
        Ok(_) => Verdict::Done,
        Err(PumpFault::Ended(why)) => Verdict::Ended(why),
        Err(PumpFault::Device) => Verdict::Refused(Refusal::Device),
        Err(PumpFault::Damaged { file, offset }) => {
            Verdict::Refused(Refusal::Damaged { file, offset })
        }
    }
}

/// Drops a session that ended.
fn settle(sessions: &mut Vec<Session>, place: usize, fault: Option<Fault>)
    requires { place < vec_len sessions.old }
    ensures { sessions.new.items ≡ settled fault sessions.old.items place }
{
    if fault.is_some() {
        sessions.remove(place);
    }
}

impl<T: TopicStore, S: Shelf> Node<T, S> {
    fn open_session(&mut self) -> Output
        ensures step { OpenStep (is_full (state_of S.disk self.old)) (state_of S.disk self.old) result (state_of S.disk self.new) }
        ensures passes { Passes S.disk self.old.topics self.new.topics }
    {
        if self.sessions.len() >= MOST_SESSIONS || self.used >= MOST_NUMBERS {
            return only(self.alloc, Verdict::Full);
        }
        if self
            .sessions
            .push(Session::new(self.alloc, self.used))
            .is_err()
        {
            return only(self.alloc, Verdict::Refused(Refusal::NoMemory));
        }
        self.used += 1;
        only(self.alloc, Verdict::Done)
    }

    fn bytes(&mut self, who: u64, bytes: &[u8]) -> Output
        ensures step { Stands S.disk self.old →
            BytesStep (place_of self.old.sessions.items who) (state_of S.disk self.old) bytes.now result (state_of S.disk self.new) }
        ensures works { SearchesBy self.old.sessions.items who bytes.now (λ names. Works S.disk names self.old.topics self.new.topics) }
    {
        let Some(place) = place_of(self.sessions.as_slice(), who) else {
            return only(self.alloc, Verdict::Unknown);
        };
        let mut out = Vec::new(self.alloc);
        let session = &mut self.sessions[place];
        let _ = session.feed(bytes, &mut self.topics, &mut out);
        let fault = session.fault();
        settle(&mut self.sessions, place, fault);
        Output {
            bytes: Octets::new(out),
            result: verdict_of(fault),
        }
    }

    fn pump(&mut self, who: u64) -> Output
        ensures step { Stands S.disk self.old →
            PumpStep (place_of self.old.sessions.items who) (state_of S.disk self.old) result (state_of S.disk self.new) }
        ensures passes { Passes S.disk self.old.topics self.new.topics }
    {
        let Some(place) = place_of(self.sessions.as_slice(), who) else {
            return only(self.alloc, Verdict::Unknown);
        };
        let mut out = Vec::new(self.alloc);
        let session = &mut self.sessions[place];
        let pumped = session.pump(&mut self.topics, &mut out);
        let fault = session.fault();
        settle(&mut self.sessions, place, fault);
        Output {
            bytes: Octets::new(out),
            result: verdict_of_pump(pumped),
        }
    }

    fn close(&mut self, who: u64) -> Output
        ensures step { Stands S.disk self.old →
            CloseStep (place_of self.old.sessions.items who) (state_of S.disk self.old) result (state_of S.disk self.new) }
        ensures passes { Passes S.disk self.old.topics self.new.topics }
    {
        let Some(place) = place_of(self.sessions.as_slice(), who) else {
            return only(self.alloc, Verdict::Unknown);
        };
        let session = self.sessions.remove(place);
        session.end(&mut self.topics);
        only(self.alloc, Verdict::Done)
    }

    fn on_topic(&mut self, topic: u64, event: TopicEvent) -> Output
        ensures step { Stands S.disk self.old →
            WorkStep event (place_in (state_of S.disk self.old).broker.topics topic) (state_of S.disk self.old) result (state_of S.disk self.new) }
        ensures known { StillKnow self.old.topics self.new.topics }
        ensures stands { Stands S.disk self.old → Stands S.disk self.new }
        ensures tells { TellsOn T.stands T.faulty event topic (topic_at (broker_of self.old.topics) topic) (topic_at (broker_of self.new.topics) topic) (disk_of S.disk self.old) (disk_of S.disk self.new) result.result }
        ensures any_moment { Stands S.disk self.old →
            Leaves (StandsForSome T.stands (λ broker. Amid self.old.sessions.items (state_of S.disk self.old).broker (asked.OnTopic topic event) broker)) (disk_of S.disk self.old) (disk_of S.disk self.new) }
    {
        if topic >= self.topics.count() {
            return only(self.alloc, Verdict::Unknown);
        }
        let Topics { held, shelf, .. } = &mut self.topics;
        let verdict = held[topic as usize].work(shelf, event);
        only(self.alloc, verdict)
    }

    /// Works one event. A crash at any moment of it leaves what a crash leaves of the broker; within a flush all that waits is
    /// in doubt.
    pub fn step(&mut self, event: Event) -> Output
        ensures step { Stands S.disk self.old →
            BrokerStep (state_of S.disk self.old) event result (state_of S.disk self.new) }
        ensures stands { Stands S.disk self.old → Stands S.disk self.new }
        // Behind a failure of the device its store knows of as many segments as before, or of one more, until it is opened again.
        ensures known { Stands S.disk self.old → StillKnow self.old.topics self.new.topics }
        // Whatever the device holds, this is what the opening of a topic tells.
        ensures tells { TellsIn T.stands T.faulty event (broker_of self.old.topics) (broker_of self.new.topics) (disk_of S.disk self.old) (disk_of S.disk self.new) result.result }
        ensures any_moment { Stands S.disk self.old →
            Leaves (StandsForSome T.stands (λ broker. Amid self.old.sessions.items (state_of S.disk self.old).broker event broker)) (disk_of S.disk self.old) (disk_of S.disk self.new) }
    {
        match event {
            Event::Open => self.open_session(),
            Event::Bytes(who, bytes) => self.bytes(who, bytes.as_slice()),
            Event::Pump(who) => self.pump(who),
            Event::Close(who) => self.close(who),
            Event::OnTopic(topic, event) => self.on_topic(topic, event),
        }
    }

    /// Works events in order, one output each. Where memory is refused for an output, the events from that one on weren't
    /// worked. A crash at any moment leaves what a crash leaves of a broker that a front of the events reaches.
    pub fn run(&mut self, events: Vec<Event>, outputs: &mut Vec<Output>) -> Result<(), AllocError>
        ensures ran { Stands S.disk self.old →
            Ran (state_of S.disk self.old) events.items outputs.old.items result outputs.new.items (state_of S.disk self.new) }
        ensures stands { Stands S.disk self.old → Stands S.disk self.new }
        ensures any_moment { Stands S.disk self.old →
            Leaves (StandsForSome T.stands (λ broker. Reached (state_of S.disk self.old) events.items broker))
            (disk_of S.disk self.old) (disk_of S.disk self.new) }
    {
        for event in events {
            outputs.reserve(1)?;
            let output = self.step(event);
            outputs.push(output).unwrap();
        }
        Ok(())
    }
}
