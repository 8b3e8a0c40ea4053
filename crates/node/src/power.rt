// A node that is driven through events and crashes.
ghost use Rattle.std.specs.Prelude.{◌≡◌, ◌≢◌, ◌<◌, ◌≤◌, ◌++◌, ◌∷◌, List, ℕ, IfOk, OnOk, OnErr, true, false, length, take};
ghost use Rattle.disk.specs.declared.crash_shelf.CrashForm.{CrashForm};
ghost use Rattle.disk.specs.Disk.{Same, Advances, Kept, Stays, Leaves};
ghost use Rattle.disk.specs.Laid.{after_arm, after_crash};
ghost use Rattle.gated_log.specs.declared.refusal.Refusal.TheVariants as refusal;
ghost use Rattle.node.specs.State.{State};
ghost use Rattle.node.specs.Standing.{AtRest, StandsForBroker, StandsForSome};
ghost use Rattle.node.specs.Cuts.{AmidEvent, AmidHappening};
ghost use Rattle.node.specs.Driving.{Cut, Holds, StatusOf, SegmentsTold, KnowsOn, segments_known, shelf_in, disk_in, StandsAmidst, Drove};
ghost use Rattle.node.specs.Runs.{Life, OpeningStep, HappeningStep};
ghost use Rattle.node.specs.declared.event.Happening.TheVariants as happening;
ghost use Rattle.node.specs.declared.event.Verdict.TheVariants as verdict;

use crate::event::{Event, Happening, Output, Verdict};
use crate::node::{Node, only};
use crate::site::Site;
use crate::status::TopicStatus;
use disk::{CrashShelf, Fuse};
use std::alloc::{AllocError, Global};
use topic_core::TopicStore;

/// A machine: its node where that works, or its site alone where the node is down.
#[derive(Drop)]
pub enum Machine<T: TopicStore, S> {
    Up(Node<T, S>),
    Down(Site<S>),
}

impl<T: TopicStore, S: CrashShelf + Drop> Machine<T, S> {
    /// The power comes, and the node is opened, which writes nothing. The output has no bytes.
    pub fn start(alloc: Global, site: Site<S>) -> (Machine<T, S>, Output)
        ensures seen { (S.disk site.shelf).honest → result.1.result ≢ verdict.Refused refusal.Device →
            Same (S.disk site.shelf).seen (disk_in S.disk result.0).seen }
        ensures step { (old : State) → AtRest T.stands old (S.disk site.shelf) → site.url ≡ old.broker.service_url →
            (life : Life) × OpeningStep old result.1 life × Holds S.disk result.0 life }
        ensures any_moment { (old : State) → AtRest T.stands old (S.disk site.shelf) →
            Leaves (StandsForBroker T.stands old.broker) (S.disk site.shelf) (disk_in S.disk result.0) }
    {
        match Node::open(alloc, site) {
            Ok(node) => (Machine::Up(node), only(alloc, Verdict::Done)),
            Err((why, site)) => (Machine::Down(site), only(alloc, Verdict::Refused(why))),
        }
    }

    /// The site alone, with what the node wrote.
    pub fn into_site(self) -> Site<S>
        ensures at_rest { (life : Life) → Holds S.disk self life → AtRest T.stands life.state (S.disk result.shelf) × (result.url ≡ life.state.broker.service_url) }
        ensures device { result.shelf ≡ shelf_in self }
    {
        match self {
            Machine::Up(node) => node.into_site(),
            Machine::Down(site) => site,
        }
    }

    /// The power is cut, in the form that was ordered last, and comes again.
    pub fn crash(self, alloc: Global) -> (Machine<T, S>, Output)
        ensures cut { Cut S.disk S.laid S.left_as (shelf_in self) result.1.result (shelf_in result.0) }
        ensures step { (old : Life) → Holds S.disk self old →
            (new : Life) × HappeningStep old (happening.Crash) result.1 new × Holds S.disk result.0 new }
        ensures any_moment { (old : Life) → Holds S.disk self old →
            Leaves (StandsForBroker T.stands old.state.broker) (disk_in S.disk self) (disk_in S.disk result.0) }
    {
        let Site { url, shelf } = self.into_site();
        let shelf = cut_power(shelf);
        Machine::start(alloc, Site { url, shelf })
    }

    /// Works an event. A node that is down knows no session and no topic.
    pub fn event(&mut self, alloc: Global, event: Event) -> Output
        ensures step { (old : Life) → Holds S.disk self.old old →
            (new : Life) × HappeningStep old (happening.Event event) result new × Holds S.disk self.new new }
        // Behind a failure of the device a topic's store knows of as many segments as its files had before, or of one more.
        ensures known { (old new : Life) → Holds S.disk self.old old → Holds S.disk self.new new → old.up ≡ true →
            KnowsOn T.laid (disk_in S.disk self.old).seen old.state new.state (segments_known self.old) (segments_known self.new) }
        ensures any_moment { (old : Life) → Holds S.disk self.old old →
            Leaves (StandsForSome T.stands (λ broker. AmidEvent old.up old.state event broker)) (disk_in S.disk self.old) (disk_in S.disk self.new) }
    {
        match self {
            Machine::Up(node) => node.step(event),
            Machine::Down(_) => only(alloc, Verdict::Unknown),
        }
    }

    /// Lays a fuse for a failure of the device beside those laid before. Where there is no memory for it, no fuse is laid.
    pub fn arm(&mut self, fuse: Fuse) -> Result<(), AllocError>
        ensures armed { OnOk result (S.laid (shelf_in self.new) ≡ after_arm fuse (S.laid (shelf_in self.old))) }
        ensures refused { OnErr result (S.laid (shelf_in self.new) ≡ S.laid (shelf_in self.old)) }
        ensures same { (form : CrashForm) (after : S) → S.left_as form (shelf_in self.new) after → S.left_as form (shelf_in self.old) after }
        ensures stays { Stays (disk_in S.disk self.old) (disk_in S.disk self.new) }
        ensures known { segments_known self.new ≡ segments_known self.old }
        ensures holds { (life : Life) → Holds S.disk self.old life → Holds S.disk self.new life }
    {
        match self {
            Machine::Up(node) => node.topics.shelf.arm(fuse),
            Machine::Down(site) => site.shelf.arm(fuse),
        }
    }

    /// What the topic of a number has; none where there is no such topic, or the node is down. An error is want of memory.
    pub fn status(&self, topic: u64) -> Result<Option<TopicStatus>, AllocError>
        ensures files { (life : Life) → Holds S.disk self.now life → IfOk result (SegmentsTold S.disk T.laid self.now topic) }
        ensures status { (life : Life) → Holds S.disk self.now life → IfOk result (StatusOf life.up life.state topic) }
    {
        match self {
            Machine::Up(node) => node.status(topic),
            Machine::Down(_) => Ok(None),
        }
    }

    /// An event, or the power is cut and comes again.
    fn happen(mut self, alloc: Global, happening: Happening) -> (Machine<T, S>, Output)
        ensures step { (old : Life) → Holds S.disk self old →
            (new : Life) × HappeningStep old happening result.1 new × Holds S.disk result.0 new }
        ensures any_moment { (old : Life) → Holds S.disk self old →
            Leaves (StandsForSome T.stands (λ broker. AmidHappening old.up old.state happening broker)) (disk_in S.disk self) (disk_in S.disk result.0) }
    {
        match happening {
            Happening::Event(event) => {
                let output = self.event(alloc, event);
                (self, output)
            }
            Happening::Crash => self.crash(alloc),
        }
    }
}

// The device behind a cut of its power, in the form that was ordered last.
fn cut_power<S: CrashShelf>(mut shelf: S) -> S
    ensures form { S.left_as (S.laid shelf).form shelf result }
    ensures burnt { S.laid result ≡ after_crash (S.laid shelf) }
    ensures time { (S.disk shelf).honest → Advances Same (S.disk shelf) (S.disk result) }
    ensures kept { Kept (S.disk shelf) (S.disk result) }
{
    shelf.crash();
    shelf
}

/// Opens the node that the device holds, and works through events and crashes, one output each after that of the opening. A crash
/// at any moment, within calls too, leaves what a crash leaves of a broker that a front of them reaches.
pub fn drive<T: TopicStore, S: CrashShelf + Drop>(
    alloc: Global,
    site: Site<S>,
    happenings: Vec<Happening>,
    outputs: &mut Vec<Output>,
) -> Result<Machine<T, S>, AllocError>
    ensures drove { (first : State) → AtRest T.stands first (S.disk site.shelf) → site.url ≡ first.broker.service_url →
        Drove S.disk first happenings.items outputs.old.items result outputs.new.items }
    ensures any_moment { (first : State) → AtRest T.stands first (S.disk site.shelf) → site.url ≡ first.broker.service_url →
        IfOk result (λ machine. Leaves (StandsAmidst T.stands first happenings.items) (S.disk site.shelf) (disk_in S.disk machine)) }
{
    if let Err(error) = outputs.reserve(1) {
        drop(site);
        drop(happenings);
        return Err(error);
    }
    let (mut machine, output) = Machine::start(alloc, site);
    outputs.push(output).unwrap();
    for happening in happenings {
        if let Err(error) = outputs.reserve(1) {
            drop(happening);
            drop(machine);
            return Err(error);
        }
        let (next, output) = machine.happen(alloc, happening);
        machine = next;
        outputs.push(output).unwrap();
    }
    Ok(machine)
}
