// How many producers of a topic have an id, and how many have a name.
ghost use Rattle.std.specs.Prelude.{◌≡◌, ℕ, List, [], ◌∷◌, ◌++◌, cond, ◌&&◌, nat_eq, map, OnOk, OnErr};
ghost use Rattle.std.specs.List.{list_any};
ghost use Rattle.topic_core.specs.declared.producer.Producer.{Producer as Held};
ghost use Rattle.topic_core.specs.Steps.{is_producer, is_open_producer, closed_at};
ghost use Rattle.topic_core.specs.Counts.{AreCounted, HasRoom, IsOneMore, AreSame, AreLess, AreFewer, goes, is_named};

use crate::closing::is_handed_on;
use crate::id_counts::{IdCounts, count_id, count_of_id, discount_id, forget_id};
use crate::name_counts::{NameCounts, count_name, count_of_name, discount_name};
use crate::producer::{Producer, ProducerState};
use std::alloc::{AllocError, Global};

/// Which producers go.
#[derive(Clone, Copy)]
pub(crate) enum Going {
    /// Those of a session.
    OfSession(u64),
    /// Those whose closing was handed on.
    HandedOn,
}

/// How many producers have each session and id, how many of them are open, and how many have each name.
#[derive(Drop)]
pub(crate) struct ProducerCounts {
    pub(crate) alloc: Global,
    pub(crate) attached: IdCounts,
    pub(crate) sending: IdCounts,
    pub(crate) names: NameCounts,
}

impl ProducerCounts {
    /// Of no producers.
    pub(crate) fn new(alloc: Global) -> ProducerCounts
        ensures { AreCounted [] result }
    {
        ProducerCounts {
            alloc,
            attached: IdCounts::new(alloc),
            sending: IdCounts::new(alloc),
            names: NameCounts::new(alloc),
        }
    }

    /// Whether a session has this producer.
    pub(crate) fn has(&self, who: u64, id: u64) -> bool
        ensures { (ps : List Held) → AreCounted ps self.now → result ≡ list_any (is_producer who id) ps }
    {
        count_of_id(&self.attached, who, id) != 0
    }

    /// Whether a session has this producer, and it is open.
    pub(crate) fn has_open(&self, who: u64, id: u64) -> bool
        ensures { (ps : List Held) → AreCounted ps self.now → result ≡ list_any (is_open_producer who id) ps }
    {
        count_of_id(&self.sending, who, id) != 0
    }

    /// Whether a producer has this name.
    pub(crate) fn has_name(&self, name: &str) -> bool
        ensures { (ps : List Held) → AreCounted ps self.now → result ≡ list_any (is_named name.now) ps }
    {
        count_of_name(&self.names, name) != 0
    }

    /// Counts an open producer more. Want of memory changes no count.
    pub(crate) fn add(&mut self, who: u64, id: u64, name: &str) -> Result<(), AllocError>
        requires { HasRoom self.old }
        ensures ok { OnOk result (IsOneMore who id name.now self.old self.new) }
        ensures err { OnErr result (AreSame self.old self.new) }
    {
        count_id(&mut self.attached, who, id)?;
        if let Err(error) = count_id(&mut self.sending, who, id) {
            discount_id(&mut self.attached, who, id);
            return Err(error);
        }
        if let Err(error) = count_name(self.alloc, &mut self.names, name) {
            discount_id(&mut self.attached, who, id);
            discount_id(&mut self.sending, who, id);
            return Err(error);
        }
        Ok(())
    }

    /// No producer with this session and id is open any more.
    pub(crate) fn close(&mut self, who: u64, id: u64)
        ensures { (ps : List Held) → AreCounted ps self.old → AreCounted (map (λ p. closed_at who id p) ps) self.new }
    {
        forget_id(&mut self.sending, who, id);
    }

    /// A producer is no longer counted.
    fn discount(&mut self, producer: &Producer)
        ensures { AreLess producer.now self.old self.new }
    {
        discount_id(&mut self.attached, producer.session, producer.id);
        discount_name(&mut self.names, producer.name.as_str());
        if producer.state == ProducerState::Open {
            discount_id(&mut self.sending, producer.session, producer.id);
        }
    }

    /// The producers that go are no longer counted.
    pub(crate) fn discount_all(&mut self, producers: &[Producer], going: Going)
        ensures { AreFewer (goes going) producers.now self.old self.new }
    {
        for producer in producers {
            if is_going(going, producer) {
                self.discount(producer);
            }
        }
    }
}

/// Whether a producer goes.
pub(crate) fn is_going(going: Going, producer: &Producer) -> bool
    ensures { result ≡ goes going producer.now }
{
    match going {
        Going::OfSession(who) => producer.session == who,
        Going::HandedOn => is_handed_on(producer.state),
    }
}
