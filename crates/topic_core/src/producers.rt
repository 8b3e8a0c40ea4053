// The producers of a topic, with what is looked for among them counted.
ghost use Rattle.std.specs.Prelude.{◌≡◌, [], ◌∷◌, ◌++◌, OnOk, OnErr, filter, length, map, not, nat_eq};
ghost use Rattle.std.specs.List.{list_any, list_all};
ghost use Rattle.topic_core.specs.declared.producer.ProducerState.TheVariants.{Open};
ghost use Rattle.topic_core.specs.Steps.{is_producer, is_open_producer, is_open, is_handed_on, closed_at};
ghost use Rattle.topic_core.specs.Flush.{hand_on_producer, take_back_producer};
ghost use Rattle.topic_core.specs.Counts.{is_named, goes};

use crate::closing::{are_open, close_open, hand_on_closings, take_closings_back};
use crate::producer::{Producer, ProducerState};
use crate::producer_counts::{Going, ProducerCounts, is_going};
use commands::Text;
use std::alloc::{AllocError, Global};
use std::marker::Model;

/// The producers of a topic, in the order in which they were attached. Beside them it is counted how many have each session and
/// id, and each name, since these are looked for with each SEND and each PRODUCER.
#[derive(Drop)]
pub(crate) struct Producers {
    list: Vec<Producer>,
    counts: ProducerCounts,
}

impl Model for Producers {
    ghost use Rattle.std.specs.Prelude.{List};
    ghost use Rattle.topic_core.specs.declared.producer.Producer.{Producer as Held};
    ghost use Rattle.topic_core.specs.Counts.{AreCounted};

    ghost Value = { List Held };

    ghost view = { λ p. p.list.items };

    ghost invariant = { λ p. AreCounted p.list.items p.counts };
}

impl Producers {
    /// None.
    pub(crate) fn new(alloc: Global) -> Producers
        ensures { result ≡ [] }
    {
        Producers {
            list: Vec::new(alloc),
            counts: ProducerCounts::new(alloc),
        }
    }

    /// How many there are, open or closing.
    pub(crate) fn len(&self) -> usize
        ensures { result ≡ length self.now }
    {
        self.list.len()
    }

    /// Whether the session has this producer, open or closing.
    pub(crate) fn has(&self, who: u64, id: u64) -> bool
        ensures { result ≡ list_any (is_producer who id) self.now }
    {
        self.counts.has(who, id)
    }

    /// Whether the session has this producer, and it is open.
    pub(crate) fn has_open(&self, who: u64, id: u64) -> bool
        ensures { result ≡ list_any (is_open_producer who id) self.now }
    {
        self.counts.has_open(who, id)
    }

    /// Whether a producer of any session, open or closing, has this name.
    pub(crate) fn has_name(&self, name: &str) -> bool
        ensures { result ≡ list_any (is_named name.now) self.now }
    {
        self.counts.has_name(name)
    }

    /// The session has an open producer more. Want of memory changes nothing.
    pub(crate) fn add(&mut self, who: u64, id: u64, name: Text) -> Result<(), AllocError>
        ensures ok { OnOk result (self.new ≡ self.old ++ record { session = who; id = id; name = name; state = Open } ∷ []) }
        ensures err { OnErr result (self.new ≡ self.old) }
    {
        self.list.reserve(1)?;
        self.counts.add(who, id, name.as_str())?;
        self.list.push_reserved(Producer {
            session: who,
            id,
            name,
            state: ProducerState::Open,
        });
        Ok(())
    }

    /// The session's open producer with this id is closing.
    pub(crate) fn close_open(&mut self, who: u64, id: u64)
        ensures { self.new ≡ map (λ p. closed_at who id p) self.old }
    {
        close_open(who, id, &mut self.list);
        self.counts.close(who, id);
    }

    /// The closings are handed on to a flush.
    pub(crate) fn hand_on_closings(&mut self)
        ensures { self.new ≡ map (λ p. hand_on_producer p) self.old }
    {
        hand_on_closings(&mut self.list);
    }

    /// The closings that were handed on wait again.
    pub(crate) fn take_closings_back(&mut self)
        ensures { self.new ≡ map (λ p. take_back_producer p) self.old }
    {
        take_closings_back(&mut self.list);
    }

    /// Drops the producers whose closing was handed on.
    pub(crate) fn drop_closed(&mut self)
        ensures { self.new ≡ filter (λ p. not (is_handed_on p.state)) self.old }
    {
        self.drop_going(Going::HandedOn);
    }

    /// Drops the producers of a session.
    pub(crate) fn forget_session(&mut self, who: u64)
        ensures { self.new ≡ filter (λ p. not (nat_eq p.session who)) self.old }
    {
        self.drop_going(Going::OfSession(who));
    }

    /// Drops the producers that go.
    fn drop_going(&mut self, going: Going)
        ensures { self.new ≡ filter (λ p. not (goes going p)) self.old }
    {
        self.counts.discount_all(self.list.as_slice(), going);
        drop_going(&mut self.list, going);
    }

    /// Whether no producer is closing.
    pub(crate) fn are_open(&self) -> bool
        ensures { result ≡ list_all (λ p. is_open p.state) self.now }
    {
        are_open(self.list.as_slice())
    }
}

/// Drops the producers that go.
fn drop_going(producers: &mut Vec<Producer>, going: Going)
    ensures { producers.new.items ≡ filter (λ p. not (goes going p)) producers.old.items }
{
    producers.retain(|p| !is_going(going, p));
}
