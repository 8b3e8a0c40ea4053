ghost use Rattle.std.specs.Prelude.{◌≡◌, ℕ, Err, IfErr, IfOk, IfSome};
ghost use Rattle.session.specs.Client.{Client, Play, play, Writes};
ghost use Rattle.session.specs.declared.pumping.PumpFault.TheVariants.{Ended};
ghost use Rattle.session.specs.Listing.{IsListOf};
ghost use Rattle.session.specs.Pumping.{CollectStep, ServeStep, PumpStep, IsTold, pumped};

use crate::entry::Entry;
use crate::fault::Fault;
use crate::port::Port;
use crate::pumping::{More, PumpFault};
use crate::roll::{Roll, look_each};
use crate::session::Session;
use crate::speaker::Speaker;
use std::alloc::{AllocError, Global};
use std::marker::Model;

/// A consumer as it was listed. Contracts see its id and its topic alone.
#[derive(Drop)]
pub(crate) struct Listed {
    entry: Entry,
    /// Whether permits had been granted to it since the session was pumped or listed before.
    is_raised: bool,
}

impl Model for Listed {
    ghost use Rattle.session.specs.declared.entry.Entry.{Entry};

    ghost Value = { Entry };

    ghost view = { λ l. l.entry };
}

impl Listed {
    pub(crate) fn new(entry: Entry, is_raised: bool) -> Listed
        ensures { result ≡ entry }
    {
        Listed { entry, is_raised }
    }

    fn entry(&self) -> Entry
        ensures { result ≡ self.now }
    {
        self.entry
    }

    fn is_raised(&self) -> bool {
        self.is_raised
    }
}

/// A list of a session's consumers, by which the session is served away from it. Contracts see the session's number, why it had
/// ended, its consumers, and how many replies it had collected before.
#[derive(Drop)]
pub struct List {
    alloc: Global,
    number: u64,
    fault: Option<Fault>,
    topics: Vec<u64>,
    consumers: Vec<Listed>,
    replies: usize,
}

impl Model for List {
    ghost use Rattle.session.specs.Listing.{Listing};
    ghost use Rattle.session.specs.Noting.{AreNoted};

    ghost Value = { Listing };

    ghost view = { λ l. record { number = l.number; fault = l.fault; consumers = l.consumers.items; replies = l.replies } };

    ghost invariant = { λ l. AreNoted l.topics.items l.consumers.items };
}

impl Roll for List {
    ghost entries = { λ list. list.consumers };

    fn len(&self) -> usize {
        self.consumers.len()
    }

    fn at(&self, place: usize) -> Entry {
        self.consumers[place].entry()
    }

    fn is_raised(&self, place: usize) -> bool {
        self.consumers[place].is_raised()
    }

    fn topics(&self) -> &[u64] {
        self.topics.as_slice()
    }
}

impl List {
    /// Sends the session's consumers messages, at most 64 of them, unless more replies may be due than were collected before. Behind
    /// what was collected that is what a pump does. Whoever holds the session then has to hand it the answer by its
    /// `end_as_served`, since where this ended it for want of memory it has left each topic.
    pub fn serve<P: Port>(self, port: &mut P, out: &mut Vec<u8>) -> Result<More, PumpFault>
        ensures serves { P.sole port.old → (client : Client) → IsListOf client self →
            ServeStep (λ topic why. P.refuses port.old topic why port.new) (play client (P.broker port.old) out.old.items) self.replies result
            (play (pumped client result) (P.broker port.new) out.new.items) }
        ensures step { P.sole port.old → (begun : Play) (client : Client) → IsListOf client self →
            CollectStep begun self.replies (play client (P.broker port.old) out.old.items) →
            PumpStep (λ topic why. P.refuses port.old topic why port.new) begun result
            (play (pumped client result) (P.broker port.new) out.new.items) }

        // Whoever else uses the broker:
        ensures told { IfErr result (λ fault. IsTold (λ why. (topic : ℕ) × P.refuses port.old topic why port.new) fault) }
        ensures ended { IfSome self.fault (λ why. (result ≡ Err (Ended why)) × (out.new.items ≡ out.old.items)) }
        ensures writes { Writes out.old.items out.new.items }
        ensures passes { P.passes port.old port.new }
    {
        if let Some(why) = self.fault {
            return Err(PumpFault::Ended(why));
        }
        look_each(&self, self.number, port);
        let speaker = Speaker::new(self.alloc, self.number);
        speaker.serve_behind(self.replies, &self, port, out)
    }
}

impl Session {
    /// Collects the replies that are due to the session, writes their frames, and lists its consumers, by which it is then to be
    /// served: none of them is raised any more. A reply that finds no memory ends the session, which then leaves each topic. A
    /// refusal changes nothing.
    pub fn list<P: Port>(&mut self, port: &mut P, out: &mut Vec<u8>) -> Result<List, AllocError>
        ensures list { IfOk result (λ list. IsListOf self.new list) }
        ensures step { P.sole port.old → IfOk result (λ list. CollectStep (play self.old (P.broker port.old) out.old.items) list.replies
            (play self.new (P.broker port.new) out.new.items)) }

        // Whoever else uses the broker:
        ensures same { self.new ≡ record self.old { fault = self.new.fault } }
        ensures refused { IfErr result (λ _. (self.new ≡ self.old) × (port.new ≡ port.old) × (out.new ≡ out.old)) }
        ensures ended { IfSome self.old.fault (λ why. (self.new ≡ self.old) × (out.new.items ≡ out.old.items)) }
        ensures writes { Writes out.old.items out.new.items }
        ensures passes { P.passes port.old port.new }
    {
        let mut topics = Vec::new(self.alloc);
        topics.extend_from_slice(self.consumers.topics())?;
        let consumers = self.consumers.list(self.alloc)?;
        let replies = self.collect(port, out);
        Ok(List {
            alloc: self.alloc,
            number: self.number,
            fault: self.fault,
            topics,
            consumers,
            replies,
        })
    }
}
