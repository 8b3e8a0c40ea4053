ghost use Rattle.std.specs.Prelude.{◌≡◌, ◌<◌};
ghost use Rattle.session.specs.Broker.{GrantAt};

use crate::entry::Entry;
use crate::listing::Listed;
use crate::port::Port;
use permits::{Granter, TooManyPermits};
use std::marker::Model;

/// A consumer of a session. Contracts see its id and its topic alone.
#[derive(Drop)]
pub(crate) struct ConsumerEntry {
    entry: Entry,
    /// The granter of its permits, where the port has the session keep it.
    granter: Option<Granter>,
    /// Whether permits were granted to it since the session was pumped or listed last.
    is_raised: bool,
}

impl Model for ConsumerEntry {
    ghost use Rattle.session.specs.declared.entry.Entry.{Entry};

    ghost Value = { Entry };

    ghost view = { λ c. c.entry };
}

impl ConsumerEntry {
    pub(crate) fn new(entry: Entry) -> ConsumerEntry
        ensures { result ≡ entry }
    {
        ConsumerEntry {
            entry,
            granter: None,
            is_raised: false,
        }
    }

    pub(crate) fn entry(&self) -> Entry
        ensures { result ≡ self.now }
    {
        self.entry
    }

    pub(crate) fn is_raised(&self) -> bool {
        self.is_raised
    }

    /// Keeps the granter of its permits.
    pub(crate) fn keep(&mut self, granter: Option<Granter>)
        ensures { self.new ≡ self.old }
    {
        self.granter = granter;
    }

    /// Grants it so many messages more.
    pub(crate) fn grant<P: Port>(
        &mut self,
        who: u64,
        permits: u32,
        port: &mut P,
    ) -> Result<(), TooManyPermits>
        requires { self.old.topic < P.count port.old }
        ensures same { self.new ≡ self.old }
        ensures step { P.sole port.old → GrantAt (P.broker port.old) self.old.topic who self.old.id permits result (P.broker port.new) }
        ensures passes { P.passes port.old port.new }
    {
        let Entry { id, topic } = self.entry;
        self.is_raised = true;
        port.grant(topic, who, id, &mut self.granter, permits)
    }

    /// Lists it. It isn't raised any more.
    pub(crate) fn list(&mut self) -> Listed
        ensures same { self.new ≡ self.old }
        ensures entry { result ≡ self.old }
    {
        let is_raised = self.is_raised;
        self.is_raised = false;
        Listed::new(self.entry, is_raised)
    }

    /// It isn't raised any more.
    pub(crate) fn lower(&mut self)
        ensures { self.new ≡ self.old }
    {
        self.is_raised = false;
    }
}
