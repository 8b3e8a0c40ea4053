ghost use Rattle.std.specs.Prelude.{◌≡◌, ◌<◌, ◌≤◌};
ghost use Rattle.session.specs.Broker.{left_all};
ghost use Rattle.session.specs.Client.{Client, new_client, ended, left_if, plain, Says, Answered, Speaks};

use crate::consumers::Consumers;
use crate::entry::Entry;
use crate::fault::Fault;
use crate::port::Port;
use crate::told::hear;
use commands::Reply;
use frames::{Parser, write_frame};
use std::alloc::Global;
use std::marker::Model;
use topic_core::Answer;

/// A client's session. Contracts see its number, where its stream of bytes stands, whether CONNECT came, its
/// producers and consumers, and why it ended.
#[derive(Drop)]
pub struct Session {
    pub(crate) alloc: Global,
    pub(crate) number: u64,
    pub(crate) parser: Parser,
    pub(crate) connected: bool,
    pub(crate) producers: Vec<Entry>,
    pub(crate) consumers: Consumers,
    pub(crate) fault: Option<Fault>,
}

impl Model for Session {
    ghost use Rattle.session.specs.Client.{Client};

    ghost Value = { Client };

    ghost view = { λ s. record { number = s.number; progress = s.parser; connected = s.connected; producers = s.producers.items; consumers = s.consumers; fault = s.fault } };
}

impl Session {
    /// A session to which nothing has come.
    pub fn new(alloc: Global, number: u64) -> Session
        ensures { result ≡ new_client number }
    {
        Session {
            alloc,
            number,
            parser: Parser::new(alloc),
            connected: false,
            producers: Vec::new(alloc),
            consumers: Consumers::new(alloc),
            fault: None,
        }
    }

    /// Its number, which the broker knows it by.
    pub fn number(&self) -> u64
        ensures { result ≡ self.now.number }
    {
        self.number
    }

    /// Why it ended.
    pub fn fault(&self) -> Option<Fault>
        ensures { result ≡ self.now.fault }
    {
        self.fault
    }

    /// Leaves each topic. A session that ended by a fault has left.
    pub fn end<P: Port>(&self, port: &mut P)
        ensures left { P.sole port.old → P.broker port.new ≡ left_all (P.broker port.old) self.now.number }
        ensures passes { P.passes port.old port.new }
    {
        leave_all(self.number(), port)
    }

    /// A session that has ended leaves each topic. Gives its fault.
    pub(crate) fn leave_if_ended<P: Port>(&self, port: &mut P) -> Option<Fault>
        ensures fault { result ≡ self.now.fault }
        ensures left { P.sole port.old → P.broker port.new ≡ left_if self.now.fault (P.broker port.old) self.now.number }
        ensures passes { P.passes port.old port.new }
    {
        let why = self.fault?;
        leave_all(self.number, port);
        Some(why)
    }

    pub(crate) fn end_by(&mut self, why: Fault)
        ensures { self.new ≡ ended self.old why }
    {
        self.fault = Some(why);
    }

    /// Writes the frame of a reply ("Pulsar binary protocol, Framing"), or ends for want of memory.
    pub(crate) fn say(&mut self, reply: &Reply, out: &mut Vec<u8>)
        ensures says { Says self.old out.old.items (plain reply.now) self.new out.new.items }
        ensures speaks { Speaks self.old out.old.items self.new out.new.items }
    {
        if write_frame(self.alloc, reply, None, out).is_err() {
            self.fault = Some(Fault::NoMemory);
        }
    }

    /// Writes what a topic answers at once.
    pub(crate) fn answer(&mut self, answer: &Answer, out: &mut Vec<u8>)
        ensures answered { Answered self.old out.old.items answer.now self.new out.new.items }
        ensures speaks { Speaks self.old out.old.items self.new out.new.items }
    {
        match answer {
            Answer::Now(reply) => self.say(reply, out),
            Answer::Later | Answer::Nothing => {}
            Answer::NoMemory => self.fault = Some(Fault::NoMemory),
        }
    }
}

/// A session leaves each topic.
pub(crate) fn leave_all<P: Port>(who: u64, port: &mut P)
    ensures left { P.sole port.old → P.broker port.new ≡ left_all (P.broker port.old) who }
    ensures passes { P.passes port.old port.new }
{
    for topic in 0..port.topics() {
        hear(port.leave(topic, who));
    }
}
