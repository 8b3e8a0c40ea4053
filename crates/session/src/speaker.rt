ghost use Rattle.std.specs.Prelude.{◌≡◌, ◌≤◌, None, is_some, length};
ghost use Rattle.session.specs.Client.{Client, speaking, ended, left_if, plain, Says, Speaks};

use crate::fault::Fault;
use crate::port::Port;
use crate::session::leave_all;
use commands::Reply;
use frames::write_frame;
use std::alloc::Global;
use std::marker::Model;
use topic_core::Outgoing;

/// What a pump speaks by to a session's client. Contracts see a session of which no more is known than its number and why it
/// ended.
#[derive(Drop)]
pub(crate) struct Speaker {
    alloc: Global,
    number: u64,
    fault: Option<Fault>,
}

impl Model for Speaker {
    ghost use Rattle.session.specs.Client.{Client, speaking};

    ghost Value = { Client };

    ghost view = { λ s. speaking s.number s.fault };
}

impl Speaker {
    /// Of a session that hasn't ended.
    pub(crate) fn new(alloc: Global, number: u64) -> Speaker
        ensures { result ≡ speaking number None }
    {
        Speaker {
            alloc,
            number,
            fault: None,
        }
    }

    pub(crate) fn number(&self) -> u64
        ensures { result ≡ self.now.number }
    {
        self.number
    }

    pub(crate) fn has_ended(&self) -> bool
        ensures { result ≡ is_some self.now.fault }
    {
        self.fault.is_some()
    }

    pub(crate) fn end_by(&mut self, why: Fault)
        ensures { self.new ≡ ended self.old why }
    {
        self.fault = Some(why);
    }

    /// A session that has ended leaves each topic. Gives its fault.
    pub(crate) fn leave_if_ended<P: Port>(&self, port: &mut P) -> Option<Fault>
        ensures fault { result ≡ self.now.fault }
        ensures left { P.sole port.old → P.broker port.new ≡ left_if self.now.fault (P.broker port.old) self.now.number }
        ensures passes { P.passes port.old port.new }
    {
        let why = self.fault?;
        leave_all(self.number, port);
        Some(why)
    }

    /// Writes the frame of a reply ("Pulsar binary protocol, Framing"), or ends for want of memory.
    pub(crate) fn say(&mut self, reply: &Reply, out: &mut Vec<u8>)
        ensures says { Says self.old out.old.items (plain reply.now) self.new out.new.items }
        ensures speaks { Speaks self.old out.old.items self.new out.new.items }
    {
        if write_frame(self.alloc, reply, None, out).is_err() {
            self.fault = Some(Fault::NoMemory);
        }
    }

    /// Writes the frame of a message with its entry behind it ("Pulsar binary protocol, Payload commands"), or ends
    /// for want of memory.
    pub(crate) fn hand_out(&mut self, message: &Outgoing, out: &mut Vec<u8>)
        requires { length message.now.entry ≤ 1048576 }
        ensures says { Says self.old out.old.items message.now self.new out.new.items }
        ensures speaks { Speaks self.old out.old.items self.new out.new.items }
    {
        let entry = message.entry.as_slice();
        if write_frame(self.alloc, &message.reply, Some(entry), out).is_err() {
            self.fault = Some(Fault::NoMemory);
        }
    }
}
