// Ports as a connection's threads get them.
ghost use Rattle.std.specs.Prelude.{IfSome};
ghost use Rattle.rtrb.specs.Ring.{SameConsumer};
ghost use Rattle.workers.specs.Writes.{FinishesAfter};

use crate::loops::{Turnstile, read_loop, write_loop};
use crate::numbered::{Ended, Numbered};
use crate::outgoing::{Outgoing, Output};
use disk::Shelf;
use log::Log;
use rtrb::{Finished, Producer};
use std::io::{Read, Write};
use std::sync::{Mutex, Wait};
use topic_core::TopicStore;
use topic_lock::{RestingPort, Tallies};

/// A port at rest, which may pass to another thread. Of it the thread makes its own, which may keep a lock, and so passes to none.
pub trait PortAtRest {
    /// Runs `read_loop` over the port, and hands it back with what that gave.
    fn read<I: Read, G: Turnstile, R: Wait>(
        self,
        rt: &R,
        number: u64,
        gate: &G,
        session: &Mutex<Numbered>,
        input: &mut I,
        buffer: &mut [u8],
        replies: Producer<Output>,
    ) -> (Self, Option<Finished<Output>>, Ended)
        ensures { IfSome result.1 (λ f. FinishesAfter replies f) };

    /// Ends the session over the port, and hands it back.
    fn end<R: Wait>(self, rt: &R, session: &Mutex<Numbered>) -> (Self, Ended);

    /// Runs `write_loop` over the port, and hands it back.
    fn write<W: Write, G: Turnstile, R: Wait>(
        self,
        rt: &R,
        number: u64,
        gate: &G,
        session: &Mutex<Numbered>,
        outgoing: &mut Outgoing<W>,
    ) -> Self
        ensures { SameConsumer outgoing.old.replies outgoing.new.replies };
}

impl<'p, 'a, T: TopicStore, S: Shelf + Drop, K: Tallies, Q: Wait + Log> PortAtRest
    for RestingPort<'p, 'a, T, S, K, Q> {
    fn read<I: Read, G: Turnstile, R: Wait>(
        self,
        rt: &R,
        number: u64,
        gate: &G,
        session: &Mutex<Numbered>,
        input: &mut I,
        buffer: &mut [u8],
        replies: Producer<Output>,
    ) -> (
        RestingPort<'p, 'a, T, S, K, Q>,
        Option<Finished<Output>>,
        Ended,
    ) {
        let mut port = self.begin();
        let (finished, ended) = read_loop(
            rt, number, gate, session, input, buffer, &mut port, replies,
        );
        (port.rest(), finished, ended)
    }

    fn end<R: Wait>(
        self,
        rt: &R,
        session: &Mutex<Numbered>,
    ) -> (RestingPort<'p, 'a, T, S, K, Q>, Ended) {
        let mut port = self.begin();
        let ended = session.lock(rt).end(&mut port);
        (port.rest(), ended)
    }

    fn write<W: Write, G: Turnstile, R: Wait>(
        self,
        rt: &R,
        number: u64,
        gate: &G,
        session: &Mutex<Numbered>,
        outgoing: &mut Outgoing<W>,
    ) -> RestingPort<'p, 'a, T, S, K, Q> {
        let mut port = self.begin();
        // Where a write fails nothing more is written.
        let _ = write_loop(rt, number, gate, session, &mut port, outgoing);
        port.rest()
    }
}
