ghost use Rattle.std.specs.Prelude.{◌≡◌, ◌-◌, ◌^◌, ◌≤◌, ◌<◌, ℕ, OnOk, OnErr, Some, true, false, max};
ghost use Rattle.subscriptions.specs.Quiet.{has_permit_of};
ghost use Rattle.subscriptions.specs.Steps.{IsLearnt, IsLooked, granted_to, is_past, learnt_to, learnt_of, sent_more, has_permit};

use holds::ConsumerKey;
use permits::{Gauge, Grant, TooManyPermits};
use std::marker::Model;

/// How the consumers of a subscription share its messages. PulsarApi.proto,
/// CommandSubscribe.SubType.
#[derive(Clone, Copy, Debug, PartialEq, Eq)]
pub enum Mode {
    /// One consumer at most.
    Exclusive,
    /// The consumer that was attached first gets all messages.
    Failover,
    /// Each consumer gets some of the messages.
    Shared,
    /// Each consumer gets the messages whose hash slots lie in its ranges.
    KeyShared,
}

/// Why a SUBSCRIBE is refused. PulsarApi.proto, ServerError.
#[derive(Clone, Copy, Debug, PartialEq, Eq)]
pub enum Refusal {
    ConsumerBusy,
    TooManyRequests,
    /// The hash ranges are none or backward, or meet one another or those of an attached consumer.
    ConsumerAssignError,
}

/// An attached consumer with its permits, which are closed when it goes.
pub(crate) struct Consumer<G: Gauge> {
    key: ConsumerKey,
    gauge: G,
}

impl<G: Gauge> Model for Consumer<G> {
    ghost use Rattle.subscriptions.specs.State.{Consumer as State};

    ghost Value = { State };

    ghost view = { λ c. record { key = c.key; granted = G.known c.gauge; sent = G.sent c.gauge; word = G.word c.gauge; looks = G.looks c.gauge } };
}

impl<G: Gauge> Drop for Consumer<G> {
    fn drop(self) {
        let Consumer { key: _, mut gauge } = self;
        gauge.close();
    }
}

impl<G: Gauge> Consumer<G> {
    /// A consumer with these permits, none of which is known so far, and to which nothing was sent, and for which it wasn't looked.
    pub(crate) fn new(key: ConsumerKey, gauge: G) -> Consumer<G>
        requires none_known { G.known gauge ≡ 0 }
        requires none_sent { G.sent gauge ≡ 0 }
        requires none_looked { G.looks gauge ≡ 0 }
        ensures { result ≡ record { key = key; granted = 0; sent = 0; word = G.word gauge; looks = 0 } }
    {
        Consumer { key, gauge }
    }

    pub(crate) fn key(&self) -> ConsumerKey
        ensures { result ≡ self.now.key }
    {
        self.key
    }

    /// How many permits it has left, as far as is known.
    pub(crate) fn left(&self) -> u64
        ensures { result ≡ self.now.granted - self.now.sent }
    {
        self.gauge.left()
    }

    /// Looks whether it has a permit left.
    pub(crate) fn look(&mut self) -> bool
        ensures looked { IsLooked G.exact (λ n. learnt_to n self.old) self.new }
        ensures exact { G.exact → self.new ≡ self.old }
        ensures permit { result ≡ has_permit (Some self.new) }
    {
        self.gauge.look()
    }

    /// Looks whether it is the session's and has a permit left. Another session's isn't looked at.
    pub(crate) fn serves(&mut self, who: u64) -> bool
        ensures looked { IsLooked G.exact (λ n. learnt_of who n self.old) self.new }
        ensures exact { G.exact → self.new ≡ self.old }
        ensures permit { result ≡ has_permit_of who self.new }
    {
        if self.key.session != who {
            return false;
        }
        self.look()
    }

    /// It has a permit left, and takes those of an entry of so many messages.
    pub(crate) fn take(&mut self, messages: u32)
        requires some { 0 < messages }
        requires few { messages ≤ 1048576 }
        requires permit { has_permit (Some self.old) ≡ true }
        ensures learnt { IsLearnt (λ n. learnt_to n (sent_more messages self.old)) self.new }
        ensures exact { G.exact → self.new ≡ sent_more messages self.old }
    {
        let is_taken = self.gauge.take(messages);
        prove!(is_taken);
    }
}

impl<G: Grant> Consumer<G> {
    /// Grants it so many permits more, unless it would have more than 2^62 in all.
    pub(crate) fn grant(&mut self, permits: u64) -> Result<(), TooManyPermits>
        ensures ok { OnOk result ((is_past permits (Some self.old) ≡ false) × (self.new ≡ granted_to permits self.old)) }
        ensures err { OnErr result ((is_past permits (Some self.old) ≡ true) × (self.new ≡ self.old)) }
    {
        self.gauge.grant(permits)
    }
}
