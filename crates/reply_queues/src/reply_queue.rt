ghost use Rattle.std.specs.Prelude.{◌≡◌, ◌≤◌, [], ◌∷◌, length, nat_eq, IfOk, OnOk, OnErr, MatchOption};
ghost use Rattle.commands.specs.declared.reply.Reply.{Reply};
ghost use Rattle.reply_queues.specs.Replies.{SessionReplies, with_pending, without_first, hand_on, make_due, take_back, refused, refuse_pending};

use commands::{Reply, ServerError};
use std::alloc::{AllocError, Global};
use std::collections::VecDeque;
use std::marker::Model;

/// What a topic owes to one session: replies that are due, and then those that await a flush.
#[derive(Drop)]
pub struct ReplyQueue {
    session: u64,
    replies: VecDeque<Reply>,
    due: usize,
    handed_on: usize,
}

impl Model for ReplyQueue {
    ghost use Rattle.std.specs.Prelude.{◌+◌, ◌≤◌, length, take, drop};
    ghost use Rattle.reply_queues.specs.Replies.{SessionReplies};

    ghost Value = { SessionReplies };

    ghost view = { λ q. record { session = q.session; due = take q.due q.replies.items; pending = drop q.due q.replies.items; handed_on = q.handed_on } };

    ghost invariant = { λ q. q.due + q.handed_on ≤ length q.replies.items };
}

impl ReplyQueue {
    /// A queue with one reply, which awaits a flush.
    pub(crate) fn with_reply(
        alloc: Global,
        session: u64,
        reply: Reply,
    ) -> Result<ReplyQueue, AllocError>
        ensures { IfOk result (λ q. q ≡ record { session = session; due = []; pending = reply ∷ []; handed_on = 0 }) }
    {
        let mut replies = VecDeque::new(alloc);
        replies.push_back(reply)?;
        Ok(ReplyQueue {
            session,
            replies,
            due: 0,
            handed_on: 0,
        })
    }

    pub(crate) fn session(&self) -> u64
        ensures { result ≡ self.now.session }
    {
        self.session
    }

    /// Whether no reply awaits a flush.
    pub(crate) fn is_idle(&self) -> bool
        ensures { result ≡ nat_eq (length self.now.pending) 0 }
    {
        self.replies.len() == self.due
    }

    /// One more reply awaits a flush.
    pub(crate) fn push(&mut self, reply: Reply) -> Result<(), AllocError>
        ensures ok { OnOk result (self.new ≡ with_pending reply self.old) }
        ensures err { OnErr result (self.new ≡ self.old) }
    {
        self.replies.push_back(reply)?;
        Ok(())
    }

    /// The last reply goes, where no flush handed it on.
    pub(crate) fn drop_last(&mut self)
        ensures undone { (reply : Reply) (before : SessionReplies) → before.handed_on ≤ length before.pending → self.old ≡ with_pending reply before → self.new ≡ before }
        ensures session { self.new.session ≡ self.old.session }
    {
        if self.replies.len() > self.due + self.handed_on {
            let _ = self.replies.pop_back();
        }
    }

    /// Takes the first due reply.
    pub(crate) fn take_due(&mut self) -> Option<Reply>
        ensures reply { MatchOption result (self.old.due ≡ []) (λ reply. self.old.due ≡ reply ∷ self.new.due) }
        ensures rest { self.new ≡ without_first self.old }
    {
        if self.due == 0 {
            return None;
        }
        let reply = self.replies.pop_front();
        self.due -= 1;
        reply
    }

    /// A flush hands on what awaits it.
    pub(crate) fn hand_on(&mut self)
        ensures { self.new ≡ hand_on self.old }
    {
        self.handed_on = self.replies.len() - self.due;
    }

    /// The flush ended well.
    pub(crate) fn make_due(&mut self)
        ensures { self.new ≡ make_due self.old }
    {
        self.due += self.handed_on;
        self.handed_on = 0;
    }

    /// The flush failed: all that awaits one is due as refusals.
    pub(crate) fn refuse_pending(&mut self)
        ensures { self.new ≡ refuse_pending self.old }
    {
        for i in self.due..self.replies.len() {
            let reply = &mut self.replies[i];
            refuse(reply);
        }
        self.due = self.replies.len();
        self.handed_on = 0;
    }

    /// The flush ended without an effect.
    pub(crate) fn take_back(&mut self)
        ensures { self.new ≡ take_back self.old }
    {
        self.handed_on = 0;
    }
}

/// What a reply is where the flush that it awaited failed.
fn refuse(reply: &mut Reply)
    ensures { reply.new ≡ refused reply.old }
{
    let error = ServerError::PersistenceError;
    match reply {
        Reply::SendReceipt {
            producer_id,
            sequence_id,
            message_id: _,
        } => {
            let (producer_id, sequence_id) = (*producer_id, *sequence_id);
            *reply = Reply::SendError {
                producer_id,
                sequence_id,
                error,
            };
        }
        Reply::ProducerSuccess {
            request_id,
            producer_name: _,
        }
        | Reply::Success { request_id } => {
            let request_id = *request_id;
            *reply = Reply::Error { request_id, error };
        }
        Reply::AckResponse {
            consumer_id: _,
            error: refusal,
            request_id: _,
        } => *refusal = Some(error),
        Reply::Connected
        | Reply::SendError {
            producer_id: _,
            sequence_id: _,
            error: _,
        }
        | Reply::Message {
            consumer_id: _,
            message_id: _,
            redelivery_count: _,
        }
        | Reply::Error {
            request_id: _,
            error: _,
        }
        | Reply::PartitionedMetadataResponse {
            request_id: _,
            error: _,
        }
        | Reply::LookupResponse {
            request_id: _,
            service_url: _,
        }
        | Reply::Pong => {}
    }
}
