// The queues of all sessions.
ghost use Rattle.std.specs.Prelude.{◌≡◌, ◌<◌, ◌≤◌, ℕ, List, [], ◌∷◌, get_or, length, map, filter, position, not, nat_eq, true, Some, IfOk, IfNone, IfSome, OnOk, OnErr};
ghost use Rattle.std.specs.List.{AllByRecursion, IsDistinct, list_all, list_any};
ghost use Rattle.commands.specs.declared.reply.Reply.{Reply};
ghost use Rattle.reply_queues.specs.Replies.{SessionReplies, is_for, due_to, queued, collected_from, hand_on, make_due, take_back, refuse_pending};

use crate::reply_queue::ReplyQueue;
use commands::Reply;
use std::alloc::{AllocError, Global};
use std::marker::Model;

/// What a topic owes to its sessions, in the order in which each was first owed something. Beside the queues stand their sessions'
/// numbers alone, since these are looked for with each reply, and for 64 of them where they were last found.
#[derive(Drop)]
pub struct ReplyQueues {
    alloc: Global,
    sessions: Vec<u64>,
    hints: [usize; 64],
    queues: Vec<ReplyQueue>,
}

impl Model for ReplyQueues {
    ghost use Rattle.std.specs.Prelude.{◌≡◌, List, map, nat_eq};
    ghost use Rattle.std.specs.List.{IsDistinct};
    ghost use Rattle.reply_queues.specs.Replies.{SessionReplies};

    ghost Value = { List SessionReplies };

    ghost view = { λ q. q.queues.items };

    ghost invariant = { λ q. (q.sessions.items ≡ map (λ r. r.session) q.queues.items) × IsDistinct nat_eq q.sessions.items };
}

impl ReplyQueues {
    /// Nothing is owed.
    pub fn new(alloc: Global) -> ReplyQueues
        ensures { result ≡ [] }
    {
        ReplyQueues {
            alloc,
            sessions: Vec::new(alloc),
            hints: [0; 64],
            queues: Vec::new(alloc),
        }
    }

    /// One more reply awaits a flush, in the queue of its session. Answers whether that was made for it.
    pub fn push(&mut self, who: u64, reply: Reply) -> Result<bool, AllocError>
        ensures ok { OnOk result (self.new ≡ queued who reply self.old) }
        ensures made { IfOk result (λ made. made ≡ not (list_any (is_for who) self.old)) }
        ensures err { OnErr result (self.new ≡ self.old) }
    {
        let Some(place) = place_of(self.sessions.as_slice(), &mut self.hints, who) else {
            let queue = ReplyQueue::with_reply(self.alloc, who, reply)?;
            self.sessions.reserve(1)?;
            self.queues.push(queue)?;
            self.sessions.push_reserved(who);
            return Ok(true);
        };
        push_at(&mut self.queues, place, reply)?;
        Ok(false)
    }

    /// Undoes the last `push` for a session, which made its queue or didn't.
    pub fn drop_last(&mut self, who: u64, made: bool)
        ensures { (reply : Reply) (before : List SessionReplies) → AllByRecursion (λ q. q.handed_on ≤ length q.pending) before → made ≡ not (list_any (is_for who) before)
            → self.old ≡ queued who reply before → self.new ≡ before }
    {
        if made {
            let _ = self.queues.pop();
            let _ = self.sessions.pop();
            return;
        }
        let Some(place) = place_of(self.sessions.as_slice(), &mut self.hints, who) else {
            return;
        };
        drop_last_at(&mut self.queues, place);
    }

    /// Takes a session's first due reply.
    pub fn take(&mut self, who: u64) -> Option<Reply>
        ensures none { IfNone result ((due_to who self.old ≡ []) × (self.new ≡ self.old)) }
        ensures some { IfSome result (λ reply. (due_to who self.old ≡ reply ∷ due_to who self.new) × (self.new ≡ collected_from who self.old)) }
    {
        let place = place_of(self.sessions.as_slice(), &mut self.hints, who)?;
        take_at(&mut self.queues, place)
    }

    /// Drops the replies of a session.
    pub fn forget(&mut self, who: u64)
        ensures { self.new ≡ filter (λ q. not (is_for who q)) self.old }
    {
        self.sessions.retain(|session| *session != who);
        forget_queues(&mut self.queues, who);
    }

    /// Whether no reply awaits a flush.
    pub fn are_idle(&self) -> bool
        ensures { result ≡ list_all (λ q. nat_eq (length q.pending) 0) self.now }
    {
        self.queues.iter().all(|q| q.is_idle())
    }

    /// A flush hands on all that awaits it.
    pub fn hand_on(&mut self)
        ensures { self.new ≡ map (λ q. hand_on q) self.old }
    {
        hand_on_all(&mut self.queues);
    }

    /// A flush ended well: what it handed on is due.
    pub fn make_due(&mut self)
        ensures { self.new ≡ map (λ q. make_due q) self.old }
    {
        make_all_due(&mut self.queues);
    }

    /// A flush ended without an effect: what it handed on awaits another one.
    pub fn take_back(&mut self)
        ensures { self.new ≡ map (λ q. take_back q) self.old }
    {
        take_all_back(&mut self.queues);
    }

    /// A flush failed: all that awaits one is due as refusals.
    pub fn refuse(&mut self)
        ensures { self.new ≡ map (λ q. refuse_pending q) self.old }
    {
        refuse_all(&mut self.queues);
    }
}

/// Whether a session's number stands here.
fn is_at(sessions: &[u64], place: usize, who: u64) -> bool
    ensures { result ≡ true → (place < length sessions.now) × (get_or sessions.now place 0 ≡ who) }
{
    place < sessions.len() && sessions[place] == who
}

/// Where a session's number stands among all.
fn find(sessions: &[u64], who: u64) -> Option<usize>
    ensures { result ≡ position (λ session. nat_eq session who) sessions.now }
{
    sessions.iter().position(|session| *session == who)
}

/// Where the queue of a session stands. It is looked for first where one of its slot was last found.
fn place_of(sessions: &[u64], hints: &mut [usize; 64], who: u64) -> Option<usize>
    requires { IsDistinct nat_eq sessions.now }
    ensures { result ≡ position (λ session. nat_eq session who) sessions.now }
{
    let slot = (who % 64) as usize;
    let hint = hints[slot];
    if is_at(sessions, hint, who) {
        return Some(hint);
    }
    let place = find(sessions, who)?;
    hints[slot] = place;
    Some(place)
}

/// One more reply awaits a flush, in the queue that stands here.
fn push_at(queues: &mut Vec<ReplyQueue>, place: usize, reply: Reply) -> Result<(), AllocError>
    requires { place < length queues.old.items }
    ensures ok { (who : ℕ) → position (is_for who) queues.old.items ≡ Some place → OnOk result (queues.new.items ≡ queued who reply queues.old.items) }
    ensures err { OnErr result (queues.new.items ≡ queues.old.items) }
{
    let queue = &mut queues[place];
    queue.push(reply)
}

/// Undoes the last reply that came to the queue which stands here.
fn drop_last_at(queues: &mut Vec<ReplyQueue>, place: usize)
    requires { place < length queues.old.items }
    ensures undone { (who : ℕ) (reply : Reply) (before : List SessionReplies) → position (is_for who) queues.old.items ≡ Some place
        → AllByRecursion (λ q. q.handed_on ≤ length q.pending) before → list_any (is_for who) before ≡ true
        → queues.old.items ≡ queued who reply before → queues.new.items ≡ before }
    ensures sessions { map (λ q. q.session) queues.new.items ≡ map (λ q. q.session) queues.old.items }
{
    let queue = &mut queues[place];
    queue.drop_last();
}

/// Takes the first due reply of the queue that stands here.
fn take_at(queues: &mut Vec<ReplyQueue>, place: usize) -> Option<Reply>
    requires { place < length queues.old.items }
    ensures none { (who : ℕ) → position (is_for who) queues.old.items ≡ Some place → IfNone result ((due_to who queues.old.items ≡ []) × (queues.new.items ≡ queues.old.items)) }
    ensures some { (who : ℕ) → position (is_for who) queues.old.items ≡ Some place → IfSome result (λ reply. (due_to who queues.old.items ≡ reply ∷ due_to who queues.new.items)
        × (queues.new.items ≡ collected_from who queues.old.items)) }
{
    let queue = &mut queues[place];
    queue.take_due()
}

/// Drops the queues of a session.
fn forget_queues(queues: &mut Vec<ReplyQueue>, who: u64)
    ensures { queues.new.items ≡ filter (λ q. not (is_for who q)) queues.old.items }
{
    queues.retain(|q| q.session() != who);
}

fn hand_on_all(queues: &mut Vec<ReplyQueue>)
    ensures { queues.new.items ≡ map (λ q. hand_on q) queues.old.items }
{
    for i in 0..queues.len() {
        let queue = &mut queues[i];
        queue.hand_on();
    }
}

fn make_all_due(queues: &mut Vec<ReplyQueue>)
    ensures { queues.new.items ≡ map (λ q. make_due q) queues.old.items }
{
    for i in 0..queues.len() {
        let queue = &mut queues[i];
        queue.make_due();
    }
}

fn take_all_back(queues: &mut Vec<ReplyQueue>)
    ensures { queues.new.items ≡ map (λ q. take_back q) queues.old.items }
{
    for i in 0..queues.len() {
        let queue = &mut queues[i];
        queue.take_back();
    }
}

fn refuse_all(queues: &mut Vec<ReplyQueue>)
    ensures { queues.new.items ≡ map (λ q. refuse_pending q) queues.old.items }
{
    for i in 0..queues.len() {
        let queue = &mut queues[i];
        queue.refuse_pending();
    }
}
