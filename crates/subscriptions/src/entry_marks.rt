// What is kept of each entry of a topic.
ghost use Rattle.std.specs.Prelude.{◌≡◌, ◌+◌, ◌^◌, ◌<◌, ◌≤◌, [], false, drop, length, slice_index, OnOk, OnErr};
ghost use Rattle.subscriptions.specs.Marks.{marked, forgotten, behind};
ghost use Rattle.subscriptions.specs.Halves.{messages_of};

use std::alloc::{AllocError, Global};
use std::collections::VecDeque;
use std::marker::Model;

/// The hash slot of an entry, and how many messages it has, in two halves, so that a mark takes six bytes.
#[derive(Drop)]
struct Mark {
    slot: u16,
    low: u16,
    high: u16,
}

impl Mark {
    fn new(slot: u16, messages: u32) -> Mark
        ensures slot { result.slot ≡ slot }
        ensures messages { messages_of result ≡ messages }
    {
        Mark {
            slot,
            low: (messages % 65_536) as u16,
            high: (messages / 65_536) as u16,
        }
    }

    fn messages(&self) -> u32
        ensures { result ≡ messages_of self.now }
    {
        u32::from(self.high) * 65_536 + u32::from(self.low)
    }
}

/// The hash slot of each entry of a topic, and how many messages it has, by its position. Those of positions below `from` take no
/// memory: they have slot 0, and one message.
#[derive(Drop)]
pub struct EntryMarks {
    from: u64,
    marks: VecDeque<Mark>,
}

impl Model for EntryMarks {
    ghost use Rattle.std.specs.Prelude.{All};
    ghost use Rattle.subscriptions.specs.Marks.{Marks, IsCount};
    ghost use Rattle.subscriptions.specs.Halves.{messages_of, marks_of};

    ghost Value = { Marks };

    ghost view = { λ m. marks_of m.from m.marks.items };

    ghost invariant = { λ m. All (λ k. IsCount (messages_of k)) m.marks.items };
}

impl EntryMarks {
    /// Of no entry.
    pub fn new(alloc: Global) -> EntryMarks
        ensures { (result.slots ≡ []) × (result.messages ≡ []) }
    {
        EntryMarks {
            from: 0,
            marks: VecDeque::new(alloc),
        }
    }

    /// Those of a further entry. A refusal changes nothing.
    pub fn push(&mut self, slot: u16, messages: u32) -> Result<(), AllocError>
        requires some { 0 < messages }
        requires few { messages ≤ 1048576 }
        ensures ok { OnOk result (self.new ≡ marked self.old slot messages) }
        ensures err { OnErr result (self.new ≡ self.old) }
    {
        self.marks.push_back(Mark::new(slot, messages))?;
        Ok(())
    }

    /// The hash slot of the entry at a position.
    pub(crate) fn slot(&self, position: u64) -> u16
        requires { position < length self.now.slots }
        ensures { result ≡ slice_index self.now.slots position }
    {
        if position < self.from {
            return 0;
        }
        self.marks[(position - self.from) as usize].slot
    }

    /// How many messages the entry at a position has.
    pub(crate) fn messages(&self, position: u64) -> u32
        requires { position < length self.now.messages }
        ensures count { result ≡ slice_index self.now.messages position }
        ensures some { 0 < result }
        ensures few { result ≤ 1048576 }
    {
        if position < self.from {
            return 1;
        }
        self.marks[(position - self.from) as usize].messages()
    }

    /// So many further entries come before those that it has: they have slot 0, and one message. Takes no memory.
    pub fn put_before(&mut self, count: u64)
        requires { count + length self.old.slots ≤ 2 ^ 62 }
        ensures { self.new ≡ behind count self.old }
    {
        self.from += count;
    }

    /// The entries of positions below this one take no memory from now on: they have slot 0, and one message. Takes none. The
    /// answer is whether any did.
    pub(crate) fn forget_below(&mut self, position: u64) -> bool
        requires { position ≤ length self.old.slots }
        ensures forgotten { self.new ≡ forgotten position self.old }
        ensures same { result ≡ false → self.new ≡ self.old }
    {
        if position <= self.from {
            return false;
        }
        drop_first(&mut self.marks, position - self.from);
        self.from = position;
        true
    }
}

/// Drops the first ones.
fn drop_first(marks: &mut VecDeque<Mark>, count: u64)
    ensures { marks.new.items ≡ drop count marks.old.items }
{
    let mut left = count;
    while left > 0 {
        let Some(_) = marks.pop_front() else {
            return;
        };
        left -= 1;
    }
}
