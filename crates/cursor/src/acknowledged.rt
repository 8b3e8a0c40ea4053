ghost use Rattle.std.specs.Prelude.{◌≡◌, ℕ, ◌+◌, ◌^◌, ◌<◌, ◌≤◌, OnOk, OnErr};
ghost use Rattle.std.specs.FinSet as set;
ghost use Rattle.cursor.specs.Positions.{below, between, IsFirstOpen, IsNextRun, run_count};

use crate::ranges::{add_one, add_range, covers, drop_below, join, range_behind};
use std::alloc::{AllocError, Global};
use std::collections::BTreeMap;
use std::marker::Model;

// Where positions end.
const END: u64 = 1 << 62;

/// The acknowledged positions of a subscription, each below 2^62. The memory that it takes goes by
/// the number of ranges after the mark-delete position, and not by that of the positions.
#[derive(Drop)]
pub struct Cursor {
    mark_delete: u64,
    // The start of each range by its end.
    after: BTreeMap<u64, u64>,
}

impl Model for Cursor {
    ghost use Rattle.cursor.specs.Positions.{Positions, positions_code};
    ghost use Rattle.cursor.specs.Ranged.{ranged, IsApart};

    ghost Value = { Positions };

    ghost coded = { positions_code };

    ghost view = { λ c. ranged c.mark_delete c.after.entries };

    ghost invariant = { λ c. IsApart c.mark_delete c.after.entries };
}

impl Clone for Cursor {
    ghost is_clone = { λ old new. new ≡ old };

    fn clone(&self) -> Result<Self, AllocError> {
        Ok(Self {
            mark_delete: self.mark_delete,
            after: self.after.clone()?,
        })
    }
}

impl Cursor {
    /// No position is acknowledged.
    pub fn new(alloc: Global) -> Self
        ensures { result ≡ set.empty }
    {
        Self {
            mark_delete: 0,
            after: BTreeMap::new(alloc),
        }
    }

    /// All positions below `start` are acknowledged.
    pub fn starting_at(alloc: Global, start: u64) -> Self
        requires { start ≤ 2 ^ 62 }
        ensures { result ≡ below start }
    {
        Self {
            mark_delete: start,
            after: BTreeMap::new(alloc),
        }
    }

    /// Whether the position is acknowledged.
    pub fn contains(&self, position: u64) -> bool
        requires { position < 2 ^ 62 }
        ensures { result ≡ set.contains self.now position }
    {
        position < self.mark_delete || covers(&self.after, position)
    }

    /// Acknowledges one position.
    pub fn ack(&mut self, position: u64) -> Result<(), AllocError>
        requires { position < 2 ^ 62 }
        ensures ok { OnOk result (self.new ≡ set.insert self.old position) }
        ensures err { OnErr result (self.new ≡ self.old) }
    {
        if position > self.mark_delete {
            if !covers(&self.after, position) {
                add_one(&mut self.after, position)?;
            }
        } else if position == self.mark_delete {
            self.mark_delete = join(&mut self.after, position + 1);
        }
        Ok(())
    }

    /// Acknowledges all positions up to and with this one. Takes no memory.
    pub fn ack_through(&mut self, position: u64)
        requires { position < 2 ^ 62 }
        ensures { self.new ≡ set.union self.old (below (position + 1)) }
    {
        if position >= self.mark_delete {
            let end = position + 1;
            drop_below(&mut self.after, end);
            self.mark_delete = join(&mut self.after, end);
        }
    }

    /// Acknowledges the positions from `first` to `last`, both included. A refusal changes nothing.
    pub fn ack_range(&mut self, first: u64, last: u64) -> Result<(), AllocError>
        requires rises { first ≤ last }
        requires fits { last < 2 ^ 62 }
        ensures ok { OnOk result (self.new ≡ set.union self.old (between first (last + 1))) }
        ensures err { OnErr result (self.new ≡ self.old) }
    {
        if first <= self.mark_delete {
            self.ack_through(last);
            return Ok(());
        }
        add_range(&mut self.after, first, last + 1)?;
        Ok(())
    }

    /// The mark-delete position: the least that isn't acknowledged.
    pub fn mark_delete(&self) -> u64
        ensures { IsFirstOpen self.now 0 result }
    {
        self.mark_delete
    }

    /// How many individually acknowledged ranges lie after the mark-delete position.
    pub fn ranges(&self) -> usize
        ensures { result ≡ run_count self.now }
    {
        self.after.len()
    }

    /// The least position from `from` on that isn't acknowledged.
    pub fn first_open(&self, from: u64) -> u64
        requires { from < 2 ^ 62 }
        ensures { IsFirstOpen self.now from result }
    {
        let open = from.max(self.mark_delete);
        match range_behind(&self.after, open) {
            Some((end, start)) if start <= open => end,
            _ => open,
        }
    }
    /// The first run of acknowledged positions from `from` on, by its first position and its last.
    pub fn next_run(&self, from: u64) -> Option<(u64, u64)>
        ensures { IsNextRun self.now from result }
    {
        if from < self.mark_delete {
            return Some((from, self.mark_delete - 1));
        }
        match range_behind(&self.after, from.min(END)) {
            Some((end, start)) => Some((start.max(from), end - 1)),
            None => None,
        }
    }
}
