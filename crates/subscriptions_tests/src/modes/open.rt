// The entries of a topic, of which the first ones are acknowledged, and nothing is held.
ghost use Rattle.std.specs.FinMap as map;
ghost use Rattle.cursor.specs.Positions.{below};

use anyhow::Error;
use holds::Pending;
use std::alloc::Global;

/// So many committed entries have these slots, or slot 0 where none is named. The positions below `first` are acknowledged.
#[derive(Drop)]
pub(crate) struct Open {
    first: u32,
    committed: u32,
    slots: Vec<u16>,
}

impl Open {
    pub(crate) fn new(alloc: Global) -> Open {
        Open {
            first: 0,
            committed: 0,
            slots: Vec::new(alloc),
        }
    }
}

/// The first position that isn't acknowledged, and the slot of each entry.
pub(crate) fn read(alloc: Global, first: &str, words: &[&str]) -> Result<Open, Error> {
    let mut open = Open::new(alloc);
    open.first = first.parse()?;
    for word in words {
        open.slots.push(word.parse()?)?;
        open.committed = open.committed.saturating_add(1);
    }
    Ok(open)
}

impl Pending for Open {
    ghost backlog = { λ o. record { committed = o.committed; acked = below o.first; deliveries = map.empty; slots = o.slots.items } };

    fn first_open(&self, from: u64) -> Option<u64> {
        let open = from.max(u64::from(self.first));
        if open < u64::from(self.committed) {
            Some(open)
        } else {
            None
        }
    }

    fn slot(&self, position: u64) -> u16 {
        self.slots.get(position as usize).copied().unwrap_or(0)
    }
}
