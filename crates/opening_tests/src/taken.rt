// The entries that an opening hands up.

use commands::MessageMeta;
use managed_ledger::EntryFold;
use std::alloc::{AllocError, Global};

/// A copy of each entry.
#[derive(Drop)]
pub(crate) struct Taken {
    alloc: Global,
    pub(crate) entries: Vec<Vec<u8>>,
}

impl Taken {
    pub(crate) fn new(alloc: Global) -> Taken {
        Taken {
            alloc,
            entries: Vec::new(alloc),
        }
    }
}

impl EntryFold for Taken {
    ghost holds = { λ _ _. Unit {0} };

    fn entry(&mut self, entry: &[u8], _: &MessageMeta) -> Result<(), AllocError> {
        self.entries.push(entry.to_vec(self.alloc)?)?;
        Ok(())
    }
}
