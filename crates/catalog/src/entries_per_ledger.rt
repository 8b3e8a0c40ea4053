ghost use Rattle.std.specs.Prelude.{◌≡◌, true, is_some, IfSome};
ghost use Rattle.catalog.specs.Names.{IsPerLedger};

use crate::catalog::MAX_ENTRIES_PER_LEDGER;

/// How many entries a ledger of a node has: 1 to 50,000. Our own rule.
#[derive(Clone, Copy, Debug)]
pub struct EntriesPerLedger {
    pub(crate) count: u32,
    pub ghost allowed: { IsPerLedger count },
}

impl EntriesPerLedger {
    /// So many; none where a ledger may not have so many.
    pub fn new(count: u32) -> Option<EntriesPerLedger>
        ensures count { IfSome result (λ entries. entries.count ≡ count) }
        ensures there { IsPerLedger count → is_some result ≡ true }
    {
        if count < 1 || count > MAX_ENTRIES_PER_LEDGER {
            return None;
        }
        Some(EntriesPerLedger { count })
    }

    pub fn get(self) -> u32
        ensures value { result ≡ self.count }
        ensures allowed { IsPerLedger result }
    {
        self.count
    }
}
