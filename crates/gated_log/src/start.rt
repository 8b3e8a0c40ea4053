// Where a topic's ledger begins.

/// Where a topic's ledger begins: the position of the first entry that is still there, and the number of the first segment.
#[derive(Clone, Copy, Debug, PartialEq, Eq)]
pub struct Start {
    pub base: u64,
    pub first: u64,
}

/// Nothing was ever trimmed.
pub const UNTRIMMED: Start = Start { base: 0, first: 0 };
