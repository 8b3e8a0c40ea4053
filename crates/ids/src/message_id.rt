ghost use Rattle.std.specs.Prelude.{◌≡◌, ℕ, ◌+◌, ◌*◌, ◌^◌, ◌<◌, ◌≤◌, IfSome, IfNone};
ghost use Rattle.std.specs.Bool.{MatchBool};
ghost use Rattle.ids.specs.Ids.{message_id_at, IsWholeEntry, Names};

/// The number of an entry in its topic, counted from 0.
pub type Position = u64;

/// Where an entry stands: a ledger, and a place in it.
#[derive(Clone, Copy, Debug, PartialEq, Eq)]
pub struct MessageId {
    pub ledger_id: u64,
    pub entry_id: u64,
}

/// A message id as a client names it. PulsarApi.proto, MessageIdData; -1 stands where a
/// partition or a batch index is absent, and of the ack_set only whether it is there.
#[derive(Clone, Copy, Debug, PartialEq, Eq)]
pub struct MessageIdData {
    pub ledger_id: u64,
    pub entry_id: u64,
    pub partition: i32,
    pub batch_index: i32,
    pub has_ack_set: bool,
}

/// The id of a position, where each ledger has `n` entries.
pub fn to_id(position: Position, n: u32) -> MessageId
    requires { 0 < n }
    ensures { result ≡ message_id_at n position }
{
    let n = u64::from(n);
    MessageId {
        ledger_id: position / n,
        entry_id: position % n,
    }
}

/// The position that a client names, where each ledger has `n` entries.
pub fn from_id(id: &MessageIdData, n: u32) -> Option<Position>
    requires { 0 < n }
    ensures some { IfSome result (Names n id.now) }
    ensures none { IfNone result ((i : ℕ) → ¬ Names n id.now i) }
{
    let n = u64::from(n);
    if !is_whole_entry(id) || id.entry_id >= n {
        return None;
    }
    position_of(id.ledger_id, id.entry_id, n)
}

fn is_whole_entry(id: &MessageIdData) -> bool
    ensures { MatchBool result (IsWholeEntry id.now) (¬ IsWholeEntry id.now) }
{
    id.partition == -1 && id.batch_index == -1 && !id.has_ack_set
}

fn position_of(ledger_id: u64, entry_id: u64, n: u64) -> Option<Position>
    ensures some { IfSome result (λ i. (i < 2 ^ 63) × (i ≡ ledger_id * n + entry_id)) }
    ensures none { IfNone result (2 ^ 63 ≤ ledger_id * n + entry_id) }
{
    let position = ledger_id.checked_mul(n)?.checked_add(entry_id)?;
    if position < 1 << 63 {
        Some(position)
    } else {
        None
    }
}
