// Where an opening finds that the ledger of a topic begins.
ghost use Rattle.topic_stores.specs.Views.{InRange, missing_segment};
ghost use Rattle.std.specs.Prelude.{◌≡◌, ◌≤◌, ◌^◌, true, false, IfOk, IfErr, IsTrue, IsFalse};
ghost use Rattle.gated_log.specs.declared.refusal.Refusal.{Refusal};

use cursor_store::SubStore;
use disk::{CursorSlot, FileId, TopicId};
use gated_log::{Refusal, Start};

// No ledger has more entries, and none begins in a later segment.
const MOST: u64 = 1 << 62;

/// Where the heads of the slots of a topic say that its ledger begins. One that begins past all entries or segments has no such
/// segment.
pub(crate) fn start_said<C: SubStore>(topic: TopicId, heads: &C::Heads) -> Result<Start, Refusal>
    ensures said { IfOk result (λ start. start ≡ C.start_of_heads heads.now) }
    ensures in_range { IfOk result (λ start. (start.base ≤ 2 ^ 62) × (start.first ≤ 2 ^ 62)) }
    ensures refused { IfErr result (λ e. (¬ InRange (C.start_of_heads heads.now)) × (e ≡ missing_segment topic (C.start_of_heads heads.now).first)) }
{
    let said = C::begins_at(heads);
    if said.base > MOST || said.first > MOST {
        return Err(missing_segment(topic, said.first));
    }
    Ok(said)
}

/// What a segment is refused for that isn't there.
fn missing_segment(topic: TopicId, number: u64) -> Refusal
    ensures { result ≡ missing_segment topic number }
{
    Refusal::Damaged {
        file: FileId::Segment { topic, number },
        offset: 0,
    }
}

/// Whether the slots say that the ledger begins there.
pub(crate) fn begins_there<C: SubStore>(subscriptions: &C, start: Start) -> bool
    ensures same { IsTrue result → start ≡ C.start_of subscriptions.now }
    ensures differs { IsFalse result → ¬ (start ≡ C.start_of subscriptions.now) }
{
    start == subscriptions.start()
}

/// What a slot is refused for that says another start than before.
pub(crate) fn damaged_slot(topic: TopicId) -> Refusal
    ensures { (¬ (result ≡ Refusal.NoMemory)) × (¬ (result ≡ Refusal.Device)) }
{
    Refusal::Damaged {
        file: FileId::Slot {
            topic,
            slot: CursorSlot::Zero,
        },
        offset: 0,
    }
}
