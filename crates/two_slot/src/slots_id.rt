// Which slots they are.

use disk::TopicId;
use gated_log::Start;

/// The topic whose slots they are, where these say that its ledger begins, and the generation of the one that counts: no append
/// changes any of it.
#[derive(Clone, Copy, Debug, PartialEq, Eq)]
pub struct SlotsId {
    pub topic: TopicId,
    pub start: Start,
    pub generation: u64,
}
