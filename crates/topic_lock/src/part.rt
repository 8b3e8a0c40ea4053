ghost use Rattle.std.specs.Prelude.{◌≡◌};

use crate::counted::LockedCore;
use names::TopicName;
use topic_core::TopicStore;

/// A topic with its stores, by its number and its name, which nobody shares yet.
#[derive(Drop)]
pub(crate) struct OpenPart<T: TopicStore> {
    pub(crate) number: u16,
    pub(crate) name: TopicName,
    pub(crate) core: LockedCore,
    pub(crate) stores: T,
    ghost topic: { (T.view stores).topic ≡ number },
    ghost new: { (core.accepted ≡ 0) × (core.handed ≡ 0) },
    ghost counted: { core.committed ≡ (T.view stores).count },
}
