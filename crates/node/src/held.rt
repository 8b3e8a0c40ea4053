ghost use Rattle.topic_core.specs.Standing.{Match};
ghost use Rattle.node.specs.Flights.{stage_of, phase_at, IsUnderWay};
ghost use Rattle.node.specs.Matching.{Match-prop, IsUnderWay-prop};

use crate::flight::Flight;
use permits::BothEnds;
use topic_core::{TopicCore, TopicStore};

/// The core of a topic whose consumers are granted their permits where those are taken.
pub(crate) type Core = TopicCore<BothEnds>;

/// A topic of a node, its store, and a flush of it that comes in parts. Core and store remember the same.
#[derive(Drop)]
pub(crate) struct Held<T: TopicStore> {
    pub(crate) core: Core,
    pub(crate) stores: T,
    pub(crate) flight: Option<Flight>,
    pub ghost matched: { Match (phase_at core.failed (stage_of flight)) core (T.view stores) } by { Match-prop (phase_at core.failed (stage_of flight)) core (T.view stores) },
    pub ghost under_way: { IsUnderWay core flight } by { IsUnderWay-prop core flight },
}
