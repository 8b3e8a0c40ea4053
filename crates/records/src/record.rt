// A change of a topic's durable subscriptions.
ghost use Rattle.std.specs.Prelude.{◌≡◌};

use crate::name::Name;
use std::alloc::AllocError;

/// A change of a topic's durable subscriptions.
#[derive(Drop)]
pub enum Record {
    /// A subscription was made, with all positions below `start` acknowledged.
    Made { name: Name, start: u64 },
    /// A subscription was removed.
    Removed { name: Name },
    /// One position was acknowledged.
    Acknowledged { name: Name, position: u64 },
    /// All positions up to and with this one were acknowledged.
    AcknowledgedThrough { name: Name, position: u64 },
    /// The positions from `first` to `last` were acknowledged, both included.
    AcknowledgedRange { name: Name, first: u64, last: u64 },
}

impl Clone for Record {
    ghost is_clone = { λ old new. new ≡ old };

    fn clone(&self) -> Result<Self, AllocError> {
        Ok(match self {
            Record::Made { name, start } => Record::Made {
                name: name.clone()?,
                start: *start,
            },
            Record::Removed { name } => Record::Removed {
                name: name.clone()?,
            },
            Record::Acknowledged { name, position } => Record::Acknowledged {
                name: name.clone()?,
                position: *position,
            },
            Record::AcknowledgedThrough { name, position } => Record::AcknowledgedThrough {
                name: name.clone()?,
                position: *position,
            },
            Record::AcknowledgedRange { name, first, last } => Record::AcknowledgedRange {
                name: name.clone()?,
                first: *first,
                last: *last,
            },
        })
    }
}
