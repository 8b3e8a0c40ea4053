use std::marker::Model;

/// A consumer of the node: its session, and its id there.
#[derive(Clone, Copy, Debug, PartialEq, Eq)]
pub struct ConsumerKey {
    pub session: u64,
    pub id: u64,
}

/// A sticky hash range, both ends included. PulsarApi.proto, IntRange.
#[derive(Clone, Copy, Debug, PartialEq, Eq)]
pub struct SlotRange {
    pub start: u16,
    pub end: u16,
}

/// The hash ranges that a consumer asked for, none in most modes.
#[derive(Debug, Drop)]
pub struct SlotRanges {
    ranges: Vec<SlotRange>,
}

impl Model for SlotRanges {
    ghost use Rattle.std.specs.Prelude.{List};
    ghost use Rattle.holds.specs.declared.consumer.SlotRange.{SlotRange};

    ghost Value = { List SlotRange };

    ghost view = { λ r. r.ranges.items };
}

impl SlotRanges {
    ghost use Rattle.std.specs.Prelude.{◌≡◌};

    pub fn new(ranges: Vec<SlotRange>) -> SlotRanges
        ensures { result ≡ ranges.items }
    {
        SlotRanges { ranges }
    }

    /// The ranges, in the order in which they were asked for.
    pub fn as_slice(&self) -> &[SlotRange]
        ensures { result.now ≡ self.now }
    {
        self.ranges.as_slice()
    }
}

/// A consumer as a dispatcher knows it. The ranges are those that it asked for, none in most modes.
#[derive(Debug, Drop)]
pub struct Consumer {
    pub key: ConsumerKey,
    pub ranges: SlotRanges,
}

/// Why a mode of dispatch doesn't take a further consumer. PulsarApi.proto, ServerError.
#[derive(Clone, Copy, Debug, PartialEq, Eq)]
pub enum Refusal {
    /// An Exclusive subscription has its consumer.
    ConsumerBusy,
    /// The subscription has 64 consumers.
    TooManyConsumers,
    /// Its ranges are missing, or meet those of another consumer.
    ConsumerAssignError,
    /// A growth was refused.
    NoMemory,
}
