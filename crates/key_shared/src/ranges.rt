// Which slots lie in the ranges of a consumer, and which ranges a subscription refuses.
ghost use Rattle.std.specs.Prelude.{◌≡◌};
ghost use Rattle.std.specs.List.{list_any};
ghost use Rattle.holds.specs.Backlog.{in_ranges};
ghost use Rattle.key_shared.specs.Ranges.{is_backward, meets, meets_own, meet, are_refused};

use holds::{Consumer, SlotRange};

/// Whether a slot lies in one of the ranges.
pub(crate) fn in_ranges(ranges: &[SlotRange], slot: u16) -> bool
    ensures { result ≡ in_ranges ranges.now slot }
{
    ranges.iter().any(|r| r.start <= slot && slot <= r.end)
}

/// Whether the ranges are none, or one of them is backward, or meets another of them or one of an
/// attached consumer.
pub fn are_refused(consumers: &[Consumer], ranges: &[SlotRange]) -> bool
    ensures { result ≡ are_refused consumers.now ranges.now }
{
    ranges.is_empty()
        || is_one_backward(ranges)
        || meets_own(ranges)
        || meets_attached(consumers, ranges)
}

/// Whether one of the ranges ends before it starts.
fn is_one_backward(ranges: &[SlotRange]) -> bool
    ensures { result ≡ list_any is_backward ranges.now }
{
    ranges.iter().any(|r| r.end < r.start)
}

/// Whether one of the ranges meets a later one.
fn meets_own(ranges: &[SlotRange]) -> bool
    ensures { result ≡ meets_own ranges.now }
{
    let mut rest = ranges;
    while let [first, later @ ..] = rest {
        if meets_one(first, later) {
            return true;
        }
        rest = later;
    }
    false
}

/// Whether one of the ranges meets one of an attached consumer.
fn meets_attached(consumers: &[Consumer], ranges: &[SlotRange]) -> bool
    ensures { result ≡ list_any (λ c. meet ranges.now c.ranges) consumers.now }
{
    consumers.iter().any(|c| meet(ranges, c.ranges.as_slice()))
}

/// Whether a range of the one list meets one of the other.
fn meet(ranges: &[SlotRange], others: &[SlotRange]) -> bool
    ensures { result ≡ meet ranges.now others.now }
{
    ranges.iter().any(|range| meets_one(range, others))
}

/// Whether the range meets one of the others.
fn meets_one(range: &SlotRange, others: &[SlotRange]) -> bool
    ensures { result ≡ list_any (meets range.now) others.now }
{
    others.iter().any(|other| meets(range, other))
}

/// Whether two ranges have a slot in common.
fn meets(a: &SlotRange, b: &SlotRange) -> bool
    ensures { result ≡ meets a.now b.now }
{
    a.start <= b.end && b.start <= a.end
}
