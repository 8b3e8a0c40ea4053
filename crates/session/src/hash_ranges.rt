// The hash ranges that a consumer asks for ("PulsarApi.proto, KeySharedMeta").
ghost use Rattle.std.specs.Prelude.{◌≡◌, [], IfOk, unwrap_or};
ghost use Rattle.std.specs.Option.{option_copied};
ghost use Rattle.session.specs.HashRanges.{slot_at, range_at, all_ranges, asked_ranges, ranges_of};

use commands::{IntRange, KeySharedMeta, KeySharedMode, SubscriptionType};
use holds::{SlotRange, SlotRanges};
use std::alloc::{AllocError, Global};

/// The hash ranges of a consumer: those that it names on Key_Shared, where all of them are ranges of slots, and else none.
pub(crate) fn ranges_of(
    alloc: Global,
    kind: SubscriptionType,
    meta: Option<&KeySharedMeta>,
) -> Result<SlotRanges, AllocError>
    ensures { IfOk result (λ ranges. ranges ≡ ranges_of kind (option_copied meta.entry)) }
{
    match kind {
        SubscriptionType::KeyShared => asked_ranges(alloc, meta),
        SubscriptionType::Exclusive | SubscriptionType::Shared | SubscriptionType::Failover => {
            Ok(SlotRanges::new(Vec::new(alloc)))
        }
    }
}

fn asked_ranges(alloc: Global, meta: Option<&KeySharedMeta>) -> Result<SlotRanges, AllocError>
    ensures { IfOk result (λ ranges. ranges ≡ asked_ranges (option_copied meta.entry)) }
{
    let Some(meta) = meta else {
        return Ok(SlotRanges::new(Vec::new(alloc)));
    };
    match meta.mode {
        KeySharedMode::AutoSplit => Ok(SlotRanges::new(Vec::new(alloc))),
        KeySharedMode::Sticky => all_ranges(alloc, meta.hash_ranges.as_slice()),
    }
}

/// All of them as ranges of slots, or none where one isn't.
fn all_ranges(alloc: Global, asked: &[IntRange]) -> Result<SlotRanges, AllocError>
    ensures { IfOk result (λ ranges. ranges ≡ unwrap_or (all_ranges asked.now) []) }
{
    let mut ranges = Vec::new(alloc);
    for range in asked {
        let Some(range) = range_at(range) else {
            return Ok(SlotRanges::new(Vec::new(alloc)));
        };
        ranges.push(range)?;
    }
    Ok(SlotRanges::new(ranges))
}

fn range_at(range: &IntRange) -> Option<SlotRange>
    ensures { result ≡ range_at range.now }
{
    Some(SlotRange {
        start: slot_at(range.start)?,
        end: slot_at(range.end)?,
    })
}

/// The slot that a number is.
fn slot_at(bound: i32) -> Option<u16>
    ensures { result ≡ slot_at bound }
{
    u16::try_from(bound).ok()
}
