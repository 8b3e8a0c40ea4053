// Ranges of positions that follow each other with gaps, as a map from the end of each, which isn't in it, to its start.
ghost use Rattle.std.specs.Prelude.{◌≡◌, ℕ, ◌+◌, ◌^◌, ◌<◌, ◌≤◌, nat_lt, ◌||◌, OnOk, OnErr};
ghost use Rattle.cursor.specs.Ranged.{in_ranges, behind, widened, added, spread, joined, IsApart, AreApart, IsJoinable};

use std::alloc::AllocError;
use std::collections::BTreeMap;

// The first range that ends behind the position.
pub(crate) fn range_behind(after: &BTreeMap<u64, u64>, position: u64) -> Option<(u64, u64)>
    requires { position ≤ 2 ^ 62 }
    ensures { result ≡ behind position after.now.entries }
{
    match after.range(position + 1..).next() {
        Some((end, start)) => Some((*end, *start)),
        None => None,
    }
}

// Takes out the first range where it begins at or before `mark`, and answers where the positions below `mark` and its own end.
pub(crate) fn join(after: &mut BTreeMap<u64, u64>, mark: u64) -> u64
    requires { IsJoinable mark after.old.entries }
    ensures same { (q : ℕ) → (nat_lt q result || in_ranges after.new.entries q) ≡ (nat_lt q mark || in_ranges after.old.entries q) }
    ensures apart { IsApart result after.new.entries }
{
    let end = match after.first_key_value() {
        Some((end, start)) if *start <= mark => *end,
        _ => return mark,
    };
    let _ = after.pop_first();
    end
}

// Takes out the ranges that end at or before `end`.
pub(crate) fn drop_below(after: &mut BTreeMap<u64, u64>, end: u64)
    requires fits { end ≤ 2 ^ 62 }
    requires apart { AreApart after.old.entries }
    ensures same { (q : ℕ) → (nat_lt q end || in_ranges after.new.entries q) ≡ (nat_lt q end || in_ranges after.old.entries q) }
    ensures joinable { IsJoinable end after.new.entries }
{
    while let Some((first, _)) = after.first_key_value() {
        if *first > end {
            break;
        }
        let _ = after.pop_first();
    }
}

// Whether the position lies in one of the ranges.
pub(crate) fn covers(after: &BTreeMap<u64, u64>, position: u64) -> bool
    requires fits { position < 2 ^ 62 }
    requires apart { AreApart after.now.entries }
    ensures { result ≡ in_ranges after.now.entries position }
{
    match range_behind(after, position) {
        Some((_, start)) => start <= position,
        None => false,
    }
}

// The range of the position and of the ranges that it touches.
fn widened(after: &BTreeMap<u64, u64>, position: u64) -> (u64, u64)
    requires { position < 2 ^ 62 }
    ensures { result ≡ widened position after.now.entries }
{
    let end = match range_behind(after, position) {
        Some((end, start)) if start == position + 1 => end,
        _ => position + 1,
    };
    let start = match after.get(&position) {
        Some(start) => *start,
        None => position,
    };
    (end, start)
}

// Adds a position that no range has. A refusal changes nothing.
pub(crate) fn add_one(after: &mut BTreeMap<u64, u64>, position: u64) -> Result<(), AllocError>
    requires { position < 2 ^ 62 }
    ensures ok { OnOk result (after.new.entries ≡ added position after.old.entries) }
    ensures err { OnErr result (after.new.entries ≡ after.old.entries) }
{
    let (end, start) = widened(after, position);
    after.insert(end, start)?;
    let _ = after.remove(&position);
    Ok(())
}

// The range from `first` on and before `end`, with those that it touches.
fn spread(after: &BTreeMap<u64, u64>, first: u64, end: u64) -> (u64, u64)
    requires rises { first < end }
    requires low { 0 < first }
    requires fits { end ≤ 2 ^ 62 }
    ensures { result ≡ spread first end after.now.entries }
{
    let start = match range_behind(after, first - 1) {
        Some((_, start)) if start < first => start,
        _ => first,
    };
    let end = match range_behind(after, end - 1) {
        Some((last, start)) if start <= end => last,
        _ => end,
    };
    (end, start)
}

// Adds the positions from `first` on and before `end`. A refusal changes nothing. Only where a range ends at `first` or behind
// it are all looked at, so ranges in order are added in proportion to their number.
pub(crate) fn add_range(
    after: &mut BTreeMap<u64, u64>,
    first: u64,
    end: u64,
) -> Result<(), AllocError>
    requires rises { first < end }
    requires low { 0 < first }
    requires fits { end ≤ 2 ^ 62 }
    ensures ok { OnOk result (after.new.entries ≡ joined first end after.old.entries) }
    ensures err { OnErr result (after.new.entries ≡ after.old.entries) }
{
    if range_behind(after, first - 1).is_none() {
        after.insert(end, first)?;
        return Ok(());
    }
    let (end, start) = spread(after, first, end);
    after.insert(end, start)?;
    after.retain(|last, _| *last < first || *last >= end);
    Ok(())
}
