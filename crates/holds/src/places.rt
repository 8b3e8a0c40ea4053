// Which positions each consumer holds, as a set in the order of session, id and position.
ghost use Rattle.std.specs.Prelude.{◌≡◌, ℕ, ◌+◌, true, false, length, Some, None, OnOk, OnErr, IfSome, IfNone};
ghost use Rattle.holds.specs.Backlog.{IsLeast};
ghost use Rattle.holds.specs.Listing.{is_listed, IsSetTo, IsListedAt, IsRelisted};

use crate::consumer::ConsumerKey;
use std::alloc::AllocError;
use std::collections::BTreeSet;

/// A consumer's session, its id there, and a position that it holds.
pub(crate) type Place = (u64, u64, u64);

// The least position that the consumer is listed with.
pub(crate) fn first(places: &BTreeSet<Place>, consumer: ConsumerKey) -> Option<u64>
    ensures some { IfSome result (IsLeast (λ i. is_listed places.now consumer i ≡ true)) }
    ensures none { IfNone result ((i : ℕ) → is_listed places.now consumer i ≡ false) }
{
    let Some(place) = places.range((consumer.session, consumer.id, 0)..).next() else {
        return None;
    };
    let (session, id, position) = *place;
    if session != consumer.session {
        return None;
    }
    if id != consumer.id {
        return None;
    }
    Some(position)
}

// The consumer is listed with the position. A refusal changes nothing.
fn put(places: &mut BTreeSet<Place>, consumer: ConsumerKey, position: u64) -> Result<(), AllocError>
    ensures ok { OnOk result (IsSetTo true places.old consumer position places.new) }
    ensures err { OnErr result (places.new.keys ≡ places.old.keys) }
{
    places.insert((consumer.session, consumer.id, position))?;
    Ok(())
}

// The consumer is no longer listed with the position.
pub(crate) fn take(places: &mut BTreeSet<Place>, consumer: ConsumerKey, position: u64)
    ensures taken { IsSetTo false places.old consumer position places.new }
    ensures shorter { is_listed places.old consumer position ≡ true → length places.new.keys + 1 ≡ length places.old.keys }
{
    let _ = places.remove(&(consumer.session, consumer.id, position));
}

// The position, which `holder` held, is listed with nobody.
pub(crate) fn unlist(places: &mut BTreeSet<Place>, holder: Option<ConsumerKey>, position: u64)
    ensures { IsListedAt places.old position holder → IsRelisted places.old position None places.new }
{
    match holder {
        Some(consumer) => take(places, consumer, position),
        None => {}
    }
}

// The position, which `former` held, is listed with the consumer. A refusal changes nothing.
pub(crate) fn relist(
    places: &mut BTreeSet<Place>,
    former: Option<ConsumerKey>,
    consumer: ConsumerKey,
    position: u64,
) -> Result<(), AllocError>
    ensures ok { OnOk result (IsListedAt places.old position former → IsRelisted places.old position (Some consumer) places.new) }
    ensures err { OnErr result (places.new.keys ≡ places.old.keys) }
{
    put(places, consumer, position)?;
    let Some(key) = former else {
        return Ok(());
    };
    if key == consumer {
        return Ok(());
    }
    take(places, key, position);
    Ok(())
}
