ghost use Rattle.std.specs.Prelude.{◌≡◌, ℕ, ◌+◌, ◌<◌, ◌≤◌, ◌&&◌, not, cond, nat_lt, ◌==◌, Some, None, OnOk, OnErr, IsSome, IfSome, IfNone, length};
ghost use Rattle.std.specs.Option.{option_map};
ghost use Rattle.std.specs.Ordering.{nat_cmp};
ghost use Rattle.std.specs.BTreeMap as tree;
ghost use Rattle.std.specs.FinMap as map;
ghost use Rattle.holds.specs.Deliveries.{holder, holder_in, times, sent_to, released, given_back};
ghost use Rattle.holds.specs.Backlog.{IsLeast};
ghost use Rattle.holds.specs.Listing.{IsListing};

use crate::consumer::ConsumerKey;
use crate::delivery::Delivery;
use crate::places::{self, Place};
use std::alloc::{AllocError, Global};
use std::collections::{BTreeMap, BTreeSet};
use std::marker::Model;

/// The positions that were sent and aren't acknowledged, with the last delivery of each. An
/// acknowledged position is forgotten whole, since its count can't be asked for again.
#[derive(Drop)]
pub struct Holds {
    deliveries: BTreeMap<u64, Delivery>,
    // Which positions each consumer holds.
    places: BTreeSet<Place>,
}

impl Model for Holds {
    ghost use Rattle.std.specs.FinMap as map;
    ghost use Rattle.holds.specs.Deliveries.{Deliveries, deliveries_code};

    ghost Value = { Deliveries };

    ghost coded = { deliveries_code };

    ghost use Rattle.holds.specs.Listing.{IsListing};

    ghost view = { λ h. map.from_entries h.deliveries.entries };

    ghost invariant = { λ h. IsListing h.deliveries h.places };
}

impl Holds {
    /// Nothing was sent.
    pub fn new(alloc: Global) -> Self
        ensures { result ≡ map.empty }
    {
        Self {
            deliveries: BTreeMap::new(alloc),
            places: BTreeSet::new(alloc),
        }
    }

    /// Who holds the position.
    pub fn holder(&self, position: u64) -> Option<ConsumerKey>
        ensures { result ≡ holder self.now position }
    {
        holder(&self.deliveries, position)
    }

    /// The least position that the consumer holds.
    pub fn first_held(&self, consumer: ConsumerKey) -> Option<u64>
        ensures some { IfSome result (IsLeast (λ i. holder self.now i ≡ Some consumer)) }
        ensures none { IfNone result ((i : ℕ) → holder self.now i ≡ Some consumer → ⊥) }
    {
        places::first(&self.places, consumer)
    }

    /// How often the position was sent.
    pub fn sent_before(&self, position: u64) -> u32
        ensures { result ≡ times self.now position }
    {
        match delivery(&self.deliveries, position) {
            Some(delivery) => delivery.times,
            None => 0,
        }
    }

    /// The position's delivery.
    pub fn delivery(&self, position: u64) -> Option<Delivery>
        ensures { result ≡ map.get self.now position }
    {
        delivery(&self.deliveries, position)
    }

    /// The position is sent to the consumer, which then holds it.
    pub fn hold(&mut self, position: u64, consumer: ConsumerKey) -> Result<(), AllocError>
        ensures ok { OnOk result (self.new ≡ map.insert self.old position (sent_to consumer (map.get self.old position))) }
        ensures err { OnErr result (self.new ≡ self.old) }
    {
        let times = self.sent_before(position).saturating_add(1);
        let delivery = Delivery {
            holder: Some(consumer),
            times,
        };
        hold(
            &mut self.deliveries,
            &mut self.places,
            position,
            consumer,
            delivery,
        )?;
        Ok(())
    }

    /// Nobody holds the position any more; its count stays.
    pub fn release(&mut self, position: u64)
        ensures { (q : ℕ) → map.get self.new q ≡ cond (q == position) (option_map released (map.get self.old q)) (map.get self.old q) }
    {
        release(&mut self.deliveries, &mut self.places, position);
    }

    /// All that the consumer holds is given back; the counts stay.
    pub fn give_back(&mut self, consumer: ConsumerKey)
        ensures { (q : ℕ) → map.get self.new q ≡ option_map (given_back consumer) (map.get self.old q) }
    {
        give_back(&mut self.deliveries, &mut self.places, consumer);
    }

    /// The position is acknowledged: nobody holds it, and its count goes.
    pub fn forget(&mut self, position: u64)
        ensures { self.new ≡ map.remove self.old position }
    {
        forget(&mut self.deliveries, &mut self.places, position);
    }

    /// The positions below `end` are acknowledged.
    pub fn forget_below(&mut self, end: u64)
        ensures { self.new ≡ map.retain_keys self.old (λ p. not (nat_lt p end)) }
    {
        forget_below(&mut self.deliveries, &mut self.places, end);
    }
}

// Who holds the position.
fn holder(deliveries: &BTreeMap<u64, Delivery>, position: u64) -> Option<ConsumerKey>
    ensures { result ≡ holder_in (tree.get nat_cmp deliveries.now position) }
{
    match delivery(deliveries, position) {
        Some(delivery) => delivery.holder,
        None => None,
    }
}

// The position's delivery. Most positions that are asked for were never sent and stand behind the last that was: for these it isn't searched.
fn delivery(deliveries: &BTreeMap<u64, Delivery>, position: u64) -> Option<Delivery>
    ensures { result ≡ tree.get nat_cmp deliveries.now position }
{
    let Some((last, _)) = deliveries.last_key_value() else {
        return None;
    };
    if position > *last {
        return None;
    }
    match deliveries.get(&position) {
        Some(delivery) => Some(*delivery),
        None => None,
    }
}

// The position has this delivery, which the consumer holds. A refusal changes no delivery.
fn hold(
    deliveries: &mut BTreeMap<u64, Delivery>,
    places: &mut BTreeSet<Place>,
    position: u64,
    consumer: ConsumerKey,
    delivery: Delivery,
) -> Result<(), AllocError>
    requires { delivery.holder ≡ Some consumer }
    ensures ok { OnOk result ((q : ℕ) → tree.get nat_cmp deliveries.new q ≡ cond (q == position) (Some delivery) (tree.get nat_cmp deliveries.old q)) }
    ensures err { OnErr result (deliveries.new.entries ≡ deliveries.old.entries) }
    ensures listing { IsListing deliveries.old places.old → IsListing deliveries.new places.new }
{
    let former = holder(deliveries, position);
    places::relist(places, former, consumer, position)?;
    match deliveries.insert(position, delivery) {
        Ok(_) => Ok(()),
        Err(_) => {
            places::unlist(places, Some(consumer), position);
            Err(AllocError)
        }
    }
}

fn release(deliveries: &mut BTreeMap<u64, Delivery>, places: &mut BTreeSet<Place>, position: u64)
    ensures kept { (q : ℕ) → tree.get nat_cmp deliveries.new q ≡ cond (q == position) (option_map released (tree.get nat_cmp deliveries.old q)) (tree.get nat_cmp deliveries.old q) }
    ensures listing { IsListing deliveries.old places.old → IsListing deliveries.new places.new }
{
    let holder = holder(deliveries, position);
    places::unlist(places, holder, position);
    free_at(deliveries, position);
}

// Nobody holds the position any more.
fn free_at(deliveries: &mut BTreeMap<u64, Delivery>, position: u64)
    ensures { (q : ℕ) → tree.get nat_cmp deliveries.new q ≡ cond (q == position) (option_map released (tree.get nat_cmp deliveries.old q)) (tree.get nat_cmp deliveries.old q) }
{
    if let Some(kept) = deliveries.get_mut(&position) {
        kept.holder = None;
    }
}

// Gives back what is listed with the consumer, and looks at nothing else.
fn give_back(
    deliveries: &mut BTreeMap<u64, Delivery>,
    places: &mut BTreeSet<Place>,
    consumer: ConsumerKey,
)
    ensures freed { IsListing deliveries.old places.old → (q : ℕ) → tree.get nat_cmp deliveries.new q ≡ option_map (given_back consumer) (tree.get nat_cmp deliveries.old q) }
    ensures listing { IsListing deliveries.old places.old → IsListing deliveries.new places.new }
{
    while let Some(position) = places::first(places, consumer) {
        free_at(deliveries, position);
        places::take(places, consumer, position);
    }
}

fn forget(deliveries: &mut BTreeMap<u64, Delivery>, places: &mut BTreeSet<Place>, position: u64)
    ensures kept { (q : ℕ) → tree.get nat_cmp deliveries.new q ≡ cond (q == position) None (tree.get nat_cmp deliveries.old q) }
    ensures shorter { IsSome (tree.get nat_cmp deliveries.old position) → length deliveries.new.entries + 1 ≡ length deliveries.old.entries }
    ensures listing { IsListing deliveries.old places.old → IsListing deliveries.new places.new }
{
    let holder = holder(deliveries, position);
    places::unlist(places, holder, position);
    let _ = deliveries.remove(&position);
}

fn forget_below(deliveries: &mut BTreeMap<u64, Delivery>, places: &mut BTreeSet<Place>, end: u64)
    ensures kept { (q : ℕ) → tree.get nat_cmp deliveries.new q ≡ cond (nat_lt q end) None (tree.get nat_cmp deliveries.old q) }
    ensures listing { IsListing deliveries.old places.old → IsListing deliveries.new places.new }
{
    while let Some((first, _)) = deliveries.first_key_value() {
        let position = *first;
        if position >= end {
            break;
        }
        forget(deliveries, places, position);
    }
}
