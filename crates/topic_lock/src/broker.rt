// What all ports of a server share.
ghost use Rattle.std.specs.Prelude.{◌≡◌, ◌⊎◌, ◌≤◌, ◌<◌, IfSome, IfOk, IfErr, length};
ghost use Rattle.gated_log.specs.declared.refusal.Refusal.TheVariants.{Device, NoMemory};
ghost use Rattle.topic_lock.specs.Opening.{AreHonest, AllOnlyRead, AnyFailed, FilesStand, IsFirstFault};

use crate::devices::Devices;
use crate::directory::{LockedCatalog, Room, SharedCatalog};
use crate::ledgers::Totals;
use crate::opening::open_parts;
use crate::parts::TopicParts;
use crate::places::Place;
use crate::tally::Tallies;
use bells::Bells;
use commands::ReplyText;
use disk::Shelf;
use gated_log::Refusal;
use session::Found;
use std::alloc::{AllocError, Global};
use std::sync::atomic::{AtomicU64, Ordering};
use std::sync::{Mutex, Wait};
use topic_core::TopicStore;

/// What all ports of a server share: where clients find the broker, its catalog and the places of its topics, the tallies, and what
/// threads sleep on.
#[derive(Drop)]
pub struct SharedBroker<'a, T: TopicStore, S: Shelf + Drop, K: Tallies> {
    pub url: ReplyText,
    pub catalog: LockedCatalog<'a, T, S, K>,
    pub places: &'a [Place<T, S, K>],
    pub totals: Totals<K>,
    pub bells: Bells,
}

impl<'a, T: TopicStore, S: Shelf + Drop, K: Tallies> SharedBroker<'a, T, S, K> {
    /// Opens the catalog on its device and each of its topics on the device of its number, whatever their files hold, before any goes
    /// behind its locks. Each file is synced once and read once, and nothing is written. The first fault that stands in them is told,
    /// and a refusal hands the devices back.
    pub fn open<R: Wait>(
        rt: &R,
        alloc: Global,
        url: ReplyText,
        devices: Devices<S>,
        shares: Vec<TopicParts<K>>,
        places: &'a [Place<T, S, K>],
        totals: Totals<K>,
    ) -> Result<SharedBroker<'a, T, S, K>, (Refusal, Devices<S>)>
        requires all { (length places.now ≡ 64) × (length devices.topics.items ≡ 64) × (length shares.items ≡ 64) }
        ensures found { (S.disk devices.catalog).honest → AreHonest S.disk devices.topics.items → IfOk result (λ _. FilesStand S.disk T.stands devices) }
        ensures faulty { (S.disk devices.catalog).honest → AreHonest S.disk devices.topics.items →
            IfErr result (λ e. (e.0 ≡ NoMemory) ⊎ ((e.0 ≡ Device) ⊎ IsFirstFault S.disk T.stands T.faulty devices e.0)) }
        ensures cause { IfErr result (λ e. e.0 ≡ Device → AnyFailed S.disk devices e.1) }
        ensures read { IfErr result (λ e. AllOnlyRead S.disk (e.0 ≡ Device) devices e.1) }
    {
        let mut devices = devices;
        let (bells, room) = match take_memory(alloc) {
            Ok(taken) => taken,
            Err(AllocError) => return Err((Refusal::NoMemory, devices)),
        };
        let opened = match open_parts(alloc, &mut devices) {
            Ok(opened) => opened,
            Err(why) => {
                drop(bells);
                drop(room);
                return Err((why, devices));
            }
        };
        let tally = &totals.durable;
        let catalog = SharedCatalog::share(rt, alloc, tally, opened, devices, shares, places, room);
        Ok(SharedBroker {
            url,
            catalog: Mutex::new(catalog),
            places,
            totals,
            bells,
        })
    }
}

/// The memory that an opened broker takes beside its topics.
fn take_memory<'a, T: TopicStore, S: Shelf + Drop, K: Tallies>(
    alloc: Global,
) -> Result<(Bells, Room<'a, T, S, K>), AllocError> {
    let bells = Bells::new(alloc)?;
    let room = Room::new(alloc)?;
    Ok((bells, room))
}

/// Where a connection sits: its place, and which topics its session found, a bit for each.
#[derive(Drop)]
pub struct Seat {
    pub(crate) place: u8,
    used: AtomicU64,
}

impl Seat {
    /// The seat of a session that found no topic yet.
    pub const fn new(place: u8) -> Seat {
        Seat {
            place,
            used: AtomicU64::new(0),
        }
    }

    /// Notes the topic that was found.
    pub(crate) fn use_topic(&self, found: Found) -> Found
        ensures { result ≡ found }
    {
        if let Found::Topic(topic) = found {
            self.used.fetch_or(bit(topic), Ordering::SeqCst);
        }
        found
    }
    /// The first topic from this number on that the session found.
    pub(crate) fn first_used(&self, from: u64) -> Option<u64>
        ensures { IfSome result (λ topic. from ≤ topic) }
    {
        if from >= 64 {
            return None;
        }
        let later = self.used.load(Ordering::SeqCst) >> from;
        if later == 0 {
            return None;
        }
        Some(from + u64::from(later.trailing_zeros()))
    }
}

/// The bit of a topic's number; none where it is no topic's.
fn bit(topic: u64) -> u64 {
    if topic < 64 { 1 << topic } else { 0 }
}
