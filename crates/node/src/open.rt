ghost use Rattle.std.specs.Prelude.{◌≡◌, ◌≢◌, ◌⊎◌, ◌<◌, ◌≤◌, ℕ, List, length, IfOk, IfErr, OnOk, IsErrOf};
ghost use Rattle.disk.specs.Disk.{Image, Same, Leaves, Kept, Failed};
ghost use Rattle.disk.specs.Areas.{Agree, OfTopic};
ghost use Rattle.gated_log.specs.declared.refusal.Refusal.TheVariants.{Device, NoMemory};
ghost use Rattle.catalog.specs.Catalogs.{OldCounts};
ghost use Rattle.node.specs.Numbers.{AreNumbered};
ghost use Rattle.node.specs.State.{State, fresh_broker};
ghost use Rattle.node.specs.Standing.{state_of, Stands, AtRest};
ghost use Rattle.node.specs.Opening.{IsJustOpened, IsFirstFault, IsTopicFault, AreJustOpened, AllStand, disk_after, url_after};
ghost use Rattle.node.specs.Runs.{StateCrash};

use crate::held::Held;
use crate::node::Node;
use crate::site::Site;
use crate::topics::Topics;
use catalog::{Catalog, EntriesPerLedger};
use disk::Shelf;
use gated_log::Refusal;
use std::alloc::Global;
use topic_core::TopicStore;

impl<T: TopicStore, S: Shelf + Drop> Node<T, S> {
    /// Makes the files of a node without topics, whatever was in the catalog's, beside a folder of version 1 that doesn't count. Takes no
    /// memory, and is refused only where the device failed. Until the `Ok` a crash may leave anything of the catalog's file.
    pub fn init(
        alloc: Global,
        entries_per_ledger: EntriesPerLedger,
        shelf: &mut S,
    ) -> Result<(), Refusal>
        ensures made { OnOk result ((S.disk shelf.old).honest → ((c : Image) → (S.disk shelf.old).may_leave c → ¬ OldCounts c) → (url : List ℕ) →
            (state : State) × (state.broker ≡ fresh_broker entries_per_ledger.count url) × AtRest T.stands state (S.disk shelf.new)) }
        ensures refused { IfErr result (λ e. (e ≡ Device) × Failed (S.disk shelf.old) (S.disk shelf.new)) }
        ensures kept { Kept (S.disk shelf.old) (S.disk shelf.new) }
    {
        let _catalog = Catalog::create(alloc, shelf, entries_per_ledger)?;
        Ok(())
    }

    /// Opens the node that the device holds, whatever its files hold: where no folder of version 1 counts the catalog, and then each topic by
    /// its number. Each file
    /// is synced once and read once, and nothing is written. No session is open. The first fault that stands in the files is
    /// told. A refusal hands the site back.
    pub fn open(alloc: Global, site: Site<S>) -> Result<Node<T, S>, (Refusal, Site<S>)>
        ensures opened { (old : State) → AtRest T.stands old (S.disk site.shelf) → site.url ≡ old.broker.service_url →
            IfOk result (λ node. Stands S.disk node × StateCrash old (state_of S.disk node)) }
        ensures refused { (old : State) → AtRest T.stands old (S.disk site.shelf) →
            IfErr result (λ e. AtRest T.stands old (S.disk e.1.shelf) × ((e.0 ≡ NoMemory) ⊎ ((e.0 ≡ Device) × Failed (S.disk site.shelf) (S.disk e.1.shelf)))) }

        // Whatever the files hold, a node has what they stand for, or the first fault that stands in them is told.
        ensures found { (S.disk site.shelf).honest → IfOk result (λ node. Stands S.disk node × IsJustOpened T.stands (S.disk site.shelf).seen (state_of S.disk node)) }
        ensures faulty { (S.disk site.shelf).honest → IfErr result (λ e. (e.0 ≡ NoMemory) ⊎ ((e.0 ≡ Device) ⊎ IsFirstFault T.stands T.faulty (S.disk site.shelf).seen e.0)) }
        ensures cause { IfErr result (λ e. e.0 ≡ Device → Failed (S.disk site.shelf) (S.disk e.1.shelf)) }
        ensures url { url_after result ≡ site.url }

        // What reads give stays, but of a file whose sync failed; so do the files of numbers that no topic has.
        ensures seen { (S.disk site.shelf).honest → IfErr result (λ e. e.0 ≢ Device) → Same (S.disk site.shelf).seen (disk_after S.disk result).seen }
        ensures others { (S.disk site.shelf).honest → (number : ℕ) → 64 ≤ number → Agree (OfTopic number) (S.disk site.shelf).seen (disk_after S.disk result).seen }

        // A crash at any moment leaves what it might have left before.
        ensures any_moment { (S.disk site.shelf).honest → Leaves (S.disk site.shelf).may_leave (S.disk site.shelf) (disk_after S.disk result) }
        ensures kept { Kept (S.disk site.shelf) (disk_after S.disk result) }
    {
        let Site { url, mut shelf } = site;
        let catalog = match Catalog::open_newest(alloc, &mut shelf) {
            Ok(catalog) => catalog,
            Err(why) => return Err((why, Site { url, shelf })),
        };
        let per_ledger = catalog.entries_per_ledger();
        let held = match open_topics(alloc, &mut shelf, catalog.len(), per_ledger) {
            Ok(held) => held,
            Err(why) => {
                drop(catalog);
                return Err((why, Site { url, shelf }));
            }
        };
        Ok(Node {
            alloc,
            topics: Topics {
                alloc,
                url,
                catalog,
                doubtful: None,
                held,
                shelf,
            },
            sessions: Vec::new(alloc),
            used: 0,
        })
    }

    /// The device, with what the node wrote, and the URL.
    pub fn into_site(self) -> Site<S>
        ensures shelf { result.shelf ≡ self.topics.shelf }
        ensures url { result.url ≡ self.topics.url }
    {
        let Node { topics, .. } = self;
        let Topics { url, shelf, .. } = topics;
        Site { url, shelf }
    }
}

// So many topics, by their numbers. The first fault that stands in their files is told.
fn open_topics<T: TopicStore, S: Shelf>(
    alloc: Global,
    shelf: &mut S,
    count: usize,
    per_ledger: u32,
) -> Result<Vec<Held<T>>, Refusal>
    requires few { count ≤ 64 }
    requires ledgers { 1 ≤ per_ledger }
    ensures count { IfOk result (λ held. length held.items ≡ count) }
    ensures numbered { IfOk result (λ held. AreNumbered per_ledger held.items) }
    ensures stand { (S.disk shelf.old).honest → IfOk result (λ held. AllStand held.items (S.disk shelf.new)) }
    ensures found { (S.disk shelf.old).honest → IfOk result (λ held. AreJustOpened T.stands per_ledger (S.disk shelf.old).seen held.items) }
    ensures refused { (S.disk shelf.old).honest → IfErr result (λ e. (e ≡ NoMemory) ⊎ ((e ≡ Device) ⊎ IsTopicFault T.stands T.faulty count (S.disk shelf.old).seen e)) }
    ensures cause { IsErrOf result Device → Failed (S.disk shelf.old) (S.disk shelf.new) }
    ensures seen { (S.disk shelf.old).honest → ¬ IsErrOf result Device → Same (S.disk shelf.old).seen (S.disk shelf.new).seen }
    ensures others { (S.disk shelf.old).honest → (number : ℕ) → 64 ≤ number → Agree (OfTopic number) (S.disk shelf.old).seen (S.disk shelf.new).seen }
    ensures any_moment { (S.disk shelf.old).honest → Leaves (S.disk shelf.old).may_leave (S.disk shelf.old) (S.disk shelf.new) }
    ensures kept { Kept (S.disk shelf.old) (S.disk shelf.new) }
{
    let mut held = Vec::new(alloc);
    for number in 0..count {
        held.reserve(1)?;
        let opened = Held::open(alloc, shelf, number as u16, per_ledger)?;
        held.push(opened).unwrap();
    }
    Ok(held)
}
