// A topic's store in files.

use crate::{Batch, ReadError, TopicStore, TopicStores, WriteError};
use cursor_store::CursorStore;
use disk::{DeviceError, Shelf};
use gated_log::Refusal;
use managed_ledger::{EntryFold, ManagedLedger};
use records::KeptCursor;
use std::alloc::{AllocError, Global};

/// A topic's store in files: a managed ledger, and a cursor store.
#[derive(Drop)]
pub struct FileStores {
    stores: TopicStores<ManagedLedger, CursorStore>,
}

impl TopicStore for FileStores {
    ghost use Rattle.disk.specs.Areas.{served};
    ghost use Rattle.journal.specs.Chains.{SegmentsOf};
    ghost use Rattle.two_slot.specs.Slots.{SlotsOf};
    ghost use Rattle.managed_ledger.specs.Behind as beginnings;
    ghost use Rattle.managed_ledger.specs.Entries.{Stands};
    ghost use Rattle.managed_ledger.specs.Folded as ledger_faults;
    ghost use Rattle.managed_ledger.specs.Laid as layout;
    ghost use Rattle.managed_ledger.specs.Ledgers as ledgers;
    ghost use Rattle.managed_ledger.specs.Settled as ledger_laws;
    ghost use Rattle.cursor_store.specs.Cursors as cursors;
    ghost use Rattle.cursor_store.specs.Folded as cursor_faults;
    ghost use Rattle.cursor_store.specs.Fronts as fronts;
    ghost use Rattle.cursor_store.specs.FrontLaws as front_laws;
    ghost use Rattle.cursor_store.specs.Laws as cursor_laws;
    ghost use Rattle.topic_stores.specs.Views.{entry_view, sub_view};
    ghost use Rattle.topic_stores.specs.Laws.{both_laws, entry_laws, sub_laws, fault_one, stand_sound, stand_one, stand_below, stand_local, lay_one, lay_local, hold_lay};

    ghost view = { λ s. ⟦<TopicStores<ManagedLedger, CursorStore> as TopicStore>⟧.view s.stores };

    ghost stands = { ⟦<TopicStores<ManagedLedger, CursorStore> as TopicStore>⟧.stands };

    ghost faulty = { ⟦<TopicStores<ManagedLedger, CursorStore> as TopicStore>⟧.faulty };

    ghost laid = { ⟦<TopicStores<ManagedLedger, CursorStore> as TopicStore>⟧.laid };

    ghost laws = { λ s. both_laws Stands cursors.StandsFor SegmentsOf SlotsOf
        (entry_view ledgers.ledger_topic ledgers.start_of ledgers.counts_of (λ ledger. ledger.entries_per_ledger) ledgers.failed ledgers.Holds s.stores.entries) (sub_view cursors.topic_of cursors.start_of cursors.content cursors.failed cursors.Holds cursors.written s.stores.subscriptions)
        (entry_laws ledgers.ledger_topic ledgers.start_of ledgers.counts_of (λ ledger. ledger.entries_per_ledger) ledgers.failed ledgers.Holds Stands SegmentsOf (λ store image entries holds. holds.journal.works) ledger_laws.held_counts ledger_laws.held_stands beginnings.held_behind ledger_laws.stand_base (λ t start image ledger stands. stands.ledger.few) (λ t f own. own) ledger_laws.held_local s.stores.entries)
        (sub_laws cursors.topic_of cursors.start_of cursors.content cursors.failed cursors.Holds cursors.written cursors.StandsFor SlotsOf (λ store entries start image kept holds. holds.slots.works) cursor_laws.holds_content cursor_laws.holds_stand cursor_laws.holds_longer cursor_laws.stands_longer cursor_laws.stands_fits (λ t f own. own) cursor_laws.holds_local cursor_laws.written_local s.stores.subscriptions) };

    ghost holds_laid = { λ s files ledger kept x. hold_lay Stands cursors.StandsFor SegmentsOf SlotsOf
        (entry_view ledgers.ledger_topic ledgers.start_of ledgers.counts_of (λ ledger. ledger.entries_per_ledger) ledgers.failed ledgers.Holds s.stores.entries) (sub_view cursors.topic_of cursors.start_of cursors.content cursors.failed cursors.Holds cursors.written s.stores.subscriptions)
        (entry_laws ledgers.ledger_topic ledgers.start_of ledgers.counts_of (λ ledger. ledger.entries_per_ledger) ledgers.failed ledgers.Holds Stands SegmentsOf (λ store image entries holds. holds.journal.works) ledger_laws.held_counts ledger_laws.held_stands beginnings.held_behind ledger_laws.stand_base (λ t start image ledger stands. stands.ledger.few) (λ t f own. own) ledger_laws.held_local s.stores.entries)
        (sub_laws cursors.topic_of cursors.start_of cursors.content cursors.failed cursors.Holds cursors.written cursors.StandsFor SlotsOf (λ store entries start image kept holds. holds.slots.works) cursor_laws.holds_content cursor_laws.holds_stand cursor_laws.holds_longer cursor_laws.stands_longer cursor_laws.stands_fits (λ t f own. own) cursor_laws.holds_local cursor_laws.written_local s.stores.subscriptions)
        layout.IsLaidOut (λ c l held. layout.held_laid s.stores.entries c l held) files ledger kept x };

    ghost laid_one = { λ t. lay_one Stands cursors.StandsFor ledger_laws.stand_one ledger_laws.stand_base (λ t start image ledger stands. stands.ledger.few) cursor_laws.stands_one cursor_laws.stands_longer cursor_laws.stands_fits layout.IsLaidOut layout.laid_one (served t) };

    ghost laid_local = { λ t. lay_local SegmentsOf SlotsOf (λ t f own. own) (λ t f own. own) cursors.StandsFor cursor_laws.stands_local layout.IsLaidOut layout.laid_local (served t) };

    ghost stands_one = { λ t files one other k j few a b. stand_one Stands cursors.StandsFor ledger_laws.stand_one ledger_laws.stand_base (λ t start image ledger stands. stands.ledger.few) cursor_laws.stands_one cursor_laws.stands_longer cursor_laws.stands_fits (served t) files one other k j a b };

    ghost stands_below = { λ t. stand_below Stands cursors.StandsFor ledger_laws.stand_one ledger_laws.stand_base (λ t start image ledger stands. stands.ledger.few) cursor_laws.stands_one cursor_laws.stands_longer cursor_laws.stands_fits (served t) };

    ghost faulty_one = { λ t. fault_one fronts.Begins Stands ledger_faults.IsFault cursor_faults.IsFault ledger_laws.stand_one ledger_faults.ledger_no_fault ledger_faults.fault_one cursor_faults.fault_one front_laws.begins_one (served t) };

    ghost stands_sound = { λ t. stand_sound fronts.Begins Stands ledger_faults.IsFault cursor_faults.IsFault ledger_laws.stand_one ledger_faults.ledger_no_fault cursors.StandsFor cursor_faults.stands_sound cursor_laws.stands_fits (λ t start image ledger stands. stands.ledger.few) front_laws.begins_stands (served t) };

    ghost stands_entries = { λ t files ledger k x. ledger_laws.stand_entries (served t) x.0 files ledger x.1 };

    ghost stands_local = { λ t. stand_local SegmentsOf SlotsOf (λ t f own. own) (λ t f own. own) cursors.StandsFor cursor_laws.stands_local Stands ledger_laws.stand_local (served t) };

    fn create<S: Shelf>(
        alloc: Global,
        shelf: &mut S,
        topic: u16,
        entries_per_ledger: u32,
    ) -> Result<Self, DeviceError> {
        let stores = TopicStores::create(alloc, shelf, topic, entries_per_ledger)?;
        Ok(FileStores { stores })
    }

    fn open<S: Shelf, F: EntryFold + Drop>(
        alloc: Global,
        shelf: &mut S,
        topic: u16,
        entries_per_ledger: u32,
        fold: F,
    ) -> Result<(Self, F), Refusal> {
        match TopicStores::open(alloc, shelf, topic, entries_per_ledger, fold) {
            Ok((stores, fold)) => Ok((FileStores { stores }, fold)),
            Err(why) => Err(why),
        }
    }

    fn topic(&self) -> u16 {
        self.stores.topic()
    }

    fn base(&self) -> u64 {
        self.stores.base()
    }

    fn len(&self) -> u64 {
        self.stores.len()
    }

    fn segments(&self) -> u64 {
        self.stores.segments()
    }

    fn kept(&self) -> Result<Vec<KeptCursor>, AllocError> {
        self.stores.kept()
    }

    fn read<S: Shelf>(&self, shelf: &mut S, position: u64) -> Result<Vec<u8>, ReadError> {
        self.stores.read(shelf, position)
    }

    fn fits(&self, batch: &Batch) -> bool {
        self.stores.fits(batch)
    }

    fn write<S: Shelf>(&mut self, shelf: &mut S, batch: &Batch) -> Result<u64, WriteError> {
        self.stores.write(shelf, batch)
    }
}
