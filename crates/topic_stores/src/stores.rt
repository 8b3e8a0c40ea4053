// A topic's entries and subscriptions, each in a store of its own.

use crate::appending::{prepare_changes, prepare_entries};
use crate::opening::{begins_there, damaged_slot, start_said};
use crate::reading::read_entry;
use crate::trim::prepare_trim;
use crate::{Batch, ReadError, TopicStore, WriteError};
use cursor_store::SubStore;
use disk::{DeviceError, Shelf, TopicId, served};
use gated_log::Refusal;
use managed_ledger::{EntryFold, EntryStore};
use records::KeptCursor;
use std::alloc::{AllocError, Global};

// The most entries of a topic.
const MOST_ENTRIES: u64 = 1 << 62;

/// A topic's entries and subscriptions, each in a store of its own.
#[derive(Drop)]
pub struct TopicStores<E, C> {
    pub(crate) entries: E,
    pub(crate) subscriptions: C,
}

impl<E: EntryStore, C: SubStore> TopicStores<E, C> {
    ghost use Rattle.std.specs.Prelude.{◌≡◌, ◌⊎◌, ◌||◌, [], false, length, IfOk, IfErr, IsErrOf};
    ghost use Rattle.disk.specs.Disk.{Same, Leaves, Kept as Counted, Failed};
    ghost use Rattle.disk.specs.Areas.{Agree, FilesOf};
    ghost use Rattle.gated_log.specs.declared.refusal.Refusal.TheVariants as refusal;
    ghost use Rattle.managed_ledger.specs.Entries.{Entries};
    ghost use Rattle.managed_ledger.specs.Shape.{total};
    ghost use Rattle.topic_stores.specs.Views.{entry_view, sub_view, fault};
    ghost use Rattle.topic_stores.specs.Old.{AreSettledIn};

    // Opens the stores of a topic of a folder of any version, as `open` does.
    pub(crate) fn open_in<S: Shelf, F: EntryFold + Drop>(
        alloc: Global,
        shelf: &mut S,
        topic: TopicId,
        entries_per_ledger: u32,
        fold: F,
    ) -> Result<(Self, F), Refusal>
        ensures opened { F.holds fold [] →
            IfOk result (λ opened. (entries : Entries) × ((S.disk shelf.old).honest → AreSettledIn topic
            (entry_view E.topic_of E.start_of E.counts E.per_ledger E.failed E.holds opened.0.entries) (sub_view C.topic_of C.start_of C.content C.failed C.holds C.written opened.0.subscriptions)
            (S.disk shelf.new) entries) × (length entries ≡ total (E.counts opened.0.entries)) × F.holds opened.1 entries) }
        ensures refused { (S.disk shelf.old).honest → F.holds fold [] →
            IfErr result (λ e. (e ≡ refusal.NoMemory) ⊎ ((e ≡ refusal.Device) ⊎ fault C.begins E.stands E.faulty C.faulty topic (S.disk shelf.old).seen e)) }
        ensures works { IfOk result (λ opened. (E.failed opened.0.entries || C.failed opened.0.subscriptions) ≡ false) }
        ensures topic { IfOk result (λ opened. E.topic_of opened.0.entries ≡ topic) }
        ensures slots_topic { IfOk result (λ opened. C.topic_of opened.0.subscriptions ≡ topic) }
        ensures start { IfOk result (λ opened. E.start_of opened.0.entries ≡ C.start_of opened.0.subscriptions) }
        ensures per_ledger { IfOk result (λ opened. E.per_ledger opened.0.entries ≡ entries_per_ledger) }
        ensures cause { IsErrOf result refusal.Device → Failed (S.disk shelf.old) (S.disk shelf.new) }
        ensures seen { (S.disk shelf.old).honest → ¬ IsErrOf result refusal.Device → Same (S.disk shelf.old).seen (S.disk shelf.new).seen }
        ensures others { (S.disk shelf.old).honest → Agree (λ f. ¬ FilesOf topic f) (S.disk shelf.old).seen (S.disk shelf.new).seen }
        ensures any_moment { (S.disk shelf.old).honest → Leaves (S.disk shelf.old).may_leave (S.disk shelf.old) (S.disk shelf.new) }
        ensures kept { Counted (S.disk shelf.old) (S.disk shelf.new) }
    {
        let heads = C::begin(alloc, shelf, topic)?;
        let start = start_said::<C>(topic, &heads)?;
        let (entries, fold) = E::open(alloc, shelf, topic, entries_per_ledger, start, fold)?;
        let subscriptions = C::open_from(alloc, shelf, &heads, entries.len())?;
        // A device that isn't honest may have shown another one.
        if !begins_there(&subscriptions, start) {
            return Err(damaged_slot(topic));
        }
        let stores = TopicStores {
            entries,
            subscriptions,
        };
        Ok((stores, fold))
    }
}

impl<E: EntryStore, C: SubStore> TopicStore for TopicStores<E, C> {
    ghost use Rattle.disk.specs.Areas.{served};
    ghost use Rattle.topic_stores.specs.Views.{both, entry_view, sub_view, stand, fault, lay};
    ghost use Rattle.topic_stores.specs.Laws.{both_laws, entry_laws, sub_laws, fault_one, stand_sound, stand_one, stand_below, stand_local, lay_one, lay_local, hold_lay};

    ghost view = { λ s. both (entry_view E.topic_of E.start_of E.counts E.per_ledger E.failed E.holds s.entries) (sub_view C.topic_of C.start_of C.content C.failed C.holds C.written s.subscriptions) };

    ghost stands = { λ t. stand E.stands C.stands (served t) };

    ghost laid = { λ t. lay E.laid C.stands (served t) };

    ghost faulty = { λ t. fault C.begins E.stands E.faulty C.faulty (served t) };

    ghost laws = { λ s. both_laws E.stands C.stands E.area C.area
        (entry_view E.topic_of E.start_of E.counts E.per_ledger E.failed E.holds s.entries) (sub_view C.topic_of C.start_of C.content C.failed C.holds C.written s.subscriptions)
        (entry_laws E.topic_of E.start_of E.counts E.per_ledger E.failed E.holds E.stands E.area E.holds_works E.holds_counts E.holds_stands E.holds_behind E.stands_base E.stands_few E.area_segments E.holds_local s.entries)
        (sub_laws C.topic_of C.start_of C.content C.failed C.holds C.written C.stands C.area C.holds_works C.holds_content C.holds_stands C.holds_longer C.stands_longer C.stands_fits C.area_slots C.holds_local C.written_local s.subscriptions) };

    ghost holds_laid = { λ s files ledger kept x. hold_lay E.stands C.stands E.area C.area
        (entry_view E.topic_of E.start_of E.counts E.per_ledger E.failed E.holds s.entries) (sub_view C.topic_of C.start_of C.content C.failed C.holds C.written s.subscriptions)
        (entry_laws E.topic_of E.start_of E.counts E.per_ledger E.failed E.holds E.stands E.area E.holds_works E.holds_counts E.holds_stands E.holds_behind E.stands_base E.stands_few E.area_segments E.holds_local s.entries)
        (sub_laws C.topic_of C.start_of C.content C.failed C.holds C.written C.stands C.area C.holds_works C.holds_content C.holds_stands C.holds_longer C.stands_longer C.stands_fits C.area_slots C.holds_local C.written_local s.subscriptions)
        E.laid (λ c l held. E.holds_laid s.entries c l held) files ledger kept x };

    ghost laid_one = { λ t. lay_one E.stands C.stands E.stands_one E.stands_base E.stands_few C.stands_one C.stands_longer C.stands_fits E.laid E.laid_one (served t) };

    ghost laid_local = { λ t. lay_local E.area C.area E.area_segments C.area_slots C.stands C.stands_local E.laid E.laid_local (served t) };

    ghost stands_one = { λ t files one other k j few a b. stand_one E.stands C.stands E.stands_one E.stands_base E.stands_few C.stands_one C.stands_longer C.stands_fits (served t) files one other k j a b };

    ghost stands_below = { λ t. stand_below E.stands C.stands E.stands_one E.stands_base E.stands_few C.stands_one C.stands_longer C.stands_fits (served t) };

    ghost faulty_one = { λ t. fault_one C.begins E.stands E.faulty C.faulty E.stands_one E.stands_sound E.faulty_one C.faulty_one C.begins_one (served t) };

    ghost stands_sound = { λ t. stand_sound C.begins E.stands E.faulty C.faulty E.stands_one E.stands_sound C.stands C.stands_sound C.stands_fits E.stands_few C.begins_stands (served t) };

    ghost stands_entries = { λ t files ledger k x. E.stands_entries (served t) x.0 files ledger x.1 };

    ghost stands_local = { λ t. stand_local E.area C.area E.area_segments C.area_slots C.stands C.stands_local E.stands E.stands_local (served t) };

    fn create<S: Shelf>(
        alloc: Global,
        shelf: &mut S,
        topic: u16,
        entries_per_ledger: u32,
    ) -> Result<Self, DeviceError> {
        let id = served(topic);
        let entries = E::create(alloc, shelf, id, entries_per_ledger)?;
        let subscriptions = C::create(alloc, shelf, id)?;
        Ok(TopicStores {
            entries,
            subscriptions,
        })
    }

    fn open<S: Shelf, F: EntryFold + Drop>(
        alloc: Global,
        shelf: &mut S,
        topic: u16,
        entries_per_ledger: u32,
        fold: F,
    ) -> Result<(Self, F), Refusal> {
        TopicStores::open_in(alloc, shelf, served(topic), entries_per_ledger, fold)
    }

    fn topic(&self) -> u16 {
        self.entries.topic().number
    }

    fn base(&self) -> u64 {
        self.subscriptions.start().base
    }

    fn len(&self) -> u64 {
        self.entries.len()
    }

    fn segments(&self) -> u64 {
        self.entries.segments()
    }

    fn kept(&self) -> Result<Vec<KeptCursor>, AllocError> {
        self.subscriptions.kept()
    }

    fn read<S: Shelf>(&self, shelf: &mut S, position: u64) -> Result<Vec<u8>, ReadError> {
        if self.subscriptions.is_failed() {
            return Err(ReadError::Device);
        }
        read_entry(&self.entries, shelf, position)
    }

    fn fits(&self, batch: &Batch) -> bool {
        let count = self.entries.len();
        let more = batch.entries.len() as u64;
        if MOST_ENTRIES - count < more {
            return false;
        }
        self.subscriptions
            .fits(batch.changes.as_slice(), count + more)
    }

    fn write<S: Shelf>(&mut self, shelf: &mut S, batch: &Batch) -> Result<u64, WriteError> {
        self.check_works()?;
        let entries = prepare_entries(&mut self.entries, batch.entries.as_slice())?;
        let changes = prepare_changes(&mut self.subscriptions, batch.changes.as_slice())?;
        let point = prepare_trim(
            &self.entries,
            &self.subscriptions,
            batch.entries.len(),
            changes.as_ref(),
            batch.trim,
        )?;
        self.append(shelf, entries, changes)?;
        let Some(point) = point else {
            return Ok(self.subscriptions.start().base);
        };
        self.trim(shelf, point)?;
        Ok(self.subscriptions.start().base)
    }
}
