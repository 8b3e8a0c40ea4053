// A store of subscriptions in two slots.
ghost use Rattle.std.specs.Prelude.{◌≡◌};
ghost use Rattle.std.proofs.Common.{refl};

use crate::snapshot::snapshot_if;
use crate::{CursorStore, PreparedRecords, PreparedTrim, StoreHeads, SubStore, Told};
use disk::{DeviceError, Shelf, TopicId};
use gated_log::{BatchList, MAX_BODY, PrepareError, PreparedBatch, Refusal, Start};
use records::{KeptCursor, Record, fits, write_records};
use std::alloc::{AllocError, Global};
use two_slot::TwoSlot;

impl SubStore for CursorStore {
    ghost use Rattle.two_slot.specs.Slots.{SlotsOf};
    ghost use Rattle.cursor_store.specs.Cursors.{Holds, StandsFor, IsFor, start_of, content, written, topic_of, counted, can_replace, replaces_left, failed};
    ghost use Rattle.cursor_store.specs.Fronts as fronts;
    ghost use Rattle.cursor_store.specs.FrontLaws as front;
    ghost use Rattle.cursor_store.specs.Trimming as trimming;
    ghost use Rattle.cursor_store.specs.Folded as folded;
    ghost use Rattle.cursor_store.specs.Laws as law;

    type Heads = StoreHeads;

    type Prepared = PreparedRecords;

    type PreparedTrim = PreparedTrim;

    ghost topic_of = { topic_of };

    ghost area = { SlotsOf };

    ghost stands = { StandsFor };

    ghost faulty = { folded.IsFault };

    ghost begins = { fronts.Begins };

    ghost topic_of_heads = { fronts.topic_of_heads };

    ghost start_of_heads = { fronts.start_of_heads };

    ghost has_heads = { fronts.HasHeads };

    ghost holds = { Holds };

    ghost start_of = { start_of };

    ghost content = { content };

    ghost written = { written };

    ghost counted = { counted };

    ghost can_replace = { can_replace };

    ghost replaces_left = { replaces_left };

    ghost failed = { failed };

    ghost is_for = { IsFor };

    ghost trims = { trimming.IsTrimFor };

    fn create<S: Shelf>(alloc: Global, shelf: &mut S, topic: TopicId) -> Result<Self, DeviceError> {
        let slots = TwoSlot::create(alloc, shelf, topic)?;
        Ok(CursorStore {
            alloc,
            slots,
            told: Told::new(alloc),
            appended: 0,
        })
    }

    fn open<S: Shelf>(
        alloc: Global,
        shelf: &mut S,
        topic: TopicId,
        entries: u64,
    ) -> Result<Self, Refusal> {
        CursorStore::open(alloc, shelf, topic, entries)
    }

    fn begin<S: Shelf>(
        alloc: Global,
        shelf: &mut S,
        topic: TopicId,
    ) -> Result<StoreHeads, Refusal> {
        CursorStore::begin(alloc, shelf, topic)
    }

    fn begins_at(heads: &StoreHeads) -> Start {
        heads.start
    }

    fn open_from<S: Shelf>(
        alloc: Global,
        shelf: &mut S,
        heads: &StoreHeads,
        entries: u64,
    ) -> Result<Self, Refusal> {
        CursorStore::open_from(alloc, shelf, heads, entries)
    }

    fn topic(&self) -> TopicId {
        self.slots.id().topic
    }

    fn start(&self) -> Start {
        self.told.start
    }

    fn is_failed(&self) -> bool {
        self.slots.is_failed()
    }

    fn kept(&self) -> Result<Vec<KeptCursor>, AllocError> {
        self.told.kept.copies()
    }

    fn fits(&self, records: &[Record], entries: u64) -> bool {
        self.told.fits(records, entries)
    }

    fn prepare(&mut self, records: &[Record]) -> Result<PreparedRecords, PrepareError> {
        if !fits(records, MAX_BODY) {
            return Err(PrepareError::TooLarge);
        }
        let body = write_records(self.alloc, records)?;
        let mut kept = self.told.kept.clone()?;
        kept.apply_all(records)?;
        let mut builder = self.slots.builder(body.len())?;
        builder.extend_from_slice(&body)?;
        let batch = PreparedBatch::new(builder)?;
        let snapshot = snapshot_if(self.is_due(), self.alloc, &self.told.kept)?;
        Ok(PreparedRecords {
            batch,
            count: records.len() as u64,
            kept,
            snapshot,
        })
    }

    fn append_prepared<S: Shelf>(
        &mut self,
        shelf: &mut S,
        prepared: PreparedRecords,
    ) -> Result<(), DeviceError> {
        self.append_records(shelf, prepared)
    }

    fn prepare_trim(
        &self,
        prepared: Option<&PreparedRecords>,
        start: Start,
    ) -> Result<Option<PreparedTrim>, PrepareError> {
        match prepared {
            Some(prepared) => self.trim_beside(&prepared.kept, prepared.snapshot.is_some(), start),
            None => self.trim_beside(&self.told.kept, false, start),
        }
    }

    fn trim<S: Shelf>(&mut self, shelf: &mut S, prepared: PreparedTrim) -> Result<(), DeviceError> {
        self.replace_trimmed(shelf, prepared)
    }

    ghost replaces = { λ store. refl };

    ghost holds_works = { λ store entries start image kept holds. holds.slots.works };

    ghost holds_start = { law.holds_start };

    ghost holds_content = { law.holds_content };

    ghost holds_stands = { law.holds_stand };

    ghost stands_one = { law.stands_one };

    ghost stands_fits = { law.stands_fits };

    ghost stands_longer = { law.stands_longer };

    ghost holds_longer = { law.holds_longer };

    ghost begins_one = { front.begins_one };

    ghost begins_stands = { front.begins_stands };

    ghost begins_local = { front.begins_local };

    ghost heads_begin = { front.heads_begin };

    ghost heads_local = { front.heads_local };

    ghost faulty_one = { folded.fault_one };

    ghost stands_sound = { folded.stands_sound };

    ghost area_slots = { λ t f own. own };

    ghost stands_local = { law.stands_local };

    ghost holds_local = { law.holds_local };

    ghost written_local = { law.written_local };
}
