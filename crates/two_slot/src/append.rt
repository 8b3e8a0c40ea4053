// A body is added.
ghost use Rattle.std.specs.Prelude.{◌≡◌};

use crate::{SlotsId, TwoSlot};
use disk::{DeviceError, Shelf};
use gated_log::{BatchBuilder, BatchList, PreparedBatch};
use std::alloc::AllocError;

impl BatchList for TwoSlot {
    ghost use Rattle.gated_log.specs.Content.{held_content};
    ghost use Rattle.two_slot.specs.Slots.{SlotsOf, Stands};
    ghost use Rattle.two_slot.specs.TwoSlots.{Holds, content, slots_id, failed};
    ghost use Rattle.two_slot.specs.Local.{stands_local_lem, holds_local_lem, content_local_lem, holds_stand};
    ghost use Rattle.two_slot.specs.One.{slots_one};

    type Id = SlotsId;

    ghost id = { slots_id };

    ghost area = { λ id. SlotsOf id.topic };

    ghost stands = { λ id image bodies. Stands id.topic image id.start bodies };

    ghost holds = { Holds };

    ghost content = { content };

    ghost failed = { failed };

    fn id(&self) -> SlotsId {
        SlotsId {
            topic: self.topic,
            start: self.start(),
            generation: self.log.id().label.number,
        }
    }

    fn count(&self) -> u64 {
        self.log.count()
    }

    fn is_failed(&self) -> bool {
        self.failed
    }

    fn builder(&self, size: usize) -> Result<BatchBuilder, AllocError> {
        self.log.builder(size)
    }

    fn append_prepared<S: Shelf>(
        &mut self,
        shelf: &mut S,
        batch: PreparedBatch,
    ) -> Result<(), DeviceError> {
        if self.failed {
            return Err(DeviceError);
        }
        self.failed = true;
        self.log.append_prepared(shelf, batch)?;
        self.failed = false;
        Ok(())
    }

    ghost holds_works = { λ slots image bodies holds. holds.works };

    ghost holds_content = { λ slots image bodies holds. held_content slots.log image bodies holds.log };

    ghost holds_stands = { holds_stand };

    ghost stands_one = { λ id image one other is is'. (slots_one id.topic image id.start id.start one other is is').1 };

    ghost stands_local = { λ id a b bodies. stands_local_lem id.topic a b id.start bodies };

    ghost holds_local = { holds_local_lem };

    ghost content_local = { content_local_lem };
}
