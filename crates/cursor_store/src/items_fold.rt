// The bodies of a slot tell where the ledger begins, and the subscriptions.
ghost use Rattle.std.specs.Prelude.{◌≡◌, ◌≤◌, ◌^◌, false};
ghost use Rattle.cursor_store.specs.Folded.{AreOfItems, HasTaken, taken_form, items_before, items_less};

use crate::Told;
use crate::read::read_items;
use crate::told::MOST_SEGMENTS;
use disk::Folder;
use gated_log::{Fold, Label};
use std::alloc::{AllocError, Global};

/// What the header and the bodies of one log tell, in a folder of this version, beside a ledger of so many entries.
#[derive(Drop)]
pub(crate) struct ItemsFold {
    pub(crate) alloc: Global,
    pub(crate) folder: Folder,
    pub(crate) entries: u64,
    pub(crate) begun: bool,
    pub(crate) told: Told,
    ghost few: { entries ≤ 2 ^ 62 },
}

impl Fold for ItemsFold {
    type Rule = (Folder, u64);

    ghost rule = { λ fold. (fold.folder, fold.entries) };

    ghost form = { λ rule logs. AreOfItems rule.0 rule.1 logs };

    ghost holds = { λ fold logs. HasTaken fold.folder fold.entries fold.begun fold.told logs };

    fn begin(&mut self, label: Label) -> Result<bool, AllocError> {
        if self.begun {
            return Ok(false);
        }
        if label.start.base > self.entries {
            return Ok(false);
        }
        if label.start.first > MOST_SEGMENTS {
            return Ok(false);
        }
        self.begun = true;
        self.told.start = label.start;
        Ok(true)
    }

    fn body(&mut self, body: &[u8]) -> Result<bool, AllocError> {
        read_items(self.alloc, self.folder, body, self.entries, &mut self.told)
    }

    ghost holds_form = { λ fold logs held. taken_form fold.folder fold.entries fold.begun fold.told logs held };

    ghost form_before = { λ rule logs log is. items_before rule.0 rule.1 logs log is };

    ghost form_less = { λ rule logs log body is. items_less rule.0 rule.1 logs log body is };
}
