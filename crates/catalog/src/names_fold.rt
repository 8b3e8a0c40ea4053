// The bodies of a log are names of topics.
ghost use Rattle.std.specs.Prelude.{◌≡◌, ◌↔◌, ◌++◌, [], ◌∷◌, true, IfOk, IsTrue};
ghost use Rattle.catalog.specs.Catalogs.{IsCatalogLabel};
ghost use Rattle.catalog.specs.Names.{can_follow, IsPerLedger};
ghost use Rattle.catalog.specs.Folded.{AreCatalogs, HasTaken, taken_form, catalogs_before, catalogs_less};

use crate::catalog::{MAX_ENTRIES_PER_LEDGER, MAX_TOPICS};
use gated_log::{Fold, Label};
use indexmap::IndexSet;
use names::{NameFault, TopicName};
use std::alloc::{AllocError, Global};

/// The names that the bodies of one log are, in order.
#[derive(Drop)]
pub(crate) struct NamesFold {
    pub(crate) alloc: Global,
    pub(crate) begun: bool,
    pub(crate) names: IndexSet<TopicName>,
}

// Whether a ledger may have so many entries.
fn is_per_ledger(number: u64) -> bool
    ensures { IsTrue result ↔ IsPerLedger number }
{
    1 <= number && number <= u64::from(MAX_ENTRIES_PER_LEDGER)
}

// Whether the header of a list of topics may have this label.
pub(crate) fn is_label_of_names(label: Label) -> bool
    ensures { IsTrue result ↔ IsCatalogLabel label }
{
    label == Label::plain(label.number) && is_per_ledger(label.number)
}

// Takes a body as the next name, and answers whether it is one.
fn take_name(
    alloc: Global,
    body: &[u8],
    names: &mut IndexSet<TopicName>,
) -> Result<bool, AllocError>
    ensures taken { IfOk result (λ good. good ≡ can_follow names.old.keys body.now) }
    ensures names { IfOk result (λ good. good ≡ true → names.new.keys ≡ names.old.keys ++ body.now ∷ []) }
{
    if names.len() >= MAX_TOPICS {
        return Ok(false);
    }
    match TopicName::read(alloc, body) {
        Ok(name) => {
            let (_, new) = names.insert_full(name)?;
            Ok(new)
        }
        Err(NameFault::Bad) => Ok(false),
        Err(NameFault::NoMemory) => Err(AllocError),
    }
}

impl Fold for NamesFold {
    type Rule = ();

    ghost rule = { λ fold. tt };

    ghost form = { λ rule logs. AreCatalogs logs };

    ghost holds = { λ fold logs. HasTaken fold.begun fold.names.keys logs };

    fn begin(&mut self, label: Label) -> Result<bool, AllocError> {
        if self.begun {
            return Ok(false);
        }
        if !is_label_of_names(label) {
            return Ok(false);
        }
        self.begun = true;
        Ok(true)
    }

    fn body(&mut self, body: &[u8]) -> Result<bool, AllocError> {
        take_name(self.alloc, body, &mut self.names)
    }

    ghost holds_form = { λ fold logs held. taken_form fold.begun fold.names.keys logs held };

    ghost form_before = { λ rule logs log is. catalogs_before logs log is };

    ghost form_less = { λ rule logs log body is. catalogs_less logs log body is };
}
