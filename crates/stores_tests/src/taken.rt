// What an opening hands over.

use crate::reading::spelled;
use commands::MessageMeta;
use gated_log::{Fold, Label};
use managed_ledger::EntryFold;
use std::alloc::{AllocError, Global};

/// All that it is handed, as text: a bar and a number before the bodies of each log, a blank before each body or entry, and
/// before an entry the sequence id of its metadata. It takes so many bodies or entries more, and then answers as where memory
/// is refused.
#[derive(Drop)]
pub(crate) struct Taken {
    alloc: Global,
    pub(crate) text: String,
    left: u64,
}

impl Taken {
    /// Nothing yet, and room for so many.
    pub(crate) fn with_room(alloc: Global, left: u64) -> Taken {
        Taken {
            alloc,
            text: String::new(alloc),
            left,
        }
    }

    /// Nothing yet, and room for all.
    pub(crate) fn new(alloc: Global) -> Taken {
        Taken::with_room(alloc, u64::MAX)
    }

    /// One more is taken.
    fn take(&mut self) -> Result<(), AllocError> {
        if self.left == 0 {
            return Err(AllocError);
        }
        self.left -= 1;
        Ok(())
    }
}

impl Fold for Taken {
    type Rule = ();

    ghost rule = { λ taken. tt };

    ghost form = { λ rule logs. Unit {0} };

    ghost holds = { λ taken logs. Unit {0} };

    fn begin(&mut self, label: Label) -> Result<bool, AllocError> {
        let text = format!(in self.alloc; " |{}", label.number)?;
        self.text.push_str(text.as_str())?;
        Ok(true)
    }

    fn body(&mut self, body: &[u8]) -> Result<bool, AllocError> {
        self.take()?;
        let body = spelled(self.alloc, body)?;
        let text = format!(in self.alloc; " {body}")?;
        self.text.push_str(text.as_str())?;
        Ok(true)
    }

    ghost holds_form = { λ taken logs held. tt };

    ghost form_before = { λ rule logs log is. tt };

    ghost form_less = { λ rule logs log body is. tt };
}

impl EntryFold for Taken {
    ghost holds = { λ taken entries. Unit {0} };

    fn entry(&mut self, entry: &[u8], metadata: &MessageMeta) -> Result<(), AllocError> {
        self.take()?;
        let entry = spelled(self.alloc, entry)?;
        let text = format!(in self.alloc; " {}:{entry}", metadata.sequence_id)?;
        self.text.push_str(text.as_str())?;
        Ok(())
    }
}
