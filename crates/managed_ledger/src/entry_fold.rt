// What takes the entries of an opening.
ghost use Rattle.std.specs.Prelude.{◌≡◌, ◌++◌, [], ◌∷◌, Ok, OnOk};
ghost use Rattle.commands.specs.Metadata.{entry_of};
ghost use Rattle.managed_ledger.specs.Entries.{Entries};

use commands::MessageMeta;
use std::alloc::AllocError;

/// What an opening hands the entries of a ledger to, one by one and in order, each with its metadata.
pub trait EntryFold {
    /// It has taken these entries.
    ghost holds: { Self → Entries → Type 0 };

    /// The next entry.
    fn entry(&mut self, entry: &[u8], metadata: &MessageMeta) -> Result<(), AllocError>
        ensures { (entries : Entries) → holds self.old entries → entry_of entry.now ≡ Ok metadata.now →
            OnOk result (holds self.new (entries ++ entry.now ∷ [])) };
}

impl EntryFold for () {
    ghost holds = { λ _ _. Unit {0} };

    fn entry(&mut self, _: &[u8], _: &MessageMeta) -> Result<(), AllocError> {
        Ok(())
    }
}
