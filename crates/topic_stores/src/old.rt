// A topic of a folder of version 1, which is read to be copied.
ghost use Rattle.std.specs.Prelude.{◌≡◌};
ghost use Rattle.disk.specs.declared.file_id.Folder.{Folder};
ghost use Rattle.managed_ledger.specs.Ledgers.{ledger_topic};
ghost use Rattle.cursor_store.specs.Cursors.{topic_of};

use crate::TopicStores;
use cursor_store::CursorStore;
use disk::{Folder, Shelf, TopicId, served};
use gated_log::Refusal;
use managed_ledger::ManagedLedger;
use std::alloc::Global;

/// A topic of a folder of version 1: its entries and subscriptions, which are only read.
#[derive(Drop)]
pub struct OldTopic {
    stores: TopicStores<ManagedLedger, CursorStore>,
    ghost old_entries: { (ledger_topic stores.entries).folder ≡ Folder.One },
    ghost old_slots: { (topic_of stores.subscriptions).folder ≡ Folder.One },
}

impl OldTopic {
    ghost use Rattle.std.specs.Prelude.{◌≡◌, ◌⊎◌, ℕ, IfOk, IfErr, OnOk, IsErrOf};
    ghost use Rattle.disk.specs.Disk.{Image, Same, Leaves, Kept as Counted, Failed};
    ghost use Rattle.disk.specs.Areas.{Agree, FilesOf, OfTopic, Within, served};
    ghost use Rattle.gated_log.specs.declared.refusal.Refusal.TheVariants as refusal;
    ghost use Rattle.managed_ledger.specs.Entries.{Ledger};
    ghost use Rattle.records.specs.Maps.{Kept};
    ghost use Rattle.topic_stores.specs.Old.{AreIn, IsOldFault, old};
    ghost use Rattle.topic_stores.specs.OldTopics.{AreHeld};

    /// Opens the files of a topic of a folder of version 1, whatever a crash left of them. Each is synced once, so what is read
    /// stays. Nothing is written. The first fault that stands in them is told.
    pub fn open<S: Shelf>(
        alloc: Global,
        shelf: &mut S,
        number: u16,
        entries_per_ledger: u32,
    ) -> Result<OldTopic, Refusal>
        ensures opened { (S.disk shelf.old).honest → IfOk result (λ topic. (ledger : Ledger) × (kept : Kept) × AreHeld topic number (S.disk shelf.new) ledger kept) }
        ensures refused { (S.disk shelf.old).honest → IfErr result (λ e. (e ≡ refusal.NoMemory) ⊎ ((e ≡ refusal.Device) ⊎ IsOldFault number (S.disk shelf.old).seen e)) }
        ensures cause { IsErrOf result refusal.Device → Failed (S.disk shelf.old) (S.disk shelf.new) }
        ensures seen { (S.disk shelf.old).honest → ¬ IsErrOf result refusal.Device → Same (S.disk shelf.old).seen (S.disk shelf.new).seen }
        ensures others { (S.disk shelf.old).honest → Agree (λ f. ¬ FilesOf (old number) f) (S.disk shelf.old).seen (S.disk shelf.new).seen }
        ensures any_moment { (S.disk shelf.old).honest → Leaves (S.disk shelf.old).may_leave (S.disk shelf.old) (S.disk shelf.new) }
        ensures kept { Counted (S.disk shelf.old) (S.disk shelf.new) }
    {
        let topic = TopicId {
            folder: Folder::One,
            number,
        };
        let (stores, ()) = TopicStores::open_in(alloc, shelf, topic, entries_per_ledger, ())?;
        Ok(OldTopic { stores })
    }

    /// Makes the files of the topic of this number in a folder that is served, whatever was in them, with the same entries and
    /// subscriptions. Until the `Ok` a crash may leave anything of them.
    pub fn copy_to<S: Shelf>(&self, shelf: &mut S, number: u16) -> Result<(), Refusal>
        // They stand for the same ledger and the same map of subscriptions then, whatever crash comes.
        ensures copied { (from : ℕ) (ledger : Ledger) (kept : Kept) → AreHeld self.now from (S.disk shelf.old) ledger kept →
            OnOk result ((c : Image) → (S.disk shelf.new).may_leave c → AreIn (served number) c ledger kept) }
        ensures others { (S.disk shelf.old).honest → Within (OfTopic number) (λ c. Unit {0}) (S.disk shelf.old) (S.disk shelf.new) }
        ensures refused { IfErr result (λ e. (e ≡ refusal.NoMemory) ⊎ (e ≡ refusal.Device)) }
        ensures cause { IsErrOf result refusal.Device → Failed (S.disk shelf.old) (S.disk shelf.new) }
        ensures kept { Counted (S.disk shelf.old) (S.disk shelf.new) }
    {
        let topic = served(number);
        self.stores.entries.copy_to(shelf, topic)?;
        self.stores.subscriptions.copy_to(shelf, topic)
    }
}
