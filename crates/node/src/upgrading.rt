// A folder of version 2 is made of one of version 1.
ghost use Rattle.std.specs.Prelude.{◌≡◌, ◌≢◌, ◌⊎◌, ◌+◌, ◌≤◌, ℕ, ◌∷◌, drop, length, IfOk, IfErr, OnOk, IsErrOf};
ghost use Rattle.disk.specs.Disk.{Image, Leaves, Outcome, Synced, Kept, Failed};
ghost use Rattle.disk.specs.Areas.{Agree, InFolder, OfTopic, catalog_file};
ghost use Rattle.disk.specs.declared.file_id.FileId.{FileId};
ghost use Rattle.disk.specs.declared.file_id.Folder.{Folder};
ghost use Rattle.gated_log.specs.declared.label.Label.{Label};
ghost use Rattle.gated_log.specs.declared.refusal.Refusal.TheVariants.{Device, NoMemory};
ghost use Rattle.gated_log.specs.Headers.{IsOpen};
ghost use Rattle.gated_log.specs.Labels.{header_size};
ghost use Rattle.catalog.specs.Catalogs.{IsCatalogLabel, OldCounts};
ghost use Rattle.topic_stores.specs.Old.{IsOldFault};
ghost use Rattle.node.specs.Upgrading.{AreCopied, Content, IsCopied, IsOld, IsNew, IsUpgradeFault, IsOldTopicFault};

use catalog::{OldCatalog, check_header, close_old, old_counts};
use disk::Shelf;
use gated_log::Refusal;
use std::alloc::Global;
use topic_stores::OldTopic;

/// What an upgrade found.
#[derive(Clone, Copy, Debug, PartialEq, Eq)]
pub enum Upgraded {
    /// A folder of version 1, with so many topics, which is one of version 2 now.
    Done(u64),
    /// A folder of version 2.
    Already,
}

/// Makes a folder of version 2 of one of version 1, of the same content: copies all files, then their list of topics, and then closes
/// the list of version 1, by the one byte that decides which version counts. One topic at a time is in memory. The first fault that
/// stands in the files of version 1 is told. After any refusal the folder is one of version 1 still, unless its closing failed; made
/// again, all is copied anew.
pub fn upgrade<S: Shelf>(alloc: Global, shelf: &mut S) -> Result<Upgraded, Refusal>
    // A crash at any moment leaves a folder of version 1 or of version 2, of one content.
    ensures within { (x : Content) → (S.disk shelf.old).honest → ((c : Image) → (S.disk shelf.old).may_leave c → IsOld x c ⊎ IsNew x c) →
        Leaves (λ c. IsOld x c ⊎ IsNew x c) (S.disk shelf.old) (S.disk shelf.new) }
    ensures done { (x : Content) → (S.disk shelf.old).honest → ((c : Image) → (S.disk shelf.old).may_leave c → IsOld x c) →
        IfOk result (λ u. (n : ℕ) × (u ≡ Upgraded.Done n) × (n ≡ length x.names) × ((c : Image) → (S.disk shelf.new).may_leave c → IsNew x c)) }
    // Whatever the files hold: those of version 2 hold then what those of version 1 held, or the header of their list of topics is sound.
    ensures found { (S.disk shelf.old).honest → IfOk result (λ u. (n : ℕ) → u ≡ Upgraded.Done n →
        (x : Content) × IsOld x (S.disk shelf.old).seen × (n ≡ length x.names) × ((c : Image) → (S.disk shelf.new).may_leave c → IsNew x c)) }
    ensures already { (S.disk shelf.old).honest → IfOk result (λ u. u ≡ Upgraded.Already →
        (¬ OldCounts (S.disk shelf.old).seen) × ((label : Label) × IsCatalogLabel label × IsOpen Folder.Two label ((S.disk shelf.old).seen catalog_file))
        × ((c : Image) → (S.disk shelf.new).may_leave c → ¬ OldCounts c)
        × (header_size Folder.Two + 1 ≤ length ((S.disk shelf.old).seen catalog_file))) }
    // Behind `Done` only the gate of the list of version 1 has changed, and it is synced.
    ensures closed { (S.disk shelf.old).honest → IfOk result (λ u. (n : ℕ) → u ≡ Upgraded.Done n →
        ((S.disk shelf.new).seen (FileId.Catalog Folder.One) ≡ 0 ∷ drop 1 ((S.disk shelf.old).seen (FileId.Catalog Folder.One))) × Synced (FileId.Catalog Folder.One) (S.disk shelf.new)) }
    // Where no list of version 1 counts, a crash leaves what it left before.
    ensures beside { (S.disk shelf.old).honest → (¬ OldCounts (S.disk shelf.old).seen) → Leaves (S.disk shelf.old).may_leave (S.disk shelf.old) (S.disk shelf.new) }
    // Behind a refusal that is no failure, only files of version 2 may have changed.
    ensures stays { (S.disk shelf.old).honest → IfErr result (λ e. e ≢ Device →
        Leaves (Outcome (S.disk shelf.old) (InFolder Folder.Two) (λ c. Unit {0})) (S.disk shelf.old) (S.disk shelf.new)) }
    // No file of version 1 but its list changes.
    ensures rest { (S.disk shelf.old).honest →
        Leaves (Outcome (S.disk shelf.old) (λ f. InFolder Folder.Two f ⊎ (f ≡ FileId.Catalog Folder.One)) (λ c. Unit {0})) (S.disk shelf.old) (S.disk shelf.new) }
    // Or the first fault is told.
    ensures refused { (S.disk shelf.old).honest → IfErr result (λ e. (e ≡ NoMemory) ⊎ ((e ≡ Device) ⊎ IsUpgradeFault (S.disk shelf.old).seen e)) }
    ensures cause { IsErrOf result Device → Failed (S.disk shelf.old) (S.disk shelf.new) }
    ensures kept { Kept (S.disk shelf.old) (S.disk shelf.new) }
{
    if !old_counts(shelf)? {
        check_header(alloc, shelf)?;
        return Ok(Upgraded::Already);
    }
    let old = OldCatalog::open(alloc, shelf)?;
    copy_topics(alloc, shelf, old.len(), old.entries_per_ledger())?;
    old.copy(shelf)?;
    close_old(shelf)?;
    Ok(Upgraded::Done(old.len() as u64))
}

// Copies so many topics, by their numbers.
fn copy_topics<S: Shelf>(
    alloc: Global,
    shelf: &mut S,
    count: usize,
    per_ledger: u32,
) -> Result<(), Refusal>
    requires few { count ≤ 64 }
    ensures copied { (S.disk shelf.old).honest → OnOk result (AreCopied count (S.disk shelf.old).seen (S.disk shelf.new)) }
    ensures refused { (S.disk shelf.old).honest → IfErr result (λ e. (e ≡ NoMemory) ⊎ ((e ≡ Device) ⊎ IsOldTopicFault count (S.disk shelf.old).seen e)) }
    // What reads give of the files of version 1 stays, but of one whose sync failed.
    ensures seen { (S.disk shelf.old).honest → OnOk result (Agree (λ f. ¬ InFolder Folder.Two f) (S.disk shelf.old).seen (S.disk shelf.new).seen) }
    // A crash at any moment leaves of them what it might have left before.
    ensures any_moment { (S.disk shelf.old).honest → Leaves (Outcome (S.disk shelf.old) (InFolder Folder.Two) (λ c. Unit {0})) (S.disk shelf.old) (S.disk shelf.new) }
    ensures cause { IsErrOf result Device → Failed (S.disk shelf.old) (S.disk shelf.new) }
    ensures kept { Kept (S.disk shelf.old) (S.disk shelf.new) }
{
    for number in 0..count {
        copy_topic(alloc, shelf, number as u16, per_ledger)?;
    }
    Ok(())
}

// Copies the topic of a number.
fn copy_topic<S: Shelf>(
    alloc: Global,
    shelf: &mut S,
    number: u16,
    per_ledger: u32,
) -> Result<(), Refusal>
    ensures copied { (S.disk shelf.old).honest → OnOk result (IsCopied number (S.disk shelf.old).seen (S.disk shelf.new)) }
    ensures refused { (S.disk shelf.old).honest → IfErr result (λ e. (e ≡ NoMemory) ⊎ ((e ≡ Device) ⊎ IsOldFault number (S.disk shelf.old).seen e)) }
    ensures seen { (S.disk shelf.old).honest → OnOk result (Agree (λ f. ¬ OfTopic number f) (S.disk shelf.old).seen (S.disk shelf.new).seen) }
    ensures any_moment { (S.disk shelf.old).honest → Leaves (Outcome (S.disk shelf.old) (OfTopic number) (λ c. Unit {0})) (S.disk shelf.old) (S.disk shelf.new) }
    ensures cause { IsErrOf result Device → Failed (S.disk shelf.old) (S.disk shelf.new) }
    ensures kept { Kept (S.disk shelf.old) (S.disk shelf.new) }
{
    let topic = OldTopic::open(alloc, shelf, number, per_ledger)?;
    let copied = topic.copy_to(shelf, number);
    drop(topic);
    copied
}
