// A catalog is opened, whatever a crash left of its file.
ghost use Rattle.std.specs.Prelude.{◌≡◌, ◌⊎◌, false, IfOk, IfErr, OnOk, IsErrOf};
ghost use Rattle.disk.specs.Disk.{Image, Same, Leaves, Kept, Failed};
ghost use Rattle.disk.specs.Areas.{Agree};
ghost use Rattle.disk.specs.Contents.{Settled};
ghost use Rattle.catalog.specs.Catalogs.{Own, Holds, IsList, OldCounts, remembered, failed};
ghost use Rattle.catalog.specs.Folded.{IsFault, IsNewestFault};

use crate::catalog::Catalog;
use crate::headers::old_counts;
use crate::names_fold::NamesFold;
use disk::{CATALOG, Shelf};
use gated_log::{GatedLog, Refusal};
use indexmap::IndexSet;
use std::alloc::Global;

impl Catalog {
    /// Opens the catalog of a folder that is served, where no list of topics of version 1 counts, which is a refusal of its own. That
    /// one is synced first, so this stays; then as `open`.
    pub fn open_newest<S: Shelf>(alloc: Global, shelf: &mut S) -> Result<Catalog, Refusal>
        ensures opened { (S.disk shelf.old).honest → IfOk result (λ catalog. Settled (Holds catalog) (S.disk shelf.new) (remembered catalog)) }
        ensures newest { (S.disk shelf.old).honest → OnOk result (((c : Image) → (S.disk shelf.new).may_leave c → ¬ OldCounts c) × (¬ OldCounts (S.disk shelf.new).seen)) }
        ensures missing { (S.disk shelf.old).honest → IsErrOf result Refusal.NotInitialised → (c : Image) → (S.disk shelf.new).may_leave c → ¬ OldCounts c }
        ensures refused { (S.disk shelf.old).honest → IfErr result (λ e. (e ≡ Refusal.NoMemory) ⊎ ((e ≡ Refusal.Device) ⊎ IsNewestFault (S.disk shelf.old).seen e)) }
        ensures works { IfOk result (λ catalog. failed catalog ≡ false) }
        ensures cause { IsErrOf result Refusal.Device → Failed (S.disk shelf.old) (S.disk shelf.new) }
        ensures seen { (S.disk shelf.old).honest → ¬ IsErrOf result Refusal.Device → Same (S.disk shelf.old).seen (S.disk shelf.new).seen }
        ensures others { (S.disk shelf.old).honest → Agree (λ f. ¬ IsList f) (S.disk shelf.old).seen (S.disk shelf.new).seen }
        ensures any_moment { (S.disk shelf.old).honest → Leaves (S.disk shelf.old).may_leave (S.disk shelf.old) (S.disk shelf.new) }
        ensures kept { Kept (S.disk shelf.old) (S.disk shelf.new) }
    {
        if old_counts(shelf)? {
            return Err(Refusal::Version);
        }
        Catalog::open(alloc, shelf)
    }

    /// Opens the catalog, whatever a crash left of its file. The file is synced first, so what is read stays, and read once.
    /// The first fault is told, with the offset of the gate behind which it stands.
    pub fn open<S: Shelf>(alloc: Global, shelf: &mut S) -> Result<Catalog, Refusal>
        ensures opened { (S.disk shelf.old).honest → IfOk result (λ catalog. Settled (Holds catalog) (S.disk shelf.new) (remembered catalog)) }
        // Or the first fault that stands in the file is told.
        ensures refused { (S.disk shelf.old).honest → IfErr result (λ e. (e ≡ Refusal.NoMemory) ⊎ ((e ≡ Refusal.Device) ⊎ IsFault (S.disk shelf.old).seen e)) }
        ensures works { IfOk result (λ catalog. failed catalog ≡ false) }
        ensures cause { IsErrOf result Refusal.Device → Failed (S.disk shelf.old) (S.disk shelf.new) }

        // What reads give stays, but of the file where its sync failed.
        ensures seen { (S.disk shelf.old).honest → ¬ IsErrOf result Refusal.Device → Same (S.disk shelf.old).seen (S.disk shelf.new).seen }
        ensures others { (S.disk shelf.old).honest → Agree (λ f. ¬ Own f) (S.disk shelf.old).seen (S.disk shelf.new).seen }
        // A crash at any moment leaves what it might have left before.
        ensures any_moment { (S.disk shelf.old).honest → Leaves (S.disk shelf.old).may_leave (S.disk shelf.old) (S.disk shelf.new) }
        ensures kept { Kept (S.disk shelf.old) (S.disk shelf.new) }
    {
        let mut fold = NamesFold {
            alloc,
            begun: false,
            names: IndexSet::new(alloc),
        };
        let log = GatedLog::open_with(alloc, shelf, CATALOG, &mut fold)?;
        Ok(Catalog {
            alloc,
            log,
            names: fold.names,
        })
    }
}
