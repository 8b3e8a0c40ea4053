// The catalog of a new node.
ghost use Rattle.std.specs.Prelude.{◌≡◌, [], false, IsErr, IfOk};
ghost use Rattle.disk.specs.Disk.{Kept, Failed};
ghost use Rattle.disk.specs.Areas.{Within};
ghost use Rattle.disk.specs.Contents.{Settled};
ghost use Rattle.catalog.specs.Catalogs.{Own, Holds, per_ledger, failed};

use crate::catalog::Catalog;
use crate::entries_per_ledger::EntriesPerLedger;
use disk::{CATALOG, DeviceError, Shelf};
use gated_log::{GatedLog, Label};
use indexmap::IndexSet;
use std::alloc::Global;

impl Catalog {
    /// Makes a catalog without names, whatever was in its file, with five device calls. Takes no memory. Until the `Ok` a crash
    /// may leave anything of this file.
    pub fn create<S: Shelf>(
        alloc: Global,
        shelf: &mut S,
        entries_per_ledger: EntriesPerLedger,
    ) -> Result<Catalog, DeviceError>
        ensures created { (S.disk shelf.old).honest → IfOk result (λ catalog. Settled (Holds catalog) (S.disk shelf.new) []) }
        ensures per_ledger { IfOk result (λ catalog. per_ledger catalog ≡ entries_per_ledger.count) }
        ensures works { IfOk result (λ catalog. failed catalog ≡ false) }
        ensures others { (S.disk shelf.old).honest → Within Own (λ c. Unit {0}) (S.disk shelf.old) (S.disk shelf.new) }
        ensures cause { IsErr result → Failed (S.disk shelf.old) (S.disk shelf.new) }
        ensures kept { Kept (S.disk shelf.old) (S.disk shelf.new) }
    {
        let label = Label::plain(u64::from(entries_per_ledger.get()));
        let log = GatedLog::create(alloc, shelf, CATALOG, label)?;
        Ok(Catalog {
            alloc,
            log,
            names: IndexSet::new(alloc),
        })
    }
}
