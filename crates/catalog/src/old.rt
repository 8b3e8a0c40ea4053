// The list of topics of a folder of version 1.
ghost use Rattle.std.specs.Prelude.{◌≡◌};
ghost use Rattle.std.proofs.Props.{props};
ghost use Rattle.gated_log.specs.Labels.{plain};
ghost use Rattle.catalog.specs.Names.{AreNames, IsPerLedger};

use crate::headers::OLD_CATALOG;
use crate::names_fold::NamesFold;
use disk::{CATALOG, Folder, Shelf};
use gated_log::{
    BatchList, GatedLog, Label, LogBuilder, PrepareError, PreparedLog, Refusal, lay_closed,
};
use indexmap::IndexSet;
use names::TopicName;
use std::alloc::Global;

/// The list of topics of a folder of version 1: how many entries a ledger has, and their names. It is only read.
#[derive(Drop)]
pub struct OldCatalog {
    alloc: Global,
    label: Label,
    names: IndexSet<TopicName>,
    ghost alone: { label ≡ plain label.number },
    ghost ledgers: { IsPerLedger label.number },
    ghost are: { AreNames names.keys } by { Prim.hlevel props },
}

impl OldCatalog {
    ghost use Rattle.std.specs.Prelude.{◌≡◌, ◌⊎◌, ◌≤◌, length, IfOk, IfErr, OnOk, IsErrOf};
    ghost use Rattle.disk.specs.declared.file_id.FileId.{FileId};
    ghost use Rattle.disk.specs.declared.file_id.Folder.{Folder};
    ghost use Rattle.disk.specs.Disk.{Image, Same, Leaves, Kept, Failed};
    ghost use Rattle.disk.specs.Areas.{Agree, Within};
    ghost use Rattle.gated_log.specs.Wholes.{IsLogOf, folder_in};
    ghost use Rattle.catalog.specs.Catalogs.{Own, StandsFor, StandsIn, old_names, old_per_ledger};
    ghost use Rattle.catalog.specs.Folded.{IsFaultIn};

    /// Opens the list, whatever a crash left of its file. The file is synced first, so what is read stays, and read once. The first
    /// fault is told, with the offset of the gate behind which it stands.
    pub fn open<S: Shelf>(alloc: Global, shelf: &mut S) -> Result<OldCatalog, Refusal>
        ensures opened { (S.disk shelf.old).honest → IfOk result (λ old. (c : Image) → (S.disk shelf.new).may_leave c → StandsIn Folder.One (old_per_ledger old) c (old_names old)) }
        ensures refused { (S.disk shelf.old).honest → IfErr result (λ e. (e ≡ Refusal.NoMemory) ⊎ ((e ≡ Refusal.Device) ⊎ IsFaultIn Folder.One (S.disk shelf.old).seen e)) }
        ensures cause { IsErrOf result Refusal.Device → Failed (S.disk shelf.old) (S.disk shelf.new) }
        ensures seen { (S.disk shelf.old).honest → ¬ IsErrOf result Refusal.Device → Same (S.disk shelf.old).seen (S.disk shelf.new).seen }
        ensures others { (S.disk shelf.old).honest → Agree (λ f. ¬ (f ≡ FileId.Catalog Folder.One)) (S.disk shelf.old).seen (S.disk shelf.new).seen }
        ensures any_moment { (S.disk shelf.old).honest → Leaves (S.disk shelf.old).may_leave (S.disk shelf.old) (S.disk shelf.new) }
        ensures kept { Kept (S.disk shelf.old) (S.disk shelf.new) }
    {
        let mut fold = NamesFold {
            alloc,
            begun: false,
            names: IndexSet::new(alloc),
        };
        let log = GatedLog::open_with(alloc, shelf, OLD_CATALOG, &mut fold)?;
        Ok(OldCatalog {
            alloc,
            label: log.id().label,
            names: fold.names,
        })
    }

    /// How many entries a ledger has.
    pub fn entries_per_ledger(&self) -> u32
        ensures number { result ≡ old_per_ledger self.now }
        ensures ledgers { IsPerLedger result }
    {
        self.label.number as u32
    }

    /// How many topics there are.
    pub fn len(&self) -> usize
        ensures count { result ≡ length (old_names self.now) }
        ensures few { result ≤ 64 }
    {
        self.names.len()
    }

    // A log of the names, in their order.
    fn prepare(&self) -> Result<PreparedLog, PrepareError>
        ensures made { IfOk result (λ log. IsLogOf log (old_names self.now)) }
        ensures folder { IfOk result (λ log. folder_in log ≡ Folder.Two) }
        ensures fits { ¬ IsErrOf result PrepareError.TooLarge }
    {
        let mut log = LogBuilder::new(self.alloc, Folder::Two)?;
        let mut place = 0;
        'names: while let Some(name) = self.names.get_index(place) {
            let more = log.with_body(name.as_str().as_bytes())?;
            log = more;
            place += 1;
        }
        Ok(log.finish()?)
    }

    /// Makes the list of topics of a folder of version 2, whatever was in its file, with the same names: its header opens when all
    /// behind it is on the device. All memory is taken first. Until the `Ok` a crash may leave anything of this file.
    pub fn copy<S: Shelf>(&self, shelf: &mut S) -> Result<(), Refusal>
        ensures copied { (S.disk shelf.old).honest → OnOk result ((c : Image) → (S.disk shelf.new).may_leave c → StandsFor (old_per_ledger self.now) c (old_names self.now)) }
        ensures others { (S.disk shelf.old).honest → Within Own (λ c. Unit {0}) (S.disk shelf.old) (S.disk shelf.new) }
        ensures refused { IfErr result (λ e. (e ≡ Refusal.NoMemory) ⊎ (e ≡ Refusal.Device)) }
        ensures cause { IsErrOf result Refusal.Device → Failed (S.disk shelf.old) (S.disk shelf.new) }
        ensures kept { Kept (S.disk shelf.old) (S.disk shelf.new) }
    {
        let names = self.prepare()?;
        lay_closed(shelf, CATALOG, self.label)?;
        GatedLog::overwrite(shelf, CATALOG, self.label, names)?;
        Ok(())
    }
}
