// A name is added.
ghost use Rattle.std.specs.Prelude.{◌≡◌, ◌<◌, ◌++◌, [], ◌∷◌, false, length};
ghost use Rattle.indexmap.specs.IndexSet.{spare};
ghost use Rattle.catalog.specs.Names.{has_name};

use crate::catalog::Catalog;
use disk::Shelf;
use gated_log::{BatchList, PreparedBatch, Refusal};
use indexmap::IndexSet;
use names::TopicName;

// Puts a new name behind the others, where there is room for it, and answers its place.
fn put(names: &mut IndexSet<TopicName>, name: TopicName) -> u16
    requires new { has_name names.old.keys name ≡ false }
    requires few { length names.old.keys < 64 }
    requires room { 0 < spare names.old }
    ensures names { names.new.keys ≡ names.old.keys ++ name ∷ [] }
    ensures place { result ≡ length names.old.keys }
{
    let place = names.len() as u16;
    if names.insert(name).is_err() {
        unreachable!();
    }
    place
}

impl Catalog {
    ghost use Rattle.std.specs.Prelude.{◌≡◌, ◌⊎◌, ◌<◌, ◌++◌, ℕ, [], ◌∷◌, true, false, length, IsErr, IsErrOf, IfOk, IfErr, OnOk};
    ghost use Rattle.disk.specs.Disk.{Kept, Failed};
    ghost use Rattle.disk.specs.Areas.{Within};
    ghost use Rattle.disk.specs.Contents.{Settled, Appends, StaysSo};
    ghost use Rattle.catalog.specs.Names.{Names, has_name};
    ghost use Rattle.catalog.specs.Catalogs.{Own, Holds, StandsFor, content, remembered, per_ledger, failed};

    /// Adds a name that isn't there, with four device calls, and answers its topic's number. All memory is taken before the
    /// first of them. After `Device` the catalog is failed: it remembers the old names, and each later call answers that, until
    /// `find` opens it again.
    pub fn add<S: Shelf>(&mut self, shelf: &mut S, name: TopicName) -> Result<u16, Refusal>
        requires new { has_name (remembered self.old) name ≡ false }
        requires room { length (remembered self.old) < 64 }
        // A crash at any moment of the call leaves the name or not, and other files as they were.
        ensures appends { (names : Names) → Settled (Holds self.old) (S.disk shelf.old) names →
            Appends result (Settled (Holds self.new)) (content self.new) Own (StandsFor (per_ledger self.old)) (S.disk shelf.old) (S.disk shelf.new) names (names ++ name ∷ []) }

        ensures number { IfOk result (λ number. number ≡ length (remembered self.old)) }
        ensures grown { OnOk result (remembered self.new ≡ remembered self.old ++ name ∷ []) }
        ensures others { (S.disk shelf.old).honest → Within Own (λ c. Unit {0}) (S.disk shelf.old) (S.disk shelf.new) }

        ensures per_ledger { per_ledger self.new ≡ per_ledger self.old }
        ensures remembered { IsErr result → remembered self.new ≡ remembered self.old }
        ensures works { OnOk result (failed self.new ≡ false) }
        ensures failed { IsErrOf result Refusal.Device → failed self.new ≡ true }
        ensures stays_failed { failed self.old ≡ true → IsErrOf result Refusal.Device × (shelf.new ≡ shelf.old) }
        ensures cause { failed self.old ≡ false → IsErrOf result Refusal.Device → Failed (S.disk shelf.old) (S.disk shelf.new) }
        ensures no_memory { IsErrOf result Refusal.NoMemory →
            StaysSo (Holds self.old) (Holds self.new) (content self.old) (content self.new) × ((failed self.new ≡ failed self.old) × (shelf.new ≡ shelf.old)) }
        ensures refusals { IfErr result (λ e. (e ≡ Refusal.Device) ⊎ (e ≡ Refusal.NoMemory)) }
        ensures kept { Kept (S.disk shelf.old) (S.disk shelf.new) }
    {
        if self.log.is_failed() {
            return Err(Refusal::Device);
        }
        self.names.reserve(1)?;
        let body = name.as_str().as_bytes();
        let mut builder = self.log.builder(body.len())?;
        builder.extend_from_slice(body)?;
        let prepared = PreparedBatch::new(builder)?;
        self.log.append_prepared(shelf, prepared)?;
        Ok(put(&mut self.names, name))
    }
}
