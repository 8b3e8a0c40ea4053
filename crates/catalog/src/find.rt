// Topics are found by their names, and names by their topics.
use crate::catalog::{Catalog, MAX_TOPICS};
use disk::Shelf;
use gated_log::{BatchList, Refusal};
use names::TopicName;

impl Catalog {
    ghost use Rattle.std.specs.Prelude.{◌≡◌, ◌⊎◌, ◌↔◌, ◌≤◌, ℕ, true, false, length, slice_get, option_copied, is_some, IsTrue, IsOk, IsErr, IsErrOf, IfOk, IfErr, OnOk};
    ghost use Rattle.disk.specs.Disk.{Same, Leaves, Kept, Failed};
    ghost use Rattle.disk.specs.Areas.{Agree};
    ghost use Rattle.disk.specs.Contents.{Settled};
    ghost use Rattle.catalog.specs.Names.{Names, IsPerLedger, has_name, number_of};
    ghost use Rattle.catalog.specs.Catalogs.{Own, Holds, StandsFor, Follows, remembered, per_ledger, failed};
    ghost use Rattle.catalog.specs.Folded.{IsFault};

    /// How many entries a ledger of the node has.
    pub fn entries_per_ledger(&self) -> u32
        ensures number { result ≡ per_ledger self.now }
        ensures ledgers { IsPerLedger result }
    {
        self.log.id().label.number as u32
    }

    /// How many topics there are.
    pub fn len(&self) -> usize
        ensures count { result ≡ length (remembered self.now) }
        ensures few { result ≤ 64 }
    {
        self.names.len()
    }

    /// Whether there is no room for a topic more.
    pub fn is_full(&self) -> bool
        ensures { IsTrue result ↔ (64 ≤ length (remembered self.now)) }
    {
        self.len() >= MAX_TOPICS
    }

    /// Whether an append failed since the catalog was opened.
    pub fn is_failed(&self) -> bool
        ensures { result ≡ failed self.now }
    {
        self.log.is_failed()
    }

    /// Whether another catalog has as many names, or one more, and as many entries a ledger, as one that is opened again behind a failed
    /// `add` has over an honest device.
    pub fn is_followed_by(&self, again: &Catalog) -> bool
        ensures { IsTrue result ↔ Follows self.now again.now }
    {
        let count = self.len();
        again.entries_per_ledger() == self.entries_per_ledger()
            && (again.len() == count || again.len() == count + 1)
    }

    /// The name of the topic of a number; none where there is no such topic.
    pub fn name(&self, number: u16) -> Option<&TopicName>
        ensures { option_copied result ≡ slice_get (remembered self.now) number }
    {
        self.names.get_index(usize::from(number))
    }

    /// The number of the topic of a name among those that it remembers; none where there is no such topic. Nothing is asked of the
    /// device, and after a failure a name in doubt isn't among them.
    pub fn number(&self, name: &TopicName) -> Option<u16>
        ensures found { result ≡ number_of (remembered self.now) name.now }
        ensures there { is_some result ≡ has_name (remembered self.now) name.now }
    {
        let place = self.names.get_index_of(name)?;
        Some(place as u16)
    }

    /// The number of the topic of a name; none where there is no such topic. After a failure the catalog is opened again first,
    /// which settles the name in doubt; where that is refused, it stays as it was.
    pub fn find<S: Shelf>(
        &mut self,
        shelf: &mut S,
        name: &TopicName,
    ) -> Result<Option<u16>, Refusal>
        ensures found { IfOk result (λ found. found ≡ number_of (remembered self.new) name.now) }
        ensures there { IfOk result (λ found. is_some found ≡ has_name (remembered self.new) name.now) }
        ensures plain { failed self.old ≡ false → IsOk result × ((self.new ≡ self.old) × (shelf.new ≡ shelf.old)) }

        // Where it had failed, the names that it then has are those that stand in the file.
        ensures again { (number : ℕ) (names : Names) → (S.disk shelf.old).honest → failed self.old ≡ true → StandsFor number (S.disk shelf.old).seen names →
            OnOk result ((per_ledger self.new ≡ number) × Settled (Holds self.new) (S.disk shelf.new) names) }
        ensures settled { (S.disk shelf.old).honest → failed self.old ≡ true → OnOk result (Settled (Holds self.new) (S.disk shelf.new) (remembered self.new)) }
        ensures refused { (S.disk shelf.old).honest → IfErr result (λ e. (e ≡ Refusal.NoMemory) ⊎ ((e ≡ Refusal.Device) ⊎ IsFault (S.disk shelf.old).seen e)) }
        ensures works { OnOk result (failed self.new ≡ false) }
        ensures unchanged { IsErr result → self.new ≡ self.old }
        ensures cause { IsErrOf result Refusal.Device → Failed (S.disk shelf.old) (S.disk shelf.new) }

        // What reads give stays, but of the file where its sync failed.
        ensures seen { (S.disk shelf.old).honest → ¬ IsErrOf result Refusal.Device → Same (S.disk shelf.old).seen (S.disk shelf.new).seen }
        ensures others { (S.disk shelf.old).honest → Agree (λ f. ¬ Own f) (S.disk shelf.old).seen (S.disk shelf.new).seen }
        // A crash at any moment leaves what it might have left before.
        ensures any_moment { (S.disk shelf.old).honest → Leaves (S.disk shelf.old).may_leave (S.disk shelf.old) (S.disk shelf.new) }
        ensures kept { Kept (S.disk shelf.old) (S.disk shelf.new) }
    {
        if !self.is_failed() {
            return Ok(self.number(name));
        }
        *self = Catalog::open(self.alloc, shelf)?;
        Ok(self.number(name))
    }
}
