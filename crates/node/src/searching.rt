// Topics are found by their names, and made.
ghost use Rattle.std.specs.Prelude.{◌≡◌, ◌⊎◌, ◌<◌, ℕ, List, [], ◌∷◌, false, length, IfOk, IfErr, OnOk, IsErr, IsErrOf};
ghost use Rattle.disk.specs.Disk.{Failed};
ghost use Rattle.gated_log.specs.declared.refusal.Refusal.TheVariants as refusal;
ghost use Rattle.catalog.specs.Catalogs.{remembered, failed};
ghost use Rattle.catalog.specs.Names.{has_name};
ghost use Rattle.session.specs.Broker.{made, doubting, Settles, FindStep, IfFound, IfFailed};
ghost use Rattle.session.specs.declared.port.Found.TheVariants as found;
ghost use Rattle.node.specs.Standing.{broker_of, TopicsStand, Works, Fails};

use crate::held::Held;
use crate::topics::Topics;
use catalog::Catalog;
use disk::{CATALOG, Shelf};
use gated_log::Refusal;
use names::TopicName;
use session::Found;
use topic_core::TopicStore;

// What a refusal makes of a search. Damage that an honest device can't leave is a failure too.
fn outage(why: Refusal) -> Found
    ensures memory { why ≡ refusal.NoMemory → result ≡ found.NoMemory }
    ensures device { why ≡ refusal.Device → result ≡ found.Failed }
    ensures either { (result ≡ found.NoMemory) ⊎ (result ≡ found.Failed) }
{
    match why {
        Refusal::NoMemory => Found::NoMemory,
        Refusal::Device
        | Refusal::Damaged { .. }
        | Refusal::NotInitialised
        | Refusal::Version
        | Refusal::TooLarge => Found::Failed,
    }
}

impl<T: TopicStore, S: Shelf> Topics<T, S> {
    /// The number of the topic of a name, which is made where it isn't there: first its files, then its name in the catalog.
    pub(crate) fn find_or_make(&mut self, name: &TopicName) -> Found
        ensures step { TopicsStand S.disk self.old → FindStep (broker_of self.old) name.now result (broker_of self.new) }
        ensures there { IfFound result (λ number. number < length self.new.held.items) }
        ensures failed { IfFailed result (Fails S.disk self.old self.new) }
        ensures works { Works S.disk (name.now ∷ []) self.old self.new }
    {
        if let Err(why) = self.settle() {
            return outage(why);
        }
        match self.catalog.find(&mut self.shelf, name) {
            Ok(Some(number)) => return Found::Topic(u64::from(number)),
            Ok(None) => {}
            Err(_) => unreachable!(),
        }
        if self.catalog.is_full() {
            return Found::TooMany;
        }
        match self.make(name) {
            Ok(number) => Found::Topic(number),
            Err(why) => outage(why),
        }
    }

    /// Settles the name in doubt, where there is one: the catalog is opened again, and the topic of that name where it is there.
    /// A refusal changes nothing. Names that no honest device leaves are damage of the catalog's file.
    fn settle(&mut self) -> Result<(), Refusal>
        ensures settled { TopicsStand S.disk self.old → OnOk result (Settles (broker_of self.old).doubtful (broker_of self.old) (broker_of self.new)) }
        ensures sure { OnOk result (failed self.new.catalog ≡ false) }
        ensures refused { IsErr result → broker_of self.new ≡ broker_of self.old }
        ensures refusals { TopicsStand S.disk self.old → IfErr result (λ e. (e ≡ refusal.NoMemory) ⊎ (e ≡ refusal.Device)) }
        ensures cause { IsErrOf result refusal.Device → Failed (S.disk self.old.shelf) (S.disk self.new.shelf) }
        ensures works { (names : List (List ℕ)) → Works S.disk names self.old self.new }
    {
        if !self.catalog.is_failed() {
            return Ok(());
        }
        let again = Catalog::open(self.alloc, &mut self.shelf)?;
        if !self.catalog.is_followed_by(&again) {
            drop(again);
            return Err(Refusal::Damaged {
                file: CATALOG,
                offset: 0,
            });
        }
        if again.len() > self.held.len() {
            if let Err(why) = self.held.reserve(1) {
                drop(again);
                return Err(why.into());
            }
            let number = self.held.len() as u16;
            let per_ledger = again.entries_per_ledger();
            let held = match Held::open(self.alloc, &mut self.shelf, number, per_ledger) {
                Ok(held) => held,
                Err(why) => {
                    drop(again);
                    return Err(why);
                }
            };
            self.held.push(held).unwrap();
            self.catalog = again;
            self.doubtful = None;
            return Ok(());
        }
        self.catalog = again;
        self.doubtful = None;
        Ok(())
    }

    /// Makes the topic of a name that isn't there, where no name is in doubt and there is room for one more. All memory is taken
    /// first. A failure of the device before the name is added changes nothing; one in adding it leaves the name in doubt.
    fn make(&mut self, name: &TopicName) -> Result<u64, Refusal>
        requires sure { failed self.old.catalog ≡ false }
        requires new { has_name (remembered self.old.catalog) name.now ≡ false }
        requires room { length (remembered self.old.catalog) < 64 }
        ensures number { IfOk result (λ number. (number ≡ length self.old.held.items) × (number < length self.new.held.items)) }
        ensures made { OnOk result (broker_of self.new ≡ made (broker_of self.old) name.now) }
        ensures cause { IsErrOf result refusal.Device → Failed (S.disk self.old.shelf) (S.disk self.new.shelf) }
        ensures refused { IfErr result (λ e. ((e ≡ refusal.NoMemory) × (broker_of self.new ≡ broker_of self.old))
            ⊎ ((e ≡ refusal.Device) × ((broker_of self.new ≡ broker_of self.old) ⊎ (broker_of self.new ≡ doubting (broker_of self.old) name.now)))) }
        ensures works { Works S.disk (name.now ∷ []) self.old self.new }
    {
        self.held.reserve(1)?;
        let added = name.clone()?;
        let doubted = name.clone()?;
        let number = self.held.len() as u16;
        let per_ledger = self.catalog.entries_per_ledger();
        let held = match Held::create(self.alloc, &mut self.shelf, number, per_ledger) {
            Ok(held) => held,
            Err(why) => {
                drop(added);
                drop(doubted);
                return Err(why.into());
            }
        };
        if let Err(why) = self.catalog.add(&mut self.shelf, added) {
            drop(held);
            if self.catalog.is_failed() {
                self.doubtful = Some(doubted);
            }
            return Err(why);
        }
        self.held.push(held).unwrap();
        Ok(u64::from(number))
    }
}
