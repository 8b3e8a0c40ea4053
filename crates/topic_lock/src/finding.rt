// Topics are found by their names, and made, under the catalog's lock.
ghost use Rattle.std.specs.Prelude.{◌≡◌, ◌≢◌, ◌⊎◌, ◌+◌, ◌<◌, ◌≤◌, ◌++◌, [], ◌∷◌, Some, false, true, length, slice_get, vec_capacity, Ok, IfOk, IfSome, OnOk, IsErr, IfErr};
ghost use Rattle.gated_log.specs.declared.refusal.Refusal.TheVariants.{NoMemory};
ghost use Rattle.catalog.specs.Catalogs.{remembered, failed, Follows};
ghost use Rattle.catalog.specs.Names.{has_name, number_of};
ghost use Rattle.session.specs.declared.port.Found.TheVariants.{Topic, TooMany};
ghost use Rattle.session.specs.Broker.{IfFound};
ghost use Rattle.topic_lock.specs.Finding.{IsNumberOf};

use crate::directory::{SharedCatalog, Spare, outage, place_next};
use crate::durable::DurableTally;
use crate::opening::{name_of, open_part};
use crate::part::OpenPart;
use crate::places::Known;
use crate::tally::Tallies;
use catalog::Catalog;
use disk::{CATALOG, Shelf};
use gated_log::Refusal;
use names::TopicName;
use session::Found;
use std::alloc::Global;
use std::sync::Wait;
use topic_core::{TopicCore, TopicStore};

impl<'a, T: TopicStore, S: Shelf + Drop, K: Tallies> SharedCatalog<'a, T, S, K> {
    /// The number of the topic of a name, which is made where it isn't there: first its files, then its name in the catalog. For a
    /// name that is known nothing is asked of the device. Beside it stands why a search failed, where that is news.
    pub(crate) fn find_or_make<R: Wait>(
        &mut self,
        rt: &R,
        tally: &DurableTally<K>,
        name: &TopicName,
    ) -> (Found, Option<Refusal>)
        ensures there { IfFound result.0 (λ number. number < length self.new.known.items) }
        ensures named { IfFound result.0 (λ number. IsNumberOf name.now number (remembered self.new.catalog)) }
        ensures known { IfSome (number_of (remembered self.old.catalog) name.now) (λ number. (result ≡ (Topic number, None)) × (self.new ≡ self.old)) }
        ensures full { result.0 ≡ TooMany → 64 ≤ length (remembered self.new.catalog) }
        ensures grows { length self.old.known.items ≤ length self.new.known.items }
    {
        if let Some(number) = self.catalog.number(name) {
            return (Found::Topic(u64::from(number)), None);
        }
        match self.find_new(rt, tally, name) {
            Ok(found) => (found, None),
            Err(why) => (outage(why), self.news(why)),
        }
    }

    /// The same of a name that isn't known.
    fn find_new<R: Wait>(
        &mut self,
        rt: &R,
        tally: &DurableTally<K>,
        name: &TopicName,
    ) -> Result<Found, Refusal>
        ensures there { IfOk result (λ found. IfFound found (λ number. number < length self.new.known.items)) }
        ensures named { IfOk result (λ found. IfFound found (λ number. IsNumberOf name.now number (remembered self.new.catalog))) }
        ensures full { result ≡ Ok TooMany → 64 ≤ length (remembered self.new.catalog) }
        ensures grows { length self.old.known.items ≤ length self.new.known.items }
    {
        self.settle(rt, tally)?;
        if let Some(number) = self.catalog.number(name) {
            return Ok(Found::Topic(u64::from(number)));
        }
        if self.catalog.is_full() {
            return Ok(Found::TooMany);
        }
        let number = self.make(rt, tally, name)?;
        self.is_told = false;
        Ok(Found::Topic(number))
    }

    /// Why a search failed, where that is news: where no search failed since a topic was last made. Want of memory is none.
    fn news(&mut self, why: Refusal) -> Option<Refusal>
        ensures told { self.old.is_told ≡ true → result ≡ None }
        ensures untold { self.old.is_told ≡ false → why ≢ NoMemory → (result ≡ Some why) × (self.new.is_told ≡ true) }
        ensures same { (self.new.catalog ≡ self.old.catalog) × (self.new.known ≡ self.old.known) }
    {
        if self.is_told || why == Refusal::NoMemory {
            return None;
        }
        self.is_told = true;
        Some(why)
    }

    /// Settles the name in doubt, where there is one: the catalog is opened again, and the topic of that name where it is there.
    /// A refusal changes nothing. Names that no honest device leaves are damage of the catalog's file.
    fn settle<R: Wait>(&mut self, rt: &R, tally: &DurableTally<K>) -> Result<(), Refusal>
        ensures sure { OnOk result (failed self.new.catalog ≡ false) }
        ensures follows { OnOk result (Follows self.old.catalog self.new.catalog) }
        ensures grows { length self.old.known.items ≤ length self.new.known.items }
    {
        if !self.catalog.is_failed() {
            return Ok(());
        }
        let again = Catalog::open(self.alloc, &mut self.shelf)?;
        if !self.catalog.is_followed_by(&again) {
            return Err(Refusal::Damaged {
                file: CATALOG,
                offset: 0,
            });
        }
        if again.len() == self.known.len() {
            self.catalog = again;
            return Ok(());
        }
        let SharedCatalog {
            alloc,
            catalog,
            places,
            known,
            spare,
            ..
        } = self;
        let part = open_next(*alloc, &again, known, spare)?;
        place_next(rt, tally, *places, part, known, spare);
        *catalog = again;
        Ok(())
    }

    /// Makes the topic of a name that isn't there, where no name is in doubt and there is room for one more. All memory is taken
    /// first. A failure of the device before the name is added changes nothing; one in adding it leaves the name in doubt.
    fn make<R: Wait>(
        &mut self,
        rt: &R,
        tally: &DurableTally<K>,
        name: &TopicName,
    ) -> Result<u64, Refusal>
        requires new { has_name (remembered self.old.catalog) name.now ≡ false }
        requires room { length (remembered self.old.catalog) < 64 }
        ensures number { IfOk result (λ number. number < length self.new.known.items) }
        ensures named { IfOk result (λ number. (number ≡ length (remembered self.old.catalog)) × (remembered self.new.catalog ≡ remembered self.old.catalog ++ name.now ∷ [])) }
        ensures grows { length self.old.known.items ≤ length self.new.known.items }
    {
        let number = self.known.len();
        let per_ledger = self.catalog.entries_per_ledger();
        self.known.reserve(1)?;
        let added = name.clone()?;
        let own = name.clone()?;
        let Some(next) = self.spare.last_mut() else {
            unreachable!();
        };
        let (core, stores) = TopicCore::create(
            self.alloc,
            &mut next.shelf,
            number as u16,
            per_ledger,
        )?;
        self.catalog.add(&mut self.shelf, added)?;
        let part = OpenPart {
            number: number as u16,
            name: own,
            core,
            stores,
        };
        let SharedCatalog {
            places,
            known,
            spare,
            ..
        } = self;
        place_next(rt, tally, *places, part, known, spare);
        Ok(number as u64)
    }
}

/// Opens the topic of the next number of a catalog, for which there is room among those that are known then. A refusal leaves what is
/// known.
fn open_next<'a, T: TopicStore, S: Shelf + Drop, K: Tallies>(
    alloc: Global,
    catalog: &Catalog,
    known: &mut Vec<Known<'a, T, S, K>>,
    spare: &mut Vec<Spare<S, K>>,
) -> Result<OpenPart<T>, Refusal>
    requires all { length known.old.items + length spare.old.items ≡ 64 }
    requires named { length known.old.items < length (remembered catalog.now) }
    ensures room { OnOk result (length known.new.items < vec_capacity known.new) }
    ensures number { IfOk result (λ part. (part.number ≡ length known.old.items) × (slice_get (remembered catalog.now) part.number ≡ Some part.name)) }
    ensures same { (known.new.items ≡ known.old.items) × (length spare.new.items ≡ length spare.old.items) }
{
    known.reserve(1)?;
    let number = known.len() as u16;
    let name = name_of(catalog, number)?;
    let Some(next) = spare.last_mut() else {
        unreachable!();
    };
    let per_ledger = catalog.entries_per_ledger();
    open_part(alloc, &mut next.shelf, number, name, per_ledger)
}
