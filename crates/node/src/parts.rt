// One topic of a node.
ghost use Rattle.std.specs.Prelude.{◌≡◌, ◌≢◌, ◌≤◌, ℕ, false, Result, None, Some, Err, IfSome, IsErrOf};
ghost use Rattle.disk.specs.Disk.{Kept, Failed};
ghost use Rattle.disk.specs.Areas.{OfTopic, Within};
ghost use Rattle.gated_log.specs.declared.refusal.Refusal.TheVariants as refusal;
ghost use Rattle.topic_stores.specs.declared.error.WriteError.{WriteError};
ghost use Rattle.topic_stores.specs.declared.error.WriteError.TheVariants.{Device};
ghost use Rattle.topic_stores.specs.Writing.{StandsFor};
ghost use Rattle.topic_core.specs.Crashes.{IsLeft, ReopenStep};
ghost use Rattle.topic_core.specs.Flush.{IsTrimPoint, FlushStep, FinishStep};
ghost use Rattle.node.specs.Flights.{stage_of};
ghost use Rattle.node.specs.Numbers.{StaysNumbered};
ghost use Rattle.node.specs.Parts.{TakesPart, FinishesPart};
ghost use Rattle.node.specs.State.{Taken, Written, verdict_for, verdict_of_flush};
ghost use Rattle.node.specs.Standing.{HeldStands, HeldKnows, spot_of};
ghost use Rattle.node.specs.Steps.{HeldStep, in_flush, amid_work};
ghost use Rattle.node.specs.Opening.{ReopenTells, TellsOn};

use crate::event::{TopicEvent, Verdict};
use crate::flight::Flight;
use crate::held::Held;
use disk::Shelf;
use gated_log::Refusal;
use topic_core::{TopicStore, WriteError};

fn verdict_for(reopened: Result<(), Refusal>) -> Verdict
    ensures { result ≡ verdict_for reopened }
{
    match reopened {
        Ok(()) => Verdict::Done,
        Err(why) => Verdict::Refused(why),
    }
}

fn verdict_of_flush<A: Drop>(ended: &Result<A, WriteError>) -> Verdict
    ensures { result ≡ verdict_of_flush ended.now }
{
    match ended {
        Ok(_) => Verdict::Done,
        Err(why) => Verdict::Refused((*why).into()),
    }
}

impl<T: TopicStore> Held<T> {
    /// Works an event. Where there is nothing to write, or nothing that is written, it is unknown, and nothing changes.
    pub(crate) fn work<S: Shelf>(&mut self, shelf: &mut S, event: TopicEvent) -> Verdict
        ensures step { HeldStands self.old (S.disk shelf.old) → HeldStep event (spot_of self.old (S.disk shelf.old).faults) result (spot_of self.new (S.disk shelf.new).faults) }
        ensures stands { HeldStands self.old (S.disk shelf.old) → HeldStands self.new (S.disk shelf.new) }
        ensures tells { TellsOn T.stands T.faulty event (T.view self.old.stores).topic self.old.core self.new.core (S.disk shelf.old) (S.disk shelf.new) result }
        // A crash at any moment leaves what it leaves of the topic while the event goes on, and other files as they were.
        ensures within { HeldStands self.old (S.disk shelf.old) →
            (limit : ℕ) × IsTrimPoint self.old.core limit × Within (OfTopic (T.view self.old.stores).topic) (StandsFor (T.stands (T.view self.old.stores).topic) (IsLeft (amid_work event self.old.core limit))) (S.disk shelf.old) (S.disk shelf.new) }
        ensures known { HeldKnows self.old self.new }
        ensures numbered { StaysNumbered self.old self.new }
        ensures faults { (S.disk shelf.old).faults ≤ (S.disk shelf.new).faults }
    {
        self.core.show_sound();
        match event {
            TopicEvent::Flush => {
                let flushed = self.flush(shelf);
                verdict_of_flush(&flushed)
            }
            TopicEvent::Take => {
                let taken = self.take();
                verdict_of_flush(&taken)
            }
            TopicEvent::Write => match self.write(shelf) {
                Some(written) => verdict_of_flush(&written),
                None => Verdict::Unknown,
            },
            TopicEvent::Finish => match self.finish() {
                Some(finished) => verdict_of_flush(&finished),
                None => Verdict::Unknown,
            },
            TopicEvent::Reopen => {
                let reopened = self.reopen(shelf);
                verdict_for(reopened)
            }
        }
    }

    /// Commits what waits, in one call.
    fn flush<S: Shelf>(&mut self, shelf: &mut S) -> Result<usize, WriteError>
        ensures step { FlushStep self.old.core result self.new.core }
        ensures stands { HeldStands self.old (S.disk shelf.old) → HeldStands self.new (S.disk shelf.new) }
        // A crash at any moment leaves what it leaves of the topic while all that waits is in doubt, and the ledger may be trimmed up
        // to a position; and other files as they were.
        ensures within { HeldStands self.old (S.disk shelf.old) →
            (limit : ℕ) × IsTrimPoint self.old.core limit × Within (OfTopic (T.view self.old.stores).topic) (StandsFor (T.stands (T.view self.old.stores).topic) (IsLeft (in_flush self.old.core limit))) (S.disk shelf.old) (S.disk shelf.new) }
        ensures stage { stage_of self.new.flight ≡ stage_of self.old.flight }
        ensures known { HeldKnows self.old self.new }
        ensures numbered { StaysNumbered self.old self.new }
        ensures cause { self.old.core.failed ≡ false → IsErrOf result Device → Failed (S.disk shelf.old) (S.disk shelf.new) }
        ensures kept { Kept (S.disk shelf.old) (S.disk shelf.new) }
    {
        self.core.flush(&mut self.stores, shelf)
    }

    /// Begins a flush in parts, where something waits and none is under way.
    fn take(&mut self) -> Result<(), WriteError>
        ensures step { TakesPart self.old.core (stage_of self.old.flight) result self.new.core (stage_of self.new.flight) }
        ensures stores { self.new.stores ≡ self.old.stores }
        ensures numbered { StaysNumbered self.old self.new }
    {
        if let Some(batch) = self.core.take_batch()? {
            self.flight = Some(Flight::Taken(batch));
        }
        Ok(())
    }

    /// Writes the batch that is taken; none where none is, or it is written.
    fn write<S: Shelf>(&mut self, shelf: &mut S) -> Option<Result<u64, WriteError>>
        ensures written { IfSome result (λ (ended : Result ℕ WriteError). (stage_of self.old.flight ≡ Taken) × (stage_of self.new.flight ≡ Written ended)) }
        ensures unknown { result ≡ None → stage_of self.old.flight ≢ Taken }
        ensures same { result ≡ None → (self.new.flight ≡ self.old.flight) × (shelf.new ≡ shelf.old) }
        ensures core { self.new.core ≡ self.old.core }
        ensures stands { HeldStands self.old (S.disk shelf.old) → HeldStands self.new (S.disk shelf.new) }
        // A crash at any moment leaves what it leaves of the topic, and other files as they were.
        ensures within { HeldStands self.old (S.disk shelf.old) →
            Within (OfTopic (T.view self.old.stores).topic) (StandsFor (T.stands (T.view self.old.stores).topic) (IsLeft self.old.core)) (S.disk shelf.old) (S.disk shelf.new) }
        ensures known { HeldKnows self.old self.new }
        ensures numbered { StaysNumbered self.old self.new }
        ensures cause { result ≡ Some (Err Device) → Failed (S.disk shelf.old) (S.disk shelf.new) }
        ensures kept { Kept (S.disk shelf.old) (S.disk shelf.new) }
    {
        match self.flight.take() {
            Some(Flight::Taken(batch)) => {
                let written = self.stores.write(shelf, &batch);
                self.flight = Some(Flight::Written(batch, written));
                Some(written)
            }
            other => {
                self.flight = other;
                None
            }
        }
    }

    /// Ends a flush in parts as its write did; none where nothing is written.
    fn finish(&mut self) -> Option<Result<usize, WriteError>>
        ensures finished { IfSome result (λ ended. FinishesPart self.old.core (stage_of self.old.flight) ended self.new.core (stage_of self.new.flight)) }
        ensures unknown { result ≡ None → (written : Result ℕ WriteError) → stage_of self.old.flight ≢ Written written }
        ensures same { result ≡ None → (self.new.core ≡ self.old.core) × (self.new.flight ≡ self.old.flight) }
        ensures stores { self.new.stores ≡ self.old.stores }
        ensures numbered { StaysNumbered self.old self.new }
    {
        match self.flight.take() {
            Some(Flight::Written(batch, written)) => Some(self.core.finish(batch, written)),
            other => {
                self.flight = other;
                None
            }
        }
    }

    /// Opens the topic again where it failed.
    fn reopen<S: Shelf>(&mut self, shelf: &mut S) -> Result<(), Refusal>
        ensures step { HeldStands self.old (S.disk shelf.old) → ReopenStep self.old.core result self.new.core }
        ensures tells { ReopenTells T.stands T.faulty (T.view self.old.stores).topic self.old.core self.new.core (S.disk shelf.old) (S.disk shelf.new) (verdict_for result) }
        ensures stands { HeldStands self.old (S.disk shelf.old) → HeldStands self.new (S.disk shelf.new) }
        // A crash at any moment leaves what it leaves of the topic, and other files as they were.
        ensures within { HeldStands self.old (S.disk shelf.old) →
            Within (OfTopic (T.view self.old.stores).topic) (StandsFor (T.stands (T.view self.old.stores).topic) (IsLeft self.old.core)) (S.disk shelf.old) (S.disk shelf.new) }
        ensures stage { stage_of self.new.flight ≡ stage_of self.old.flight }
        ensures known { HeldKnows self.old self.new }
        ensures numbered { StaysNumbered self.old self.new }
        ensures cause { IsErrOf result refusal.Device → Failed (S.disk shelf.old) (S.disk shelf.new) }
        ensures kept { Kept (S.disk shelf.old) (S.disk shelf.new) }
    {
        self.core.reopen(&mut self.stores, shelf)
    }
}
