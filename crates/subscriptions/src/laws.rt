ghost use Rattle.subscriptions.specs.Forgetting.{CountsAreForgotten};
ghost use Rattle.subscriptions.specs.Laws.{StaysSound, DeliveriesAreCommitted, AreKept, PickedIsOpen, LearningAdmits};

/// Each call keeps the subscriptions sound.
pub fn stays_sound()
    ensures { StaysSound }
{}

/// Only committed positions are ever held.
pub fn deliveries_are_committed()
    ensures { DeliveriesAreCommitted }
{}

/// The names and sets of the subscriptions are what the changes make of the kept ones.
pub fn subscriptions_are_kept()
    ensures { AreKept }
{}

/// A position that is picked is committed, unacknowledged and held by nobody.
pub fn picked_is_open()
    ensures { PickedIsOpen }
{}

/// Whether the count of an acknowledged position is forgotten changes no answer, now and after any calls.
pub fn counts_are_forgotten()
    ensures { CountsAreForgotten }
{}

/// A consumer that may get a position may get it whatever more is learnt of its permits.
pub fn learning_admits()
    ensures { LearningAdmits }
{}
