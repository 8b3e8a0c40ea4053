// From a cut of the power to the opening after it, and on.
ghost use Rattle.node.specs.Resuming.{CutsAreOpened, LivesGoOn};
ghost use Rattle.node.specs.Starting.{OpeningsAreStarts};

use topic_core::TopicStore;

/// Over the files that a cut of the power left the node is opened as what a crash leaves of a broker for which they stand, and no fault
/// stands in them. Wherever the power is cut in a drive, within calls too, this is a turn of an allowed life.
pub fn cuts_are_opened<T: TopicStore>()
    ensures { CutsAreOpened T.stands T.faulty }
{}

/// What an opening makes of a sound broker owes nothing and has nothing waiting, whatever was owed before: so a life that begins with
/// an opening, of a folder that has topics too, accounts for what was told since.
pub fn openings_are_starts()
    ensures { OpeningsAreStarts }
{}

/// A life behind another one is a life, and so is one without cuts within events, and one whose device had failed more often before: so
/// what is said of lives is said across each cut.
pub fn lives_go_on()
    ensures { LivesGoOn }
{}
