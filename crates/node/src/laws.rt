ghost use Rattle.node.specs.Cuts.{CutsAreTurns};
ghost use Rattle.node.specs.Failing.{FailsForACause};
ghost use Rattle.node.specs.Folders.{FoldersHoldOneContent, NewFoldersAreServed, UpgradesHaveOneFault};
ghost use Rattle.node.specs.Grounds.{RepliesRestOnFrames};
ghost use Rattle.node.specs.Hearing.{FramesAreAccountedFor};
ghost use Rattle.node.specs.Opening.{HaveOneFault};
ghost use Rattle.node.specs.Laws.{RunsUnfold, LivesUnfold, StaysSound, MovesPublish, ReceiptsAreCovered, ReceiptsAreFound, WordsAreKept, MessagesAreAdmitted, LivesAccount};

use disk::Shelf;
use topic_core::{FileStores, TopicStore};

/// The bytes that go out to each session are frames, each whole, and each topic moves by allowed moves, on which it
/// hands out just those replies that don't answer a command at once.
pub fn runs_unfold()
    ensures { RunsUnfold }
{}

/// The same with crashes and openings in between, and with cuts of the power within events.
pub fn lives_unfold()
    ensures { LivesUnfold }
{}

/// Each step, each crash and each cut within an event keeps every topic sound.
pub fn stays_sound()
    ensures { StaysSound }
{}

/// A topic has failed only where the device has since the topic's last opening, and a flush tells a failure of the device only there.
pub fn topics_fail_for_a_cause()
    ensures { FailsForACause }
{}

/// Ledgers only grow, through crashes too, but for a front that trims took, and each entry that came is that of the latest SEND that
/// was accepted for its position.
pub fn moves_publish()
    ensures { MovesPublish }
{}

/// Between two crashes receipts never outnumber the committed entries.
pub fn receipts_are_covered()
    ensures { ReceiptsAreCovered }
{}

/// A receipt is told to the session that sent, and names the entry that stands at its position until a trim takes it: also in each
/// run that goes on behind it, through failures, openings and crashes. Since this holds of the run that ends with the receipt too, a
/// receipt comes after the flush that committed its entry.
pub fn receipts_are_found()
    ensures { ReceiptsAreFound }
{}

/// What sessions take from a topic are the answers to their accepted commands, in turn, or refusals after a failure. What was told
/// of subscriptions stands ever after, through failures, openings and crashes: an answered SUBSCRIBE's is there, and the positions
/// of an answered ACK are acknowledged on it, while no UNSUBSCRIBE of its name was accepted since that command; an answered
/// UNSUBSCRIBE's isn't there, while no SUBSCRIBE of its name was accepted since that command. So each reply that tells of an
/// acceptance is the answer to a command of its session that the topic accepted, with that command's request id.
pub fn words_are_kept()
    ensures { WordsAreKept }
{}

/// A message goes out only where its position is open on the consumer's subscription and admitted to it by mode and
/// permits, and it is the entry that stands in the ledger there until a trim takes it: one that was published.
pub fn messages_are_admitted()
    ensures { MessagesAreAdmitted }
{}

/// Where a broker is reached within happenings, the opening after a cut there is a turn of an allowed life behind those that were
/// worked, of which nothing but the opening is told.
pub fn cuts_are_turns()
    ensures { CutsAreTurns }
{}

/// All of this, of every life of a node, with cuts within events too, from the bytes of each session to the bytes that went out to
/// it: those are the frames of what was said to it, and of nothing else.
pub fn lives_account()
    ensures { LivesAccount }
{}

/// So each receipt that can be read in the bytes that went out to a session is found, each message was admitted, and each
/// ACK_RESPONSE without error and each SUCCESS answers a command of that session that a topic accepted, whose promise stands.
pub fn frames_are_accounted_for()
    ensures { FramesAreAccountedFor }
{}

/// The moves of such an account come from what came in: commands from frames at the front of their session's bytes in, each from one of
/// its own, in order, and crashes from the life's own. So each receipt answers a SEND of its session that came in, whose entry, byte
/// for byte, stands at its position until a trim takes it; each ACK_RESPONSE without error and each SUCCESS answers a command that came
/// in to its session; and each message is the entry of a SEND that came in, or stood in the ledger at the start. Since this holds of the
/// life that ends with a reply, too, what a reply rests on came in before it went out.
pub fn replies_rest_on_frames()
    ensures { RepliesRestOnFrames }
{}

/// The files of a node have one first fault: the catalog's, or that of the first of its topics whose files have one.
pub fn openings_have_one_fault<T: TopicStore>()
    ensures { HaveOneFault T.stands T.faulty }
{}

/// Files are a folder of one version at most, and of one content: a number of entries a ledger, names, and of each topic its entries and
/// subscriptions.
pub fn folders_hold_one_content()
    ensures { FoldersHoldOneContent }
{}

/// What an upgrade leaves is served. Where whatever a crash leaves is a folder of version 2 that holds a content, a node of just these
/// names, entries and subscriptions is at rest: so it opens. The node that is opened has just them, and what a node has that was just
/// opened is what its files hold.
pub fn new_folders_are_served<S: Shelf>()
    ensures { NewFoldersAreServed S.disk (⟦<FileStores as TopicStore>⟧.stands) }
{}

/// An upgrade is refused for one fault of the files that it finds, and for none where they are a folder of either version.
pub fn upgrades_have_one_fault()
    ensures { UpgradesHaveOneFault }
{}
