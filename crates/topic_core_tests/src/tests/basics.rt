// A topic that works: what a flush and an opening make of it, reads that fail, and a file that is cut.
ghost use Rattle.std.specs.Prelude.{◌≤◌, IfOk};
ghost use Rattle.topic_core_tests.specs.Matching.{AreMatched};

use super::{PLAIN, Seen, Topic, producer, refusal, send, subscribe};
use disk::{CrashShelf, FileId, Folder, Fuse, Shelf, TopicId};
use gated_log::Refusal;
use permits::BothEnds;
use std::alloc::Global;
use std::test::Fail;
use topic_core::{
    FileStores, TopicCore, TopicStore, answers_are_no_receipts, answers_fit,
    commands_hand_out_nothing, entries_are_published, flushes_commit, flushes_keep,
    ids_are_positions, messages_are_admitted, messages_are_counted, messages_go_to_their_ranges,
    receipts_are_covered, stays_sound, topics_go_on,
};

// How many entries of a new topic a flush commits, and one behind it.
fn flush_twice(topic: &mut Topic, alloc: Global) -> Result<(usize, usize), Refusal>
    requires { AreMatched topic.old.core topic.old.stores }
{
    topic.ask(0, producer(alloc)?)?;
    topic.ask(0, send(alloc, 7)?)?;
    Ok((topic.flush()?, topic.flush()?))
}

// The same, and whether the store's first entry is what was sent.
fn flush_and_read(topic: &mut Topic, alloc: Global) -> Result<((usize, usize), bool), Refusal>
    requires { AreMatched topic.old.core topic.old.stores }
{
    let counted = flush_twice(topic, alloc)?;
    let read = topic.stores.read(&mut topic.shelf, 0)?;
    Ok((counted, read.as_slice() == PLAIN))
}

// A flush counts the entries that it commits, and the store has their bytes.
#[test]
fn flush_never_has_memory(rt: HostRuntime) -> Result<(), Fail> {
    let mut topic = Topic::new(rt.alloc())?;
    let seen = flush_and_read(&mut topic, rt.alloc());
    drop(topic);
    assert_eq!(rt; seen?, ((1, 0), true));
    Ok(())
}

// The power is cut behind a flush, and the files are opened again.
fn restart(topic: &mut Topic, alloc: Global) -> Result<(), Refusal>
    requires { AreMatched topic.old.core topic.old.stores }
    ensures { IfOk result (λ _. AreMatched topic.new.core topic.new.stores) }
{
    topic.wait(alloc)?;
    topic.flush()?;
    topic.shelf.crash();
    let (core, stores) = TopicCore::open(alloc, &mut topic.shelf, 0, 1)?;
    topic.core = core;
    topic.stores = stores;
    Ok(())
}

// How many subscriptions the store of an opened topic has, and the first message of the one's next consumer.
fn go_on(topic: &mut Topic, alloc: Global) -> Result<(usize, Option<u64>), Refusal>
    requires { AreMatched topic.old.core topic.old.stores }
{
    restart(topic, alloc)?;
    let kept = topic.stores.kept()?.len();
    topic.ask(2, subscribe(alloc)?)?;
    Ok((kept, topic.next(2)?))
}

// An opening finds the entries and the subscription, which goes on where it was.
#[test]
fn open_never_has_memory(rt: HostRuntime) -> Result<(), Fail> {
    let mut topic = Topic::new(rt.alloc())?;
    let seen = go_on(&mut topic, rt.alloc());
    let counts = topic.counts();
    drop(topic);
    assert_eq!(rt; (seen?, counts), ((1, Some(1)), (3, 3)));
    Ok(())
}

// The refusal of a message whose read fails, and the position of the message that is then asked for.
fn read_again(topic: &mut Topic, alloc: Global) -> Result<(Option<Refusal>, Option<u64>), Refusal>
    requires { AreMatched topic.old.core topic.old.stores }
{
    topic.begin(alloc)?;
    topic.shelf.arm(Fuse::FailRead(1))?;
    let refused = refusal(topic.next(1).err())?;
    Ok((refused, topic.next(1)?))
}

// A read that fails is told, and its entry is there for the next message.
#[test]
fn a_failing_read_changes_nothing(rt: HostRuntime) -> Result<(), Fail> {
    let mut topic = Topic::new(rt.alloc())?;
    let seen = read_again(&mut topic, rt.alloc());
    drop(topic);
    assert_eq!(rt; seen?, (Some(Refusal::Device), Some(0)));
    Ok(())
}

// The first entry of a segment stands at 26: behind a header, the gate, the length and the kind of its batch, and its own length.
const FIRST: FileId = FileId::Segment {
    topic: TopicId {
        folder: Folder::Two,
        number: 0,
    },
    number: 0,
};

// The message whose entry is cut.
fn read_cut(topic: &mut Topic, alloc: Global) -> Result<Seen, Refusal>
    requires { AreMatched topic.old.core topic.old.stores }
{
    topic.begin(alloc)?;
    topic.shelf.cut(FIRST, 36)?;
    let refused = refusal(topic.next(1).err())?;
    Ok(topic.seen(refused))
}

// A file that is cut behind an open topic is damage where the entry stood, and the topic goes on.
#[test]
fn a_file_cut_behind_an_open_topic_is_damage(rt: HostRuntime) -> Result<(), Fail> {
    let mut topic = Topic::new(rt.alloc())?;
    let seen = read_cut(&mut topic, rt.alloc());
    drop(topic);
    let damage = Refusal::Damaged {
        file: FIRST,
        offset: 42,
    };
    assert_eq!(rt; seen?, (Some(damage), false, 1));
    Ok(())
}

// Whether session 0 has its producer, and session 1 its consumer.
fn has(core: &TopicCore<BothEnds>) -> (bool, bool) {
    (core.has_producer(0, 1), core.has_consumer(1, 5))
}

// What sessions have before and after they leave.
fn leave(topic: &mut Topic, alloc: Global) -> Result<((bool, bool), (bool, bool)), Refusal>
    requires { AreMatched topic.old.core topic.old.stores }
{
    topic.begin(alloc)?;
    let before = has(&topic.core);
    topic.core.leave(0);
    topic.core.leave(1);
    Ok((before, has(&topic.core)))
}

// A producer and a consumer are gone once their sessions left.
#[test]
fn what_a_session_had_goes_with_it(rt: HostRuntime) -> Result<(), Fail> {
    let mut topic = Topic::new(rt.alloc())?;
    let seen = leave(&mut topic, rt.alloc());
    drop(topic);
    assert_eq!(rt; seen?, ((true, true), (false, false)));
    Ok(())
}

// The most bytes that may wait.
const MOST_BYTES: usize = 16_777_216;

// Whether there is room for so many bytes beside what waits, and for one more.
fn room(core: &TopicCore<BothEnds>, len: usize) -> (bool, bool)
    requires { len ≤ 16777216 }
{
    (core.has_room(len), core.has_room(len + 1))
}

// The room of a new topic, the one beside an entry that waits, and the one behind its flush.
fn fill(
    topic: &mut Topic,
    alloc: Global,
) -> Result<((bool, bool), (bool, bool), (bool, bool)), Refusal>
    requires { AreMatched topic.old.core topic.old.stores }
{
    topic.core.show_sound();
    let new = room(&topic.core, MOST_BYTES);
    topic.ask(0, producer(alloc)?)?;
    topic.ask(0, send(alloc, 7)?)?;
    let waiting = room(&topic.core, MOST_BYTES - PLAIN.len());
    topic.flush()?;
    Ok((new, waiting, room(&topic.core, MOST_BYTES)))
}

// What waits takes its bytes from the room, and a flush gives them back.
#[test]
fn room_is_what_the_waiting_entries_leave(rt: HostRuntime) -> Result<(), Fail> {
    let mut topic = Topic::new(rt.alloc())?;
    let seen = fill(&mut topic, rt.alloc());
    drop(topic);
    let just = (true, false);
    assert_eq!(rt; seen?, (just, just, just));
    Ok(())
}

// What is said of answers and of what waits.
fn call_laws_of_answers() {
    answers_fit();
    answers_are_no_receipts();
    entries_are_published();
    commands_hand_out_nothing();
    stays_sound();
}

// What is said of messages, ids and receipts.
fn call_laws_of_messages() {
    messages_are_admitted();
    messages_are_counted();
    messages_go_to_their_ranges();
    ids_are_positions();
    receipts_are_covered();
}

// What is said of flushes, and of a topic on its device.
fn call_laws_of_flushes() {
    flushes_commit();
    flushes_keep();
    topics_go_on();
}

// Each law of the topic can be called, and asks nothing.
#[test]
fn laws_cost_nothing() {
    call_laws_of_answers();
    call_laws_of_messages();
    call_laws_of_flushes();
}
