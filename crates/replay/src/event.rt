ghost use Rattle.std.specs.Prelude.{◌≡◌};
ghost use Rattle.replay.specs.Event.{form_of, task_of, outcome_of, fault_of, refusal_of};

use disk::{CrashForm, Fuse};
use node::{Event, Octets, Refusal, TopicEvent, Verdict};
use script::{CrashAs, Line, Outcome, SessionFault, StorageRefusal};
use session::Fault;

/// What a line of a script asks of the machine.
#[derive(Drop)]
pub(crate) enum Task {
    /// An event of its node.
    Event(Event),
    /// An order for a failure of its device.
    Arm(Fuse),
    /// That the power is cut, which leaves files of this form, and comes back.
    Crash(CrashForm),
    /// Its status lines.
    Status,
}

/// What a line asks.
pub(crate) fn task_of(line: Line) -> Task
    ensures { result ≡ task_of line }
{
    match line {
        Line::Open => Task::Event(Event::Open),
        Line::Bytes { session, bytes } => {
            Task::Event(Event::Bytes(session, Octets::new(bytes.into_vec())))
        }
        Line::Pump(session) => Task::Event(Event::Pump(session)),
        Line::Close(session) => Task::Event(Event::Close(session)),
        Line::Flush(topic) => Task::Event(Event::OnTopic(topic, TopicEvent::Flush)),
        Line::Take(topic) => Task::Event(Event::OnTopic(topic, TopicEvent::Take)),
        Line::Write(topic) => Task::Event(Event::OnTopic(topic, TopicEvent::Write)),
        Line::Finish(topic) => Task::Event(Event::OnTopic(topic, TopicEvent::Finish)),
        Line::Reopen(topic) => Task::Event(Event::OnTopic(topic, TopicEvent::Reopen)),
        Line::Fail(call) => Task::Arm(Fuse::Fail(call)),
        Line::Stop(call) => Task::Arm(Fuse::Stop(call)),
        Line::FailRead(read) => Task::Arm(Fuse::FailRead(read)),
        Line::Crash(left) => Task::Crash(form_of(left)),
        Line::Status => Task::Status,
    }
}

fn form_of(left: CrashAs) -> CrashForm
    ensures { result ≡ form_of left }
{
    match left {
        CrashAs::Old => CrashForm::Old,
        CrashAs::New => CrashForm::New,
        CrashAs::Fill(byte) => CrashForm::Fill(byte),
    }
}

/// How an event ended, as a line of output says it.
pub(crate) fn outcome_of(verdict: Verdict) -> Outcome
    ensures { result ≡ outcome_of verdict }
{
    match verdict {
        Verdict::Done => Outcome::Done,
        Verdict::Ended(fault) => Outcome::Ended(fault_of(fault)),
        Verdict::Refused(refusal) => Outcome::Refused(refusal_of(refusal)),
        Verdict::Full => Outcome::Full,
        Verdict::Unknown => Outcome::Unknown,
    }
}

fn refusal_of(refusal: Refusal) -> StorageRefusal
    ensures { result ≡ refusal_of refusal }
{
    match refusal {
        Refusal::Device => StorageRefusal::Device,
        Refusal::Damaged { .. } => StorageRefusal::Damaged,
        Refusal::NotInitialised => StorageRefusal::NotInitialised,
        Refusal::Version => StorageRefusal::Version,
        Refusal::NoMemory => StorageRefusal::NoMemory,
        Refusal::TooLarge => StorageRefusal::TooLarge,
    }
}

fn fault_of(fault: Fault) -> SessionFault
    ensures { result ≡ fault_of fault }
{
    match fault {
        Fault::TooLarge => SessionFault::TooLarge,
        Fault::BadSizes => SessionFault::BadSizes,
        Fault::Unreadable => SessionFault::Unreadable,
        Fault::Missing => SessionFault::Missing,
        Fault::BadPayload => SessionFault::BadPayload,
        Fault::UnknownCommand => SessionFault::UnknownCommand,
        Fault::OutOfTurn => SessionFault::OutOfTurn,
        Fault::TooManyPermits => SessionFault::TooManyPermits,
        Fault::NoMemory => SessionFault::NoMemory,
    }
}
