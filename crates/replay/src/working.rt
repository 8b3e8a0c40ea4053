// A replay under way: the machine that it works the lines of a script on.
ghost use Rattle.std.specs.Prelude.{◌≡◌, ◌⊎◌, ◌+◌, ◌<◌, ◌≤◌, ◌^◌, [], IfOk};
ghost use Rattle.catalog.specs.Names.{IsPerLedger};
ghost use Rattle.node.specs.Driving.{shelf_in, segments_known, Holds};
ghost use Rattle.node.specs.Runs.{Life};
ghost use Rattle.script.specs.Output.{output_line as line_of_output};
ghost use Rattle.replay.specs.declared.event.Task.TheVariants as task;
ghost use Rattle.replay.specs.Cause.{DeviceOnlyIf, NewDeviceFailed};
ghost use Rattle.replay.specs.Event.{task_of};
ghost use Rattle.replay.specs.Replay.{printed_output, StatusOf, Moment, Begun, WorksTask, WorksLines, Writes};

use crate::event::{Task, outcome_of, task_of};
use crate::fault::ProgramFault;
use crate::sink::Sink;
use admin::print_topic;
use disk::{CrashForm, Fuse, Shelf};
use disk_mem::MemShelf;
use node::{EntriesPerLedger, Event, Machine, Node, Output, ReplyText, Site};
use script::{Line, Outcome, StorageRefusal, output_line};
use std::alloc::{AllocError, Global};
use topic_core::FileStores;

/// By which clients find a replay's broker.
const SERVICE_URL: &str = "pulsar://replay";

/// A broker whose device is in memory.
type Broker = Machine<FileStores, MemShelf>;

/// A replay under way.
#[derive(Drop)]
pub(crate) struct Replay {
    alloc: Global,
    machine: Broker,
    /// Of the last line that was worked.
    line: u64,
}

/// What a replay's machine lives through, and with which device.
trait Living {
    ghost lives: { Self → Moment → Type 0 };
}

impl Living for Replay {
    ghost lives = { λ replay moment. (moment.device ≡ shelf_in replay.machine) × Holds (⟦<MemShelf as Shelf>⟧.disk) replay.machine moment.life × (moment.known ≡ segments_known replay.machine) };
}

impl Replay {
    /// Makes the files of a broker without topics, opens a node over them, and writes the line of this.
    pub(crate) fn begin<W: Sink>(
        alloc: Global,
        per_ledger: u32,
        sink: &mut W,
    ) -> Result<Replay, ProgramFault>
        requires ledgers { IsPerLedger per_ledger }
        ensures begun { Begun (⟦<Replay as Living>⟧.lives) per_ledger (W.contents sink.old) (W.contents sink.new) result }
        ensures line { IfOk result (λ replay. replay.line ≡ 1) }
        ensures cause { DeviceOnlyIf ((NewDeviceFailed × (sink.new ≡ sink.old)) ⊎ W.can_fail) result }
    {
        let Some(per_ledger) = EntriesPerLedger::new(per_ledger) else {
            unreachable!();
        };
        let url = ReplyText::new(String::from_str(alloc, SERVICE_URL)?);
        let mut shelf = MemShelf::new(alloc);
        Node::<FileStores, MemShelf>::init(alloc, per_ledger, &mut shelf)?;
        let (machine, output) = Machine::start(alloc, Site { url, shelf });
        write_output(alloc, 1, &output, sink)?;
        Ok(Replay {
            alloc,
            machine,
            line: 1,
        })
    }

    /// Works the lines in order, and writes what each one prints.
    pub(crate) fn work_lines<W: Sink>(
        mut self,
        lines: Vec<Line>,
        sink: &mut W,
    ) -> Result<(), ProgramFault>
        requires line { self.line ≡ 1 }
        ensures works { (old : Moment) → ⟦<Replay as Living>⟧.lives self old → WorksLines 2 old lines.items (W.contents sink.old) (W.contents sink.new) result }
        ensures cause { DeviceOnlyIf W.can_fail result }
    {
        for line in lines {
            self = self.work_line(line, sink)?;
        }
        Ok(())
    }

    // Works one line more.
    fn work_line<W: Sink>(mut self, line: Line, sink: &mut W) -> Result<Replay, ProgramFault>
        requires line { self.line + 1 < 2 ^ 64 }
        ensures works { (old : Moment) → ⟦<Replay as Living>⟧.lives self old → WorksTask (⟦<Replay as Living>⟧.lives) (self.line + 1) old (task_of line) (W.contents sink.old) (W.contents sink.new) result }
        ensures line { IfOk result (λ replay. replay.line ≡ self.line + 1) }
        ensures cause { DeviceOnlyIf W.can_fail result }
    {
        self.line += 1;
        match task_of(line) {
            Task::Event(event) => self.event(event, sink),
            Task::Arm(fuse) => self.arm(fuse, sink),
            Task::Crash(form) => self.crash(form, sink),
            Task::Status => self.status(sink),
        }
    }

    fn event<W: Sink>(mut self, event: Event, sink: &mut W) -> Result<Replay, ProgramFault>
        ensures works { (old : Moment) → ⟦<Replay as Living>⟧.lives self old → WorksTask (⟦<Replay as Living>⟧.lives) self.line old (task.Event event) (W.contents sink.old) (W.contents sink.new) result }
        ensures line { IfOk result (λ replay. replay.line ≡ self.line) }
        ensures cause { DeviceOnlyIf W.can_fail result }
    {
        let output = self.machine.event(self.alloc, event);
        self.print(&output, sink)
    }

    fn arm<W: Sink>(mut self, fuse: Fuse, sink: &mut W) -> Result<Replay, ProgramFault>
        ensures works { (old : Moment) → ⟦<Replay as Living>⟧.lives self old → WorksTask (⟦<Replay as Living>⟧.lives) self.line old (task.Arm fuse) (W.contents sink.old) (W.contents sink.new) result }
        ensures line { IfOk result (λ replay. replay.line ≡ self.line) }
        ensures cause { DeviceOnlyIf W.can_fail result }
    {
        if self.machine.arm(fuse).is_err() {
            return self.tell(Outcome::Refused(StorageRefusal::NoMemory), sink);
        }
        self.tell(Outcome::Done, sink)
    }

    fn crash<W: Sink>(mut self, form: CrashForm, sink: &mut W) -> Result<Replay, ProgramFault>
        ensures works { (old : Moment) → ⟦<Replay as Living>⟧.lives self old → WorksTask (⟦<Replay as Living>⟧.lives) self.line old (task.Crash form) (W.contents sink.old) (W.contents sink.new) result }
        ensures line { IfOk result (λ replay. replay.line ≡ self.line) }
        ensures cause { DeviceOnlyIf W.can_fail result }
    {
        if self.machine.arm(Fuse::CrashAs(form)).is_err() {
            return self.tell(Outcome::Refused(StorageRefusal::NoMemory), sink);
        }
        let (machine, output) = self.machine.crash(self.alloc);
        self.machine = machine;
        self.print(&output, sink)
    }

    fn status<W: Sink>(self, sink: &mut W) -> Result<Replay, ProgramFault>
        ensures works { (old : Moment) → ⟦<Replay as Living>⟧.lives self old → WorksTask (⟦<Replay as Living>⟧.lives) self.line old task.Status (W.contents sink.old) (W.contents sink.new) result }
        ensures line { IfOk result (λ replay. replay.line ≡ self.line) }
        ensures cause { DeviceOnlyIf W.can_fail result }
    {
        let text = self.topics_text()?;
        sink.write_whole(text.as_slice())?;
        Ok(self)
    }

    // The lines of all topics, in the order of their numbers; none where the node is down. An error is want of memory.
    fn topics_text(&self) -> Result<Vec<u8>, AllocError>
        ensures { (life : Life) → Holds (⟦<MemShelf as Shelf>⟧.disk) self.now.machine life → IfOk result (λ text. StatusOf life.up life.state (⟦<MemShelf as Shelf>⟧.disk (shelf_in self.now.machine)).seen (segments_known self.now.machine) text.items) }
    {
        let mut text = Vec::new(self.alloc);
        let mut topic = 0;
        while let Some(status) = self.machine.status(topic)? {
            // A writer in memory fails for want of it alone.
            if print_topic(&status, &mut text).is_err() {
                return Err(AllocError);
            }
            topic += 1;
        }
        Ok(text)
    }

    // Writes the line of an output, and goes on.
    fn print<W: Sink>(self, output: &Output, sink: &mut W) -> Result<Replay, ProgramFault>
        ensures writes { Writes (printed_output self.line output.now) (W.contents sink.old) (W.contents sink.new) result }
        ensures same { IfOk result (λ replay. replay ≡ self) }
        ensures cause { DeviceOnlyIf W.can_fail result }
    {
        write_output(self.alloc, self.line, output, sink)?;
        Ok(self)
    }

    // Writes a line without bytes, and goes on.
    fn tell<W: Sink>(self, outcome: Outcome, sink: &mut W) -> Result<Replay, ProgramFault>
        ensures writes { Writes (line_of_output self.line [] outcome) (W.contents sink.old) (W.contents sink.new) result }
        ensures same { IfOk result (λ replay. replay ≡ self) }
        ensures cause { DeviceOnlyIf W.can_fail result }
    {
        write_line(self.alloc, self.line, &[], outcome, sink)?;
        Ok(self)
    }
}

// Writes the line of an output, or a front of it.
fn write_output<W: Sink>(
    alloc: Global,
    number: u64,
    output: &Output,
    sink: &mut W,
) -> Result<(), ProgramFault>
    ensures writes { Writes (printed_output number output.now) (W.contents sink.old) (W.contents sink.new) result }
    ensures cause { DeviceOnlyIf W.can_fail result }
{
    let outcome = outcome_of(output.result);
    write_line(alloc, number, output.bytes.as_slice(), outcome, sink)
}

fn write_line<W: Sink>(
    alloc: Global,
    number: u64,
    bytes: &[u8],
    outcome: Outcome,
    sink: &mut W,
) -> Result<(), ProgramFault>
    ensures writes { Writes (line_of_output number bytes.now outcome) (W.contents sink.old) (W.contents sink.new) result }
    ensures cause { DeviceOnlyIf W.can_fail result }
{
    let line = output_line(alloc, number, bytes, outcome)?;
    sink.write_whole(line.as_bytes())
}
