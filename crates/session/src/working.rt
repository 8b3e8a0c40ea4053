ghost use Rattle.std.specs.Prelude.{◌≡◌, [], true, OnSome, IfSome};
ghost use Rattle.frames.specs.declared.frame.FrameEntry.{FrameEntry};
ghost use Rattle.session.specs.Client.{Client, Play, play, Speaks, Writes};
ghost use Rattle.session.specs.Working.{WorksCommand, is_alone, asked_by, names_in, SearchesIn, Connects, FrameStep, FramesStep, first_fault, feed_result, FeedStep};

use crate::fault::Fault;
use crate::port::Port;
use crate::session::Session;
use commands::{Command, Reply};
use frames::Frame;

impl Session {
    /// Works the frames that are whole with these bytes, in order. The first fault, of a frame or behind the frames,
    /// ends the session; each later feed answers it and does nothing else.
    pub fn feed<P: Port>(
        &mut self,
        bytes: &[u8],
        port: &mut P,
        out: &mut Vec<u8>,
    ) -> Result<(), Fault>
        ensures step { P.sole port.old → FeedStep (P.fails port.old port.new) (play self.old (P.broker port.old) out.old.items) bytes.now result
            (play self.new (P.broker port.new) out.new.items) }

        // Whoever else uses the broker:
        ensures result { result ≡ feed_result self.new.fault }
        ensures ended { IfSome self.old.fault (λ why. (self.new ≡ self.old) × (out.new.items ≡ out.old.items)) }
        ensures number { self.new.number ≡ self.old.number }
        ensures writes { Writes out.old.items out.new.items }
        ensures works { SearchesIn self.old bytes.now (λ names. P.works names port.old port.new) }
    {
        if let Some(why) = self.fault {
            return Err(why);
        }
        let mut frames = Vec::new(self.alloc);
        let read = self.parser.feed(bytes, &mut frames);
        self.work_all(frames, port, out);
        self.end_if(read);
        match self.leave_if_ended(port) {
            None => Ok(()),
            Some(why) => Err(why),
        }
    }

    /// The fault of its stream ends a session that has none yet.
    fn end_if(&mut self, read: Result<(), frames::Fault>)
        ensures { self.new ≡ record self.old { fault = first_fault self.old.fault read } }
    {
        if self.fault.is_some() {
            return;
        }
        if let Err(flaw) = read {
            self.fault = Some(Fault::from(flaw));
        }
    }

    fn work_all<P: Port>(&mut self, frames: Vec<Frame>, port: &mut P, out: &mut Vec<u8>)
        ensures step { P.sole port.old → FramesStep (P.fails port.old port.new) (play self.old (P.broker port.old) out.old.items) frames.items
            (play self.new (P.broker port.new) out.new.items) }
        ensures speaks { Speaks self.old out.old.items self.new out.new.items }
        ensures works { P.works (names_in frames.items) port.old port.new }
    {
        for frame in frames {
            self.work(frame, port, out);
        }
    }

    /// Works a frame. A session that has ended works none.
    fn work<P: Port>(&mut self, frame: Frame, port: &mut P, out: &mut Vec<u8>)
        ensures step { P.sole port.old → FrameStep (P.fails port.old port.new) (play self.old (P.broker port.old) out.old.items) frame
            (play self.new (P.broker port.new) out.new.items) }
        ensures speaks { Speaks self.old out.old.items self.new out.new.items }
        ensures works { P.works (asked_by frame.command) port.old port.new }
    {
        if self.fault.is_some() {
            drop(frame);
            return;
        }
        if self.connected {
            return self.work_command(frame, port, out);
        }
        self.connect(&frame.command, port, out);
        drop(frame);
    }

    /// Works a command after CONNECT.
    fn work_command<P: Port>(&mut self, frame: Frame, port: &mut P, out: &mut Vec<u8>)
        ensures step { P.sole port.old → WorksCommand (P.fails port.old port.new) (play self.old (P.broker port.old) out.old.items) frame.command frame.entry
            (play self.new (P.broker port.new) out.new.items) }
        ensures speaks { Speaks self.old out.old.items self.new out.new.items }
        ensures works { P.works (asked_by frame.command) port.old port.new }
    {
        let Frame { command, entry } = frame;
        match command {
            Command::Send(asked) => self.send(asked, entry, port, out),
            command => {
                drop(entry);
                self.work_alone(command, port, out)
            }
        }
    }

    /// Works a command behind which no entry is read.
    fn work_alone<P: Port>(&mut self, command: Command, port: &mut P, out: &mut Vec<u8>)
        requires { is_alone command ≡ true }
        ensures step { P.sole port.old → (entry : FrameEntry) → WorksCommand (P.fails port.old port.new) (play self.old (P.broker port.old) out.old.items) command entry
            (play self.new (P.broker port.new) out.new.items) }
        ensures speaks { Speaks self.old out.old.items self.new out.new.items }
        ensures works { P.works (asked_by command) port.old port.new }
    {
        match command {
            Command::Connect(_) => self.end_by(Fault::OutOfTurn),
            Command::Producer(asked) => self.open(asked, port, out),
            Command::Send(_) => unreachable!(),
            Command::Subscribe(asked) => self.subscribe(asked, port, out),
            Command::Flow(asked) => self.flow(asked, port, out),
            Command::Ack(asked) => self.ack(asked, port, out),
            Command::Unsubscribe(asked) => self.unsubscribe(asked, port, out),
            Command::CloseProducer(asked) => self.close(asked, port, out),
            Command::CloseConsumer(asked) => self.close_consumer(asked, port, out),
            Command::Ping => self.say(&Reply::Pong, out),
            Command::Pong => {}
            Command::RedeliverUnacknowledgedMessages(asked) => self.redeliver(asked, port, out),
            Command::PartitionedMetadata(asked) => self.tell_partitions(&asked, out),
            Command::Lookup(asked) => self.look_up(&asked, port, out),
            Command::Other(_) => self.end_by(Fault::UnknownCommand),
        }
    }

    /// Works CONNECT ("PulsarApi.proto, CommandConnect"), or ends the session for another command before it.
    fn connect<P: Port>(&mut self, command: &Command, port: &P, out: &mut Vec<u8>)
        ensures step { Connects (play self.old (P.broker port.now) out.old.items) command.now (play self.new (P.broker port.now) out.new.items) }
        ensures speaks { Speaks self.old out.old.items self.new out.new.items }
    {
        match command {
            Command::Connect(_) => {
                self.connected = true;
                self.say(&Reply::Connected, out)
            }
            Command::Producer(_)
            | Command::Send(_)
            | Command::Subscribe(_)
            | Command::Flow(_)
            | Command::Ack(_)
            | Command::Unsubscribe(_)
            | Command::CloseProducer(_)
            | Command::CloseConsumer(_)
            | Command::Ping
            | Command::Pong
            | Command::RedeliverUnacknowledgedMessages(_)
            | Command::PartitionedMetadata(_)
            | Command::Lookup(_) => self.end_by(Fault::OutOfTurn),
            Command::Other(_) => self.end_by(Fault::UnknownCommand),
        }
    }
}
