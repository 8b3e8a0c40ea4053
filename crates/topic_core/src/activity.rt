// What a topic has done beside accepting SENDs and handing out receipts, which its summary tells.
ghost use Rattle.std.specs.Prelude.{◌≡◌, ◌-◌};
ghost use Rattle.topic_core.specs.Activity.{none_so_far, with_message, with_changes, with_flush};

/// What a topic has done since the node was opened, each counted up to 2^64 - 1. An opening of the failed topic goes on with it.
#[derive(Clone, Copy, Debug, PartialEq, Eq)]
pub struct Activity {
    /// How many messages consumers were given, repeated ones too.
    pub messages: u64,
    /// How many changes ACKs made: one for each position of an individual ACK, and one for a cumulative one.
    pub acknowledgements: u64,
    /// How many flushes ended well that had something to do.
    pub flushes: u64,
    /// How many bytes the entries have that these committed.
    pub bytes: u64,
}

impl Activity {
    /// Nothing was done.
    pub fn new() -> Activity
        ensures { result ≡ none_so_far }
    {
        Activity {
            messages: 0,
            acknowledgements: 0,
            flushes: 0,
            bytes: 0,
        }
    }

    /// A consumer was given a message, or nothing.
    pub fn give(&mut self, is_message: bool)
        ensures { self.new ≡ with_message is_message self.old }
    {
        if is_message {
            self.messages = self.messages.saturating_add(1);
        }
    }

    /// A command was worked before and behind which so many changes waited. Those of an ACK count.
    pub fn work(&mut self, is_ack: bool, before: usize, behind: usize)
        ensures { self.new ≡ with_changes is_ack (behind - before) self.old }
    {
        if is_ack {
            let more = behind.saturating_sub(before) as u64;
            self.acknowledgements = self.acknowledgements.saturating_add(more);
        }
    }

    /// A flush ended, well or not, before and behind which the entries that waited had so many bytes.
    pub fn flush(&mut self, is_good: bool, before: u64, behind: u64)
        ensures { self.new ≡ with_flush is_good (before - behind) self.old }
    {
        if is_good {
            self.flushes = self.flushes.saturating_add(1);
            self.bytes = self.bytes.saturating_add(before.saturating_sub(behind));
        }
    }
}
