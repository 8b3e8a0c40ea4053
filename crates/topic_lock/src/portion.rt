// How much a port hands out in a turn.
ghost use Rattle.std.specs.Prelude.{◌≡◌, ◌||◌, false, length};
ghost use Rattle.topic_lock.specs.Portions.{is_full, left_behind};

use topic_core::Outgoing;

/// So many bytes of entries a port hands out in a turn at most, unless a message is longer than the one before, or than this. Our own rule:
/// for a client that reads nothing the broker holds so much.
const MOST_BYTES: u64 = 1_048_576;

/// What a port may hand out in its turn.
#[derive(Drop)]
pub(crate) struct Portion {
    /// How many bytes of entries are left; none, where a message as long as the last one is longer.
    left: u64,
    /// Whether a message was asked for where nothing was left.
    is_cut_short: bool,
}

impl Portion {
    /// Nothing was handed out yet.
    pub(crate) const fn new() -> Portion
        ensures { result ≡ record { left = 1048576; is_cut_short = false } }
    {
        Portion {
            left: MOST_BYTES,
            is_cut_short: false,
        }
    }

    /// Whether a message is asked for where nothing is left, which then has to wait for the next turn.
    pub(crate) fn ends(&mut self) -> bool
        ensures full { result ≡ is_full self.old }
        ensures noted { self.new ≡ record self.old { is_cut_short = self.old.is_cut_short || is_full self.old } }
    {
        let is_full = self.left == 0;
        self.is_cut_short = self.is_cut_short || is_full;
        is_full
    }

    /// Whether one was, so that the next turn has to come at once.
    pub(crate) fn is_cut_short(&self) -> bool
        ensures { result ≡ self.now.is_cut_short }
    {
        self.is_cut_short
    }

    /// Counts a message.
    pub(crate) fn add(&mut self, message: &Outgoing)
        ensures { self.new ≡ record self.old { left = left_behind self.old.left (length message.now.entry) } }
    {
        let length = message.entry.len() as u64;
        let left = self.left.saturating_sub(length);
        self.left = if left < length { 0 } else { left };
    }
}
