// Which consumers' messages can't be read.
ghost use Rattle.std.specs.Prelude.{◌≡◌, ◌≤◌, ◌<◌, IfSome};

use std::alloc::Global;

/// How long nobody tries again who couldn't read a message, in milliseconds: so long at first, twice as long each time, and so long
/// at most. Our own rule.
const FIRST_PAUSE: u64 = 20;

const LONGEST_PAUSE: u64 = 1000;

/// The log tells of so many consumers of a session at most. Our own rule.
const MOST_TOLD: usize = 64;

/// A consumer of a session, by its topic and its id.
#[derive(Clone, Copy, Debug, PartialEq, Eq)]
pub(crate) struct Reading {
    pub(crate) topic: u64,
    pub(crate) consumer_id: u64,
}

/// The consumers of a session whose next message couldn't be read when that was last tried, and how long it isn't tried again.
#[derive(Drop)]
pub(crate) struct Troubles {
    told: Vec<Reading>,
    /// Whether a message couldn't be read in this turn.
    is_met: bool,
    pause: u64,
    ghost short: { (0 < pause) × (pause ≤ 1000) },
}

impl Troubles {
    /// All could be read.
    pub(crate) fn new(alloc: Global) -> Troubles {
        Troubles {
            told: Vec::new(alloc),
            is_met: false,
            pause: FIRST_PAUSE,
        }
    }

    /// A consumer's message can't be read. Answers whether the log is to tell that.
    pub(crate) fn meet(&mut self, reading: Reading) -> bool {
        self.is_met = true;
        if self.told.len() >= MOST_TOLD || self.told.iter().any(|it| *it == reading) {
            return false;
        }
        // Where memory is refused the next try is told, too.
        let _ = self.told.push(reading);
        true
    }

    /// A consumer's message was read, or stood in memory. Answers whether the log told that none could be.
    pub(crate) fn end(&mut self, reading: Reading) -> bool {
        let Some(place) = self.told.iter().position(|it| *it == reading) else {
            return false;
        };
        self.told.swap_remove(place);
        true
    }

    /// How long it isn't tried again, in milliseconds, where a message couldn't be read in this turn, which ends.
    pub(crate) fn end_turn(&mut self) -> Option<u64>
        ensures { IfSome result (λ pause. (0 < pause) × (pause ≤ 1000)) }
    {
        let pause = self.pause;
        if !self.is_met {
            self.pause = FIRST_PAUSE;
            return None;
        }
        self.is_met = false;
        self.pause = LONGEST_PAUSE.min(pause * 2);
        Some(pause)
    }
}
