// What the files of a troubled broker are told.
ghost use Rattle.std.specs.Prelude.{◌≡◌, ◌-◌, ◌<◌, true, false};

use std::io;
use std::io::ErrorKind;
use std::sync::{Mutex, Wait};
use std::thread::Parker;
use std::time::Duration;
use watched_files::{Call, Watch};

/// What the calls of one kind are told.
#[derive(Drop)]
struct Order {
    /// How long each takes besides, in milliseconds.
    delay: u64,
    /// So many go well before some fail.
    passing: u64,
    /// So many fail then.
    failing: u64,
}

/// What reads, writes and syncs are told. Nobody else is told anything.
#[derive(Drop)]
pub(crate) struct Orders<'a, R> {
    rt: &'a R,
    reads: Mutex<Order>,
    writes: Mutex<Order>,
    syncs: Mutex<Order>,
}

impl Order {
    const fn new() -> Order {
        Order {
            delay: 0,
            passing: 0,
            failing: 0,
        }
    }

    // A call is made: whether it fails.
    fn meet(&mut self) -> bool
        ensures passes { 0 < self.old.passing → (result ≡ false) × (self.new.passing ≡ self.old.passing - 1) × (self.new.failing ≡ self.old.failing) }
        ensures fails { self.old.passing ≡ 0 → 0 < self.old.failing → (result ≡ true) × (self.new.passing ≡ 0) × (self.new.failing ≡ self.old.failing - 1) }
        ensures rests { self.old.passing ≡ 0 → self.old.failing ≡ 0 → (result ≡ false) × (self.new.passing ≡ 0) × (self.new.failing ≡ 0) }
        ensures delay { self.new.delay ≡ self.old.delay }
    {
        if self.passing > 0 {
            self.passing -= 1;
            return false;
        }
        if self.failing > 0 {
            self.failing -= 1;
            return true;
        }
        false
    }
}

// Waits as long as a call is told to take, and fails where it is told to.
fn obey<R: Wait>(rt: &R, order: &Mutex<Order>) -> io::Result<()> {
    let mut order = order.lock(rt);
    let delay = order.delay;
    let fails = order.meet();
    drop(order);
    if delay > 0 {
        Parker::new().park_timeout(rt, Duration::from_millis(delay));
    }
    if fails {
        return Err(io::Error::from(ErrorKind::Other));
    }
    Ok(())
}

impl<'a, R: Wait> Orders<'a, R> {
    /// Nobody is told anything.
    pub(crate) fn new(rt: &'a R) -> Orders<'a, R> {
        Orders {
            rt,
            reads: Mutex::new(Order::new()),
            writes: Mutex::new(Order::new()),
            syncs: Mutex::new(Order::new()),
        }
    }

    // What this kind of call is told.
    fn of(&self, kind: &str) -> Option<&Mutex<Order>> {
        match kind {
            "read" => Some(&self.reads),
            "write" => Some(&self.writes),
            "sync" => Some(&self.syncs),
            _ => None,
        }
    }

    /// Takes a line: `delay KIND MILLISECONDS`, or `fail KIND COUNT BEHIND` where so many calls go well before the first that fails.
    /// Answers whether it is one.
    pub(crate) fn take(&self, line: &str) -> bool {
        let mut words = line.split_whitespace();
        let (Some(what), Some(kind), Some(count)) = (words.next(), words.next(), words.next())
        else {
            return false;
        };
        let (Some(order), Ok(count)) = (self.of(kind), count.parse::<u64>()) else {
            return false;
        };
        match (what, words.next()) {
            ("delay", None) => order.lock(self.rt).delay = count,
            ("fail", Some(behind)) => {
                let Ok(behind) = behind.parse::<u64>() else {
                    return false;
                };
                let mut order = order.lock(self.rt);
                order.passing = behind;
                order.failing = count;
            }
            _ => return false,
        }
        true
    }
}

impl<'a, R: Wait> Watch for Orders<'a, R> {
    fn meet(&self, call: Call) -> io::Result<()> {
        match call {
            Call::Read => obey(self.rt, &self.reads),
            Call::Write => obey(self.rt, &self.writes),
            Call::SyncFile | Call::SyncFolder => obey(self.rt, &self.syncs),
            Call::Open | Call::Length | Call::SetLength => Ok(()),
        }
    }

    fn piece(&self) -> usize {
        usize::MAX
    }
}
