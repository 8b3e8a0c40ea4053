ghost use Rattle.std.specs.Prelude.{◌≡◌};

use bells::Bells;
use std::sync::Wait;
use std::sync::atomic::{AtomicBool, Ordering};
use workers::{Point, Turnstile};

/// A flusher's turnstile. It waits until its topic owes somebody a reply, and lets no turn pass once all are to stop.
#[derive(Drop)]
pub struct FlusherGate<'a, R: Wait> {
    rt: &'a R,
    bells: &'a Bells,
    stop: &'a AtomicBool,
}

impl<'a, R: Wait> FlusherGate<'a, R> {
    /// A turnstile of all flushers, which have to be rung once they are told to stop.
    pub fn new(rt: &'a R, bells: &'a Bells, stop: &'a AtomicBool) -> FlusherGate<'a, R>
        ensures { (result.bells ≡ bells.entry) × (result.stop ≡ stop.entry) }
    {
        FlusherGate { rt, bells, stop }
    }
}

impl<'a, R: Wait> Turnstile for FlusherGate<'a, R> {
    fn pass(&self, point: Point) -> bool {
        if let Point::Flush(topic) = point {
            self.bells.wait_flusher(self.rt, topic);
        }
        !self.stop.load(Ordering::SeqCst)
    }
}
