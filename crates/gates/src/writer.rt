ghost use Rattle.std.specs.Prelude.{◌≡◌};

use bells::Bells;
use std::sync::atomic::{AtomicBool, Ordering};
use std::sync::{Mutex, Wait};
use workers::{Numbered, Point, Turnstile};

/// A writer's turnstile. It wakes a reader that waits for room, and waits until it is rung; where the last turn stopped at a
/// bound of its own, the next one comes at once. Once the connection is to end it lets one turn more pass, which writes what is due.
#[derive(Drop)]
pub struct WriterGate<'a, R: Wait> {
    rt: &'a R,
    bells: &'a Bells,
    session: &'a Mutex<Numbered>,
    place: u8,
    /// Whether the last turn was let pass. One thread alone asks.
    is_last: AtomicBool,
}

fn has_more<R: Wait>(rt: &R, session: &Mutex<Numbered>) -> bool {
    session.lock(rt).has_more()
}

impl<'a, R: Wait> WriterGate<'a, R> {
    /// The turnstile of the connection at this place.
    pub fn new(
        rt: &'a R,
        bells: &'a Bells,
        session: &'a Mutex<Numbered>,
        place: u8,
    ) -> WriterGate<'a, R>
        ensures { (result.bells ≡ bells.entry) × (result.session ≡ session.entry) × (result.place ≡ place) }
    {
        WriterGate {
            rt,
            bells,
            session,
            place,
            is_last: AtomicBool::new(false),
        }
    }
}

impl<'a, R: Wait> Turnstile for WriterGate<'a, R> {
    fn pass(&self, _point: Point) -> bool {
        self.bells.ring_reader(self.place);
        if self.is_last.load(Ordering::SeqCst) {
            return false;
        }
        if !has_more(self.rt, self.session) {
            self.bells.wait_writer(self.rt, self.place);
        }
        self.is_last
            .store(self.bells.is_to_end(self.place), Ordering::SeqCst);
        true
    }
}
