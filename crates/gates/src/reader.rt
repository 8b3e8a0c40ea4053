ghost use Rattle.std.specs.Prelude.{◌≡◌};

use bells::Bells;
use std::sync::atomic::{AtomicU64, Ordering};
use std::sync::{Mutex, Wait};
use workers::{Numbered, Point, Turnstile};

/// A reader's turnstile. It wakes the writer where a reply was given since it was last asked, or the session has ended, and waits
/// while too much stands unwritten.
#[derive(Drop)]
pub struct ReaderGate<'a, R: Wait> {
    rt: &'a R,
    bells: &'a Bells,
    session: &'a Mutex<Numbered>,
    place: u8,
    /// How many bytes of replies had been given when it was last asked. One thread alone asks.
    seen: AtomicU64,
}

/// How a session stands.
#[derive(Clone, Copy)]
struct Standing {
    replied: u64,
    has_room: bool,
    is_over: bool,
}

fn look<R: Wait>(rt: &R, session: &Mutex<Numbered>) -> Standing {
    let numbered = session.lock(rt);
    Standing {
        replied: numbered.replied(),
        has_room: numbered.has_room(),
        is_over: numbered.is_over(),
    }
}

impl<'a, R: Wait> ReaderGate<'a, R> {
    /// The turnstile of the connection at this place, whose session hasn't given a reply yet.
    pub fn new(
        rt: &'a R,
        bells: &'a Bells,
        session: &'a Mutex<Numbered>,
        place: u8,
    ) -> ReaderGate<'a, R>
        ensures { (result.bells ≡ bells.entry) × (result.session ≡ session.entry) × (result.place ≡ place) }
    {
        ReaderGate {
            rt,
            bells,
            session,
            place,
            seen: AtomicU64::new(0),
        }
    }
}

impl<'a, R: Wait> Turnstile for ReaderGate<'a, R> {
    fn pass(&self, _point: Point) -> bool {
        for _ in self.rt.forever() {
            let now = look(self.rt, self.session);
            if now.is_over || self.seen.swap(now.replied, Ordering::SeqCst) != now.replied {
                self.bells.ring_writer(self.place);
            }
            if now.is_over {
                return false;
            }
            if now.has_room {
                return true;
            }
            // The writer may have written all since it last told how much, and sleep: its next turn tells it.
            self.bells.ring_writer(self.place);
            self.bells.wait_reader(self.rt, self.place);
        }
        unreachable!()
    }
}
