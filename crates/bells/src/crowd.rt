ghost use Rattle.std.specs.Prelude.{◌≡◌, ◌<◌, ◌≤◌, ℕ, true, false, IfSome, IfNone};
ghost use Rattle.bells.specs.Marking.{is_marked, with_mark, without_mark};

/// The connections whose readers wait for room, by their places. They are called in turn.
#[derive(Drop)]
pub struct Crowd {
    waits: [bool; 256],
    /// The place that was called last.
    last: u8,
}

impl Crowd {
    ghost use Rattle.bells.specs.Marking.{no_marks};

    /// Nobody waits.
    pub const fn new() -> Crowd
        ensures { result.waits ≡ no_marks }
    {
        Crowd {
            waits: [false; 256],
            last: 0,
        }
    }

    /// This place waits, until it leaves.
    pub fn enter(&mut self, place: u8)
        ensures { self.new ≡ record self.old { waits = with_mark self.old.waits place } }
    {
        self.waits[usize::from(place)] = true;
    }

    /// This place doesn't wait.
    pub fn leave(&mut self, place: u8)
        ensures { self.new ≡ record self.old { waits = without_mark self.old.waits place } }
    {
        self.waits[usize::from(place)] = false;
    }

    /// The next place that waits, behind the one that was called last, and round from the first. It goes on waiting.
    pub fn call(&mut self) -> Option<u8>
        ensures some { IfSome result (λ place. (is_marked self.old.waits place ≡ true) × (self.new ≡ record self.old { last = place })) }
        ensures none { IfNone result ((place : ℕ) → is_marked self.old.waits place ≡ false) }
    {
        let behind = usize::from(self.last) + 1;
        let place = match first_marked(&self.waits, behind, 256) {
            Some(place) => place,
            None => first_marked(&self.waits, 0, behind)?,
        };
        self.last = place;
        Some(place)
    }
}

/// The first place from one number on and below another one that is marked.
fn first_marked(marks: &[bool; 256], from: usize, end: usize) -> Option<u8>
    requires { end ≤ 256 }
    ensures some { IfSome result (λ place. (from ≤ place) × (place < end) × (is_marked marks.now place ≡ true)) }
    ensures first { IfSome result (λ place. (before : ℕ) → from ≤ before → before < place → is_marked marks.now before ≡ false) }
    ensures none { IfNone result ((place : ℕ) → from ≤ place → place < end → is_marked marks.now place ≡ false) }
{
    for place in from..end {
        if marks[place] {
            return Some(place as u8);
        }
    }
    None
}
