ghost use Rattle.std.specs.Prelude.{◌≡◌, ◌↔◌, ℕ, true, false, Bool, List};
ghost use Rattle.bells.specs.Marking.{no_marks, all_marks, is_marked, with_mark};

use std::marker::Model;
use std::mem;

/// A set of the numbers below 256, which are places of connections. Contracts see which of them are marked.
#[derive(Drop)]
pub struct Marks {
    places: [bool; 256],
    any: bool,
}

impl Model for Marks {
    ghost use Rattle.std.specs.Prelude.{◌≡◌, ◌↔◌, true, false, Bool, List};
    ghost use Rattle.bells.specs.Marking.{no_marks};

    ghost Value = { List Bool };

    ghost view = { λ m. m.places };

    ghost invariant = { λ m. (m.any ≡ false) ↔ (m.places ≡ no_marks) };
}

impl Marks {
    /// No place is marked.
    pub const fn new() -> Marks
        ensures { result ≡ no_marks }
    {
        Marks {
            places: [false; 256],
            any: false,
        }
    }

    /// All places are marked.
    pub const fn all() -> Marks
        ensures { result ≡ all_marks }
    {
        Marks {
            places: [true; 256],
            any: true,
        }
    }

    /// Whether no place is marked.
    pub fn is_empty(&self) -> bool
        ensures { (result ≡ true) ↔ (self.now ≡ no_marks) }
    {
        !self.any
    }

    /// Whether this place is marked.
    pub fn has(&self, place: u8) -> bool
        ensures { result ≡ is_marked self.now place }
    {
        self.places[usize::from(place)]
    }

    /// Marks a place, also one that is marked.
    pub fn add(&mut self, place: u8)
        ensures { self.new ≡ with_mark self.old place }
    {
        self.any = true;
        self.places[usize::from(place)] = true;
    }

    /// The marks, of which none is left.
    pub fn take(&mut self) -> Marks
        ensures taken { result ≡ self.old }
        ensures left { self.new ≡ no_marks }
    {
        mem::replace(self, Marks::new())
    }
}
