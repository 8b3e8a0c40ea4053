ghost use Rattle.std.specs.Prelude.{◌≡◌};
ghost use Rattle.bells.specs.Marking.{no_marks, is_marked, with_mark, without_mark};

use std::mem;

/// The connections that use something, by their places: each from when it enters until it leaves, or all are taken.
#[derive(Drop)]
pub struct Members {
    places: [bool; 256],
}

impl Members {
    /// Nobody uses it.
    pub const fn new() -> Members
        ensures { result.places ≡ no_marks }
    {
        Members {
            places: [false; 256],
        }
    }

    /// Whether the connection at this place uses it.
    pub fn has(&self, place: u8) -> bool
        ensures { result ≡ is_marked self.now.places place }
    {
        self.places[usize::from(place)]
    }

    /// The connection at this place uses it.
    pub fn enter(&mut self, place: u8)
        ensures { self.new ≡ record self.old { places = with_mark self.old.places place } }
    {
        self.places[usize::from(place)] = true;
    }

    /// The connection at this place doesn't use it any more.
    pub fn leave(&mut self, place: u8)
        ensures { self.new ≡ record self.old { places = without_mark self.old.places place } }
    {
        self.places[usize::from(place)] = false;
    }

    /// Who uses it. Nobody does then.
    pub fn take(&mut self) -> Members
        ensures taken { result ≡ self.old }
        ensures left { self.new.places ≡ no_marks }
    {
        mem::replace(self, Members::new())
    }
}
