// Who waits for a topic, by the places of their connections.
ghost use Rattle.std.specs.Prelude.{◌≡◌, ◌↔◌, true, false, IfSome, IfNone, ℕ};
ghost use Rattle.bells.specs.Marking.{no_marks, all_marks, is_marked, with_mark, without_mark};

use bells::{Crowd, Marks, Members};

/// Who waits for a topic: those whom a flush owes a reply, those whose consumers were given nothing, and those whose readers have a
/// SEND for which there is no room. Beside them stand all who asked for a producer or a consumer, since an opening behind a failure
/// leaves them none.
#[derive(Drop)]
pub struct Waiting {
    pub(crate) owed: Marks,
    pub(crate) hungry: Marks,
    pub(crate) crowd: Crowd,
    pub(crate) members: Members,
}

impl Waiting {
    /// Nobody waits.
    pub const fn new() -> Waiting
        ensures marks { (result.owed ≡ no_marks) × (result.hungry ≡ no_marks) }
        ensures crowd { result.crowd.waits ≡ no_marks }
        ensures members { result.members.places ≡ no_marks }
    {
        Waiting {
            owed: Marks::new(),
            hungry: Marks::new(),
            crowd: Crowd::new(),
            members: Members::new(),
        }
    }

    /// A flush owes this place a reply. Answers whether it owed none to anybody.
    pub fn owe(&mut self, place: u8) -> bool
        ensures first { (result ≡ true) ↔ (self.old.owed ≡ no_marks) }
        ensures owed { self.new ≡ record self.old { owed = with_mark self.old.owed place } }
    {
        let first = self.owed.is_empty();
        self.owed.add(place);
        first
    }

    /// The next flush owes a reply to whoever is there, since one that took what was owed has committed nothing.
    pub fn owe_all(&mut self)
        ensures { self.new ≡ record self.old { owed = all_marks } }
    {
        self.owed = Marks::all();
    }

    /// Whom a flush owes a reply that takes all that waits.
    pub fn take_owed(&mut self) -> Marks
        ensures taken { result ≡ self.old.owed }
        ensures left { self.new ≡ record self.old { owed = no_marks } }
    {
        self.owed.take()
    }

    /// A consumer of this place was given nothing.
    pub fn starve(&mut self, place: u8)
        ensures { self.new ≡ record self.old { hungry = with_mark self.old.hungry place } }
    {
        self.hungry.add(place);
    }

    /// Whose consumers were given nothing, since they were taken last.
    pub fn take_hungry(&mut self) -> Marks
        ensures taken { result ≡ self.old.hungry }
        ensures left { self.new ≡ record self.old { hungry = no_marks } }
    {
        self.hungry.take()
    }
}
