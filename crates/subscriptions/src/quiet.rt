// The sessions for which nothing was found.
ghost use Rattle.std.specs.Prelude.{◌≡◌, ◌%◌, ℕ, List, cond, nat_eq, Some, None, true};
ghost use Rattle.subscriptions.specs.Quiet.{AreQuiet, IsQuiet, no_notes, noted};
ghost use Rattle.subscriptions.specs.State.{Subscription as State};

use std::marker::Model;

/// Nothing was found for the consumers of a session at a committed length.
#[derive(Clone, Copy)]
pub(crate) struct Note {
    pub(crate) session: u64,
    pub(crate) committed: u64,
}

/// For a session, the committed length at which nothing was found for its consumers, until something may have changed that. A
/// note stands in the slot of its session's number; of the sessions of one slot the last one that was noted has it.
#[derive(Drop)]
pub(crate) struct Quiet {
    notes: [Option<Note>; 64],
}

impl Model for Quiet {
    ghost use Rattle.std.specs.Prelude.{List, Option};
    ghost use Rattle.subscriptions.specs.declared.quiet.Note.{Note};

    ghost Value = { List (Option Note) };

    ghost view = { λ q. q.notes };
}

/// The slot for a session's note.
fn slot_of(who: u64) -> usize
    ensures { result ≡ who % 64 }
{
    (who % 64) as usize
}

/// The committed length at which nothing was found for the session, if one is noted.
fn noted(notes: &[Option<Note>; 64], who: u64) -> Option<u64>
    ensures { result ≡ noted who notes.now }
{
    let slot = notes[slot_of(who)];
    match slot {
        Some(note) if note.session == who => Some(note.committed),
        _ => None,
    }
}

impl Quiet {
    pub(crate) fn new() -> Quiet
        ensures { result ≡ no_notes }
    {
        Quiet { notes: [None; 64] }
    }

    /// Whether nothing was found for the session at this committed length.
    pub(crate) fn is_noted(&self, who: u64, committed: u64) -> bool
        ensures { result ≡ true → noted who self.now ≡ Some committed }
    {
        match noted(&self.notes, who) {
            Some(noted) => noted == committed,
            None => false,
        }
    }

    /// Nothing was found for the session.
    pub(crate) fn note(&mut self, who: u64, committed: u64)
        ensures { (subs : List State) → AreQuiet subs self.old → IsQuiet who committed subs → AreQuiet subs self.new }
    {
        self.notes[slot_of(who)] = Some(Note {
            session: who,
            committed,
        });
    }

    /// Something may be for the session.
    pub(crate) fn forget(&mut self, who: u64)
        ensures { (q : ℕ) → noted q self.new ≡ cond (nat_eq q who) None (noted q self.old) }
    {
        if noted(&self.notes, who).is_some() {
            self.notes[slot_of(who)] = None;
        }
    }

    /// Something may be for any session.
    pub(crate) fn clear(&mut self)
        ensures { self.new ≡ no_notes }
    {
        self.notes = [None; 64];
    }
}
