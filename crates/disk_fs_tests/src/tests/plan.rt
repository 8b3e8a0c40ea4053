// By what the calls of the system are counted, and one of them is told to fail.
use std::cell::Cell;
use std::io;
use std::io::ErrorKind;
use watched_files::{Call, Watch};

/// A failure to come: this call, or any where there is none, of which so many more are made, the failing one among them.
#[derive(Clone, Copy)]
pub(crate) struct Failure {
    call: Option<Call>,
    left: u64,
    kind: ErrorKind,
}

/// What is counted, and what is to go wrong.
#[derive(Drop)]
pub(crate) struct Plan {
    counts: Cell<[u64; 7]>,
    failure: Cell<Option<Failure>>,
    // The most bytes that one read or write moves.
    piece: Cell<usize>,
}

impl Plan {
    pub(crate) fn new() -> Plan {
        Plan {
            counts: Cell::new([0; 7]),
            failure: Cell::new(None),
            piece: Cell::new(usize::MAX),
        }
    }

    /// How many of these calls were made.
    pub(crate) fn count(&self, call: Call) -> u64 {
        self.counts.get()[call as usize]
    }

    /// How many calls were made.
    pub(crate) fn total(&self) -> u64 {
        let mut total = 0u64;
        for count in self.counts.get() {
            total = total.wrapping_add(count);
        }
        total
    }

    /// The nth of these calls from now fails, once.
    pub(crate) fn fail(&self, call: Option<Call>, n: u64, kind: ErrorKind) {
        self.failure.set(Some(Failure {
            call,
            left: n,
            kind,
        }));
    }

    /// Whether a failure is still to come.
    pub(crate) fn is_armed(&self) -> bool {
        self.failure.get().is_some()
    }

    /// From now on a read or a write moves so many bytes at most.
    pub(crate) fn move_at_most(&self, piece: usize) {
        self.piece.set(piece);
    }
}

impl Watch for Plan {
    // Counts the call, and fails where that was ordered.
    fn meet(&self, call: Call) -> io::Result<()> {
        let mut counts = self.counts.get();
        let count = &mut counts[call as usize];
        *count = count.wrapping_add(1);
        self.counts.set(counts);
        let Some(mut failure) = self.failure.get() else {
            return Ok(());
        };
        if failure.call.is_some_and(|it| it != call) {
            return Ok(());
        }
        if failure.left <= 1 {
            self.failure.set(None);
            return Err(io::Error::from(failure.kind));
        }
        failure.left -= 1;
        self.failure.set(Some(failure));
        Ok(())
    }

    fn piece(&self) -> usize {
        self.piece.get()
    }
}
