// The two ends of a permit word in one place.
ghost use Rattle.std.specs.Prelude.{◌≡◌, ◌-◌, ◌≤◌, max, Some, None};
ghost use Rattle.permits.specs.Ends.{sent_of};

use crate::ends::{Granter, Taker, permits};
use crate::gauge::{Fresh, Gauge, Grant};
use crate::plain::{PlainTold, TooManyPermits};
use std::alloc::{AllocError, Global};
use std::marker::Model;

/// Both ends of a word. The one that takes is told at once of what the other grants, so what is known is all that was granted.
#[derive(Drop)]
pub struct BothEnds {
    granter: Granter,
    taker: Taker,
}

impl Model for BothEnds {
    ghost use Rattle.permits.specs.Ends.{Takes};

    ghost Value = { Takes };

    ghost use Rattle.std.specs.Prelude.{◌≡◌, ◌^◌, ◌≤◌};

    ghost view = { λ g. record { word = g.taker.word; taken = g.taker.taken; known = g.granter.granted; debt = g.taker.debt; looks = 0 } };

    ghost invariant = { λ g. (g.granter.word ≡ g.taker.word) × (g.granter.granted ≤ g.taker.known) × (g.granter.granted ≤ 2 ^ 62) × (g.taker.debt ≤ 1048575) };
}

impl Gauge for BothEnds {
    type Told = PlainTold;

    ghost sent = { sent_of };

    ghost known = { λ g. g.known };

    ghost word = { λ g. None };

    ghost tells = { λ t. t.known };

    ghost told_of = { λ t. None };

    ghost exact = { Unit {0} };

    ghost looks = { λ g. g.looks };

    fn sent(&self) -> u64 {
        self.taker.sent()
    }

    fn left(&self) -> u64 {
        self.granter.count().saturating_sub(self.taker.sent())
    }

    fn learn(&mut self, told: PlainTold) {
        let missing = told.granted().saturating_sub(self.granter.count());
        let granted = self.grant(missing);
        prove!(granted.is_ok());
    }

    fn look(&mut self) -> bool {
        self.taker.sent() < self.granter.count()
    }

    fn take(&mut self, messages: u32) -> bool {
        if self.taker.sent() >= self.granter.count() {
            return false;
        }
        let is_taken = self.taker.take(messages);
        prove!(is_taken);
        true
    }

    fn close(&mut self) {
        self.taker.close();
        // By what each end knows of the other, more may have been taken than was granted here; it is nothing.
        let missing = self.taker.count() - self.granter.count();
        let granted = self.granter.grant(missing);
        prove!(granted.is_ok());
    }
}

impl Fresh for BothEnds {
    fn fresh(alloc: Global, _granter: &mut Option<Granter>) -> Result<BothEnds, AllocError> {
        let (granter, taker) = permits(alloc)?;
        Ok(BothEnds { granter, taker })
    }
}

impl Grant for BothEnds {
    fn grant(&mut self, count: u64) -> Result<(), TooManyPermits> {
        self.granter.grant(count)?;
        let told = self.granter.told();
        self.taker.learn(told);
        Ok(())
    }
}
