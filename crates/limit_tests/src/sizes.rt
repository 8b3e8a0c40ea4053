ghost use Rattle.std.specs.Prelude.{◌≡◌, length, map};
ghost use Rattle.std.specs.List.{flat_map};
ghost use Rattle.gated_log.specs.Folds.{Link};

use gated_log::{Fold, Label};
use std::alloc::{AllocError, Global};

/// The size of each body of some logs, in bytes.
#[derive(Drop)]
pub(crate) struct Sizes {
    pub(crate) sizes: Vec<usize>,
}

impl Sizes {
    pub(crate) fn new(alloc: Global) -> Sizes {
        Sizes {
            sizes: Vec::new(alloc),
        }
    }
}

impl Fold for Sizes {
    type Rule = ();

    ghost rule = { λ fold. tt };

    ghost form = { λ rule logs. Unit {0} };

    ghost holds = { λ fold logs. fold.sizes.items ≡ flat_map (λ (log : Link). map length log.bodies) logs };

    fn begin(&mut self, _: Label) -> Result<bool, AllocError> {
        Ok(true)
    }

    fn body(&mut self, body: &[u8]) -> Result<bool, AllocError> {
        self.sizes.push(body.len())?;
        Ok(true)
    }

    ghost holds_form = { λ fold logs held. tt };

    ghost form_before = { λ rule logs log is. tt };

    ghost form_less = { λ rule logs log body is. tt };
}
