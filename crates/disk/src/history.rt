// What was, for proofs alone.
ghost use Rattle.std.specs.Prelude.{◌≡◌, List, [], ◌∷◌, ◌++◌};
ghost use Rattle.std.specs.Borrow.{ftrue};

use std::marker::{Model, PhantomData};

/// A list that only proofs read, as `items`. It takes no memory, has no greatest length, and its
/// calls do nothing at run time.
#[derive(Drop)]
pub struct History<T> {
    of: PhantomData<T>,
    pub ghost items: { List T },
}

impl<T> Model for History<T> {
    ghost also_owns = { λ _. ftrue };
}

// It owns nothing.
unsafe impl<T: Send> Send for History<T> {}

impl<T> History<T> {
    /// Nothing was yet.
    pub fn new() -> History<T>
        ensures { result.items ≡ [] }
    {
        History { of: PhantomData }
    }

    /// This history, and then `last`.
    pub fn and(&self, last: &T) -> History<T>
        ensures { result.items ≡ self.now.items ++ last.now ∷ [] }
    {
        History { of: PhantomData }
    }
}
