// The slot that doesn't count.

/// What is known of the header of the slot that doesn't count.
#[derive(Clone, Copy, Debug, PartialEq, Eq)]
pub enum Spare {
    /// It is cut short.
    Short,
    /// It is whole, and its gate is closed.
    Shut,
    /// It is open, with a lower generation.
    Lower,
}
