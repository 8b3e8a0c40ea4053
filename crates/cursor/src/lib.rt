//! A cursor is the set of the positions that a subscription has acknowledged: all below its
//! mark-delete position, and after that the individually acknowledged ranges, which never touch.
//! Its calls are those of a finite set of positions; only `ack`, `ack_range` and `clone` take
//! memory, and where it is refused nothing has changed.
#![tactic(auto)]

mod acknowledged;
mod ranges;

pub use acknowledged::Cursor;
