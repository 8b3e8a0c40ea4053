//! Who sleeps, and who is to be woken. `Marks`, `Crowd` and `Members` are sets of the places of connections: in the first a place
//! is marked from the call that adds it to the call that takes them all; in the others it stays until it leaves, and those that
//! wait in a crowd are called in turn. Of `Bells`, on which threads sleep, it is proved only that calls are safe.
#![tactic(auto)]

mod bells;
mod crowd;
mod marks;
mod members;

pub use bells::{Bells, PLACES};
pub use crowd::Crowd;
pub use marks::Marks;
pub use members::Members;
