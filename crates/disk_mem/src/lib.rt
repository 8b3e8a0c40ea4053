//! A device in memory, whose power can be cut and which fails when told to. It keeps each file's present
//! bytes, its bytes at the last good sync and the ranges written since, so a call costs in proportion to
//! its own bytes, and a crash leaves exactly what its form says. What was before is kept for proofs alone.
#![tactic(auto)]

mod crash;
mod device;
mod file;
mod files;
mod fuses;
mod settle;
mod shelf;
mod span;
mod steps;

pub use shelf::MemShelf;
