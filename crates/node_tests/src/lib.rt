//! A node and a machine over a device in memory, tried on events and a crash, and on the outputs that they must have. Failures
//! and crashes within calls are tried by whole exchanges of the program. They stand in a crate of their own, so that the check of the node is short.
#![tactic(auto)]

#[cfg(test)]
mod tests;
