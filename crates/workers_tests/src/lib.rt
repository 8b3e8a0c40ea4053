//! The loops of a connection, their gates and their bells: in one thread, in two over streams whose ends are known, and over a
//! socket. They stand in a crate of their own, so that the checks of the loops are short. Nothing is promised here.
#![tactic(auto)]

#[cfg(test)]
mod tests;
