//! A served broker over devices in memory, with both ends of its sockets in one program. It stands in a crate of its own, so that the
//! check of the server is short. Nothing is promised here.
#![tactic(auto)]

#[cfg(test)]
mod tests;
