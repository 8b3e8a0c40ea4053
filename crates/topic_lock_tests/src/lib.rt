//! Topics behind their locks over devices in memory, worked by several threads at once: what their ports settle, and that nobody
//! waits for a session that is held, nor for a write. They stand in a crate of their own, so that the check of the locks is
//! short. Nothing is promised here.
#![tactic(auto)]

#[cfg(test)]
mod tests;
