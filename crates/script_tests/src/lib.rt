//! Scripts and the lines that a replay prints, tried at lines of each form, good and bad, and at answers worked out by
//! hand. They stand in a crate of their own, so that the check of the scripts is short. Nothing is promised here.
#![tactic(auto)]

#[cfg(test)]
mod tests;
