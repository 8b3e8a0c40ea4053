//! The device over real files: beside the device in memory, at folders and files that aren't there or aren't what they
//! should be, and over a runtime that counts the calls of the system, fails one of them, or moves few bytes at a time. They
//! stand in a crate of their own, so that the check of the device is short. Nothing is promised here.
#![tactic(auto)]

#[cfg(test)]
mod tests;
