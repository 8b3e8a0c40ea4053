//! Topics over managed ledgers and cursor stores on a device in memory, in what no exchange of the program can show: what a
//! flush counts, reads that fail, a file that is cut behind an open topic, and want of memory in the midst of a flush and of
//! an opening. They stand in a crate of their own, so that the check of the topic is short. Nothing is promised here.
#![tactic(auto)]

#[cfg(test)]
mod tests;
