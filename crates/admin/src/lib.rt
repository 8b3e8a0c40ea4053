//! What an operator is shown of a broker. The status lines of topics are written whole and in the order in which the topics
//! are handed in, and nothing else is. A fault of the writer is handed on, and how much went out then isn't said.
#![tactic(auto)]

mod status;
#[cfg(test)]
mod tests;

pub use status::{print_status, print_topic};
