//! Tests of what whoever looks at a served broker is shown: whole pages and whole exchanges, over a board that is told what to tell.
//! Nothing is promised here.
#![tactic(auto)]

#[cfg(test)]
mod tests;
