//! Tests of `folder` over real folders, of which some can't be opened, written or synced.
#![tactic(auto)]

#[cfg(test)]
mod tests;
