//! Tests of what a node sends again at a tick: typical calls with their answers.
#![tactic(auto)]

#[cfg(test)]
mod tests;
