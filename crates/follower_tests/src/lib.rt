//! Tests of the logs of a follower: typical calls with their answers.
#![tactic(auto)]

#[cfg(test)]
mod tests;
