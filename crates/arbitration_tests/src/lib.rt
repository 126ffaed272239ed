//! Tests of the arbitration of who owns an object: typical calls with their answers.
#![tactic(auto)]

#[cfg(test)]
mod tests;
