//! Tests of the rules of local transactions at a whole node: typical calls with their answers.
#![tactic(auto)]

#[cfg(test)]
mod tests;
