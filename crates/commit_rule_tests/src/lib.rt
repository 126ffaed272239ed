//! Tests of the rules of reliable commit at a whole node: typical calls with their answers.
#![tactic(auto)]

#[cfg(test)]
mod tests;
