//! Tests of reliable commit: typical calls with their answers.
#![tactic(auto)]

#[cfg(test)]
mod tests;
