//! Tests of the pipeline of commits: typical calls with their answers.
#![tactic(auto)]

#[cfg(test)]
mod tests;
