//! Tests of rings from one thread to another: typical calls with their answers.
#![tactic(auto)]

#[cfg(test)]
mod tests;
