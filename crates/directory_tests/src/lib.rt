//! Tests of the directory and of the entries of owners: typical calls with their answers.
#![tactic(auto)]

#[cfg(test)]
mod tests;
