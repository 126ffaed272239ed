//! Tests of local write transactions: typical calls with their answers.
#![tactic(auto)]

#[cfg(test)]
mod tests;
