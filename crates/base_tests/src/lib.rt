//! Tests of numbers, node sets, values, transactions, letters and names: typical calls with their answers.
#![tactic(auto)]

#[cfg(test)]
mod tests;
