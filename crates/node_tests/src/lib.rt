//! Tests of the node and of the links: typical calls with their answers.
#![tactic(auto)]

#[cfg(test)]
mod tests;
