//! Tests of the copies of a node and of reads on them: typical calls with their answers.
#![tactic(auto)]

#[cfg(test)]
mod tests;
