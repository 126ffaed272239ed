//! Tests of the words of a bank, and of the text of its run.
#![tactic(auto)]

#[cfg(test)]
mod tests;
