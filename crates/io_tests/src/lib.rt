//! Tests of sources and sinks, and of the words of a command: typical calls with their answers.
#![tactic(auto)]

#[cfg(test)]
mod tests;
