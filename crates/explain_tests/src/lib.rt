//! Tests of the line that explains the first fault of a script.
#![tactic(auto)]

#[cfg(test)]
mod tests;
