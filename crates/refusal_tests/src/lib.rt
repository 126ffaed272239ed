//! Tests of words and scripts that are refused: each with the line that tells why.
#![tactic(auto)]

#[cfg(test)]
mod tests;
