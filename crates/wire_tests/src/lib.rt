//! Tests of packets as bytes.
#![tactic(auto)]

#[cfg(test)]
mod tests;
