//! Tests of sources and sinks that fail: what the program answers, and what it wrote before.
#![tactic(auto)]

#[cfg(test)]
mod tests;
