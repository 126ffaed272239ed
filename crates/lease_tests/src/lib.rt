//! Tests of scripts of leases: how they are read, and how each step is answered.
#![tactic(auto)]

#[cfg(test)]
mod tests;
