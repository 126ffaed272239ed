//! Tests of storms, leases and audits: what the program answers and writes for each.
#![tactic(auto)]

#[cfg(test)]
mod tests;
