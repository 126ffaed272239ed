//! Tests of what reads and writes scripts: their lines, numbers, names and values.
#![tactic(auto)]

#[cfg(test)]
mod tests;
