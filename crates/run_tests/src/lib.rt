//! Tests of the runs of scripts: the reports of the examples, and runs at the ends of the limits.
#![tactic(auto)]

#[cfg(test)]
mod tests;
