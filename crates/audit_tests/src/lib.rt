//! Tests of the audit: the reports of the examples, and injured lines of each rule.
#![tactic(auto)]

#[cfg(test)]
mod tests;
