//! A test of the words that random schedules are chosen by.
#![tactic(auto)]

#[cfg(test)]
mod tests;
