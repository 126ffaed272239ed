//! Tests of membership and of the replay after a crash: typical calls with their answers.
#![tactic(auto)]

#[cfg(test)]
mod tests;
