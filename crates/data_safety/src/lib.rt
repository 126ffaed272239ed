//! The data are safe: copies, contents and replies are those of one serial history.
#![tactic(auto)]
