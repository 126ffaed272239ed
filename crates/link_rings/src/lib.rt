//! Rings from one thread to another, each with a head that both ends know and a rule that what it carries keeps.
#![tactic(auto)]

mod item;
mod ring_in;
mod ring_out;
mod rings;
mod rule;

pub use ring_in::RingIn;
pub use ring_out::{Full, RingOut};
pub use rings::ring;
pub use rule::Rule;
