//! Scripts of leases.

use crate::step::LeaseStep;
use zeus_base::List;

/// Steps in order.
pub type LeaseSteps = List<LeaseStep>;

/// A script of leases: how many nodes there are, and the steps.
#[derive(Debug, Drop)]
pub struct LeaseScript {
    pub nodes: u8,
    /// How long a lease is, by the clock of its node.
    pub length: u64,
    /// By how many percent one clock may go faster than another.
    pub percent: u64,
    pub steps: LeaseSteps,
}
