//! Every move keeps each object's placements ordered and each stream's entries replicated.
#![tactic(auto)]
