//! Worked runs: for each a script, its text, and what a run of it prints, byte for byte, as theorems about the machine.
#![tactic(auto)]

mod answers;
mod commit;
mod failures;
mod ownership;

pub use answers::{busy_slot, no_copy_to_read, refused_steps, texts_as_values};
pub use commit::{
    followers_of_two_objects, full_pipeline, late_validation, one_node_alone, pending_read_holds,
    repeated_packets, second_entry_first, wrapping_sum, write_here_read_there,
};
pub use failures::{
    decision_in_an_old_epoch, lost_object, new_owner_stops, survivor_replays,
    what_was_stored_survives,
};
pub use ownership::{
    kept_from_a_greater_node, ownership_moves, reader_comes_and_goes, request_during_commit,
    two_drivers,
};
