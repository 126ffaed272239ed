//! Worked runs of commits: entries are stored in order, acknowledged, and validated late.
ghost use Rattle.std.specs.Prelude.{◌≡◌};
ghost use Rattle.zeus_model.specs.ReportText.{report};
ghost use Rattle.zeus_model.specs.Spelling.{spelling};
ghost use Rattle.worked_runs.specs.OneNodeAlone.{one_node_alone_script, one_node_alone_text, one_node_alone_report};
ghost use Rattle.worked_runs.specs.WriteHereReadThere.{write_here_read_there_script, write_here_read_there_text, write_here_read_there_report};
ghost use Rattle.worked_runs.specs.LateValidation.{late_validation_script, late_validation_text, late_validation_report};
ghost use Rattle.worked_runs.specs.RepeatedPackets.{repeated_packets_script, repeated_packets_text, repeated_packets_report};
ghost use Rattle.worked_runs.specs.SecondEntryFirst.{second_entry_first_script, second_entry_first_text, second_entry_first_report};
ghost use Rattle.worked_runs.specs.FollowersOfTwoObjects.{followers_of_two_objects_script, followers_of_two_objects_text, followers_of_two_objects_report};
ghost use Rattle.worked_runs.specs.FullPipeline.{full_pipeline_script, full_pipeline_text, full_pipeline_report};
ghost use Rattle.worked_runs.specs.PendingReadHolds.{pending_read_holds_script, pending_read_holds_text, pending_read_holds_report};
ghost use Rattle.worked_runs.specs.WrappingSum.{wrapping_sum_script, wrapping_sum_text, wrapping_sum_report};

/// A write at a node that is alone passes at once.
pub fn one_node_alone()
    ensures script { spelling one_node_alone_script ≡ one_node_alone_text }
    ensures printed { report one_node_alone_script ≡ one_node_alone_report }
{}

/// A write at node 0 is read at node 1 once its entry has passed there.
pub fn write_here_read_there()
    ensures script { spelling write_here_read_there_script ≡ write_here_read_there_text }
    ensures printed { report write_here_read_there_script ≡ write_here_read_there_report }
{}

/// A copy is invalid until a validation comes, which a tick sends again.
pub fn late_validation()
    ensures script { spelling late_validation_script ≡ late_validation_text }
    ensures printed { report late_validation_script ≡ late_validation_report }
{}

/// A packet that comes again is answered again and changes nothing.
pub fn repeated_packets()
    ensures script { spelling repeated_packets_script ≡ repeated_packets_text }
    ensures printed { report repeated_packets_script ≡ repeated_packets_report }
{}

/// An entry that comes before the one below it is not stored.
pub fn second_entry_first()
    ensures script { spelling second_entry_first_script ≡ second_entry_first_text }
    ensures printed { report second_entry_first_script ≡ second_entry_first_report }
{}

/// A follower of the second entry alone learns by the tick that the first has passed.
pub fn followers_of_two_objects()
    ensures script { spelling followers_of_two_objects_script ≡ followers_of_two_objects_text }
    ensures printed { report followers_of_two_objects_script ≡ followers_of_two_objects_report }
{}

/// A slot with sixteen pending entries takes no more.
pub fn full_pipeline()
    ensures script { spelling full_pipeline_script ≡ full_pipeline_text }
    ensures printed { report full_pipeline_script ≡ full_pipeline_report }
{}

/// A pending entry holds an object that its transaction only read.
pub fn pending_read_holds()
    ensures script { spelling pending_read_holds_script ≡ pending_read_holds_text }
    ensures printed { report pending_read_holds_script ≡ pending_read_holds_report }
{}

/// Sums wrap at 2^64, and a transaction that fails writes nothing.
pub fn wrapping_sum()
    ensures script { spelling wrapping_sum_script ≡ wrapping_sum_text }
    ensures printed { report wrapping_sum_script ≡ wrapping_sum_report }
{}
