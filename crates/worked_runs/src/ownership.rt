//! Worked runs of ownership: requests, proposals, acknowledgements and decisions.
ghost use Rattle.std.specs.Prelude.{◌≡◌};
ghost use Rattle.zeus_model.specs.ReportText.{report};
ghost use Rattle.zeus_model.specs.Spelling.{spelling};
ghost use Rattle.worked_runs.specs.OwnershipMoves.{ownership_moves_script, ownership_moves_text, ownership_moves_report};
ghost use Rattle.worked_runs.specs.TwoDrivers.{two_drivers_script, two_drivers_text, two_drivers_report};
ghost use Rattle.worked_runs.specs.RequestDuringCommit.{request_during_commit_script, request_during_commit_text, request_during_commit_report};
ghost use Rattle.worked_runs.specs.KeptFromAGreaterNode.{kept_from_a_greater_node_script, kept_from_a_greater_node_text, kept_from_a_greater_node_report};
ghost use Rattle.worked_runs.specs.ReaderComesAndGoes.{reader_comes_and_goes_script, reader_comes_and_goes_text, reader_comes_and_goes_report};

/// A node without a copy becomes the owner, and the old owner reads on.
pub fn ownership_moves()
    ensures script { spelling ownership_moves_script ≡ ownership_moves_text }
    ensures printed { report ownership_moves_script ≡ ownership_moves_report }
{}

/// Two drivers propose one version, and the greater stamp is decided.
pub fn two_drivers()
    ensures script { spelling two_drivers_script ≡ two_drivers_text }
    ensures printed { report two_drivers_script ≡ two_drivers_report }
{}

/// A request is refused while a commit holds the object, and a late validation changes no newer copy.
pub fn request_during_commit()
    ensures script { spelling request_during_commit_script ≡ request_during_commit_text }
    ensures printed { report request_during_commit_script ≡ request_during_commit_report }
{}

/// A source keeps what it is about to write from a node with a greater number.
pub fn kept_from_a_greater_node()
    ensures script { spelling kept_from_a_greater_node_script ≡ kept_from_a_greater_node_text }
    ensures printed { report kept_from_a_greater_node_script ≡ kept_from_a_greater_node_report }
{}

/// With a degree a reader brings a copy, and leaves where too many are there.
pub fn reader_comes_and_goes()
    ensures script { spelling reader_comes_and_goes_script ≡ reader_comes_and_goes_text }
    ensures printed { report reader_comes_and_goes_script ≡ reader_comes_and_goes_report }
{}
