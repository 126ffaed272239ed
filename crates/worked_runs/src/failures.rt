//! Worked runs of stops and views: survivors replay what a stopped node left.
ghost use Rattle.std.specs.Prelude.{◌≡◌};
ghost use Rattle.zeus_model.specs.ReportText.{report};
ghost use Rattle.zeus_model.specs.Spelling.{spelling};
ghost use Rattle.worked_runs.specs.SurvivorReplays.{survivor_replays_script, survivor_replays_text, survivor_replays_report};
ghost use Rattle.worked_runs.specs.WhatWasStoredSurvives.{what_was_stored_survives_script, what_was_stored_survives_text, what_was_stored_survives_report};
ghost use Rattle.worked_runs.specs.DecisionInAnOldEpoch.{decision_in_an_old_epoch_script, decision_in_an_old_epoch_text, decision_in_an_old_epoch_report};
ghost use Rattle.worked_runs.specs.NewOwnerStops.{new_owner_stops_script, new_owner_stops_text, new_owner_stops_report};
ghost use Rattle.worked_runs.specs.LostObject.{lost_object_script, lost_object_text, lost_object_report};

/// A follower replays the entry of an owner that stopped.
pub fn survivor_replays()
    ensures script { spelling survivor_replays_script ≡ survivor_replays_text }
    ensures printed { report survivor_replays_script ≡ survivor_replays_report }
{}

/// Of two entries of a stopped node the one that a survivor stored survives.
pub fn what_was_stored_survives()
    ensures script { spelling what_was_stored_survives_script ≡ what_was_stored_survives_text }
    ensures printed { report what_was_stored_survives_script ≡ what_was_stored_survives_report }
{}

/// A requester that has not seen the new view decides in the old epoch.
pub fn decision_in_an_old_epoch()
    ensures script { spelling decision_in_an_old_epoch_script ≡ decision_in_an_old_epoch_text }
    ensures printed { report decision_in_an_old_epoch_script ≡ decision_in_an_old_epoch_report }
{}

/// A new owner writes and stops, and the others decide its ownership and take over.
pub fn new_owner_stops()
    ensures script { spelling new_owner_stops_script ≡ new_owner_stops_text }
    ensures printed { report new_owner_stops_script ≡ new_owner_stops_report }
{}

/// An object is lost where its only replica has stopped.
pub fn lost_object()
    ensures script { spelling lost_object_script ≡ lost_object_text }
    ensures printed { report lost_object_script ≡ lost_object_report }
{}
