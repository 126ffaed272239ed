//! What a report prints is the history of its run.
#![tactic(auto)]

ghost use Rattle.zeus_model.specs.declared.script.Script.{Script};
ghost use Rattle.zeus_model.specs.ReportText.{report};
ghost use Rattle.zeus_model.specs.Scripts.{FitsScript};
ghost use Rattle.printed_history.specs.Printed.{PrintsHistory};

/// The report of every script prints the history of its run: its lines that begin with `*` are the points, in order, each
/// with the very reply that was answered; those that begin with `!` are the acknowledgements, in order, each once; and the
/// line `history` at its end has the same transactions in the same order.
pub fn every_report_prints_its_history()
    ensures { (s : Script) → FitsScript s → PrintsHistory s (report s) }
{}
