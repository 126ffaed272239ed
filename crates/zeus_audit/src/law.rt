//! The law of audits: what a sound report is.
ghost use Rattle.std.specs.Prelude.{◌≡◌, ℕ, List};
ghost use Rattle.zeus_model.specs.Scripts.{FitsScript};
ghost use Rattle.zeus_model.specs.declared.script.Script.{Script};
ghost use Rattle.zeus_audit.specs.Auditing.{audited};
ghost use Rattle.zeus_audit.specs.Serial.{IsSerialReport};
ghost use Rattle.zeus_audit.specs.declared.verdict.Verdict.TheVariants as verdicts;

/// A report that an audit finds sound is a serial history. Each of its lines says an event, and of these events: each
/// transaction has its point once, behind its begin, and its acknowledgement once, behind its point; the printed replies are
/// those of the transactions run one after another in the order of their points, which the printed history lists; a
/// transaction that is printed as acknowledged has its acknowledgement; and no printed copy is older than what the points
/// leave, or, if it is valid or of that version, other than it.
pub fn a_sound_report_is_a_serial_history()
    ensures { (s : Script) (text : List ℕ) → FitsScript s → audited s text ≡ verdicts.Sound → IsSerialReport s text }
{}
