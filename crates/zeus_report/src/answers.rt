//! What steps answer.
ghost use Rattle.std.specs.Prelude.{◌≡◌, ◌++◌, OnOk};
ghost use Rattle.zeus_model.specs.ReportWords.{begin_text, tried_text, received_text, ticked_text, stopped_text};
ghost use Rattle.zeus_model.specs.ReportWords.{made_text, installed_text, answer_text, tx_state_text};

use crate::letters::write_cause;
use crate::words::{state_text, write_stamped};
use zeus_base::NoMemory;
use zeus_model::{Answer, Begin, Install, Made, Name, Outcome, Stop, Ticked, Tried, TxState};
use zeus_text::{append, write_counted, write_number, write_object, write_word};

#[tactic(auto, unfolding(zeus_model::specs::ReportWords::begin_text))]
fn write_begin(out: &mut Vec<u8>, answer: &Begin) -> Result<(), NoMemory>
    ensures { OnOk result (out.new.items ≡ out.old.items ++ begin_text answer.now) }
{
    match answer {
        Begin::Begun => append(out, b"begun"),
        Begin::Stopped => append(out, b"stopped"),
        Begin::Busy(id) => write_counted(out, b"busy", u64::from(id.0)),
    }
}

#[tactic(auto, unfolding(zeus_model::specs::ReportWords::tried_text))]
fn write_tried(out: &mut Vec<u8>, names: &[Name], answer: &Tried) -> Result<(), NoMemory>
    ensures { OnOk result (out.new.items ≡ out.old.items ++ tried_text names.now answer.now) }
{
    match answer {
        Tried::Stopped => append(out, b"stopped"),
        Tried::Nothing => append(out, b"nothing"),
        Tried::NoCopy(_, obj) => {
            append(out, b"no copy")?;
            write_object(out, names, *obj)
        }
        Tried::NotValid(obj, state) => {
            append(out, b"not valid")?;
            write_object(out, names, *obj)?;
            write_word(out, state_text(*state))
        }
        Tried::Read(_, _) => append(out, b"read"),
        Tried::PipeFull => append(out, b"pipe full"),
        Tried::NotOwner(obj) => {
            append(out, b"not owner")?;
            write_object(out, names, *obj)
        }
        Tried::Held(obj, slot) => {
            append(out, b"held")?;
            write_object(out, names, *obj)?;
            write_number(out, u64::from(slot.0))
        }
        Tried::WornOut => append(out, b"worn out"),
        Tried::Committed(_, n, _) => write_counted(out, b"committed", u64::from(*n)),
    }
}

#[tactic(auto, unfolding(zeus_model::specs::ReportWords::received_text))]
fn write_received(out: &mut Vec<u8>, answer: &Outcome) -> Result<(), NoMemory>
    ensures { OnOk result (out.new.items ≡ out.old.items ++ received_text answer.now) }
{
    match answer {
        Outcome::Stopped => append(out, b"stopped"),
        Outcome::NotMine(node) => write_counted(out, b"not mine", u64::from(node.0)),
        Outcome::OtherEpoch(theirs, mine) => {
            write_counted(out, b"other epoch", u64::from(*theirs))?;
            write_number(out, u64::from(*mine))
        }
        Outcome::NotOpen => append(out, b"not open"),
        Outcome::Taken => append(out, b"taken"),
        Outcome::Again => append(out, b"again"),
        Outcome::Gap(n) => write_counted(out, b"gap", u64::from(*n)),
        Outcome::Older(stamp) => write_stamped(out, b"older", stamp),
        Outcome::Settled(stamp) => write_stamped(out, b"settled", stamp),
        Outcome::Refused(cause) => {
            append(out, b"refused")?;
            write_cause(out, cause)
        }
    }
}

#[tactic(auto, unfolding(zeus_model::specs::ReportWords::ticked_text))]
fn ticked_text(answer: Ticked) -> &'static [u8]
    ensures { result.now ≡ ticked_text answer }
{
    match answer {
        Ticked::Ticked => b"ticked",
        Ticked::Stopped => b"stopped",
    }
}

#[tactic(auto, unfolding(zeus_model::specs::ReportWords::stopped_text))]
fn stopped_text(answer: Stop) -> &'static [u8]
    ensures { result.now ≡ stopped_text answer }
{
    match answer {
        Stop::Done => b"done",
        Stop::Stopped => b"stopped",
    }
}

// The answer to a view.
#[tactic(auto, unfolding(zeus_model::specs::ReportWords::made_text))]
fn write_made(out: &mut Vec<u8>, answer: &Made) -> Result<(), NoMemory>
    ensures { OnOk result (out.new.items ≡ out.old.items ++ made_text answer.now) }
{
    match answer {
        Made::Installed(epoch) => write_counted(out, b"installed", u64::from(*epoch)),
        Made::Empty => append(out, b"empty"),
        Made::NotMember(node) => write_counted(out, b"not member", u64::from(node.0)),
        Made::NotStopped(node) => write_counted(out, b"not stopped", u64::from(node.0)),
    }
}

#[tactic(auto, unfolding(zeus_model::specs::ReportWords::installed_text))]
fn write_installed(out: &mut Vec<u8>, answer: &Install) -> Result<(), NoMemory>
    ensures { OnOk result (out.new.items ≡ out.old.items ++ installed_text answer.now) }
{
    match answer {
        Install::Installed => append(out, b"installed"),
        Install::Stopped => append(out, b"stopped"),
        Install::Old(epoch) => write_counted(out, b"old", u64::from(*epoch)),
    }
}

/// Writes the answer to a step.
#[tactic(auto, unfolding(zeus_model::specs::ReportWords::answer_text))]
pub(crate) fn write_answer(
    out: &mut Vec<u8>,
    names: &[Name],
    answer: &Answer,
) -> Result<(), NoMemory>
    ensures { OnOk result (out.new.items ≡ out.old.items ++ answer_text names.now answer.now) }
{
    match answer {
        Answer::Begin(answer) => write_begin(out, answer),
        Answer::Twice => append(out, b"twice"),
        Answer::Waits(id) => write_counted(out, b"waits", u64::from(id.0)),
        Answer::Try(answer) => write_tried(out, names, answer),
        Answer::NoPacket(count) => write_counted(out, b"no packet", u64::from(*count)),
        Answer::Receive(answer) => write_received(out, answer),
        Answer::Tick(answer) => append(out, ticked_text(*answer)),
        Answer::Stop(answer) => append(out, stopped_text(*answer)),
        Answer::View(answer) => write_made(out, answer),
        Answer::NoView(count) => write_counted(out, b"no view", u64::from(*count)),
        Answer::Install(answer) => write_installed(out, answer),
    }
}

/// The word for how far a transaction has come.
#[tactic(auto, unfolding(zeus_model::specs::ReportWords::tx_state_text))]
pub(crate) fn tx_state_text(state: TxState) -> &'static [u8]
    ensures { result.now ≡ tx_state_text state }
{
    match state {
        TxState::New => b"new",
        TxState::Current => b"current",
        TxState::Pending => b"pending",
        TxState::Passed => b"passed",
        TxState::Acked => b"acked",
        TxState::Refused => b"refused",
    }
}
