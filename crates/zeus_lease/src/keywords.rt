//! The words that begin steps.
ghost use Rattle.std.specs.Prelude.{◌≡◌};
ghost use Rattle.zeus_lease.specs.Reading.{step_word_of};

/// The word of a step.
#[derive(Clone, Copy, Debug, PartialEq, Eq)]
pub(crate) enum StepWord {
    Pass,
    Ask,
    Hear,
    Take,
    Act,
    View,
}

/// The step that a word begins.
#[tactic(auto, unfolding(crate::specs::Reading::step_word_of))]
pub(crate) fn step_word_of(word: &[u8]) -> Option<StepWord>
    ensures { result ≡ step_word_of word.now }
{
    if word == b"pass".as_slice() {
        Some(StepWord::Pass)
    } else if word == b"ask".as_slice() {
        Some(StepWord::Ask)
    } else if word == b"hear".as_slice() {
        Some(StepWord::Hear)
    } else if word == b"take".as_slice() {
        Some(StepWord::Take)
    } else if word == b"act".as_slice() {
        Some(StepWord::Act)
    } else if word == b"view".as_slice() {
        Some(StepWord::View)
    } else {
        None
    }
}
