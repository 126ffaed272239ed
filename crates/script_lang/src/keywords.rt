//! The words that begin operations and steps.
ghost use Rattle.std.specs.Prelude.{◌≡◌};
ghost use Rattle.script_lang.specs.Operations.{op_word_of};
ghost use Rattle.script_lang.specs.Steps.{step_word_of};

/// The word of an operation.
#[derive(Clone, Copy, Debug, PartialEq, Eq)]
pub(crate) enum OpWord {
    Get,
    Put,
    Add,
    Need,
    Same,
}

/// The word of a step.
#[derive(Clone, Copy, Debug, PartialEq, Eq)]
pub(crate) enum StepWord {
    Begin,
    Try,
    Deliver,
    Tick,
    Stop,
    View,
    Install,
}

/// The operation that a word begins; `same` from version 2 on.
#[tactic(auto, unfolding(crate::specs::Operations::op_word_of))]
pub(crate) fn op_word_of(word: &[u8], version: u8) -> Option<OpWord>
    ensures { result ≡ op_word_of version word.now }
{
    if word == b"get".as_slice() {
        Some(OpWord::Get)
    } else if word == b"put".as_slice() {
        Some(OpWord::Put)
    } else if word == b"add".as_slice() {
        Some(OpWord::Add)
    } else if word == b"need".as_slice() {
        Some(OpWord::Need)
    } else if word == b"same".as_slice() && version == 2 {
        Some(OpWord::Same)
    } else {
        None
    }
}

/// The step that a word begins.
#[tactic(auto, unfolding(crate::specs::Steps::step_word_of))]
pub(crate) fn step_word_of(word: &[u8]) -> Option<StepWord>
    ensures { result ≡ step_word_of word.now }
{
    if word == b"begin".as_slice() {
        Some(StepWord::Begin)
    } else if word == b"try".as_slice() {
        Some(StepWord::Try)
    } else if word == b"deliver".as_slice() {
        Some(StepWord::Deliver)
    } else if word == b"tick".as_slice() {
        Some(StepWord::Tick)
    } else if word == b"stop".as_slice() {
        Some(StepWord::Stop)
    } else if word == b"view".as_slice() {
        Some(StepWord::View)
    } else if word == b"install".as_slice() {
        Some(StepWord::Install)
    } else {
        None
    }
}
