//! What may stand in a line.
ghost use Rattle.std.specs.Prelude.{◌≡◌};
ghost use Rattle.zeus_model.specs.Words.{cut, is_among};
ghost use Rattle.script_diagnostic.specs.Text.{next_text, form_text, line_form};

use script_lang::Parts;

/// The words that may begin a line, with a space between each two, by the first word of the line before.
#[tactic(auto, unfolding(crate::specs::Text::next_text))]
fn next_text(word: &[u8]) -> &'static [u8]
    ensures { result.now ≡ next_text word.now }
{
    if word.is_empty() {
        b"zeus"
    } else if word == b"zeus".as_slice() {
        b"nodes"
    } else if word == b"nodes".as_slice() {
        b"slots"
    } else if word == b"slots".as_slice() {
        b"directory"
    } else if word == b"directory".as_slice() {
        b"degree object"
    } else if word == b"degree".as_slice() {
        b"object"
    } else if word == b"object".as_slice() {
        b"object tx run"
    } else if word == b"tx".as_slice() {
        b"tx run"
    } else {
        b"end begin try deliver tick stop view install"
    }
}

/// A line with this first word.
#[tactic(auto, unfolding(crate::specs::Text::form_text))]
fn form_text(word: &[u8]) -> &'static [u8]
    ensures { result.now ≡ form_text word.now }
{
    if word == b"zeus".as_slice() {
        b"zeus 1 or zeus 2"
    } else if word == b"nodes".as_slice() {
        b"nodes and a number from 1 to 8"
    } else if word == b"slots".as_slice() {
        b"slots and a number from 1 to 8"
    } else if word == b"directory".as_slice() {
        b"directory and rising nodes, one at least"
    } else if word == b"degree".as_slice() {
        b"degree and a number from 1 to 8"
    } else if word == b"object".as_slice() {
        b"object NAME VALUE OWNER, and rising nodes without the owner"
    } else if word == b"tx".as_slice() {
        b"tx NODE SLOT, or tx NODE SLOT after TX, and operations with ; between each two: get NAME, put NAME VALUE, add NAME NUMBER, need NAME NUMBER, same NAME VALUE"
    } else if word == b"run".as_slice() {
        b"run alone"
    } else if word == b"begin".as_slice() {
        b"begin TX"
    } else if word == b"try".as_slice() {
        b"try NODE SLOT"
    } else if word == b"deliver".as_slice() {
        b"deliver FROM TO PACKET"
    } else if word == b"tick".as_slice() {
        b"tick NODE"
    } else if word == b"stop".as_slice() {
        b"stop NODE"
    } else if word == b"view".as_slice() {
        b"view and rising nodes"
    } else if word == b"install".as_slice() {
        b"install NODE EPOCH"
    } else {
        b"end alone"
    }
}

/// Whether a word stands in a list of words, which has a space between each two.
fn is_listed(word: &[u8], list: &[u8]) -> bool
    ensures { result ≡ is_among word.now (cut 32 list.now) }
{
    let mut words = Parts::new(list, b' ');
    while let Some(other) = words.next_part() {
        if word == other {
            return true;
        }
    }
    false
}

/// The form of a line with this first word, if it may stand behind a line with that one; else the words that may.
#[tactic(auto, unfolding(crate::specs::Text::line_form))]
pub(crate) fn line_form(word: &[u8], before: &[u8]) -> &'static [u8]
    ensures { result.now ≡ line_form word.now before.now }
{
    let next = next_text(before);
    if is_listed(word, next) {
        form_text(word)
    } else {
        next
    }
}
