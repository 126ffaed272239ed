//! The lines of bytes.
ghost use Rattle.std.specs.Prelude.{◌≡◌, [], drop};
ghost use Rattle.zeus_model.specs.Tables.{nth};
ghost use Rattle.script_diagnostic.specs.Fitting.{line_at};
ghost use Rattle.script_diagnostic.specs.Text.{opening_word};

use script_lang::Parts;

/// The next part; an empty one if there is none.
#[tactic(auto, unfolding(zeus_base::specs::Tables::nth))]
fn next_part<'a>(parts: &mut Parts<'a>) -> &'a [u8]
    ensures part { result.now ≡ nth [] parts.old 0 }
    ensures others { parts.new ≡ drop 1 parts.old }
{
    match parts.next_part() {
        Some(part) => part,
        None => b"",
    }
}

/// Line n of bytes, counted from 1, without its end; an empty one before the first and behind the last.
pub(crate) fn line_at(bytes: &[u8], number: u32) -> &[u8]
    ensures { result.now ≡ line_at bytes.now number }
{
    let mut lines = Parts::new(bytes, b'\n');
    let mut line: &[u8] = b"";
    for _turn in 0..number {
        line = next_part(&mut lines);
    }
    line
}

/// The first word of line n.
pub(crate) fn opening_word(bytes: &[u8], number: u32) -> &[u8]
    ensures { result.now ≡ opening_word bytes.now number }
{
    next_part(&mut Parts::new(line_at(bytes, number), b' '))
}
