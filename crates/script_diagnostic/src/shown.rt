//! Bytes of a script as a message shows them.
ghost use Rattle.std.specs.Prelude.{◌≡◌, ◌++◌, ◌<◌, take, OnOk};
ghost use Rattle.script_diagnostic.specs.Text.{hex_digit, shown_byte, shown, quoted};

use zeus_base::NoMemory;
use zeus_text::{append, append_byte};

/// The hexadecimal digit of a number below 16.
#[tactic(auto, unfolding(crate::specs::Text::hex_digit))]
fn hex_digit(number: u8) -> u8
    requires { number < 16 }
    ensures { result ≡ hex_digit number }
{
    if number < 10 {
        b'0' + number
    } else {
        b'A' + (number - 10)
    }
}

/// Writes a byte, or its number where it is not printed.
#[tactic(auto, unfolding(crate::specs::Text::shown_byte))]
fn write_byte(out: &mut Vec<u8>, byte: u8) -> Result<(), NoMemory>
    ensures { OnOk result (out.new.items ≡ out.old.items ++ shown_byte byte) }
{
    if b' ' <= byte && byte <= b'~' {
        return append_byte(out, byte);
    }
    append(out, b"\\x")?;
    append_byte(out, hex_digit(byte / 16))?;
    append_byte(out, hex_digit(byte % 16))
}

/// Writes bytes as they are shown.
fn write_shown(out: &mut Vec<u8>, bytes: &[u8]) -> Result<(), NoMemory>
    ensures { OnOk result (out.new.items ≡ out.old.items ++ shown bytes.now) }
{
    for byte in bytes {
        write_byte(out, *byte)?;
    }
    Ok(())
}

/// The first of some items, at most so many.
pub(crate) fn front<T>(items: &[T], most: usize) -> &[T]
    ensures { result.now ≡ take most items.now }
{
    if items.len() <= most {
        items
    } else {
        &items[..most]
    }
}

/// Writes bytes between quotes: the first 60 of them, and two dots behind if there are more.
#[tactic(auto, unfolding(crate::specs::Text::quoted))]
pub(crate) fn write_quoted(out: &mut Vec<u8>, bytes: &[u8]) -> Result<(), NoMemory>
    ensures { OnOk result (out.new.items ≡ out.old.items ++ quoted bytes.now) }
{
    append(out, b"\"")?;
    write_shown(out, front(bytes, 60))?;
    if bytes.len() > 60 {
        append(out, b"\" ..")
    } else {
        append(out, b"\"")
    }
}
