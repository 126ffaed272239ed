//! Numbers, names and values. A report has millions of them, so the shortest functions are compiled into their callers.
ghost use Rattle.std.specs.Prelude.{◌≡◌, ◌++◌, ◌∷◌, [], decimal, OnOk};
ghost use Rattle.zeus_model.specs.ReportText.{line_end};
ghost use Rattle.zeus_model.specs.ReportWords.{number, named_object};
ghost use Rattle.zeus_model.specs.Spelling.{word, value_text, name_of};

use itoa::{Buffer, write_digits};
use zeus_base::{NoMemory, ObjId, Value};
use zeus_model::Name;

/// How many digits a number has at most.
const MOST_DIGITS: usize = 20;

/// Adds the bytes at the end.
///
/// # Errors
///
/// Memory ran out.
#[inline(always)]
pub fn append(out: &mut Vec<u8>, bytes: &[u8]) -> Result<(), NoMemory>
    ensures { OnOk result (out.new.items ≡ out.old.items ++ bytes.now) }
{
    out.extend_from_slice(bytes).map_err(|_| NoMemory)
}

/// Adds the byte at the end.
///
/// # Errors
///
/// Memory ran out.
#[inline(always)]
pub fn append_byte(out: &mut Vec<u8>, byte: u8) -> Result<(), NoMemory>
    ensures { OnOk result (out.new.items ≡ out.old.items ++ byte ∷ []) }
{
    out.push(byte).map_err(|_| NoMemory)
}

/// Writes the digits of a number.
///
/// # Errors
///
/// Memory ran out.
pub fn write_decimal(out: &mut Vec<u8>, n: u64) -> Result<(), NoMemory>
    ensures { OnOk result (out.new.items ≡ out.old.items ++ decimal n) }
{
    let mut digits = Buffer::new();
    append(out, digits.format(n).as_bytes())
}

// The two bytes. Room for both is asked for once: this is most of what a report has of numbers.
#[tactic(auto, using(std::proofs::Common::append_assoc))]
#[inline(always)]
fn append_pair(out: &mut Vec<u8>, first: u8, second: u8) -> Result<(), NoMemory>
    ensures { OnOk result (out.new.items ≡ out.old.items ++ first ∷ second ∷ []) }
{
    out.reserve(2).map_err(|_| NoMemory)?;
    out.push_reserved(first);
    out.push_reserved(second);
    Ok(())
}

// The byte, and then the digits of the number, of which there may be many.
#[inline(never)]
fn write_digits_behind(out: &mut Vec<u8>, byte: u8, n: u64) -> Result<(), NoMemory>
    ensures { OnOk result (out.new.items ≡ out.old.items ++ byte ∷ decimal n) }
{
    let mut text = [0; MOST_DIGITS + 1];
    let digits = write_digits(n, &mut text, MOST_DIGITS + 1);
    text[digits - 1] = byte;
    append(out, &text[digits - 1..])
}

/// Writes the byte, and then the digits of the number.
///
/// # Errors
///
/// Memory ran out.
#[tactic(auto, using(std::proofs::lemmas::Fmt::decimal_digit))]
#[inline(always)]
pub fn write_behind(out: &mut Vec<u8>, byte: u8, n: u64) -> Result<(), NoMemory>
    ensures { OnOk result (out.new.items ≡ out.old.items ++ byte ∷ decimal n) }
{
    // Most numbers of a report have one digit.
    if n < 10 {
        return append_pair(out, byte, b'0' + n as u8);
    }
    write_digits_behind(out, byte, n)
}

/// Writes a space and the number.
///
/// # Errors
///
/// Memory ran out.
#[inline(always)]
pub fn write_number(out: &mut Vec<u8>, n: u64) -> Result<(), NoMemory>
    ensures { OnOk result (out.new.items ≡ out.old.items ++ number n) }
{
    write_behind(out, b' ', n)
}

/// Ends a line.
///
/// # Errors
///
/// Memory ran out.
pub fn write_line_end(out: &mut Vec<u8>) -> Result<(), NoMemory>
    ensures { OnOk result (out.new.items ≡ out.old.items ++ line_end) }
{
    append_byte(out, b'\n')
}

/// Writes a space and the bytes.
///
/// # Errors
///
/// Memory ran out.
pub fn write_word(out: &mut Vec<u8>, bytes: &[u8]) -> Result<(), NoMemory>
    ensures { OnOk result (out.new.items ≡ out.old.items ++ word bytes.now) }
{
    append_byte(out, b' ')?;
    append(out, bytes)
}

/// Writes a text, and then a number behind a space.
///
/// # Errors
///
/// Memory ran out.
pub fn write_counted(out: &mut Vec<u8>, text: &[u8], n: u64) -> Result<(), NoMemory>
    ensures { OnOk result (out.new.items ≡ out.old.items ++ text.now ++ number n) }
{
    append(out, text)?;
    write_number(out, n)
}

// The bytes of the name of an object; none where no object has this number.
fn name_of(names: &[Name], obj: ObjId) -> &[u8]
    ensures { result.now ≡ name_of names.now obj }
{
    match names.get(usize::from(obj.0)) {
        Some(name) => name.as_bytes(),
        None => b"",
    }
}

/// Writes a space and the name of the object; the space alone where no object has this number.
///
/// # Errors
///
/// Memory ran out.
pub fn write_object(out: &mut Vec<u8>, names: &[Name], obj: ObjId) -> Result<(), NoMemory>
    ensures { OnOk result (out.new.items ≡ out.old.items ++ named_object names.now obj) }
{
    write_word(out, name_of(names, obj))
}

/// Writes a space and the value.
///
/// # Errors
///
/// Memory ran out.
#[tactic(auto, unfolding(zeus_model::specs::Spelling::value_text))]
pub fn write_value(out: &mut Vec<u8>, value: &Value) -> Result<(), NoMemory>
    ensures { OnOk result (out.new.items ≡ out.old.items ++ word (value_text value.now)) }
{
    match value {
        Value::Num(n) => write_number(out, *n),
        Value::Text(text) => {
            append(out, b" '")?;
            append(out, text.as_bytes())
        }
    }
}
