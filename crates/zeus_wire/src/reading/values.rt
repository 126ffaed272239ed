//! The fields that carry values: writes and contents.
ghost use Rattle.std.specs.Prelude.{◌≡◌, ◌≤◌, []};
ghost use Rattle.zeus_wire.specs.Ranges.{AreLimits};
ghost use Rattle.zeus_wire.specs.Reading.{IsRead, content_at, names, num_at, some_content_at, tagged_value_at, text_value_at, value_at, write_at, writes_at};

use crate::fault::Fault;
use crate::reading::fields::read_object;
use crate::reading::input::Input;
use std::alloc::Global;
use zeus_packet::{Content, Limits, ObjId, Value, Write, Writes};

#[tactic(auto, unfolding(crate::specs::Reading::num_at, crate::specs::Reading::and_then))]
fn read_num(input: &mut Input<'_>) -> Result<Value, Fault>
    ensures { IsRead result input.new (num_at input.old) }
{
    let number = input.u64()?;
    Ok(Value::Num(number))
}

#[tactic(auto, unfolding(crate::specs::Reading::text_value_at, crate::specs::Reading::and_then))]
fn read_text(len: u8, input: &mut Input<'_>) -> Result<Value, Fault>
    requires some { 1 ≤ len }
    requires short { len ≤ 32 }
    ensures { IsRead result input.new (text_value_at len input.old) }
{
    let text = input.text(len)?;
    Ok(Value::Text(text))
}

#[tactic(auto, unfolding(crate::specs::Reading::tagged_value_at, crate::specs::Reading::num_or_text_at, crate::specs::Reading::and_then))]
fn read_tagged_value(input: &mut Input<'_>) -> Result<Value, Fault>
    ensures { IsRead result input.new (tagged_value_at input.old) }
{
    let left = input.len();
    let len = input.u8()?;
    if len > 32 {
        return Err(Fault::Field { left });
    }
    if len == 0 {
        read_num(input)
    } else {
        read_text(len, input)
    }
}

#[tactic(auto, unfolding(crate::specs::Reading::value_at))]
fn read_value(limits: Limits, input: &mut Input<'_>) -> Result<Value, Fault>
    ensures { IsRead result input.new (value_at limits input.old) }
{
    if limits.version == 2 {
        read_tagged_value(input)
    } else {
        read_num(input)
    }
}

fn names(obj: ObjId, writes: &[Write]) -> bool
    ensures { result ≡ names obj writes.now }
{
    writes.iter().any(|write| write.obj == obj)
}

#[tactic(auto, unfolding(crate::specs::Reading::write_at, crate::specs::Reading::and_then))]
fn read_write(limits: Limits, before: &[Write], input: &mut Input<'_>) -> Result<Write, Fault>
    requires { AreLimits limits }
    ensures { IsRead result input.new (write_at limits before.now input.old) }
{
    let left = input.len();
    let obj = read_object(limits, input)?;
    if names(obj, before) {
        return Err(Fault::Field { left });
    }
    let ver = input.u64()?;
    let value = read_value(limits, input)?;
    Ok(Write { obj, ver, value })
}

/// Reads `count` writes, no two of which may be of one object.
pub fn read_writes(
    alloc: Global,
    limits: Limits,
    count: u8,
    input: &mut Input<'_>,
) -> Result<Writes, Fault>
    requires limits { AreLimits limits }
    requires few { count ≤ 8 }
    ensures { IsRead result input.new (writes_at limits count [] input.old) }
{
    let mut writes = Writes::new(alloc);
    for _ in 0..count {
        let write = read_write(limits, writes.as_slice(), input)?;
        writes.push(write);
    }
    Ok(writes)
}

#[tactic(auto, unfolding(crate::specs::Reading::some_content_at, crate::specs::Reading::and_then))]
fn read_some_content(limits: Limits, input: &mut Input<'_>) -> Result<Option<Content>, Fault>
    ensures { IsRead result input.new (some_content_at limits input.old) }
{
    let ver = input.u64()?;
    let value = read_value(limits, input)?;
    Ok(Some(Content { ver, value }))
}

/// Reads a byte that says whether a content follows, and the content if one does.
#[tactic(auto, unfolding(crate::specs::Reading::content_at, crate::specs::Reading::content_if, crate::specs::Reading::and_then))]
pub fn read_content(limits: Limits, input: &mut Input<'_>) -> Result<Option<Content>, Fault>
    ensures { IsRead result input.new (content_at limits input.old) }
{
    let left = input.len();
    match input.u8()? {
        0 => Ok(None),
        1 => read_some_content(limits, input),
        _ => Err(Fault::Field { left }),
    }
}
