//! Writes and contents as bytes, for which there is room.
ghost use Rattle.std.specs.Prelude.{◌≡◌, ◌≤◌, ◌+◌, ◌++◌, true};
ghost use Rattle.std.specs.List.{list_all};
ghost use Rattle.zeus_packet.specs.Fits.{content_fits, value_fits, write_fits};
ghost use Rattle.zeus_wire.specs.Ranges.{AreWrites, IsContent, IsValue, IsWrite, largest, longest_value, longest_writes, room};
ghost use Rattle.zeus_model.specs.PacketSpelling.{content_bytes, u16_bytes, u64_bytes, value_bytes, write_bytes as spelled, writes_bytes};

use crate::writing::fields::{write_bytes, write_u8, write_u64};
use zeus_base::Text;
use zeus_packet::{Content, ObjId, Value, Write};

#[tactic(auto, using(std::proofs::Common::append_assoc), unfolding(zeus_model::specs::PacketSpelling::value_bytes, crate::specs::Ranges::longest_value))]
fn write_num(out: &mut Vec<u8>, version: u8, number: u64)
    requires { longest_value version ≤ room out.old }
    ensures bytes { out.new.items ≡ out.old.items ++ value_bytes version (Value.Num number) }
    ensures room { room out.old ≤ room out.new + longest_value version }
{
    if version == 2 {
        write_u8(out, 0);
    }
    write_u64(out, number);
}

#[tactic(auto, using(std::proofs::Common::append_assoc), unfolding(zeus_model::specs::PacketSpelling::value_bytes, crate::specs::Ranges::IsValue))]
fn write_text(out: &mut Vec<u8>, version: u8, text: &Text)
    requires { 33 ≤ room out.old }
    ensures bytes { out.new.items ≡ out.old.items ++ value_bytes version (Value.Text text.now) }
    ensures room { room out.old ≤ room out.new + 33 }
    ensures text { IsValue (Value.Text text.now) }
{
    let bytes = text.as_bytes();
    write_u8(out, bytes.len() as u8);
    write_bytes(out, bytes);
}

#[tactic(auto, unfolding(zeus_packet::specs::Fits::value_fits, crate::specs::Ranges::longest_value, crate::specs::Ranges::IsValue))]
fn write_value(out: &mut Vec<u8>, version: u8, value: &Value)
    requires fits { value_fits (largest version) value.now ≡ true }
    requires room { longest_value version ≤ room out.old }
    ensures bytes { out.new.items ≡ out.old.items ++ value_bytes version value.now }
    ensures room { room out.old ≤ room out.new + longest_value version }
    ensures value { IsValue value.now }
{
    match value {
        Value::Num(number) => write_num(out, version, *number),
        Value::Text(text) => write_text(out, version, text),
    }
}

/// Appends the object of a write, and its version.
#[tactic(auto, using(std::proofs::Common::append_assoc), unfolding(zeus_model::specs::PacketSpelling::u16_bytes))]
fn write_version(out: &mut Vec<u8>, obj: ObjId, ver: u64)
    requires { 10 ≤ room out.old }
    ensures bytes { out.new.items ≡ out.old.items ++ (u16_bytes obj ++ u64_bytes ver) }
    ensures room { room out.old ≤ room out.new + 10 }
{
    write_bytes(out, &obj.0.to_be_bytes());
    write_u64(out, ver);
}

#[tactic(auto, using(std::proofs::Common::append_assoc), unfolding(zeus_model::specs::PacketSpelling::write_bytes, zeus_packet::specs::Fits::write_fits))]
fn write_write(out: &mut Vec<u8>, version: u8, write: &Write)
    requires fits { write_fits (largest version) write.now ≡ true }
    requires room { 10 + longest_value version ≤ room out.old }
    ensures bytes { out.new.items ≡ out.old.items ++ spelled version write.now }
    ensures room { room out.old ≤ room out.new + (10 + longest_value version) }
    ensures write { IsWrite write.now }
{
    write_version(out, write.obj, write.ver);
    write_value(out, version, &write.value);
}

/// Appends the writes, one behind the other.
pub fn write_writes(out: &mut Vec<u8>, version: u8, writes: &[Write])
    requires fits { list_all (write_fits (largest version)) writes.now ≡ true }
    requires room { longest_writes version writes.now ≤ room out.old }
    ensures bytes { out.new.items ≡ out.old.items ++ writes_bytes version writes.now }
    ensures room { room out.old ≤ room out.new + longest_writes version writes.now }
    ensures writes { AreWrites writes.now }
{
    for write in writes {
        write_write(out, version, write);
    }
}

/// Appends the byte 0 if there is no content; else the byte 1, its version and its value.
#[tactic(auto, using(std::proofs::Common::append_assoc), unfolding(zeus_model::specs::PacketSpelling::content_bytes, crate::specs::Ranges::IsContent, zeus_packet::specs::Fits::content_fits))]
pub fn write_content(out: &mut Vec<u8>, version: u8, content: &Option<Content>)
    requires fits { content_fits (largest version) content.now ≡ true }
    requires room { 9 + longest_value version ≤ room out.old }
    ensures bytes { out.new.items ≡ out.old.items ++ content_bytes version content.now }
    ensures room { room out.old ≤ room out.new + (9 + longest_value version) }
    ensures content { IsContent content.now }
{
    match content {
        None => write_u8(out, 0),
        Some(content) => {
            write_u8(out, 1);
            write_u64(out, content.ver);
            write_value(out, version, &content.value);
        }
    }
}
