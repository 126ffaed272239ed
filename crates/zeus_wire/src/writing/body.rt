//! What a letter says, as bytes for which there is room.
ghost use Rattle.std.specs.Prelude.{◌≡◌, ◌≤◌, ◌+◌, ◌++◌, ◌∷◌, [], true};
ghost use Rattle.zeus_packet.specs.Fits.{body_fits, content_fits, inv_fits};
ghost use Rattle.zeus_wire.specs.Ranges.{IsBody, IsCause, IsInv, largest, longest, longest_value, room};
ghost use Rattle.zeus_model.specs.PacketSpelling.{body_bytes, cause_bytes, inv_bytes, state_byte, stream_bytes, u32_bytes, wish_bytes, wish_tag};

use crate::writing::fields::{
    byte_of, write_bytes, write_object, write_place, write_proposal, write_stamp, write_u8,
};
use crate::writing::values::{write_content, write_writes};
use zeus_packet::{Body, Cause, Content, ObjId, Place, Proposal, RInv, Stamp, State, Stream, Want};

/// Appends the stream of an entry, its number, and what has passed.
#[tactic(auto, using(std::proofs::Common::append_assoc, crate::proofs::Numbers::four_bytes, crate::proofs::Numbers::four_alone), unfolding(zeus_model::specs::PacketSpelling::stream_bytes))]
fn write_entry(out: &mut Vec<u8>, stream: &Stream, number: u32, done: u32)
    requires { 10 ≤ room out.old }
    ensures bytes { out.new.items ≡ out.old.items ++ (stream_bytes stream.now ++ (u32_bytes number ++ u32_bytes done)) }
    ensures room { room out.old ≤ room out.new + 10 }
{
    let [a, b, c, d] = number.to_be_bytes();
    let [e, f, g, h] = done.to_be_bytes();
    write_bytes(out, &[stream.node.0, stream.slot.0, a, b, c, d, e, f, g, h]);
}

#[tactic(auto, using(std::proofs::Common::append_assoc, crate::proofs::Room::few_writes, crate::proofs::Room::longest_is), unfolding(zeus_model::specs::PacketSpelling::inv_bytes, zeus_model::specs::PacketSpelling::set_bytes, zeus_packet::specs::Fits::inv_fits, zeus_packet::specs::Fits::writes_fit))]
fn write_inv(out: &mut Vec<u8>, version: u8, r: &RInv)
    requires fits { inv_fits (largest version) r.now ≡ true }
    requires room { longest version ≤ room out.old + 12 }
    ensures bytes { out.new.items ≡ out.old.items ++ inv_bytes version r.now }
    ensures room { room out.old + 12 ≤ room out.new + longest version }
    ensures inv { IsInv r.now }
{
    write_entry(out, &r.stream, r.number, r.done);
    write_bytes(out, &[byte_of(r.followers), r.writes.len() as u8]);
    write_writes(out, version, r.writes.as_slice());
}

#[tactic(auto, unfolding(zeus_model::specs::PacketSpelling::wish_tag))]
fn wish_tag(tag: u8, want: Want) -> u8
    requires { tag ≤ 9 }
    ensures { result ≡ wish_tag tag want }
{
    match want {
        Want::Own => tag,
        Want::Read | Want::Leave => tag + 16,
    }
}

#[tactic(auto, unfolding(zeus_model::specs::PacketSpelling::wish_bytes))]
fn write_wish(out: &mut Vec<u8>, want: Want)
    requires { 1 ≤ room out.old }
    ensures bytes { out.new.items ≡ out.old.items ++ wish_bytes want }
    ensures room { room out.old ≤ room out.new + 1 }
{
    match want {
        Want::Own => {}
        Want::Read => write_u8(out, 1),
        Want::Leave => write_u8(out, 2),
    }
}

#[tactic(auto, unfolding(zeus_model::specs::PacketSpelling::state_byte))]
fn state_byte(state: State) -> u8
    ensures { result ≡ state_byte state }
{
    match state {
        State::Valid => 0,
        State::Invalid => 1,
        State::Write => 2,
    }
}

#[tactic(auto, using(std::proofs::Common::append_assoc), unfolding(zeus_model::specs::PacketSpelling::cause_bytes, crate::specs::Ranges::IsCause))]
fn write_cause(out: &mut Vec<u8>, cause: &Cause)
    requires { 10 ≤ room out.old }
    ensures bytes { out.new.items ≡ out.old.items ++ cause_bytes cause.now }
    ensures room { room out.old ≤ room out.new + 10 }
    ensures cause { IsCause cause.now }
{
    match cause {
        Cause::OwnStream => write_u8(out, 0),
        Cause::Window => write_u8(out, 1),
        Cause::NotDirectory => write_u8(out, 2),
        Cause::Proposed(stamp) => {
            write_u8(out, 3);
            write_stamp(out, stamp);
        }
        Cause::Owns => write_u8(out, 4),
        Cause::NoSource => write_u8(out, 5),
        Cause::WornOut => write_u8(out, 6),
        Cause::NoCopy => write_u8(out, 7),
        Cause::Held(slot) => write_bytes(out, &[8, slot.0]),
        Cause::NotValid(state) => write_bytes(out, &[9, state_byte(*state)]),
        Cause::Kept(slot) => write_bytes(out, &[10, slot.0]),
        Cause::NotArbiter => write_u8(out, 11),
        Cause::NotCollector => write_u8(out, 12),
        Cause::OwnPlace => write_u8(out, 13),
        Cause::HasCopy => write_u8(out, 14),
        Cause::NotReader => write_u8(out, 15),
        Cause::Degree => write_u8(out, 16),
        Cause::IsSource => write_u8(out, 17),
    }
}

#[tactic(auto, using(std::proofs::Common::append_assoc), unfolding(zeus_model::specs::PacketSpelling::body_bytes, crate::specs::Ranges::IsBody))]
fn write_oreq(out: &mut Vec<u8>, version: u8, obj: ObjId, want: Want)
    requires { 4 ≤ room out.old }
    ensures bytes { out.new.items ≡ out.old.items ++ body_bytes version (Body.OReq obj want) }
    ensures room { room out.old ≤ room out.new + 4 }
{
    write_object(out, wish_tag(4, want), obj);
    write_wish(out, want);
}

#[tactic(auto, using(std::proofs::Common::append_assoc), unfolding(zeus_model::specs::PacketSpelling::body_bytes, crate::specs::Ranges::IsBody))]
fn write_oinv(out: &mut Vec<u8>, version: u8, obj: ObjId, p: &Proposal)
    requires { 25 ≤ room out.old }
    ensures bytes { out.new.items ≡ out.old.items ++ body_bytes version (Body.OInv obj p.now) }
    ensures room { room out.old ≤ room out.new + 25 }
    ensures body { IsBody (Body.OInv obj p.now) }
{
    write_object(out, wish_tag(5, p.want), obj);
    write_wish(out, p.want);
    write_proposal(out, p);
}

#[tactic(auto, using(std::proofs::Common::append_assoc), unfolding(zeus_model::specs::PacketSpelling::body_bytes, crate::specs::Ranges::IsBody))]
fn write_oack(out: &mut Vec<u8>, version: u8, obj: ObjId, p: &Proposal, content: &Option<Content>)
    requires fits { content_fits (largest version) content.now ≡ true }
    requires room { 34 + longest_value version ≤ room out.old }
    ensures bytes { out.new.items ≡ out.old.items ++ body_bytes version (Body.OAck obj p.now content.now) }
    ensures room { room out.old ≤ room out.new + (34 + longest_value version) }
    ensures body { IsBody (Body.OAck obj p.now content.now) }
{
    write_object(out, wish_tag(6, p.want), obj);
    write_wish(out, p.want);
    write_proposal(out, p);
    write_content(out, version, content);
}

#[tactic(auto, using(std::proofs::Common::append_assoc), unfolding(zeus_model::specs::PacketSpelling::body_bytes, crate::specs::Ranges::IsBody))]
fn write_onack(out: &mut Vec<u8>, version: u8, obj: ObjId, stamp: &Stamp, cause: &Cause)
    requires { 22 ≤ room out.old }
    ensures bytes { out.new.items ≡ out.old.items ++ body_bytes version (Body.ONack obj stamp.now cause.now) }
    ensures room { room out.old ≤ room out.new + 22 }
    ensures body { IsBody (Body.ONack obj stamp.now cause.now) }
{
    write_object(out, 7, obj);
    write_stamp(out, stamp);
    write_cause(out, cause);
}

#[tactic(auto, using(std::proofs::Common::append_assoc), unfolding(zeus_model::specs::PacketSpelling::body_bytes, crate::specs::Ranges::IsBody))]
fn write_oval(out: &mut Vec<u8>, version: u8, obj: ObjId, stamp: &Stamp, place: &Place)
    requires { 14 ≤ room out.old }
    ensures bytes { out.new.items ≡ out.old.items ++ body_bytes version (Body.OVal obj stamp.now place.now) }
    ensures room { room out.old ≤ room out.new + 14 }
    ensures body { IsBody (Body.OVal obj stamp.now place.now) }
{
    write_object(out, 8, obj);
    write_stamp(out, stamp);
    write_place(out, place);
}

/// Appends a tag, the stream and a number of it.
#[tactic(auto, using(crate::proofs::Numbers::four_alone), unfolding(zeus_model::specs::PacketSpelling::stream_bytes))]
fn write_ack(out: &mut Vec<u8>, tag: u8, stream: &Stream, number: u32)
    requires { 7 ≤ room out.old }
    ensures bytes { out.new.items ≡ out.old.items ++ (tag ∷ stream_bytes stream.now ++ u32_bytes number) }
    ensures room { room out.old ≤ room out.new + 7 }
{
    let [a, b, c, d] = number.to_be_bytes();
    write_bytes(out, &[tag, stream.node.0, stream.slot.0, a, b, c, d]);
}

/// Appends the tag of what a letter says, and its fields.
#[tactic(auto, using(std::proofs::Common::append_assoc, crate::proofs::Room::longest_is), unfolding(zeus_model::specs::PacketSpelling::body_bytes, crate::specs::Ranges::IsBody, zeus_packet::specs::Fits::body_fits))]
pub fn write_body(out: &mut Vec<u8>, version: u8, body: &Body)
    requires fits { body_fits (largest version) body.now ≡ true }
    requires room { longest version ≤ room out.old + 11 }
    ensures bytes { out.new.items ≡ out.old.items ++ body_bytes version body.now }
    ensures room { room out.old + 11 ≤ room out.new + longest version }
    ensures body { IsBody body.now }
{
    match body {
        Body::RInv(r) => {
            write_u8(out, 1);
            write_inv(out, version, r);
        }
        Body::RAck(stream, number) => write_ack(out, 2, stream, *number),
        Body::RVal(stream, done) => write_ack(out, 3, stream, *done),
        Body::OReq(obj, want) => write_oreq(out, version, *obj, *want),
        Body::OInv(obj, p) => write_oinv(out, version, *obj, p),
        Body::OAck(obj, p, content) => write_oack(out, version, *obj, p, content),
        Body::ONack(obj, stamp, cause) => write_onack(out, version, *obj, stamp, cause),
        Body::OVal(obj, stamp, place) => write_oval(out, version, *obj, stamp, place),
        Body::Recovered => write_u8(out, 9),
    }
}
