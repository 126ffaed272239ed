//! What packets say. Most lines of a report are packets, so what they share is compiled into its callers.
ghost use Rattle.std.specs.Prelude.{◌≡◌, ◌++◌, OnOk};
ghost use Rattle.zeus_model.specs.ReportText.{packet_lines};
ghost use Rattle.zeus_model.specs.ReportWords.{number, named_object, stream_text, cause_text, writes_text};
ghost use Rattle.zeus_model.specs.ReportWords.{want_text, place_text, proposal_text, content_text, body_text};
ghost use Rattle.zeus_model.specs.Spelling.{word};
ghost use Rattle.zeus_report.specs.Lines.{packet_line, write_text};

use crate::words::{state_text, write_nodes, write_stamp, write_stamped, write_stream};
use zeus_base::{NoMemory, Stream};
use zeus_model::Name;
use zeus_packet::{Body, Cause, Content, Letter, Place, Proposal, RInv, Want, Write};
use zeus_text::{
    append, write_counted, write_line_end, write_number, write_object, write_value, write_word,
};
use zeus_world::Sent;

/// Writes a space and why a letter was refused.
#[tactic(auto, unfolding(zeus_model::specs::ReportWords::cause_text))]
pub(crate) fn write_cause(out: &mut Vec<u8>, cause: &Cause) -> Result<(), NoMemory>
    ensures { OnOk result (out.new.items ≡ out.old.items ++ word (cause_text cause.now)) }
{
    match cause {
        Cause::OwnStream => append(out, b" own stream"),
        Cause::Window => append(out, b" window"),
        Cause::NotDirectory => append(out, b" not directory"),
        Cause::Proposed(stamp) => write_stamped(out, b" proposed", stamp),
        Cause::Owns => append(out, b" owns"),
        Cause::HasCopy => append(out, b" has copy"),
        Cause::NotReader => append(out, b" not reader"),
        Cause::NoSource => append(out, b" no source"),
        Cause::Degree => append(out, b" degree"),
        Cause::IsSource => append(out, b" is source"),
        Cause::WornOut => append(out, b" worn out"),
        Cause::NoCopy => append(out, b" no copy"),
        Cause::Held(slot) => write_counted(out, b" held", u64::from(slot.0)),
        Cause::NotValid(state) => {
            append(out, b" not valid")?;
            write_word(out, state_text(*state))
        }
        Cause::Kept(slot) => write_counted(out, b" kept", u64::from(slot.0)),
        Cause::NotArbiter => append(out, b" not arbiter"),
        Cause::NotCollector => append(out, b" not collector"),
        Cause::OwnPlace => append(out, b" own place"),
    }
}

fn write_write(out: &mut Vec<u8>, names: &[Name], write: &Write) -> Result<(), NoMemory>
    ensures { OnOk result (out.new.items ≡ out.old.items ++ write_text names.now write.now) }
{
    write_object(out, names, write.obj)?;
    write_number(out, write.ver)?;
    write_value(out, &write.value)
}

fn write_writes(out: &mut Vec<u8>, names: &[Name], writes: &[Write]) -> Result<(), NoMemory>
    ensures { OnOk result (out.new.items ≡ out.old.items ++ writes_text names.now writes.now) }
{
    for write in writes {
        write_write(out, names, write)?;
    }
    Ok(())
}

// A wish stands behind what it is of; to own an object is the plain one.
#[tactic(auto, unfolding(zeus_model::specs::ReportWords::want_text))]
fn want_text(want: Want) -> &'static [u8]
    ensures { result.now ≡ want_text want }
{
    match want {
        Want::Own => b"",
        Want::Read => b" read",
        Want::Leave => b" leave",
    }
}

#[inline(always)]
fn write_place(out: &mut Vec<u8>, place: &Place) -> Result<(), NoMemory>
    ensures { OnOk result (out.new.items ≡ out.old.items ++ place_text place.now) }
{
    write_number(out, u64::from(place.owner.0))?;
    write_nodes(out, place.replicas)
}

// A proposal but for its wish.
#[inline(always)]
fn write_proposal(out: &mut Vec<u8>, proposal: &Proposal) -> Result<(), NoMemory>
    ensures { OnOk result (out.new.items ≡ out.old.items ++ proposal_text proposal.now) }
{
    write_stamp(out, &proposal.stamp)?;
    write_number(out, u64::from(proposal.requester.0))?;
    write_stamp(out, &proposal.base)?;
    write_place(out, &proposal.base_place)
}

#[tactic(auto, unfolding(zeus_model::specs::ReportWords::content_text))]
fn write_content(out: &mut Vec<u8>, content: &Option<Content>) -> Result<(), NoMemory>
    ensures { OnOk result (out.new.items ≡ out.old.items ++ content_text content.now) }
{
    match content {
        None => append(out, b" -"),
        Some(content) => {
            write_number(out, content.ver)?;
            write_value(out, &content.value)
        }
    }
}

// A text, and then a stream and a number.
fn write_numbered(out: &mut Vec<u8>, text: &[u8], stream: &Stream, n: u32) -> Result<(), NoMemory>
    ensures { OnOk result (out.new.items ≡ out.old.items ++ text.now ++ word (stream_text stream.now) ++ number n) }
{
    append(out, text)?;
    write_stream(out, stream)?;
    write_number(out, u64::from(n))
}

#[tactic(auto, unfolding(zeus_model::specs::ReportWords::body_text))]
fn write_entry(out: &mut Vec<u8>, names: &[Name], entry: &RInv) -> Result<(), NoMemory>
    ensures { OnOk result (out.new.items ≡ out.old.items ++ word (body_text names.now (Body.RInv entry.now))) }
{
    write_numbered(out, b" rinv", &entry.stream, entry.number)?;
    write_number(out, u64::from(entry.done))?;
    write_nodes(out, entry.followers)?;
    write_writes(out, names, entry.writes.as_slice())
}

/// Writes a space and what the letter says.
#[tactic(auto, unfolding(zeus_model::specs::ReportWords::body_text))]
pub(crate) fn write_body(out: &mut Vec<u8>, names: &[Name], body: &Body) -> Result<(), NoMemory>
    ensures { OnOk result (out.new.items ≡ out.old.items ++ word (body_text names.now body.now)) }
{
    match body {
        Body::RInv(entry) => write_entry(out, names, entry),
        Body::RAck(stream, n) => write_numbered(out, b" rack", stream, *n),
        Body::RVal(stream, done) => write_numbered(out, b" rval", stream, *done),
        Body::OReq(obj, want) => {
            append(out, b" oreq")?;
            write_object(out, names, *obj)?;
            append(out, want_text(*want))
        }
        Body::OInv(obj, proposal) => {
            append(out, b" oinv")?;
            write_object(out, names, *obj)?;
            write_proposal(out, proposal)?;
            append(out, want_text(proposal.want))
        }
        Body::OAck(obj, proposal, content) => {
            append(out, b" oack")?;
            write_object(out, names, *obj)?;
            write_proposal(out, proposal)?;
            write_content(out, content)?;
            append(out, want_text(proposal.want))
        }
        Body::ONack(obj, stamp, cause) => {
            append(out, b" onack")?;
            write_object(out, names, *obj)?;
            write_stamp(out, stamp)?;
            write_cause(out, cause)
        }
        Body::OVal(obj, stamp, place) => {
            append(out, b" oval")?;
            write_object(out, names, *obj)?;
            write_stamp(out, stamp)?;
            write_place(out, place)
        }
        Body::Recovered => append(out, b" recovered"),
    }
}

fn write_packet(
    out: &mut Vec<u8>,
    names: &[Name],
    number: u32,
    letter: &Letter,
) -> Result<(), NoMemory>
    ensures { OnOk result (out.new.items ≡ out.old.items ++ packet_line names.now number letter.now) }
{
    append(out, b">")?;
    write_number(out, u64::from(letter.from.0))?;
    write_number(out, u64::from(letter.to.0))?;
    write_number(out, u64::from(number))?;
    write_number(out, u64::from(letter.epoch))?;
    write_body(out, names, &letter.body)?;
    write_line_end(out)
}

/// Writes a line for each packet.
pub(crate) fn write_packets(out: &mut Vec<u8>, names: &[Name], sent: &Sent) -> Result<(), NoMemory>
    ensures { OnOk result (out.new.items ≡ out.old.items ++ packet_lines names.now sent.now) }
{
    let numbers = sent.numbers();
    let letters = sent.letters();
    for place in 0..sent.len() {
        write_packet(out, names, numbers[place], &letters[place])?;
    }
    Ok(())
}
