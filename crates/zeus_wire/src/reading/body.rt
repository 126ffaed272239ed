//! What a letter says, by its tag.
ghost use Rattle.std.specs.Prelude.{◌≡◌, ◌≤◌};
ghost use Rattle.zeus_wire.specs.Ranges.{AreLimits};
ghost use Rattle.zeus_wire.specs.Reading.{IsRead, body_at, body_behind, cause_at, cause_behind, held_at, inv_at, kept_at, not_valid_at, oack_at, oinv_at};
ghost use Rattle.zeus_wire.specs.Reading.{onack_at, oreq_at, oval_at, plain_cause, proposed_at, rack_at, rinv_at, rval_at, state_at, state_of};

use crate::fault::Fault;
use crate::reading::fields::{
    read_object, read_place, read_proposal, read_set, read_slot, read_stamp, read_stream, read_want,
};
use crate::reading::input::Input;
use crate::reading::values::{read_content, read_writes};
use std::alloc::Global;
use zeus_packet::{Body, Cause, Limits, RInv, State};

#[tactic(auto, unfolding(crate::specs::Reading::state_at, crate::specs::Reading::state_of, crate::specs::Reading::and_then))]
fn read_state(input: &mut Input<'_>) -> Result<State, Fault>
    ensures { IsRead result input.new (state_at input.old) }
{
    let left = input.len();
    match input.u8()? {
        0 => Ok(State::Valid),
        1 => Ok(State::Invalid),
        2 => Ok(State::Write),
        _ => Err(Fault::Field { left }),
    }
}

/// The cause of this number, which names no stamp, slot or state.
#[tactic(auto, unfolding(crate::specs::Reading::plain_cause))]
fn plain_cause(byte: u8) -> Cause
    ensures { result ≡ plain_cause byte }
{
    match byte {
        0 => Cause::OwnStream,
        1 => Cause::Window,
        2 => Cause::NotDirectory,
        4 => Cause::Owns,
        5 => Cause::NoSource,
        6 => Cause::WornOut,
        7 => Cause::NoCopy,
        11 => Cause::NotArbiter,
        12 => Cause::NotCollector,
        13 => Cause::OwnPlace,
        14 => Cause::HasCopy,
        15 => Cause::NotReader,
        16 => Cause::Degree,
        _ => Cause::IsSource,
    }
}

#[tactic(auto, unfolding(crate::specs::Reading::cause_behind, crate::specs::Reading::proposed_at, crate::specs::Reading::held_at, crate::specs::Reading::not_valid_at, crate::specs::Reading::kept_at, crate::specs::Reading::and_then))]
fn read_cause_behind(limits: Limits, byte: u8, input: &mut Input<'_>) -> Result<Cause, Fault>
    requires { AreLimits limits }
    ensures { IsRead result input.new (cause_behind limits byte input.old) }
{
    match byte {
        3 => Ok(Cause::Proposed(read_stamp(limits, input)?)),
        8 => Ok(Cause::Held(read_slot(limits, input)?)),
        9 => Ok(Cause::NotValid(read_state(input)?)),
        10 => Ok(Cause::Kept(read_slot(limits, input)?)),
        _ => Ok(plain_cause(byte)),
    }
}

#[tactic(auto, unfolding(crate::specs::Reading::cause_at, crate::specs::Reading::and_then))]
fn read_cause(limits: Limits, input: &mut Input<'_>) -> Result<Cause, Fault>
    requires { AreLimits limits }
    ensures { IsRead result input.new (cause_at limits input.old) }
{
    let left = input.len();
    let byte = input.u8()?;
    if byte > 17 {
        return Err(Fault::Field { left });
    }
    read_cause_behind(limits, byte, input)
}

#[tactic(auto, unfolding(crate::specs::Reading::inv_at, crate::specs::Reading::and_then))]
fn read_inv(alloc: Global, limits: Limits, input: &mut Input<'_>) -> Result<RInv, Fault>
    requires { AreLimits limits }
    ensures { IsRead result input.new (inv_at limits input.old) }
{
    let stream = read_stream(limits, input)?;
    let left = input.len();
    let number = input.u32()?;
    if number == u32::MAX {
        return Err(Fault::Field { left });
    }
    let left = input.len();
    let done = input.u32()?;
    if done > number {
        return Err(Fault::Field { left });
    }
    let followers = read_set(limits, input)?;
    let left = input.len();
    let count = input.u8()?;
    if !(1 <= count && count <= 8) {
        return Err(Fault::Field { left });
    }
    let writes = read_writes(alloc, limits, count, input)?;
    Ok(RInv {
        stream,
        number,
        done,
        followers,
        writes,
    })
}

#[tactic(auto, unfolding(crate::specs::Reading::rinv_at, crate::specs::Reading::and_then))]
fn read_rinv(alloc: Global, limits: Limits, input: &mut Input<'_>) -> Result<Body, Fault>
    requires { AreLimits limits }
    ensures { IsRead result input.new (rinv_at limits input.old) }
{
    let inv = read_inv(alloc, limits, input)?;
    Ok(Body::RInv(inv))
}

#[tactic(auto, unfolding(crate::specs::Reading::rack_at, crate::specs::Reading::and_then))]
fn read_rack(limits: Limits, input: &mut Input<'_>) -> Result<Body, Fault>
    requires { AreLimits limits }
    ensures { IsRead result input.new (rack_at limits input.old) }
{
    let stream = read_stream(limits, input)?;
    let number = input.u32()?;
    Ok(Body::RAck(stream, number))
}

#[tactic(auto, unfolding(crate::specs::Reading::rval_at, crate::specs::Reading::and_then))]
fn read_rval(limits: Limits, input: &mut Input<'_>) -> Result<Body, Fault>
    requires { AreLimits limits }
    ensures { IsRead result input.new (rval_at limits input.old) }
{
    let stream = read_stream(limits, input)?;
    let done = input.u32()?;
    Ok(Body::RVal(stream, done))
}

#[tactic(auto, unfolding(crate::specs::Reading::oreq_at, crate::specs::Reading::and_then))]
fn read_oreq(limits: Limits, has_wish: bool, input: &mut Input<'_>) -> Result<Body, Fault>
    requires { AreLimits limits }
    ensures { IsRead result input.new (oreq_at limits has_wish input.old) }
{
    let obj = read_object(limits, input)?;
    let want = read_want(has_wish, input)?;
    Ok(Body::OReq(obj, want))
}

#[tactic(auto, unfolding(crate::specs::Reading::oinv_at, crate::specs::Reading::and_then))]
fn read_oinv(limits: Limits, has_wish: bool, input: &mut Input<'_>) -> Result<Body, Fault>
    requires { AreLimits limits }
    ensures { IsRead result input.new (oinv_at limits has_wish input.old) }
{
    let obj = read_object(limits, input)?;
    let want = read_want(has_wish, input)?;
    let p = read_proposal(limits, want, input)?;
    Ok(Body::OInv(obj, p))
}

#[tactic(auto, unfolding(crate::specs::Reading::oack_at, crate::specs::Reading::and_then))]
fn read_oack(limits: Limits, has_wish: bool, input: &mut Input<'_>) -> Result<Body, Fault>
    requires { AreLimits limits }
    ensures { IsRead result input.new (oack_at limits has_wish input.old) }
{
    let obj = read_object(limits, input)?;
    let want = read_want(has_wish, input)?;
    let p = read_proposal(limits, want, input)?;
    let content = read_content(limits, input)?;
    Ok(Body::OAck(obj, p, content))
}

#[tactic(auto, unfolding(crate::specs::Reading::onack_at, crate::specs::Reading::and_then))]
fn read_onack(limits: Limits, input: &mut Input<'_>) -> Result<Body, Fault>
    requires { AreLimits limits }
    ensures { IsRead result input.new (onack_at limits input.old) }
{
    let obj = read_object(limits, input)?;
    let stamp = read_stamp(limits, input)?;
    let cause = read_cause(limits, input)?;
    Ok(Body::ONack(obj, stamp, cause))
}

#[tactic(auto, unfolding(crate::specs::Reading::oval_at, crate::specs::Reading::and_then))]
fn read_oval(limits: Limits, input: &mut Input<'_>) -> Result<Body, Fault>
    requires { AreLimits limits }
    ensures { IsRead result input.new (oval_at limits input.old) }
{
    let obj = read_object(limits, input)?;
    let stamp = read_stamp(limits, input)?;
    let place = read_place(limits, None, input)?;
    Ok(Body::OVal(obj, stamp, place))
}

/// Reads a letter's body: the byte of its kind, then the fields of that kind.
#[tactic(auto, unfolding(crate::specs::Reading::body_at, crate::specs::Reading::body_behind, crate::specs::Reading::and_then))]
pub fn read_body(alloc: Global, limits: Limits, input: &mut Input<'_>) -> Result<Body, Fault>
    requires { AreLimits limits }
    ensures { IsRead result input.new (body_at limits input.old) }
{
    let left = input.len();
    let tag = input.u8()?;
    match tag {
        1 => read_rinv(alloc, limits, input),
        2 => read_rack(limits, input),
        3 => read_rval(limits, input),
        4 => read_oreq(limits, false, input),
        5 => read_oinv(limits, false, input),
        6 => read_oack(limits, false, input),
        7 => read_onack(limits, input),
        8 => read_oval(limits, input),
        9 => Ok(Body::Recovered),
        20 => read_oreq(limits, true, input),
        21 => read_oinv(limits, true, input),
        22 => read_oack(limits, true, input),
        _ => Err(Fault::Tag { left, byte: tag }),
    }
}
