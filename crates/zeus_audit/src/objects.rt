//! The objects and their copies, and the last line.
ghost use Rattle.std.specs.Prelude.{◌≡◌, ◌≤◌, ◌<◌, slice_get, length};
ghost use Rattle.zeus_model.specs.Scripts.{FitsScript};
ghost use Rattle.zeus_base.specs.Values.{same_value};
ghost use Rattle.zeus_audit.specs.Auditing.{Takes};
ghost use Rattle.zeus_audit.specs.Fitting.{Fits};
ghost use Rattle.zeus_audit.specs.Progress.{state_of};
ghost use Rattle.zeus_audit.specs.Rules.{is_among, object_taken, object_line, lost_line, is_above, is_valid, is_current, copied, copy_taken, copy_line};

use crate::failure::Failure;
use crate::progress::Progress;
use crate::shapes::{Printed, copy_shape, lost_shape, object_shape};
use crate::stage::Stage;
use crate::verdict::Rule;
use script_lang::Parts;
use zeus_base::{NodeId, NodeSet, ObjId, Value};
use zeus_model::{Copy, Name, Script};
use zeus_packet::State;

/// Whether there is no owner, or it is one of the replicas.
#[tactic(auto, unfolding(crate::specs::Rules::is_among))]
fn is_among(owner: Option<NodeId>, replicas: NodeSet) -> bool
    ensures { result ≡ is_among owner replicas }
{
    match owner {
        None => true,
        Some(owner) => replicas.has(owner),
    }
}

/// Takes `object NAME OWNER REPLICAS` of the object of this number and name.
#[tactic(auto, unfolding(crate::specs::Rules::object_taken, crate::specs::Rules::in_form, crate::specs::Rules::kept))]
fn take_object(
    progress: &mut Progress,
    nodes: u8,
    object: u16,
    name: &Name,
    line: &[u8],
) -> Result<(), Failure>
    requires { nodes ≤ 8 }
    ensures { Takes result progress.new (object_taken nodes (state_of progress.old) object name.now line.now) }
{
    let (owner, replicas) = object_shape(&mut Parts::new(line, b' '), nodes, name.as_bytes())?;
    if !is_among(owner, replicas) {
        return Err(Failure::Rule(Rule::Owner));
    }
    progress.stage = Stage::Holders(object, replicas);
    Ok(())
}

/// Takes the line of the object of this number, or behind the last one the line `end`.
#[tactic(auto, unfolding(crate::specs::Rules::object_line, crate::specs::Rules::kept))]
pub(crate) fn take_object_line(
    progress: &mut Progress,
    script: &Script,
    object: usize,
    line: &[u8],
) -> Result<(), Failure>
    requires { FitsScript script.now }
    ensures { Takes result progress.new (object_line script.now (state_of progress.old) object (slice_get script.now.names object) line.now) }
{
    match script.names.as_slice().get(object) {
        Some(name) => {
            let number = object as u16;
            take_object(progress, script.config.nodes, number, name, line)
        }
        None if line == b"end".as_slice() => {
            progress.stage = Stage::Ended;
            Ok(())
        }
        None => Err(Failure::Rule(Rule::Form)),
    }
}

/// Takes `lost NAME` of the object of this number.
#[tactic(auto, unfolding(crate::specs::Rules::lost_line, crate::specs::Rules::in_form))]
pub(crate) fn take_lost(
    progress: &mut Progress,
    script: &Script,
    object: u16,
    line: &[u8],
) -> Result<(), Failure>
    ensures { Takes result progress.new (lost_line (state_of progress.old) object (slice_get script.now.names object) line.now) }
{
    let Some(name) = script.names.as_slice().get(usize::from(object)) else {
        return Err(Failure::Rule(Rule::Form));
    };
    lost_shape(&mut Parts::new(line, b' '), name.as_bytes())?;
    progress.stage = Stage::Objects(usize::from(object) + 1);
    Ok(())
}

/// Whether a node is above the last one, if there is one.
#[tactic(auto, unfolding(crate::specs::Rules::is_above))]
fn is_above(last: Option<NodeId>, node: NodeId) -> bool
    ensures { result ≡ is_above last node }
{
    match last {
        None => true,
        Some(last) => last.0 < node.0,
    }
}

/// Whether the copy is valid.
#[tactic(auto, unfolding(crate::specs::Rules::is_valid))]
fn is_valid(state: State) -> bool
    ensures { result ≡ is_valid state }
{
    match state {
        State::Valid => true,
        _ => false,
    }
}

/// Whether two values are one.
#[tactic(auto, unfolding(zeus_base::specs::Values::same_value))]
fn is_same(value: &Value, other: &Value) -> bool
    ensures { result ≡ same_value value.now other.now }
{
    value == other
}

/// Whether a copy that is valid, or of the version that the points leave, is what they leave, or another one is not older.
#[tactic(auto, unfolding(crate::specs::Rules::is_current))]
fn is_current(copy: &Copy, ver: u64, value: &Value) -> bool
    ensures { result ≡ is_current copy.now record { ver = ver; value = value.now } }
{
    if is_valid(copy.state) || copy.ver == ver {
        copy.ver == ver && is_same(&copy.value, value)
    } else {
        ver <= copy.ver
    }
}

/// Takes the copy of the object at a node.
#[tactic(auto, unfolding(crate::specs::Rules::copied, crate::specs::Rules::kept))]
fn take_copied(
    progress: &mut Progress,
    object: u16,
    replicas: NodeSet,
    last: Option<NodeId>,
    node: NodeId,
    copy: &Copy,
) -> Result<(), Failure>
    requires few { object < 256 }
    requires there { object < length progress.old.map }
    ensures { Takes result progress.new (copied (state_of progress.old) object replicas last node copy.now) }
{
    if !is_above(last, node) {
        return Err(Failure::Rule(Rule::Form));
    }
    let ver = progress.map.version(ObjId(object));
    let value = progress.map.value(ObjId(object));
    if !replicas.has(node) || !is_current(copy, ver, &value) {
        return Err(Failure::Rule(Rule::Copy));
    }
    progress.stage = Stage::Copies(object, replicas, node);
    Ok(())
}

/// Takes `copy NAME NODE STATE VERSION VALUE` of the object of this number, behind the copy at the last node.
#[tactic(auto, unfolding(crate::specs::Rules::copy_taken, crate::specs::Rules::in_form))]
fn take_copy(
    progress: &mut Progress,
    script: &Script,
    object: u16,
    replicas: NodeSet,
    last: Option<NodeId>,
    line: &[u8],
) -> Result<(), Failure>
    requires script { FitsScript script.now }
    requires fits { Fits script.now (state_of progress.old) }
    ensures { Takes result progress.new (copy_taken script.now (state_of progress.old) object replicas last (slice_get script.now.names object) line.now) }
{
    let Some(name) = script.names.as_slice().get(usize::from(object)) else {
        return Err(Failure::Rule(Rule::Form));
    };
    let mut words = Parts::new(line, b' ');
    let config = &script.config;
    let Printed {
        node,
        state,
        ver,
        value,
    } = copy_shape(&mut words, config.nodes, config.version, name.as_bytes())?;
    let copy = Copy { value, ver, state };
    take_copied(progress, object, replicas, last, node, &copy)
}

/// Takes a line that begins with `copy `.
#[tactic(auto, unfolding(crate::specs::Rules::copy_line))]
pub(crate) fn take_copy_line(
    progress: &mut Progress,
    script: &Script,
    line: &[u8],
) -> Result<(), Failure>
    requires script { FitsScript script.now }
    requires fits { Fits script.now (state_of progress.old) }
    ensures { Takes result progress.new (copy_line script.now (state_of progress.old) progress.old.stage line.now) }
{
    let stage = progress.stage;
    match &stage {
        Stage::Holders(object, replicas) => {
            take_copy(progress, script, *object, *replicas, None, line)
        }
        Stage::Copies(object, replicas, last) => {
            take_copy(progress, script, *object, *replicas, Some(*last), line)
        }
        _ => Err(Failure::Rule(Rule::Form)),
    }
}
