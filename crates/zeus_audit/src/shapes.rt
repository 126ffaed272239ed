//! The shapes of the lines that are read word by word.
ghost use Rattle.std.specs.Prelude.{◌≡◌, ◌≤◌};
ghost use Rattle.script_lang.specs.Reads.{Reads};
ghost use Rattle.zeus_audit.specs.Shapes.{outcome_at, values_at, numbers_at, point_shape, ack_shape, history_shape, tx_state_of};
ghost use Rattle.zeus_audit.specs.Shapes.{state_shape, owner_at, replicas_at, object_shape, lost_shape, copy_state_of, copy_shape};

use script_lang::{NodeRule, Parts};
use zeus_base::{NodeId, NodeSet, Value};
use zeus_model::{Kind, TxState};
use zeus_packet::State;

/// `ok`, or `failed` and a number.
#[tactic(auto, unfolding(crate::specs::Shapes::outcome_at))]
fn outcome(words: &mut Parts) -> Result<(), Kind>
    ensures { Reads result words.new (outcome_at words.old) }
{
    let word = words.word()?;
    if word == b"ok".as_slice() {
        return Ok(());
    }
    if word != b"failed".as_slice() {
        return Err(Kind::Word);
    }
    words.number()?;
    Ok(())
}

/// Values to the end of the line.
fn values(words: &mut Parts, version: u8) -> Result<(), Kind>
    ensures { result ≡ values_at version words.old }
{
    while !words.is_done() {
        words.value(version)?;
    }
    Ok(())
}

/// Numbers to the end of the line.
fn numbers(words: &mut Parts) -> Result<(), Kind>
    ensures { result ≡ numbers_at words.old }
{
    while !words.is_done() {
        words.number()?;
    }
    Ok(())
}

/// The number of `* K REPLY`.
#[tactic(auto, unfolding(crate::specs::Shapes::point_shape))]
pub(crate) fn point_shape(words: &mut Parts, version: u8) -> Result<u64, Kind>
    ensures { result ≡ point_shape version words.old }
{
    words.keyword(b"*")?;
    let id = words.number()?;
    outcome(words)?;
    values(words, version)?;
    Ok(id)
}

/// The number of `! K`.
#[tactic(auto, unfolding(crate::specs::Shapes::ack_shape))]
pub(crate) fn ack_shape(words: &mut Parts) -> Result<u64, Kind>
    ensures { result ≡ ack_shape words.old }
{
    words.keyword(b"!")?;
    let id = words.number()?;
    words.end()?;
    Ok(id)
}

/// `history` and numbers.
#[tactic(auto, unfolding(crate::specs::Shapes::history_shape))]
pub(crate) fn history_shape(words: &mut Parts) -> Result<(), Kind>
    ensures { result ≡ history_shape words.old }
{
    words.keyword(b"history")?;
    numbers(words)
}

/// The state of a transaction that a word tells.
#[tactic(auto, unfolding(crate::specs::Shapes::tx_state_of))]
fn tx_state_of(word: &[u8]) -> Result<TxState, Kind>
    ensures { result ≡ tx_state_of word.now }
{
    if word == b"new".as_slice() {
        Ok(TxState::New)
    } else if word == b"current".as_slice() {
        Ok(TxState::Current)
    } else if word == b"pending".as_slice() {
        Ok(TxState::Pending)
    } else if word == b"passed".as_slice() {
        Ok(TxState::Passed)
    } else if word == b"acked".as_slice() {
        Ok(TxState::Acked)
    } else if word == b"refused".as_slice() {
        Ok(TxState::Refused)
    } else {
        Err(Kind::Word)
    }
}

/// The state of `tx K STATE` for the transaction of this number.
#[tactic(auto, unfolding(crate::specs::Shapes::state_shape, crate::specs::Shapes::expected))]
pub(crate) fn state_shape(words: &mut Parts, id: u64) -> Result<TxState, Kind>
    ensures { result ≡ state_shape id words.old }
{
    words.keyword(b"tx")?;
    if words.number()? != id {
        return Err(Kind::Word);
    }
    let state = tx_state_of(words.word()?)?;
    words.end()?;
    Ok(state)
}

/// A node of so many, or `-` if there is none.
#[tactic(auto, unfolding(crate::specs::Shapes::owner_at, crate::specs::Shapes::owner_of))]
fn owner(words: &mut Parts, nodes: u8) -> Result<Option<NodeId>, Kind>
    requires { nodes ≤ 8 }
    ensures { Reads result words.new (owner_at nodes words.old) }
{
    if words.take_if(b"-") {
        return Ok(None);
    }
    Ok(Some(words.node(nodes)?))
}

/// Rising nodes of so many with commas between them, or `-` if there is none.
#[tactic(auto, unfolding(crate::specs::Shapes::replicas_at, crate::specs::Shapes::replicas_of))]
fn replicas(words: &mut Parts, nodes: u8) -> Result<NodeSet, Kind>
    requires { nodes ≤ 8 }
    ensures { Reads result words.new (replicas_at nodes words.old) }
{
    if words.take_if(b"-") {
        return Ok(NodeSet::empty());
    }
    let rule = NodeRule {
        nodes,
        most: None,
        owner: None,
    };
    Parts::new(words.word()?, b',').nodes(&rule)
}

/// The owner and the replicas of `object NAME OWNER REPLICAS` for the object of this name.
#[tactic(auto, unfolding(crate::specs::Shapes::object_shape))]
pub(crate) fn object_shape(
    words: &mut Parts,
    nodes: u8,
    name: &[u8],
) -> Result<(Option<NodeId>, NodeSet), Kind>
    requires { nodes ≤ 8 }
    ensures { result ≡ object_shape nodes name.now words.old }
{
    words.keyword(b"object")?;
    words.keyword(name)?;
    let owner = owner(words, nodes)?;
    let replicas = replicas(words, nodes)?;
    words.end()?;
    Ok((owner, replicas))
}

/// `lost NAME` for the object of this name.
#[tactic(auto, unfolding(crate::specs::Shapes::lost_shape))]
pub(crate) fn lost_shape(words: &mut Parts, name: &[u8]) -> Result<(), Kind>
    ensures { result ≡ lost_shape name.now words.old }
{
    words.keyword(b"lost")?;
    words.keyword(name)?;
    words.end()
}

/// The state of a copy that a word tells.
#[tactic(auto, unfolding(crate::specs::Shapes::copy_state_of))]
fn copy_state_of(word: &[u8]) -> Result<State, Kind>
    ensures { result ≡ copy_state_of word.now }
{
    if word == b"valid".as_slice() {
        Ok(State::Valid)
    } else if word == b"invalid".as_slice() {
        Ok(State::Invalid)
    } else if word == b"write".as_slice() {
        Ok(State::Write)
    } else {
        Err(Kind::Word)
    }
}

/// A copy of an object as a line tells it.
#[derive(Clone, Copy, Debug)]
pub(crate) struct Printed {
    pub node: NodeId,
    pub state: State,
    pub ver: u64,
    pub value: Value,
}

/// What `copy NAME NODE STATE VERSION VALUE` tells of the object of this name.
#[tactic(auto, unfolding(crate::specs::Shapes::copy_shape))]
pub(crate) fn copy_shape(
    words: &mut Parts,
    nodes: u8,
    version: u8,
    name: &[u8],
) -> Result<Printed, Kind>
    requires { nodes ≤ 8 }
    ensures { result ≡ copy_shape nodes version name.now words.old }
{
    words.keyword(b"copy")?;
    words.keyword(name)?;
    let node = words.node(nodes)?;
    let state = copy_state_of(words.word()?)?;
    let ver = words.number()?;
    let value = words.value(version)?;
    words.end()?;
    Ok(Printed {
        node,
        state,
        ver,
        value,
    })
}
