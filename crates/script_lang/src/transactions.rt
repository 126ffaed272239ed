//! Transactions as lines.
ghost use Rattle.std.specs.Prelude.{◌≡◌, ◌<◌, ◌≤◌, [], true, length, IfOk};
ghost use Rattle.script_lang.specs.Gathered.{takes_object};
ghost use Rattle.zeus_txn.specs.Ops.{object_of};
ghost use Rattle.script_lang.specs.Operations.{object_of_word, operand_at, op_rest_at, op_at, ops_at};
ghost use Rattle.script_lang.specs.Reads.{Reads};
ghost use Rattle.script_lang.specs.Transactions.{after_at, tx_at};

use crate::builder::TxBuilder;
use crate::head::Head;
use crate::keywords::{OpWord, op_word_of};
use crate::names::NameIndex;
use crate::parts::Parts;
use crate::words::name_of;
use std::alloc::Global;
use zeus_base::{ObjId, TxId};
use zeus_model::Kind;
use zeus_txn::{Op, TxDecl};

/// The declared object of a word, where an operation on it may follow.
#[tactic(auto, unfolding(crate::specs::Operations::object_of_word))]
fn object_of(word: &[u8], names: &NameIndex, before: &TxBuilder) -> Result<ObjId, Kind>
    ensures object { result ≡ object_of_word names.now before.now word.now }
    ensures takes { IfOk result (λ x. takes_object before.now x ≡ true) }
{
    let name = name_of(word)?;
    let Some(place) = names.find(&name) else {
        return Err(Kind::Unknown);
    };
    let object = ObjId(place as u16);
    if before.takes(object) {
        Ok(object)
    } else {
        Err(Kind::Long)
    }
}

/// The rest of an operation on an object.
#[tactic(auto, unfolding(crate::specs::Operations::operand_at, zeus_txn::specs::Ops::object_of))]
fn operand(words: &mut Parts, version: u8, word: OpWord, object: ObjId) -> Result<Op, Kind>
    ensures op { Reads result words.new (operand_at version word object words.old) }
    ensures object { IfOk result (λ op. object_of op ≡ object) }
{
    Ok(match word {
        OpWord::Get => Op::Get(object),
        OpWord::Put => Op::Put(object, words.value(version)?),
        OpWord::Add => Op::Add(object, words.number()?),
        OpWord::Need => Op::Need(object, words.number()?),
        OpWord::Same => Op::Same(object, words.value(version)?),
    })
}

/// An operation behind these.
#[tactic(auto, unfolding(crate::specs::Operations::op_at, crate::specs::Operations::op_rest_at))]
fn operation(
    words: &mut Parts,
    version: u8,
    names: &NameIndex,
    before: &TxBuilder,
) -> Result<Op, Kind>
    ensures op { Reads result words.new (op_at version names.now before.now words.old) }
    ensures takes { IfOk result (λ op. takes_object before.now (object_of op) ≡ true) }
    ensures room { IfOk result (λ op. length before.now < 16) }
{
    let Some(word) = op_word_of(words.word()?, version) else {
        return Err(Kind::Word);
    };
    if before.is_full() {
        return Err(Kind::Long);
    }
    let object = object_of(words.word()?, names, before)?;
    operand(words, version, word, object)
}

/// The operations of a transaction, one at least.
fn operations(
    words: &mut Parts,
    alloc: Global,
    version: u8,
    names: &NameIndex,
) -> Result<TxBuilder, Kind>
    ensures ops { result ≡ ops_at version names.now words.old }
    ensures some { IfOk result (λ ops. 1 ≤ length ops) }
{
    let mut ops = TxBuilder::new(alloc);
    let first = operation(words, version, names, &ops)?;
    ops.push(&first);
    while !words.is_done() {
        words.keyword(b";".as_slice())?;
        let op = operation(words, version, names, &ops)?;
        ops.push(&op);
    }
    Ok(ops)
}

/// What the transaction of number `number` waits for, if for any.
#[tactic(auto, unfolding(crate::specs::Transactions::after_at, crate::specs::Transactions::number_if))]
fn after(words: &mut Parts, number: u32) -> Result<Option<TxId>, Kind>
    ensures { Reads result words.new (after_at number words.old) }
{
    if words.take_if(b"after".as_slice()) {
        Ok(Some(TxId(words.number_in(0, number as u64)? as u32)))
    } else {
        Ok(None)
    }
}

/// The transaction of number `number`, of the words behind `tx`.
#[tactic(auto, unfolding(crate::specs::Transactions::tx_at))]
pub(crate) fn tx_of(
    words: &mut Parts,
    alloc: Global,
    head: &Head,
    names: &NameIndex,
    number: u32,
) -> Result<TxDecl, Kind>
    requires nodes { head.now.nodes ≤ 8 }
    requires slots { head.now.slots ≤ 8 }
    ensures { result ≡ tx_at head.now.version head.now.nodes head.now.slots names.now number words.old }
{
    let node = words.node(head.nodes)?;
    let slot = words.slot(head.slots)?;
    let after = after(words, number)?;
    let tx = operations(words, alloc, head.version, names)?.into_tx();
    Ok(TxDecl {
        node,
        slot,
        after,
        tx,
    })
}
