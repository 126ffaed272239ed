//! The script of a storm.
ghost use Rattle.std.specs.Prelude.{◌≡◌, ◌<◌, ◌≤◌, ◌+◌, ◌∷◌, ◌++◌, IfOk, [], map, vec_capacity, vec_len};
ghost use Rattle.zeus_base.specs.Limits.{KeepsLimits};
ghost use Rattle.zeus_model.specs.Scripts.{FitsTxs};
ghost use Rattle.zeus_model.specs.Tables.{below};
ghost use Rattle.storm.specs.Numbers.{AreInRange};
ghost use Rattle.storm.specs.Script.{drawn_txs, storm_config, storm_name, storm_names, storm_object};

use crate::draw::draw_tx;
use crate::numbers::StormNumbers;
use random_schedule::Words;
use std::alloc::Global;
use zeus_base::{Config, NoMemory, NodeId, NodeSet, ObjectDecl, ObjectList, Steps, Value};
use zeus_model::{Name, Names, Script};
use zeus_text::{append, write_decimal};
use zeus_txn::TxList;

/// The value that each object is declared with.
const FIRST_VALUE: u64 = 100;

/// The most nodes that the directory stands on.
const DIRECTORY_NODES: u8 = 3;

/// Adds the object of this number at the end, where there is room.
#[tactic(auto, unfolding(crate::specs::Script::storm_object))]
fn add_object(objects: &mut Vec<ObjectDecl>, nodes: u8, number: u16)
    requires nodes { (1 ≤ nodes) × (nodes ≤ 8) }
    requires room { vec_len objects.old < vec_capacity objects.old }
    ensures items { objects.new.items ≡ objects.old.items ++ storm_object nodes number ∷ [] }
    ensures len { vec_len objects.new ≡ vec_len objects.old + 1 }
    ensures capacity { vec_capacity objects.new ≡ vec_capacity objects.old }
{
    let value = Value::Num(FIRST_VALUE);
    let owner = NodeId((number % u16::from(nodes)) as u8);
    let next = NodeId((owner.0 + 1) % nodes);
    let replicas = NodeSet::empty().insert(owner).insert(next);
    objects.push_reserved(ObjectDecl {
        value,
        owner,
        replicas,
    });
}

#[tactic(auto, unfolding(zeus_model::specs::Tables::numbers_from))]
fn objects(alloc: Global, nodes: u8, count: u16) -> Result<ObjectList, NoMemory>
    requires { (1 ≤ nodes) × (nodes ≤ 8) }
    ensures { IfOk result (λ l. l ≡ map (storm_object nodes) (below count)) }
{
    let mut objects = Vec::with_capacity(alloc, usize::from(count)).map_err(|_| NoMemory)?;
    for number in 0..count {
        add_object(&mut objects, nodes, number);
    }
    Ok(ObjectList::from_vec(objects))
}

/// The name of the object of this number.
#[tactic(auto, unfolding(crate::specs::Script::storm_name))]
fn name_of(alloc: Global, number: u16) -> Result<Name, NoMemory>
    requires { number < 256 }
    ensures { IfOk result (λ name. name ≡ storm_name number) }
{
    let mut bytes = Vec::new(alloc);
    append(&mut bytes, b"o")?;
    write_decimal(&mut bytes, u64::from(number))?;
    Ok(Name::new(bytes.as_slice()).unwrap())
}

#[tactic(auto, unfolding(zeus_model::specs::Tables::numbers_from))]
fn names(alloc: Global, count: u16) -> Result<Names, NoMemory>
    requires { count ≤ 256 }
    ensures { IfOk result (λ l. l ≡ map storm_name (below count)) }
{
    let mut names = Vec::with_capacity(alloc, usize::from(count)).map_err(|_| NoMemory)?;
    for number in 0..count {
        names.push_reserved(name_of(alloc, number)?);
    }
    Ok(Names::from_vec(names))
}

fn draw_txs(alloc: Global, numbers: &StormNumbers, words: &mut Words) -> Result<TxList, NoMemory>
    requires { AreInRange numbers.now }
    ensures { IfOk result (λ l. (l, words.new) ≡ drawn_txs numbers.now numbers.now.txs words.old) }
{
    let mut txs = Vec::with_capacity(alloc, numbers.txs as usize).map_err(|_| NoMemory)?;
    for _tx in 0..numbers.txs {
        txs.push_reserved(draw_tx(alloc, numbers, words));
    }
    Ok(TxList::from_vec(txs))
}

fn config(alloc: Global, numbers: &StormNumbers) -> Result<Config, NoMemory>
    requires { AreInRange numbers.now }
    ensures { IfOk result (λ c. c ≡ storm_config numbers.now) }
{
    Ok(Config {
        version: 1,
        nodes: numbers.nodes,
        slots: numbers.slots,
        directory: NodeSet::below(numbers.nodes.min(DIRECTORY_NODES)),
        degree: None,
        objects: objects(alloc, numbers.nodes, numbers.objects)?,
    })
}

/// The script of a storm, without steps: its nodes and objects by its numbers, and the transactions that are drawn from
/// the words. The words are those behind.
///
/// # Errors
/// `NoMemory` if memory ran out.
pub fn storm_script(
    alloc: Global,
    numbers: &StormNumbers,
    words: &mut Words,
) -> Result<Script, NoMemory>
    requires { AreInRange numbers.now }
    ensures config { IfOk result (λ s. s.config ≡ storm_config numbers.now) }
    ensures names { IfOk result (λ s. s.names ≡ storm_names numbers.now) }
    ensures drawn { IfOk result (λ s. (s.txs, words.new) ≡ drawn_txs numbers.now numbers.now.txs words.old) }
    ensures steps { IfOk result (λ s. s.steps ≡ []) }
    ensures limits { IfOk result (λ s. KeepsLimits s.config) }
    ensures fits { IfOk result (λ s. FitsTxs s.config s.txs) }
{
    Ok(Script {
        config: config(alloc, numbers)?,
        names: names(alloc, numbers.objects)?,
        txs: draw_txs(alloc, numbers, words)?,
        steps: Steps::from_vec(Vec::new(alloc)),
    })
}
