//! The store that one thread runs transactions on.
ghost use Rattle.std.specs.Prelude.{ℕ, ◌≡◌, ◌+◌, ◌-◌, ◌^◌, ◌<◌, length, map, All, IfOk};
ghost use Rattle.zeus_txn.specs.Map.{applied_map, content, declared_content, no_content, run_at, start_map, written_map};
ghost use Rattle.zeus_base.specs.Tables.{put};
ghost use Rattle.zeus_txn.specs.MapLaws.{CanWrite};
ghost use Rattle.zeus_txn.specs.Ops.{named};

use crate::lists::{Named, Values};
use crate::reply::Reply;
use crate::run::run_ops;
use crate::tx::Tx;
use std::alloc::{AllocError, Global};
use std::marker::Model;
use zeus_base::{Config, NoMemory, ObjId, ObjectDecl, Value};

/// A value of an object with its version: how often the object was written before.
#[derive(Clone, Copy, Debug, PartialEq, Eq)]
pub struct Versioned {
    pub ver: u64,
    pub value: Value,
}

/// The values and versions of all objects by their numbers, seen as a list: what one thread's run of the transactions
/// leaves.
#[derive(Debug, Drop)]
pub struct Map {
    items: Vec<Versioned>,
}

impl Model for Map {
    ghost use Rattle.std.specs.Prelude.{List};
    ghost use Rattle.zeus_txn.specs.declared.map.Versioned.{Versioned};

    ghost Value = { List Versioned };

    ghost view = { λ m. m.items.items };
}

impl Map {
    /// The map before any transaction: the declared values at version 0.
    ///
    /// # Errors
    /// Want of memory.
    #[tactic(auto, unfolding(crate::specs::Map::start_map))]
    pub fn new(alloc: Global, config: &Config) -> Result<Map, NoMemory>
        ensures { IfOk result (λ m. m ≡ start_map config.now) }
    {
        match declared(alloc, config.objects.as_slice()) {
            Ok(items) => Ok(Map { items }),
            Err(_) => Err(NoMemory),
        }
    }

    /// Runs the transaction, and writes what it writes.
    pub fn apply(&mut self, tx: &Tx) -> Reply
        requires objects { All (λ x. x < length self.old) (named tx.now) }
        requires versions { (x : ℕ) → x < length self.old → (content self.old x).ver < 2 ^ 64 - 1 }
        ensures reply { result ≡ (run_at self.old tx.now).reply }
        ensures map { self.new ≡ applied_map self.old tx.now }
    {
        let named = tx.named();
        let values = values_of(&named, tx.allocator(), self.items.as_slice());
        let ran = run_ops(tx, values.as_slice());
        write_all(&mut self.items, ran.writes.as_slice());
        ran.reply
    }

    /// The value of an object.
    pub fn value(&self, obj: ObjId) -> Value
        requires { obj < length self.now }
        ensures { result ≡ (content self.now obj).value }
    {
        self.items[obj.0 as usize].value
    }

    /// How often an object was written.
    pub fn version(&self, obj: ObjId) -> u64
        requires { obj < length self.now }
        ensures { result ≡ (content self.now obj).ver }
    {
        self.items[obj.0 as usize].ver
    }
}

// The declared values at version 0.
#[tactic(auto, unfolding(crate::specs::Map::declared_content))]
fn declared(alloc: Global, objects: &[ObjectDecl]) -> Result<Vec<Versioned>, AllocError>
    ensures { IfOk result (λ v. v.items ≡ map declared_content objects.now) }
{
    objects
        .iter()
        .map(|object| Versioned {
            ver: 0,
            value: object.value,
        })
        .collect(alloc)
}

// The values of the objects, in order.
fn values_of(named: &Named, alloc: Global, items: &[Versioned]) -> Values
    requires { All (λ x. x < length items.now) named.now }
    ensures { result ≡ map (λ x. (content items.now x).value) named.now }
{
    let mut values = Values::new(alloc);
    let objects = named.as_slice();
    for obj in objects {
        values.push(items[obj.0 as usize].value);
    }
    values
}

// Each written object gets its last value, and its version rises by one.
fn write_all(items: &mut [Versioned], writes: &[(ObjId, Value)])
    requires { CanWrite items.old writes.now }
    ensures { items.new ≡ written_map items.old writes.now }
{
    for write in writes {
        rewrite(items, write.0, write.1);
    }
}

// The object gets the value, and its version rises by one.
fn rewrite(items: &mut [Versioned], obj: ObjId, value: Value)
    requires object { obj < length items.old }
    requires version { (content items.old obj).ver < 2 ^ 64 - 1 }
    ensures { items.new ≡ put no_content items.old obj record { ver = (content items.old obj).ver + 1; value = value } }
{
    let item = &mut items[obj.0 as usize];
    item.ver += 1;
    item.value = value;
}
