//! What a transaction replies and writes, from the values that it finds.
ghost use Rattle.std.specs.Prelude.{◌≡◌, ◌<◌, ◌≤◌, length};
ghost use Rattle.zeus_base.specs.Values.{same_value};
ghost use Rattle.zeus_txn.specs.Ops.{named};
ghost use Rattle.zeus_txn.specs.Run.{added, effect, given, reaches, run, stored, tested, value_at};

use crate::lists::{self, NewValues, Values, latest};
use crate::ops::Op;
use crate::reply::{Ran, Reply};
use crate::tx::Tx;
use zeus_base::{ObjId, Value};

// What an operation that does not fail gives to the reply, and what it stores.
#[derive(Clone, Copy, Debug, PartialEq, Eq)]
struct Effect {
    gives: Option<Value>,
    stores: Option<Value>,
}

/// What the transaction replies and writes, from the values of the objects that it names, in the order of their naming.
pub fn run_ops(tx: &Tx, values: &[Value]) -> Ran
    requires { length values.now ≡ length (named tx.now) }
    ensures { result ≡ run (value_at (named tx.now) values.now) tx.now }
{
    let alloc = tx.allocator();
    let named = tx.named();
    let mut given = Values::new(alloc);
    let mut writes = NewValues::new(alloc);
    let ops = tx.ops();
    for (place, op) in ops.iter().enumerate() {
        let obj = op.object();
        let found = value_at(named.as_slice(), values, obj);
        match perform(op, &latest(&writes, obj, found)) {
            None => {
                let reply = Reply {
                    values: given,
                    failed: Some(place as u8),
                };
                return Ran {
                    reply,
                    writes: NewValues::new(alloc),
                };
            }
            Some(effect) => {
                give(&mut given, effect.gives);
                store(&mut writes, obj, effect.stores);
            }
        }
    }
    let reply = Reply {
        values: given,
        failed: None,
    };
    Ran { reply, writes }
}

// The value at the object's place among the named ones, or 0 where it is not named.
#[tactic(auto, unfolding(crate::specs::Run::value_at))]
fn value_at(named: &[ObjId], values: &[Value], obj: ObjId) -> Value
    requires { length values.now ≡ length named.now }
    ensures { result ≡ value_at named.now values.now obj }
{
    for (place, other) in named.iter().enumerate() {
        if obj == *other {
            return values[place];
        }
    }
    Value::default()
}

// Gives the value, where there is one, to the reply.
#[tactic(auto, unfolding(crate::specs::Run::given))]
fn give(values: &mut Values, value: Option<Value>)
    requires { length values.old < 16 }
    ensures { values.new ≡ given values.old value }
{
    if let Some(value) = value {
        values.push(value);
    }
}

// Stores the value, where there is one.
#[tactic(auto, unfolding(crate::specs::Run::stored))]
fn store(writes: &mut NewValues, obj: ObjId, value: Option<Value>)
    requires { length (stored writes.old obj value) ≤ 8 }
    ensures { writes.new ≡ stored writes.old obj value }
{
    if let Some(value) = value {
        lists::store(writes, obj, value);
    }
}

// What an operation does at the value of its object; none: it fails.
#[tactic(auto, unfolding(crate::specs::Run::effect))]
fn perform(op: &Op, value: &Value) -> Option<Effect>
    ensures { result ≡ effect op.now value.now }
{
    match op {
        Op::Get(_) => Some(Effect {
            gives: Some(*value),
            stores: None,
        }),
        Op::Put(_, new) => Some(Effect {
            gives: None,
            stores: Some(*new),
        }),
        Op::Add(_, amount) => added(value, *amount),
        Op::Need(_, least) => tested(reaches(value, *least)),
        Op::Same(_, other) => tested(is_same(value, other)),
    }
}

// Whether two values are one.
#[tactic(auto, unfolding(zeus_base::specs::Values::same_value))]
fn is_same(value: &Value, other: &Value) -> bool
    ensures { result ≡ same_value value.now other.now }
{
    value == other
}

// An addition fails at a text, and else stores and gives the sum modulo 2^64.
#[tactic(auto, unfolding(crate::specs::Run::added))]
fn added(value: &Value, amount: u64) -> Option<Effect>
    ensures { result ≡ added value.now amount }
{
    match value {
        Value::Num(number) => {
            let sum = number.wrapping_add(amount);
            Some(Effect {
                gives: Some(Value::Num(sum)),
                stores: Some(Value::Num(sum)),
            })
        }
        Value::Text(_) => None,
    }
}

// Whether the value is a number not below this one.
#[tactic(auto, unfolding(crate::specs::Run::reaches))]
fn reaches(value: &Value, least: u64) -> bool
    ensures { result ≡ reaches value.now least }
{
    match value {
        Value::Num(number) => *number >= least,
        Value::Text(_) => false,
    }
}

// An operation that only tests gives and stores nothing, and fails where the test fails.
#[tactic(auto, unfolding(crate::specs::Run::tested))]
fn tested(passes: bool) -> Option<Effect>
    ensures { result ≡ tested passes }
{
    if passes {
        Some(Effect {
            gives: None,
            stores: None,
        })
    } else {
        None
    }
}
