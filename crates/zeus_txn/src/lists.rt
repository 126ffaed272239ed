//! The short lists of a transaction.
ghost use Rattle.std.specs.Prelude.{◌≡◌, ◌==◌, position, ◌≤◌, length};
ghost use Rattle.zeus_txn.specs.Run.{latest, rewritten};

use zeus_base::{ObjId, ShortList, Value};

/// The values that a transaction gave, in order.
pub type Values = ShortList<Value, 16>;

/// The objects that a transaction names, in the order of first naming.
pub type Named = ShortList<ObjId, 8>;

/// The objects that a transaction writes with their last values, in the order of first writing.
pub type NewValues = ShortList<(ObjId, Value), 8>;

// The last value that was written to the object, else the other one.
pub(crate) fn latest(values: &NewValues, obj: ObjId, found: Value) -> Value
    ensures { result ≡ latest values.now obj found }
{
    let writes = values.as_slice();
    for write in writes {
        if obj == write.0 {
            return write.1;
        }
    }
    found
}

// Writes the object: in its place, or at the end where it is new.
pub(crate) fn store(writes: &mut NewValues, obj: ObjId, value: Value)
    requires { length (rewritten writes.old obj value) ≤ 8 }
    ensures { writes.new ≡ rewritten writes.old obj value }
{
    match place_of(obj, writes.as_slice()) {
        Some(place) => writes.set(place, (obj, value)),
        None => writes.push((obj, value)),
    }
}

// The place of the object among the writes.
fn place_of(obj: ObjId, writes: &[(ObjId, Value)]) -> Option<usize>
    ensures { result ≡ position (λ w. obj == w.0) writes.now }
{
    writes.iter().position(|write| obj == write.0)
}
