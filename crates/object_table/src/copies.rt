//! The copies and the holds of a node, by object.
ghost use Rattle.std.specs.Prelude.{◌≡◌, ◌≢◌, ◌<◌, ◌+◌, ◌-◌, ◌^◌};
ghost use Rattle.std.specs.Prelude.{ℕ, IfOk, None, Some, length, map, option_copied, replicate, slice_get};
ghost use Rattle.zeus_base.specs.declared.value.Value.{Value};
ghost use Rattle.zeus_model.specs.Commit.{applied, validated};
ghost use Rattle.zeus_model.specs.Local.{rewritten_copy};
ghost use Rattle.zeus_model.specs.Ownership.{brought};
ghost use Rattle.zeus_model.specs.State.{version_of};
ghost use Rattle.zeus_model.specs.Tables.{nth, put};
ghost use Rattle.zeus_model.specs.World.{start_copy};
ghost use Rattle.zeus_packet.specs.declared.place.Want.TheVariants.{Leave, Own};
ghost use Rattle.object_table.specs.Table.{CanHold, after_write, held, hold_slot, is_lower, next_write, unheld};

use crate::hold::{Hold, held, hold_slot, unheld};
use std::alloc::{AllocError, Global};
use std::marker::Model;
use zeus_base::{Config, NoMemory, NodeId, ObjId, ObjectDecl, SlotId, Value};
use zeus_model::Copy;
use zeus_packet::{Content, State, Write};

/// The copies and the holds of a node, each seen as a list by object: none where the node has no copy, none where no
/// slot holds the object. No call but `new` takes memory.
#[derive(Debug, Drop)]
pub struct Copies {
    copies: Vec<Option<Copy>>,
    holds: Vec<Option<Hold>>,
}

impl Model for Copies {
    ghost use Rattle.object_table.specs.Table.{IsTable, Table};

    ghost Value = { Table };

    ghost view = { λ c. record { copies = c.copies.items; holds = c.holds.items } };

    ghost invariant = { λ c. IsTable (record { copies = c.copies.items; holds = c.holds.items }) };
}

impl Copies {
    /// The copies of the node `me` at the start of a run: a valid one of the declared value at version 0 where the node
    /// is a declared replica. No object is held. All memory is taken here.
    ///
    /// # Errors
    ///
    /// `NoMemory` where that memory is not there.
    pub fn new(alloc: Global, config: &Config, me: NodeId) -> Result<Copies, NoMemory>
        ensures copies { IfOk result (λ table. table.copies ≡ map (start_copy me) config.now.objects) }
        ensures holds { IfOk result (λ table. table.holds ≡ replicate (length config.now.objects) None) }
    {
        let objects = config.objects.as_slice();
        let copies = start_copies(alloc, me, objects)?;
        let holds = no_holds(alloc, objects.len())?;
        Ok(Copies { copies, holds })
    }

    fn find_copy(&self, place: usize) -> Option<&Option<Copy>>
        ensures { option_copied result ≡ slice_get self.now.copies place }
    {
        self.copies.get(place)
    }

    fn find_hold(&self, place: usize) -> Option<&Option<Hold>>
        ensures { option_copied result ≡ slice_get self.now.holds place }
    {
        self.holds.get(place)
    }

    /// The copy of the object, where there is one.
    pub fn copy(&self, obj: ObjId) -> Option<Copy>
        ensures { result ≡ nth None self.now.copies obj }
    {
        match self.find_copy(obj.place()) {
            None => None,
            Some(copy) => *copy,
        }
    }

    /// A follower takes a write where its version is above that of the copy, which is then invalid; the answer is
    /// whether there was such a copy.
    pub fn apply(&mut self, w: &Write) -> bool
        requires { w.now.obj < length self.old.copies }
        ensures answer { result ≡ is_lower (nth None self.old.copies w.now.obj) w.now.ver }
        ensures copies { self.new.copies ≡ after_write applied self.old.copies w.now }
        ensures holds { self.new.holds ≡ self.old.holds }
        ensures objects { length self.new.copies ≡ length self.old.copies }
    {
        let copy = &mut self.copies[w.obj.place()];
        let lower = is_lower(copy, w.ver);
        *copy = applied(w, copy);
        lower
    }

    /// The owner writes: the copy has the value and the next version, and is to be validated. An object without a copy
    /// stays without.
    pub fn write(&mut self, obj: ObjId, value: Value)
        requires place { obj < length self.old.copies }
        requires room { version_of (nth None self.old.copies obj) ≢ 2 ^ 64 - 1 }
        ensures copies { self.new.copies ≡ after_write rewritten_copy self.old.copies (next_write self.old.copies obj value) }
        ensures holds { self.new.holds ≡ self.old.holds }
        ensures objects { length self.new.copies ≡ length self.old.copies }
    {
        let copy = &mut self.copies[obj.place()];
        *copy = rewritten(value, copy);
    }

    /// The write of this version has passed: the copy is valid again where it has just that version.
    pub fn validate(&mut self, obj: ObjId, ver: u64)
        requires { obj < length self.old.copies }
        ensures copies { (value : Value) → self.new.copies ≡ after_write validated self.old.copies (record { obj = obj; ver = ver; value = value }) }
        ensures holds { self.new.holds ≡ self.old.holds }
        ensures objects { length self.new.copies ≡ length self.old.copies }
    {
        let copy = &mut self.copies[obj.place()];
        *copy = validated(ver, copy);
    }

    /// The content is the node's copy, valid, whatever was there.
    pub fn place_copy(&mut self, obj: ObjId, c: &Content)
        requires { obj < length self.old.copies }
        ensures copies { self.new.copies ≡ put None self.old.copies obj (brought Own c.now) }
        ensures holds { self.new.holds ≡ self.old.holds }
        ensures objects { length self.new.copies ≡ length self.old.copies }
    {
        let copy = &mut self.copies[obj.place()];
        *copy = Some(valid_copy(c));
    }

    /// The node has no copy of the object any more.
    pub fn drop_copy(&mut self, obj: ObjId)
        requires { obj < length self.old.copies }
        ensures copies { self.new.copies ≡ put None self.old.copies obj None }
        ensures holds { self.new.holds ≡ self.old.holds }
        ensures objects { length self.new.copies ≡ length self.old.copies }
    {
        let copy = &mut self.copies[obj.place()];
        *copy = None;
    }

    /// The slot holds the object once more.
    pub fn hold(&mut self, obj: ObjId, slot: SlotId)
        requires place { obj < length self.old.copies }
        requires room { CanHold slot (nth None self.old.holds obj) }
        ensures holds { self.new.holds ≡ put None self.old.holds obj (Some (held slot (nth None self.old.holds obj))) }
        ensures copies { self.new.copies ≡ self.old.copies }
        ensures objects { length self.new.holds ≡ length self.old.holds }
    {
        let hold = &mut self.holds[obj.place()];
        *hold = Some(held(slot, hold));
    }

    /// The slot that holds the object does so once less, and the object is free where that was once. A free object
    /// stays free.
    pub fn unhold(&mut self, obj: ObjId)
        requires { obj < length self.old.copies }
        ensures holds { self.new.holds ≡ put None self.old.holds obj (unheld (nth None self.old.holds obj)) }
        ensures copies { self.new.copies ≡ self.old.copies }
        ensures objects { length self.new.holds ≡ length self.old.holds }
    {
        let hold = &mut self.holds[obj.place()];
        *hold = unheld(hold);
    }

    /// The slot that holds the object.
    pub fn holder(&self, obj: ObjId) -> Option<SlotId>
        ensures { result ≡ hold_slot (nth None self.now.holds obj) }
    {
        match self.find_hold(obj.place()) {
            None => None,
            Some(hold) => hold_slot(hold),
        }
    }
}

fn start_copies(
    alloc: Global,
    me: NodeId,
    objects: &[ObjectDecl],
) -> Result<Vec<Option<Copy>>, NoMemory>
    ensures { IfOk result (λ v. v.items ≡ map (start_copy me) objects.now) }
{
    collect_copies(alloc, me, objects).map_err(|_| NoMemory)
}

// The copy of each object that the node has at the start of a run, if it has one.
fn collect_copies(
    alloc: Global,
    me: NodeId,
    objects: &[ObjectDecl],
) -> Result<Vec<Option<Copy>>, AllocError>
    ensures { IfOk result (λ v. v.items ≡ map (start_copy me) objects.now) }
{
    objects
        .iter()
        .map(|object| start_copy(me, object))
        .collect(alloc)
}

#[tactic(auto, unfolding(zeus_model::specs::World::start_copy, zeus_model::specs::Tables::where_true))]
fn start_copy(me: NodeId, object: &ObjectDecl) -> Option<Copy>
    ensures { result ≡ start_copy me object.now }
{
    if object.replicas.has(me) {
        Some(Copy {
            value: object.value,
            ver: 0,
            state: State::Valid,
        })
    } else {
        None
    }
}

fn no_holds(alloc: Global, count: usize) -> Result<Vec<Option<Hold>>, NoMemory>
    ensures { IfOk result (λ v. v.items ≡ replicate count None) }
{
    repeat_none(alloc, count).map_err(|_| NoMemory)
}

fn repeat_none(alloc: Global, count: usize) -> Result<Vec<Option<Hold>>, AllocError>
    ensures { IfOk result (λ v. v.items ≡ replicate count None) }
{
    vec![in alloc; None; count]
}

/// Whether there is a copy of a lower version.
#[tactic(auto, unfolding(crate::specs::Table::is_lower))]
fn is_lower(copy: &Option<Copy>, ver: u64) -> bool
    ensures { result ≡ is_lower copy.now ver }
{
    match copy {
        None => false,
        Some(copy) => copy.ver < ver,
    }
}

#[tactic(auto, unfolding(zeus_model::specs::Commit::applied))]
fn applied(w: &Write, copy: &Option<Copy>) -> Option<Copy>
    ensures { result ≡ applied w.now copy.now }
{
    match copy {
        None => None,
        Some(copy) => {
            if copy.ver < w.ver {
                Some(Copy {
                    value: w.value,
                    ver: w.ver,
                    state: State::Invalid,
                })
            } else {
                Some(*copy)
            }
        }
    }
}

/// The copy with the value and the next version.
#[tactic(auto, unfolding(zeus_model::specs::Local::rewritten_copy, zeus_model::specs::State::version_of))]
fn rewritten(value: Value, copy: &Option<Copy>) -> Option<Copy>
    requires { version_of copy.now ≢ 2 ^ 64 - 1 }
    ensures { (obj : ℕ) → result ≡ rewritten_copy (record { obj = obj; ver = version_of copy.now + 1; value = value }) copy.now }
{
    match copy {
        None => None,
        Some(copy) => Some(Copy {
            value,
            ver: copy.ver + 1,
            state: State::Write,
        }),
    }
}

#[tactic(auto, unfolding(zeus_model::specs::Commit::validated))]
fn validated(ver: u64, copy: &Option<Copy>) -> Option<Copy>
    ensures { (obj : ℕ) (value : Value) → result ≡ validated (record { obj = obj; ver = ver; value = value }) copy.now }
{
    match copy {
        None => None,
        Some(copy) => {
            if copy.ver == ver {
                Some(Copy {
                    state: State::Valid,
                    ..*copy
                })
            } else {
                Some(*copy)
            }
        }
    }
}

/// The copy that a content makes.
#[tactic(auto, unfolding(zeus_model::specs::Ownership::brought))]
fn valid_copy(c: &Content) -> Copy
    ensures { Some result ≡ brought Own c.now }
{
    Copy {
        value: c.value,
        ver: c.ver,
        state: State::Valid,
    }
}
