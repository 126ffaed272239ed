//! What the writes and the names of an entry do to the copies and the holds of a node.
ghost use Rattle.std.specs.Prelude.{◌≡◌, ◌<◌, All, length};
ghost use Rattle.zeus_model.specs.Commit.{applied, each_write, validated};
ghost use Rattle.object_table.specs.Table.{AreWithin, each_unheld};

use object_table::Copies;
use zeus_base::ObjId;
use zeus_packet::Write;

/// The writes have passed: the copy of each is valid again where it has just that version.
pub(crate) fn validate_each(copies: &mut Copies, writes: &[Write])
    requires { AreWithin (length copies.old.copies) writes.now }
    ensures copies { copies.new.copies ≡ each_write validated copies.old.copies writes.now }
    ensures holds { copies.new.holds ≡ copies.old.holds }
    ensures objects { length copies.new.copies ≡ length copies.old.copies }
{
    for write in writes {
        copies.validate(write.obj, write.ver);
    }
}

/// A follower takes each write whose version is above that of its copy.
pub(crate) fn apply_each(copies: &mut Copies, writes: &[Write])
    requires { AreWithin (length copies.old.copies) writes.now }
    ensures copies { copies.new.copies ≡ each_write applied copies.old.copies writes.now }
    ensures holds { copies.new.holds ≡ copies.old.holds }
    ensures objects { length copies.new.copies ≡ length copies.old.copies }
{
    for write in writes {
        copies.apply(write);
    }
}

/// Each object is held once less.
pub(crate) fn unhold_each(copies: &mut Copies, objects: &[ObjId])
    requires { All (λ x. x < length copies.old.copies) objects.now }
    ensures holds { copies.new.holds ≡ each_unheld copies.old.holds objects.now }
    ensures copies { copies.new.copies ≡ copies.old.copies }
{
    for object in objects {
        copies.unhold(*object);
    }
}
