//! The lines of the objects.
ghost use Rattle.std.specs.Prelude.{◌≡◌, ◌++◌, OnOk};
ghost use Rattle.script_lang.specs.Lines.{object_line};
ghost use Rattle.zeus_model.specs.Spelling.{object_lines, lines_text};

use zeus_base::{NoMemory, ObjectDecl};
use zeus_model::Name;
use zeus_text::{append, write_line_end, write_members, write_number, write_value, write_word};

// The owner comes before the further replicas, and is none of them.
#[tactic(auto, unfolding(zeus_model::specs::Spelling::object_words, zeus_model::specs::Spelling::words_text, zeus_model::specs::Spelling::spaced))]
fn write_object(out: &mut Vec<u8>, name: &Name, object: &ObjectDecl) -> Result<(), NoMemory>
    ensures { OnOk result (out.new.items ≡ out.old.items ++ object_line name.now object.now) }
{
    append(out, b"object")?;
    write_word(out, name.as_bytes())?;
    write_value(out, &object.value)?;
    write_number(out, u64::from(object.owner.0))?;
    write_members(out, object.replicas.without(object.owner))?;
    write_line_end(out)
}

/// Writes a line for each object that has a name.
pub(crate) fn write_objects(
    out: &mut Vec<u8>,
    names: &[Name],
    objects: &[ObjectDecl],
) -> Result<(), NoMemory>
    ensures { OnOk result (out.new.items ≡ out.old.items ++ lines_text (object_lines names.now objects.now)) }
{
    for (name, object) in names.iter().zip(objects) {
        write_object(out, name, object)?;
    }
    Ok(())
}
