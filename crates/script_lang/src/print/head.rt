//! The first lines of a script.
ghost use Rattle.std.specs.Prelude.{◌≡◌, ◌++◌, OnOk};
ghost use Rattle.script_lang.specs.Lines.{number_line, directory_line};
ghost use Rattle.zeus_model.specs.Spelling.{degree_lines, head_lines, lines_text};

use zeus_base::{Config, NoMemory, NodeSet};
use zeus_text::{append, write_counted, write_line_end, write_members};

// A word and a number.
#[tactic(auto, unfolding(zeus_model::specs::Spelling::words_text, zeus_model::specs::Spelling::spaced))]
fn write_number_line(out: &mut Vec<u8>, word: &[u8], n: u8) -> Result<(), NoMemory>
    ensures { OnOk result (out.new.items ≡ out.old.items ++ number_line word.now n) }
{
    write_counted(out, word, u64::from(n))?;
    write_line_end(out)
}

#[tactic(auto, unfolding(zeus_model::specs::Spelling::words_text))]
fn write_directory(out: &mut Vec<u8>, directory: NodeSet) -> Result<(), NoMemory>
    ensures { OnOk result (out.new.items ≡ out.old.items ++ directory_line directory) }
{
    append(out, b"directory")?;
    write_members(out, directory)?;
    write_line_end(out)
}

#[tactic(auto, unfolding(zeus_model::specs::Spelling::degree_lines, zeus_model::specs::Spelling::lines_text))]
fn write_degree(out: &mut Vec<u8>, degree: Option<u8>) -> Result<(), NoMemory>
    ensures { OnOk result (out.new.items ≡ out.old.items ++ lines_text (degree_lines degree)) }
{
    match degree {
        None => Ok(()),
        Some(count) => write_number_line(out, b"degree", count),
    }
}

/// Writes the version, the nodes, the slots, the directory, and the degree where one is given.
#[tactic(auto, using(crate::proofs::Printing::head_parts))]
pub(crate) fn write_head(out: &mut Vec<u8>, config: &Config) -> Result<(), NoMemory>
    ensures { OnOk result (out.new.items ≡ out.old.items ++ lines_text (head_lines config.now)) }
{
    write_number_line(out, b"zeus", config.version)?;
    write_number_line(out, b"nodes", config.nodes)?;
    write_number_line(out, b"slots", config.slots)?;
    write_directory(out, config.directory)?;
    write_degree(out, config.degree)
}
