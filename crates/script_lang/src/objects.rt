//! Objects as lines.
ghost use Rattle.std.specs.Prelude.{◌≡◌, ◌≤◌, IfOk, None};
ghost use Rattle.script_lang.specs.Names.{find};
ghost use Rattle.script_lang.specs.Objects.{new_name_of, object_at};

use crate::head::Head;
use crate::names::NameIndex;
use crate::parts::Parts;
use crate::words::{NodeRule, name_of};
use zeus_base::ObjectDecl;
use zeus_model::{Kind, Name};

/// The new name of a word.
#[tactic(auto, unfolding(crate::specs::Objects::new_name_of))]
fn new_name_of(word: &[u8], names: &NameIndex) -> Result<Name, Kind>
    ensures name { result ≡ new_name_of names.now word.now }
    ensures new { IfOk result (λ name. find names.now name ≡ None) }
{
    let name = name_of(word)?;
    match names.find(&name) {
        Some(_) => Err(Kind::Twice),
        None => Ok(name),
    }
}

/// The object of the words behind `object`: a new name, a value, the owner, and further replicas.
#[tactic(auto, unfolding(crate::specs::Objects::object_at))]
pub(crate) fn object_of(
    words: &mut Parts,
    head: &Head,
    names: &NameIndex,
) -> Result<(Name, ObjectDecl), Kind>
    requires { head.now.nodes ≤ 8 }
    ensures object { result ≡ object_at head.now.version head.now.nodes names.now words.old }
    ensures new { IfOk result (λ x. find names.now x.0 ≡ None) }
{
    let name = new_name_of(words.word()?, names)?;
    let value = words.value(head.version)?;
    let owner = words.node(head.nodes)?;
    let others = words.nodes(&NodeRule {
        nodes: head.nodes,
        most: None,
        owner: Some(owner),
    })?;
    let replicas = others.insert(owner);
    Ok((
        name,
        ObjectDecl {
            value,
            owner,
            replicas,
        },
    ))
}
