//! Scripts: a configuration with names for its objects, the transactions, and the steps of the run.
ghost use Rattle.std.specs.Prelude.{◌≡◌, ◌↔◌, IsTrue, IsSome, IfSome};
ghost use Rattle.zeus_model.specs.Names.{IsLetter, IsNameByte};

use std::hash::{Hash, Hasher};
use std::marker::Model;
use zeus_base::{Config, List, Steps};
use zeus_txn::TxList;

/// The name of an object: 1 to 16 bytes, first an ASCII letter, then letters, digits or `_`; kept inline and seen as
/// the list of its bytes.
#[derive(Clone, Copy, Debug, Eq)]
pub struct Name {
    len: u8,
    bytes: [u8; 16],
}

impl Model for Name {
    ghost use Rattle.std.specs.Prelude.{List, ℕ, take};
    ghost use Rattle.zeus_model.specs.Names.{IsPadded, padded, padded-take};

    ghost Value = { List ℕ };

    ghost view = { λ n. take n.len n.bytes };

    ghost invariant = { IsPadded };

    ghost inverse = { padded };

    ghost inverse_ok = { padded-take };
}

impl Name {
    ghost use Rattle.zeus_model.specs.Names.{IsName};

    /// The name of these bytes, where they are one.
    pub fn new(bytes: &[u8]) -> Option<Name>
        ensures valid { IsSome result ↔ IsName bytes.now }
        ensures value { IfSome result (λ name. name ≡ bytes.now) }
    {
        let goes_on = bytes.iter().all(|byte| is_name_byte(*byte));
        if bytes.is_empty() || bytes.len() > 16 || !is_letter(bytes[0]) || !goes_on {
            return None;
        }
        let mut kept = [0; 16];
        kept[..bytes.len()].copy_from_slice(bytes);
        Some(Name {
            len: bytes.len() as u8,
            bytes: kept,
        })
    }

    /// The bytes of the name.
    pub fn as_bytes(&self) -> &[u8]
        ensures bytes { result.now ≡ self.now }
        ensures name { IsName self.now }
    {
        &self.bytes[..self.len as usize]
    }
}

impl PartialEq for Name {
    ghost use Rattle.std.specs.Cmp.{partial_equiv_from_equiv};
    ghost use Rattle.std.proofs.lemmas.Cmp.{nat_list_eq_equiv};
    ghost use Rattle.std.specs.Str.{bytes_eq};

    ghost eq = { bytes_eq };

    ghost laws = { partial_equiv_from_equiv nat_list_eq_equiv };

    fn eq(&self, other: &Name) -> bool {
        self.as_bytes() == other.as_bytes()
    }
}

impl Hash for Name {
    ghost use Rattle.std.proofs.Common.{rules};
    ghost use Rattle.std.specs.Hash as fed;
    ghost use Rattle.std.specs.Cmp.Rules.{hashing};

    ghost hash_input = { fed.slice fed.u8 };

    ghost respects_eq = { Prim.search (hashing, rules) };

    fn hash<H: Hasher>(&self, state: &mut H) {
        self.as_bytes().hash(state);
    }
}

/// Whether a byte is an ASCII letter.
fn is_letter(byte: u8) -> bool
    ensures { IsTrue result ↔ IsLetter byte }
{
    (b'A' <= byte && byte <= b'Z') || (b'a' <= byte && byte <= b'z')
}

/// Whether a byte is a letter, a decimal digit or `_`.
fn is_name_byte(byte: u8) -> bool
    ensures { IsTrue result ↔ IsNameByte byte }
{
    is_letter(byte) || (b'0' <= byte && byte <= b'9') || byte == b'_'
}

/// The names of the objects in order.
pub type Names = List<Name>;

/// What a run is of: how it is configured, what its objects are called, its transactions, and its steps.
#[derive(Debug, Drop)]
pub struct Script {
    pub config: Config,
    pub names: Names,
    pub txs: TxList,
    pub steps: Steps,
}
