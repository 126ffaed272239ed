//! The values that objects hold.
ghost use Rattle.std.specs.Prelude.{◌≡◌, ◌↔◌, IsSome, IfSome};

use std::marker::Model;

/// A short text of 1 to 32 printable bytes, from 33 to 126, kept inline and seen as the list of its bytes.
#[derive(Clone, Copy, Debug, Eq)]
pub struct Text {
    len: u8,
    bytes: [u8; 32],
}

impl Model for Text {
    ghost use Rattle.std.specs.Prelude.{List, ℕ, take};
    ghost use Rattle.zeus_base.specs.Texts.{IsPadded, padded, padded-take};

    ghost Value = { List ℕ };

    ghost view = { λ t. take t.len t.bytes };

    ghost invariant = { IsPadded };

    ghost inverse = { padded };

    ghost inverse_ok = { padded-take };
}

impl Text {
    ghost use Rattle.zeus_base.specs.Texts.{IsText};

    /// The text of these bytes, where they are 1 to 32 and each is from 33 to 126.
    pub fn new(bytes: &[u8]) -> Option<Text>
        ensures valid { IsSome result ↔ IsText bytes.now }
        ensures value { IfSome result (λ text. text ≡ bytes.now) }
    {
        let is_printable = bytes.iter().all(|byte| 33 <= *byte && *byte <= 126);
        if bytes.is_empty() || bytes.len() > 32 || !is_printable {
            return None;
        }
        let mut kept = [0; 32];
        kept[..bytes.len()].copy_from_slice(bytes);
        Some(Text {
            len: bytes.len() as u8,
            bytes: kept,
        })
    }

    /// The bytes of the text.
    pub fn as_bytes(&self) -> &[u8]
        ensures bytes { result.now ≡ self.now }
        ensures text { IsText self.now }
    {
        &self.bytes[..self.len as usize]
    }
}

impl PartialEq for Text {
    ghost use Rattle.std.specs.Cmp.{partial_equiv_from_equiv};
    ghost use Rattle.std.proofs.lemmas.Cmp.{nat_list_eq_equiv};
    ghost use Rattle.zeus_base.specs.Texts.{same_text};

    ghost eq = { same_text };

    ghost laws = { partial_equiv_from_equiv nat_list_eq_equiv };

    fn eq(&self, other: &Text) -> bool {
        self.len == other.len && self.bytes == other.bytes
    }
}

/// What an object holds: a number, or from version 2 on also a text.
#[derive(Clone, Copy, Debug, PartialEq, Eq)]
pub enum Value {
    Num(u64),
    Text(Text),
}

impl Default for Value {
    fn default() -> Self
        ensures { result ≡ Value.Num 0 }
    {
        Value::Num(0)
    }
}
