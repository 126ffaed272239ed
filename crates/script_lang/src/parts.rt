//! Bytes cut at a separator.
ghost use Rattle.std.specs.Prelude.{◌≡◌, ◌∷◌, ◌↔◌, IsTrue, []};
ghost use Rattle.script_lang.specs.Cut.{cut, parts_left, IsNextPart, IsFirstPart};

use std::marker::Model;

/// The parts that are left of bytes that are cut at each separator, seen as their list.
#[derive(Drop)]
pub struct Parts<'a> {
    separator: u8,
    left: Option<&'a [u8]>,
}

impl<'a> Model for Parts<'a> {
    ghost use Rattle.std.specs.Prelude.{List, ℕ};

    ghost Value = { List (List ℕ) };

    ghost use Rattle.script_lang.specs.Cut.{parts_left};

    ghost view = { λ p. parts_left p.separator p.left };
}

/// The bytes before the first separator, and those behind it where there is one.
fn cut_once(bytes: &[u8], separator: u8) -> (&[u8], Option<&[u8]>)
    ensures { cut separator bytes.now ≡ result.0.now ∷ parts_left separator result.1 }
{
    for (place, byte) in bytes.iter().enumerate() {
        if *byte == separator {
            return (&bytes[..place], Some(&bytes[place + 1..]));
        }
    }
    (bytes, None)
}

impl<'a> Parts<'a> {
    /// All parts of the bytes.
    #[tactic(auto, unfolding(crate::specs::Cut::parts_left))]
    pub fn new(bytes: &'a [u8], separator: u8) -> Self
        ensures { result ≡ cut separator bytes.now }
    {
        Parts {
            separator,
            left: Some(bytes),
        }
    }

    /// The next part, where one is left.
    #[tactic(auto, unfolding(crate::specs::Cut::parts_left))]
    pub fn next_part(&mut self) -> Option<&'a [u8]>
        ensures { IsNextPart result self.old self.new }
    {
        let Some(left) = self.left else {
            return None;
        };
        let (part, left) = cut_once(left, self.separator);
        self.left = left;
        Some(part)
    }

    /// The next part, where one is left, which stays.
    #[tactic(auto, unfolding(crate::specs::Cut::parts_left))]
    pub(crate) fn peek(&self) -> Option<&'a [u8]>
        ensures { IsFirstPart result self.now }
    {
        match self.left {
            None => None,
            Some(left) => Some(cut_once(left, self.separator).0),
        }
    }

    /// Whether no part is left.
    #[tactic(auto, using(crate::proofs::Cutting::cut_not_none), unfolding(crate::specs::Cut::parts_left))]
    pub fn is_done(&self) -> bool
        ensures { IsTrue result ↔ (self.now ≡ []) }
    {
        match self.left {
            None => true,
            Some(_) => false,
        }
    }
}
