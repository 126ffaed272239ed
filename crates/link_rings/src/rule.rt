//! What a ring carries, as a rule that the end that puts keeps and the end that takes learns.
ghost use Rattle.std.specs.Prelude.{List};
ghost use Rattle.link_rings.specs.Items.{AllowedBy};

use crate::item::Item;
use rtrb::Protocol;
use std::marker::PhantomData;

/// What is carried behind a head.
pub trait Rule<H, T> {
    /// `keeps head before x` says that `x` may be put behind `before`, all that was put until then, in a ring with this head.
    ghost keeps: { H → List T → T → Type 0 };
}

// The items of a ring under a rule: the head first and once, and behind it what keeps the rule.
pub(crate) struct Under<R> {
    rule: PhantomData<R>,
}

impl<H: Drop, T: Drop, R: Rule<H, T>> Protocol<Item<H, T>> for Under<R> {
    ghost allows = { AllowedBy R.keeps };
}
