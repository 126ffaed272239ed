//! What lies in a ring.

// An item of a ring: the head goes first, and all behind it is carried.
#[derive(Drop)]
pub(crate) enum Item<H: Drop, T: Drop> {
    Head(H),
    Carried(T),
}
