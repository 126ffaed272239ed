//! Short lists kept inline.
ghost use Rattle.std.specs.Prelude.{◌≡◌, ◌<◌, ◌≤◌, ◌↔◌, ◌∷◌, ◌++◌, [], IsTrue, length, option_copied, set, slice_get};

use smallvec::SmallVec;
use std::alloc::Global;
use std::marker::Model;

/// At most `N` elements in order, seen as a list. No call takes memory.
#[derive(Debug, Drop)]
pub struct ShortList<T, const N: usize> {
    items: SmallVec<T, N>,
}

impl<T, const N: usize> Model for ShortList<T, N> {
    ghost use Rattle.std.specs.Prelude.{List as Items, length, ◌≤◌, ◌≡◌};

    ghost Value = { Items T };

    ghost view = { λ l. l.items.items };

    ghost invariant = { λ l. (l.items.capacity ≡ N) × (length l.items.items ≤ N) };
}

impl<T: Default + Copy + Drop, const N: usize> ShortList<T, N> {
    /// No element.
    pub fn new(alloc: Global) -> ShortList<T, N>
        ensures { result ≡ [] }
    {
        ShortList {
            items: SmallVec::new(alloc),
        }
    }

    /// Adds an element at the end.
    pub fn push(&mut self, item: T)
        requires { length self.old < N }
        ensures { self.new ≡ self.old ++ item ∷ [] }
    {
        self.items.push_reserved(item);
    }

    /// All as a slice.
    pub fn as_slice(&self) -> &[T]
        ensures list { result.now ≡ self.now }
        ensures few { length self.now ≤ N }
    {
        self.items.as_slice()
    }

    /// How many there are.
    pub fn len(&self) -> usize
        ensures value { result ≡ length self.now }
        ensures few { result ≤ N }
    {
        self.items.len()
    }

    /// Whether there is none.
    pub fn is_empty(&self) -> bool
        ensures { IsTrue result ↔ (self.now ≡ []) }
    {
        self.items.is_empty()
    }

    /// The one at this place from 0, where there is one.
    pub fn get(&self, place: usize) -> Option<&T>
        ensures { option_copied result ≡ slice_get self.now place }
    {
        self.as_slice().get(place)
    }

    /// Puts an element in the place of another one.
    pub fn set(&mut self, place: usize, item: T)
        requires { place < length self.old }
        ensures { self.new ≡ set self.old place item }
    {
        self.items.as_mut_slice()[place] = item;
    }

    /// The same list once more, without memory.
    pub fn duplicate(&self) -> ShortList<T, N>
        ensures { result ≡ self.now }
    {
        ShortList {
            items: SmallVec::from_slice(*self.items.allocator(), self.items.as_slice()).unwrap(),
        }
    }
}
