//! Lists of at most 16 items that grow at their end and are taken from at their front.
ghost use Rattle.std.specs.Prelude.{◌≡◌, ◌<◌, ◌≤◌, ◌↔◌, [], ◌∷◌, ◌++◌};
ghost use Rattle.std.specs.Prelude.{IfErr, IfOk, IsOk, OnOk, drop, length, option_copied, slice_get, slice_set};
ghost use Rattle.std.specs.Borrow.{LendsSo, sem};
ghost use Rattle.std.specs.Option.{OnSome, option_copied_mut};

mod plain;
mod ring;

pub use plain::PlainWindow;
pub use ring::RingWindow;
use std::alloc::Global;
use zeus_base::NoMemory;

/// How many items a window holds at most.
pub const WINDOW_DEPTH: usize = 16;

/// A list of at most 16 items that grows at its end and is taken from at its front. No call takes memory.
pub trait Window<T> {
    ghost use Rattle.std.specs.Prelude.{List};

    /// The items, from the front to the end.
    ghost items: { Self → List T };

    /// Adds an item at the end; hands it back, and changes nothing, exactly where there are 16.
    fn push(&mut self, item: T) -> Result<(), T>
        ensures variant { IsOk result ↔ (length (items self.old) < 16) }
        ensures ok { OnOk result (items self.new ≡ items self.old ++ item ∷ []) }
        ensures err { IfErr result (λ x. (x ≡ item) × (items self.new ≡ items self.old)) };

    /// Takes the first item out; none exactly where there is none.
    fn pop(&mut self) -> Option<T>
        ensures first { result ≡ slice_get (items self.old) 0 }
        ensures rest { items self.new ≡ drop 1 (items self.old) };

    /// The item at this place from 0; none exactly past the end.
    fn get(&self, place: u32) -> Option<&T>
        ensures { option_copied result ≡ slice_get (items self.now) place };

    /// The item at this place from 0, to write to; none exactly past the end. All other items stay.
    fn get_mut(&mut self, place: u32) -> Option<&mut T>
        ensures* writes_back { sem 𝓛 (LendsSo Self.row T.row self.entry result
            (λ n w. OnSome result (items n ≡ slice_set (items self.old) place w))
            (λ n. items n ≡ items self.old)) }
        ensures value { option_copied_mut result ≡ slice_get (items self.old) place };

    /// How many items there are.
    fn len(&self) -> u32
        ensures count { result ≡ length (items self.now) }
        ensures most { result ≤ 16 };
}

/// A window that can be made with no item.
pub trait NewWindow<T>: Window<T> {
    /// A window with no item. All memory is taken here.
    ///
    /// # Errors
    ///
    /// `NoMemory` where that memory is not there.
    fn empty(alloc: Global) -> Result<Self, NoMemory>
        ensures { IfOk result (λ w. Self.items w ≡ []) };
}
