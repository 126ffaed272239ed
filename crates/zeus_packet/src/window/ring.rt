//! A window over a ring.
ghost use Rattle.std.specs.Prelude.{◌≡◌, [], IfOk};

use super::{NewWindow, WINDOW_DEPTH, Window};
use circular_buffer::HeapCircularBuffer;
use std::alloc::Global;
use std::marker::Model;
use zeus_base::NoMemory;

/// A window whose items stand in a ring, so that none moves when the first is taken; seen as the list of them.
#[derive(Debug, Drop)]
pub struct RingWindow<T> {
    ring: HeapCircularBuffer<T>,
}

impl<T> Model for RingWindow<T> {
    ghost use Rattle.std.specs.Prelude.{List, ◌≡◌, ◌≤◌, length};

    ghost Value = { List T };

    ghost view = { λ w. w.ring.items };

    ghost invariant = { λ w. (w.ring.capacity ≡ 16) × (length w.ring.items ≤ 16) };
}

impl<T> RingWindow<T> {
    /// A window with no item. All memory is taken here.
    ///
    /// # Errors
    ///
    /// `NoMemory` where that memory is not there.
    pub fn new(alloc: Global) -> Result<Self, NoMemory>
        ensures { IfOk result (λ w. w ≡ []) }
    {
        let ring = HeapCircularBuffer::with_capacity(alloc, WINDOW_DEPTH).map_err(|_| NoMemory)?;
        Ok(RingWindow { ring })
    }
}

impl<T> Window<T> for RingWindow<T> {
    ghost items = { λ w. w };

    fn push(&mut self, item: T) -> Result<(), T> {
        self.ring.try_push_back(item)
    }

    fn pop(&mut self) -> Option<T> {
        self.ring.pop_front()
    }

    fn get(&self, place: u32) -> Option<&T> {
        self.ring.get(place as usize)
    }

    fn get_mut(&mut self, place: u32) -> Option<&mut T> {
        self.ring.get_mut(place as usize)
    }

    fn len(&self) -> u32 {
        self.ring.len() as u32
    }
}

impl<T> NewWindow<T> for RingWindow<T> {
    fn empty(alloc: Global) -> Result<RingWindow<T>, NoMemory> {
        RingWindow::new(alloc)
    }
}
