//! A window over a vector.
ghost use Rattle.std.specs.Prelude.{◌≡◌, [], IfOk};

use super::{NewWindow, WINDOW_DEPTH, Window};
use std::alloc::Global;
use std::marker::Model;
use zeus_base::NoMemory;

/// A window whose items stand in order in a vector, seen as the list of them.
#[derive(Debug, Drop)]
pub struct PlainWindow<T> {
    list: Vec<T>,
}

impl<T> Model for PlainWindow<T> {
    ghost use Rattle.std.specs.Prelude.{List, ◌≤◌, length, vec_capacity};

    ghost Value = { List T };

    ghost view = { λ w. w.list.items };

    ghost invariant = { λ w. (16 ≤ vec_capacity w.list) × (length w.list.items ≤ 16) };
}

impl<T> PlainWindow<T> {
    /// A window with no item. All memory is taken here.
    ///
    /// # Errors
    ///
    /// `NoMemory` where that memory is not there.
    pub fn new(alloc: Global) -> Result<Self, NoMemory>
        ensures { IfOk result (λ w. w ≡ []) }
    {
        let list = Vec::with_capacity(alloc, WINDOW_DEPTH).map_err(|_| NoMemory)?;
        Ok(PlainWindow { list })
    }
}

impl<T> Window<T> for PlainWindow<T> {
    ghost items = { λ w. w };

    fn push(&mut self, item: T) -> Result<(), T> {
        if self.list.len() >= WINDOW_DEPTH {
            return Err(item);
        }
        self.list.push_reserved(item);
        Ok(())
    }

    fn pop(&mut self) -> Option<T> {
        if self.list.is_empty() {
            return None;
        }
        Some(self.list.remove(0))
    }

    fn get(&self, place: u32) -> Option<&T> {
        self.list.get(place as usize)
    }

    fn get_mut(&mut self, place: u32) -> Option<&mut T> {
        self.list.get_mut(place as usize)
    }

    fn len(&self) -> u32 {
        self.list.len() as u32
    }
}

impl<T> NewWindow<T> for PlainWindow<T> {
    fn empty(alloc: Global) -> Result<PlainWindow<T>, NoMemory> {
        PlainWindow::new(alloc)
    }
}
