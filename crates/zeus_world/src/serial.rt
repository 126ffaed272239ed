//! What the history leaves, run one after another.
ghost use Rattle.std.specs.Prelude.{◌≡◌, ◌<◌, ◌+◌, IfOk, length};
ghost use Rattle.zeus_txn.specs.Map.{applied_map, start_map};
ghost use Rattle.zeus_model.specs.Serial.{serial_map};
ghost use Rattle.zeus_model.specs.Sound.{history_txs};
ghost use Rattle.zeus_world.specs.Serial.{HasVersions, ops_at};

use crate::world::World;
use zeus_base::NoMemory;
use zeus_txn::Map;

impl<'a> World<'a> {
    /// Runs the transaction of the point at this place of the history.
    fn apply_point(&self, map: &mut Map, place: u32)
        requires there { place < length self.now.book.points }
        requires versions { HasVersions (length self.now.config.objects) place map.old }
        ensures map { map.new ≡ applied_map map.old (ops_at self.now place) }
        ensures versions { HasVersions (length self.now.config.objects) (place + 1) map.new }
    {
        let Some(point) = self.book.point(place) else {
            return;
        };
        if let Some(declared) = self.txs.get(point.0.place()) {
            map.apply(&declared.tx);
        }
    }

    /// The map that the history's transactions leave when they run one after another.
    ///
    /// # Errors
    /// `NoMemory` if the memory for it is not there.
    pub fn serial_map(&self) -> Result<Map, NoMemory>
        ensures { IfOk result (λ m. m ≡ serial_map (start_map self.now.config) (history_txs self.now self.now.book.points)) }
    {
        let mut map = Map::new(*self.nodes.allocator(), self.config)?;
        for place in 0..self.book.len() {
            self.apply_point(&mut map, place);
        }
        Ok(map)
    }
}
