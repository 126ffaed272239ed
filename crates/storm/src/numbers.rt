//! The numbers of a storm.
ghost use Rattle.std.specs.Prelude.{◌↔◌, IsTrue};
ghost use Rattle.storm.specs.Numbers.{AreInRange};

/// The eight numbers that a storm is drawn from.
#[derive(Clone, Copy, Debug, PartialEq, Eq)]
pub struct StormNumbers {
    /// How many nodes there are: 1 to 8.
    pub nodes: u8,
    /// How many slots each node has: 1 to 8.
    pub slots: u8,
    /// How many objects there are: 1 to 256.
    pub objects: u16,
    /// How many transactions there are: at most 10,000.
    pub txs: u32,
    /// The most steps: at most 50,000.
    pub steps: u32,
    /// Of a hundred deliveries of fresh packets so many are lost, on average: at most 100.
    pub loss: u8,
    /// The most nodes that are stopped: at most 7.
    pub stops: u8,
    /// Where the words begin.
    pub start: u64,
}

impl StormNumbers {
    /// Whether each number is in its range.
    pub fn are_in_range(&self) -> bool
        ensures { IsTrue result ↔ AreInRange self.now }
    {
        let numbers = *self;
        let has_nodes = 1 <= numbers.nodes && numbers.nodes <= 8;
        let has_slots = 1 <= numbers.slots && numbers.slots <= 8;
        let has_objects = 1 <= numbers.objects && numbers.objects <= 256;
        let is_short = numbers.txs <= 10_000 && numbers.steps <= 50_000;
        let is_mild = numbers.loss <= 100 && numbers.stops <= 7;
        has_nodes && has_slots && has_objects && is_short && is_mild
    }
}
