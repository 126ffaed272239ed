//! The links between nodes: every letter that was ever sent, by sender and receiver.
ghost use Rattle.std.specs.Prelude.{ℕ, ◌≡◌, ◌<◌, ◌≤◌, ◌+◌, [], ◌∷◌, ◌++◌, length, slice_get, OnOk, IfOk, replicate, true};
ghost use Rattle.std.specs.Option.{option_map};
ghost use Rattle.zeus_packet.specs.Fits.{fits};
ghost use Rattle.zeus_model.specs.Tables.{nth, put};
ghost use Rattle.zeus_model.specs.World.{link, nth_letter, posted};
ghost use Rattle.zeus_wire.specs.Ranges.{largest};
ghost use Rattle.lossy_fabric.specs.Links.{HasRoom, IsLink, letters, no_link, numbered, room, row_letters};

use crate::link::Link;
use std::alloc::Global;
use std::marker::Model;
use zeus_base::{NoMemory, NodeId};
use zeus_packet::{Letter, Packet};

/// The links of one sender, by receiver.
#[derive(Debug, Drop)]
struct Row {
    links: Vec<Link>,
}

impl Model for Row {
    ghost use Rattle.std.specs.Prelude.{List};
    ghost use Rattle.lossy_fabric.specs.Links.{LinkState};

    ghost Value = { List LinkState };

    ghost view = { λ r. r.links.items };
}

impl Row {
    fn new(alloc: Global, nodes: u8) -> Result<Row, NoMemory>
        ensures { IfOk result (λ r. r ≡ replicate nodes no_link) }
    {
        let mut links = Vec::with_capacity(alloc, nodes as usize).map_err(|_| NoMemory)?;
        for _receiver in 0..nodes {
            links.push_reserved(Link::new(alloc));
        }
        Ok(Row { links })
    }

    fn get(&self, to: NodeId, number: u32) -> Option<Packet>
        requires { to < length self.now }
        ensures { result ≡ option_map (numbered number) (slice_get (nth no_link self.now to).letters number) }
    {
        let link = &self.links[to.place()];
        link.get(number)
    }

    fn count(&self, to: NodeId) -> u32
        requires { to < length self.now }
        ensures { result ≡ length (nth no_link self.now to).letters }
    {
        let link = &self.links[to.place()];
        link.count()
    }

    /// Room for the letters of a step on each link.
    fn reserve(&mut self) -> Result<(), NoMemory>
        ensures letters { row_letters self.new ≡ row_letters self.old }
        ensures room { OnOk result (HasRoom 64 self.new) }
    {
        for receiver in 0..self.links.len() {
            let link = &mut self.links[receiver];
            link.reserve()?;
        }
        Ok(())
    }

    /// Posts a letter on the link to its receiver, for which there is room; the answer is its number on that link.
    fn push(&mut self, letter: &Letter) -> u32
        requires fits { fits letter.now (largest 2) ≡ true }
        requires to { letter.now.to < length self.old }
        requires room { 0 < (nth no_link self.old letter.now.to).room }
        ensures letters { row_letters self.new
            ≡ put [] (row_letters self.old) letter.now.to (nth [] (row_letters self.old) letter.now.to ++ letter.now ∷ []) }
        ensures room { (k : ℕ) → (nth no_link self.old k).room ≤ (nth no_link self.new k).room + 1 }
        ensures size { length self.new ≡ length self.old }
        ensures number { result ≡ length (nth [] (row_letters self.old) letter.now.to) }
    {
        let link = &mut self.links[letter.to.place()];
        link.push(letter)
    }
}

/// All links, by sender and receiver.
#[derive(Debug, Drop)]
pub struct Links {
    rows: Vec<Row>,
}

impl Model for Links {
    ghost use Rattle.std.specs.Prelude.{List};
    ghost use Rattle.lossy_fabric.specs.Links.{LinkState};

    ghost Value = { List (List LinkState) };

    ghost view = { λ l. l.rows.items };
}

impl Links {
    /// The links between so many nodes, on which nothing was sent yet.
    ///
    /// # Errors
    /// `NoMemory` if their memory is not there.
    pub fn new(alloc: Global, nodes: u8) -> Result<Links, NoMemory>
        ensures { IfOk result (λ l. l ≡ replicate nodes (replicate nodes no_link)) }
    {
        let mut rows = Vec::with_capacity(alloc, nodes as usize).map_err(|_| NoMemory)?;
        for _sender in 0..nodes {
            rows.push_reserved(Row::new(alloc, nodes)?);
        }
        Ok(Links { rows })
    }

    /// The packet of this number on the link, where there is one.
    pub fn get(&self, from: NodeId, to: NodeId, number: u32) -> Option<Packet>
        requires { IsLink self.now from to }
        ensures { result ≡ option_map (numbered number) (nth_letter (link (letters self.now) from to) number) }
    {
        let row = &self.rows[from.place()];
        row.get(to, number)
    }

    /// How many letters were ever sent on the link.
    pub fn count(&self, from: NodeId, to: NodeId) -> u32
        requires { IsLink self.now from to }
        ensures { result ≡ length (link (letters self.now) from to) }
    {
        let row = &self.rows[from.place()];
        row.count(to)
    }

    /// Makes room for the letters of one step, at most 64, on each link of the sender. The letters stay as they are, also
    /// at an error.
    ///
    /// # Errors
    /// `NoMemory` if memory ran out, or if a link would have letters that no number of 32 bits is left for.
    pub fn reserve(&mut self, from: NodeId) -> Result<(), NoMemory>
        requires { from < length self.old }
        ensures letters { letters self.new ≡ letters self.old }
        ensures room { OnOk result (HasRoom 64 (nth [] self.new from)) }
        ensures links { (a b : ℕ) → IsLink self.old a b → IsLink self.new a b }
    {
        let row = &mut self.rows[from.place()];
        row.reserve()
    }

    /// Adds a letter, which fits the largest limits, to the end of its link, which has room; answers its number.
    pub fn send(&mut self, letter: &Letter) -> u32
        requires fits { fits letter.now (largest 2) ≡ true }
        requires there { IsLink self.old letter.now.from letter.now.to }
        requires room { 0 < room self.old letter.now.from letter.now.to }
        ensures letters { letters self.new ≡ posted (letters self.old) letter.now }
        ensures room { (from to : ℕ) → room self.old from to ≤ room self.new from to + 1 }
        ensures number { result ≡ length (link (letters self.old) letter.now.from letter.now.to) }
        ensures links { (a b : ℕ) → IsLink self.old a b → IsLink self.new a b }
    {
        let row = &mut self.rows[letter.from.place()];
        row.push(letter)
    }
}
