//! What a step does, with its letters as the node sent them.
ghost use Rattle.std.specs.Prelude.{◌≡◌, ◌≤◌, [], IfOk, OnOk, length, map};
ghost use Rattle.zeus_model.specs.World.{all_posted, packets};
ghost use Rattle.lossy_fabric.specs.Links.{letters};
ghost use Rattle.zeus_world.specs.Posting.{CanPost};
ghost use Rattle.zeus_world.specs.Reports.{HasSpace, TellsSame};

use crate::posting::post_all;
use history_book::TxIds;
use lossy_fabric::Links;
use std::alloc::Global;
use std::marker::Model;
use std::mem::swap;
use zeus_base::NoMemory;
use zeus_model::Answer;
use zeus_node::Effect;
use zeus_packet::Letter;

/// How many packets a step sends at most.
pub(crate) const MOST_PACKETS: usize = 64;

/// The packets of a step in order, seen as their list: the letters as the node sent them, and beside them their numbers.
#[derive(Debug, Drop)]
pub struct Sent {
    numbers: Vec<u32>,
    effect: Effect,
}

impl Model for Sent {
    ghost use Rattle.std.specs.Prelude.{List, ◌≡◌, ◌≤◌, length, vec_capacity};
    ghost use Rattle.zeus_packet.specs.declared.letter.Packet.{Packet};
    ghost use Rattle.zeus_world.specs.Packets.{with_numbers};

    ghost Value = { List Packet };

    ghost view = { λ s. with_numbers s.numbers.items s.effect.sent };

    ghost invariant = { λ s. (64 ≤ vec_capacity s.numbers) × (length s.numbers.items ≡ length s.effect.sent) };
}

impl Sent {
    /// No packets, and room for those of a step.
    ///
    /// # Errors
    /// `NoMemory` if the room is not there.
    #[tactic(auto, unfolding(crate::specs::Packets::with_numbers))]
    pub(crate) fn new(alloc: Global) -> Result<Sent, NoMemory>
        ensures { IfOk result (λ s. s ≡ []) }
    {
        let numbers = Vec::with_capacity(alloc, MOST_PACKETS).map_err(|_| NoMemory)?;
        let effect = Effect::new(alloc)?;
        Ok(Sent { numbers, effect })
    }

    /// How many there are; at most 64.
    #[tactic(auto, using(crate::proofs::Numbering::length_with_numbers))]
    pub fn len(&self) -> usize
        ensures count { result ≡ length self.now }
        ensures most { result ≤ 64 }
    {
        self.effect.sent.len()
    }

    /// The number of each packet on its link.
    #[tactic(auto, using(crate::proofs::Numbering::numbers_with_numbers))]
    pub fn numbers(&self) -> &[u32]
        ensures { result.now ≡ map (λ p. p.number) self.now }
    {
        self.numbers.as_slice()
    }

    /// The letter of each packet.
    #[tactic(auto, using(crate::proofs::Numbering::letters_with_numbers))]
    pub fn letters(&self) -> &[Letter]
        ensures { result.now ≡ map (λ p. p.letter) self.now }
    {
        self.effect.sent.as_slice()
    }

    #[tactic(auto, unfolding(crate::specs::Packets::with_numbers))]
    pub(crate) fn clear(&mut self)
        ensures { self.new ≡ [] }
    {
        self.numbers.clear();
        self.effect.clear();
    }

    /// Puts each letter of the effect behind those of its link, and holds them as packets. The effect gets what was held
    /// before.
    #[tactic(auto, using(crate::proofs::Numbering::with_numbers_posted, crate::proofs::Numbering::length_link_numbers))]
    pub(crate) fn post(&mut self, links: &mut Links, effect: &mut Effect)
        requires links { CanPost links.old effect.old.sent }
        requires most { length effect.old.sent ≤ 64 }
        ensures links { letters links.new ≡ all_posted (letters links.old) effect.old.sent }
        ensures packets { self.new ≡ packets (letters links.old) effect.old.sent }
    {
        self.numbers.clear();
        post_all(links, effect.sent.as_slice(), &mut self.numbers);
        swap(&mut self.effect, effect);
    }
}

/// What a step did, as a [`Report`](crate::Report) has it, but with its letters as the node sent them. An event can be
/// kept and filled again at the next step.
#[derive(Debug, Drop)]
pub struct StepEvent {
    pub answer: Answer,
    pub points: TxIds,
    pub acked: TxIds,
    pub sent: Sent,
}

impl StepEvent {
    /// An event of nothing, to be filled at a step.
    ///
    /// # Errors
    /// `NoMemory` if the room for the packets of a step is not there.
    pub fn new(alloc: Global) -> Result<StepEvent, NoMemory>
        ensures points { IfOk result (λ e. e.points.ids ≡ []) }
        ensures acked { IfOk result (λ e. e.acked.ids ≡ []) }
        ensures sent { IfOk result (λ e. e.sent ≡ []) }
    {
        Ok(StepEvent {
            answer: Answer::Twice,
            points: TxIds::new(alloc),
            acked: TxIds::new(alloc),
            sent: Sent::new(alloc)?,
        })
    }

    /// Room for so many transactions more in each list; what the event tells stays.
    ///
    /// # Errors
    /// `NoMemory` if the room is not there.
    pub(crate) fn reserve(&mut self, count: usize) -> Result<(), NoMemory>
        ensures same { TellsSame self.old self.new }
        ensures space { OnOk result (HasSpace count self.new) }
    {
        self.points.reserve(count)?;
        self.acked.reserve(count)
    }

    /// The lists are empty, and keep their room.
    pub(crate) fn clear(&mut self)
        ensures points { self.new.points.ids ≡ [] }
        ensures acked { self.new.acked.ids ≡ [] }
        ensures sent { self.new.sent ≡ [] }
        ensures points_room { self.old.points.room ≤ self.new.points.room }
        ensures acked_room { self.old.acked.room ≤ self.new.acked.room }
    {
        self.points.clear();
        self.acked.clear();
        self.sent.clear();
    }
}
