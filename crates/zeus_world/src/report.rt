//! What a step reports: its answer, the points and acknowledgements in it, and the packets that it sends.
ghost use Rattle.std.specs.Prelude.{◌≡◌, ◌≤◌, ◌<◌, ◌+◌, ◌++◌, ◌∷◌, [], OnOk, length};
ghost use Rattle.zeus_world.specs.Reports.{IsOf, SaysSame};

use crate::event::{MOST_PACKETS, Sent, StepEvent};
use history_book::TxIds;
use std::alloc::Global;
use std::marker::Model;
use zeus_base::{NoMemory, push_copy};
use zeus_model::Answer;
use zeus_packet::Packet;

/// Packets in order, seen as their list and the room for more.
#[derive(Debug, Drop)]
pub struct Packets {
    items: Vec<Packet>,
}

impl Model for Packets {
    ghost use Rattle.std.specs.Prelude.{◌-◌, vec_capacity, vec_len};
    ghost use Rattle.zeus_world.specs.Packets.{PacketsState};

    ghost Value = { PacketsState };

    ghost view = { λ p. record { packets = p.items.items; room = vec_capacity p.items - vec_len p.items } };
}

impl Packets {
    /// No packets, and no room.
    pub fn new(alloc: Global) -> Packets
        ensures { result.packets ≡ [] }
    {
        Packets {
            items: Vec::new(alloc),
        }
    }

    /// The packets as a slice.
    pub fn as_slice(&self) -> &[Packet]
        ensures { result.now ≡ self.now.packets }
    {
        self.items.as_slice()
    }

    /// How many there are.
    pub fn len(&self) -> usize
        ensures { result ≡ length self.now.packets }
    {
        self.items.len()
    }

    /// Room for so many packets more; the packets stay, whatever the result.
    ///
    /// # Errors
    /// `NoMemory` if the room is not there.
    fn reserve(&mut self, count: usize) -> Result<(), NoMemory>
        ensures packets { self.new.packets ≡ self.old.packets }
        ensures room { OnOk result (count ≤ self.new.room) }
    {
        self.items.reserve(count).map_err(|_| NoMemory)
    }

    fn clear(&mut self)
        ensures packets { self.new.packets ≡ [] }
        ensures room { self.old.room ≤ self.new.room }
    {
        self.items.clear();
    }

    /// Has these packets, for which there is room.
    fn fill(&mut self, sent: &Sent)
        requires { 64 ≤ self.old.room }
        ensures { self.new.packets ≡ sent.now }
    {
        self.clear();
        for place in 0..sent.len() {
            let letter = sent.letters()[place].duplicate();
            self.push(Packet {
                number: sent.numbers()[place],
                letter,
            });
        }
    }

    /// Adds a packet, for which there is room.
    fn push(&mut self, packet: Packet)
        requires { 0 < self.old.room }
        ensures packets { self.new.packets ≡ self.old.packets ++ packet ∷ [] }
        ensures room { self.new.room + 1 ≡ self.old.room }
    {
        push_copy(&mut self.items, &packet);
    }
}

/// What a step did: its answer, the transactions that have their points in it and those that it acknowledges, each in the
/// history's order, and the packets that it sends. A report can be kept and filled again at the next step.
#[derive(Debug, Drop)]
pub struct Report {
    pub answer: Answer,
    pub points: TxIds,
    pub acked: TxIds,
    pub sent: Packets,
}

impl Report {
    /// A report of nothing, to be filled at a step.
    pub fn new(alloc: Global) -> Report
        ensures points { result.points.ids ≡ [] }
        ensures acked { result.acked.ids ≡ [] }
        ensures sent { result.sent.packets ≡ [] }
    {
        Report {
            answer: Answer::Twice,
            points: TxIds::new(alloc),
            acked: TxIds::new(alloc),
            sent: Packets::new(alloc),
        }
    }

    /// Room for the packets of a step; what the report says stays.
    ///
    /// # Errors
    /// `NoMemory` if the room is not there.
    pub(crate) fn reserve(&mut self) -> Result<(), NoMemory>
        ensures same { SaysSame self.old self.new }
        ensures room { OnOk result (64 ≤ self.new.sent.room) }
    {
        self.sent.reserve(MOST_PACKETS)
    }

    /// Says what the event tells.
    pub(crate) fn fill(&mut self, event: StepEvent)
        requires { 64 ≤ self.old.sent.room }
        ensures { IsOf self.new event }
    {
        let StepEvent {
            answer,
            points,
            acked,
            sent,
        } = event;
        self.answer = answer;
        self.points = points;
        self.acked = acked;
        self.sent.fill(&sent);
    }
}
