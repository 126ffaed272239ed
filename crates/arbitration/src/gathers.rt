//! What a node has gathered of the proposals, by object.
ghost use Rattle.std.specs.Prelude.{◌≡◌, ◌<◌, [], None, Some, IfOk, length, map, option_copied, slice_get};
ghost use Rattle.zeus_model.specs.Membership.{dropped};
ghost use Rattle.zeus_model.specs.Ownership.{gather_above, gather_for, greater_gather, is_decidable, is_noted, noted};
ghost use Rattle.zeus_model.specs.State.{Node, gather};
ghost use Rattle.zeus_model.specs.Tables.{nth, or_else, put};
ghost use Rattle.zeus_model.specs.World.{start_gather};
ghost use Rattle.arbitration.specs.Gathering.{IsNodeWith, ack_at, decision_of, decision_with, gathered};

use std::alloc::{AllocError, Global};
use std::marker::Model;
use zeus_base::{Config, NoMemory, NodeId, NodeSet, ObjId, ObjectDecl, Stamp};
use zeus_model::Gather;
use zeus_packet::{Content, Proposal, arbiters, new_place, source};

/// What becomes of an acknowledgement.
#[derive(Clone, Copy, Debug, PartialEq, Eq)]
pub enum Ack {
    /// The sender, or the content, was not there before.
    New,
    /// Both were there.
    Again,
    /// Acknowledgements of a proposal with this greater stamp have been gathered.
    Older(Stamp),
}

/// A proposal that can be decided, and the content that its requester gets.
#[derive(Clone, Copy, Debug, PartialEq, Eq)]
pub struct Decision {
    pub proposal: Proposal,
    pub content: Content,
}

/// The gathers of a node by object, seen as the list of them; none where nothing is gathered. What a call does not
/// name stays, and no call but `new` takes memory.
#[derive(Debug, Drop)]
pub struct Gathers {
    gathers: Vec<Option<Gather>>,
}

impl Model for Gathers {
    ghost use Rattle.std.specs.Prelude.{List, Option};
    ghost use Rattle.zeus_model.specs.declared.state.Gather.{Gather};

    ghost Value = { List (Option Gather) };

    ghost view = { λ g. g.gathers.items };
}

impl Gathers {
    /// The gathers at the start of a run: nothing is gathered of any object. All memory is taken here.
    ///
    /// # Errors
    ///
    /// `NoMemory` where that memory is not there.
    pub fn new(alloc: Global, config: &Config) -> Result<Gathers, NoMemory>
        ensures { IfOk result (λ gathers. gathers ≡ map start_gather config.now.objects) }
    {
        let gathers = start_gathers(alloc, config.objects.as_slice()).map_err(|_| NoMemory)?;
        Ok(Gathers { gathers })
    }

    /// Notes that the sender has acknowledged the proposal, and the content where none came before; in the gather of
    /// the proposal's stamp, or in a new one in place of a lesser one. Where a greater one stands, nothing changes.
    pub fn take_ack(
        &mut self,
        obj: ObjId,
        from: NodeId,
        p: &Proposal,
        content: Option<Content>,
    ) -> Ack
        requires { obj < length self.old }
        ensures answer { result ≡ ack_at (nth None self.old obj) from p.now content }
        ensures after { self.new ≡ put None self.old obj (gathered (nth None self.old obj) from p.now content) }
        ensures objects { length self.new ≡ length self.old }
    {
        let gather = &mut self.gathers[obj.place()];
        take_ack(gather, from, p, &content)
    }

    /// What every node with these gathers, members and directory decides of the object: the gathered proposal and its
    /// content where a member directory node, a source of the base and a member of the new placement are there, the
    /// content has come, and every arbiter of the base has acknowledged.
    pub fn decided(&self, obj: ObjId, members: NodeSet, directory: NodeSet) -> Option<Decision>
        ensures { (n : Node) → IsNodeWith n self.now members directory → result ≡ decision_of n (gather n obj) }
    {
        match self.gather(obj) {
            None => None,
            Some(gather) => decision_of(&gather, members, directory),
        }
    }

    /// What is gathered of the object.
    fn gather(&self, obj: ObjId) -> Option<Gather>
        ensures { result ≡ nth None self.now obj }
    {
        match self.find(obj.place()) {
            None => None,
            Some(gather) => *gather,
        }
    }

    fn find(&self, place: usize) -> Option<&Option<Gather>>
        ensures { option_copied result ≡ slice_get self.now place }
    {
        self.gathers.get(place)
    }

    /// Drops what is gathered of the object, but where it is of a proposal above the stamp.
    pub fn drop_upto(&mut self, obj: ObjId, stamp: Stamp)
        requires { obj < length self.old }
        ensures after { self.new ≡ put None self.old obj (gather_above stamp (nth None self.old obj)) }
        ensures objects { length self.new ≡ length self.old }
    {
        let gather = &mut self.gathers[obj.place()];
        *gather = gather_above(stamp, gather);
    }

    /// Drops what is gathered of every object.
    pub fn drop_all(&mut self)
        ensures after { self.new ≡ dropped self.old }
        ensures objects { length self.new ≡ length self.old }
    {
        for place in 0..self.gathers.len() {
            self.gathers[place] = None;
        }
    }
}

// The gather of each object at the start of a run: none.
fn start_gathers(alloc: Global, objects: &[ObjectDecl]) -> Result<Vec<Option<Gather>>, AllocError>
    ensures { IfOk result (λ v. v.items ≡ map start_gather objects.now) }
{
    objects
        .iter()
        .map(|object| start_gather(object))
        .collect(alloc)
}

/// Nothing is gathered of an object.
#[tactic(auto, unfolding(zeus_model::specs::World::start_gather))]
fn start_gather(_object: &ObjectDecl) -> Option<Gather>
    ensures { result ≡ start_gather _object.now }
{
    None
}

// Notes an acknowledgement in the gather of its stamp, or in a new one in place of a lesser; a greater one stays as it is.
fn take_ack(
    gather: &mut Option<Gather>,
    from: NodeId,
    p: &Proposal,
    content: &Option<Content>,
) -> Ack
    ensures answer { result ≡ ack_at gather.old from p.now content.now }
    ensures after { gather.new ≡ gathered gather.old from p.now content.now }
{
    if let Some(stamp) = greater_stamp(p.stamp, gather) {
        return Ack::Older(stamp);
    }
    let before = gather_for(p, gather);
    let again = is_noted(&before, from, content);
    *gather = Some(noted(&before, from, content));
    if again { Ack::Again } else { Ack::New }
}

/// The stamp of a gather that is above this one.
#[tactic(auto, unfolding(zeus_model::specs::Ownership::greater_gather, zeus_model::specs::Tables::where_true))]
fn greater_stamp(stamp: Stamp, gather: &Option<Gather>) -> Option<Stamp>
    ensures { result ≡ greater_gather stamp gather.now }
{
    match gather {
        None => None,
        Some(other) => {
            if stamp.is_below(other.proposal.stamp) {
                Some(other.proposal.stamp)
            } else {
                None
            }
        }
    }
}

/// What is gathered, where it is of a proposal above the stamp.
#[tactic(auto, unfolding(zeus_model::specs::Ownership::gather_above, zeus_model::specs::Tables::where_true))]
fn gather_above(stamp: Stamp, gather: &Option<Gather>) -> Option<Gather>
    ensures { result ≡ gather_above stamp gather.now }
{
    match gather {
        None => None,
        Some(gather) => {
            if stamp.is_below(gather.proposal.stamp) {
                Some(*gather)
            } else {
                None
            }
        }
    }
}

/// The gather of the proposal's stamp, or an empty one.
#[tactic(auto, unfolding(zeus_model::specs::Ownership::gather_for, zeus_base::specs::Order::same_stamp))]
fn gather_for(p: &Proposal, gather: &Option<Gather>) -> Gather
    ensures { result ≡ gather_for p.now gather.now }
{
    match gather {
        None => empty_gather(p),
        Some(gather) => {
            if gather.proposal.stamp == p.stamp {
                *gather
            } else {
                empty_gather(p)
            }
        }
    }
}

fn empty_gather(p: &Proposal) -> Gather
    ensures { result ≡ record { proposal = p.now; acks = []; content = None } }
{
    Gather {
        proposal: *p,
        acks: NodeSet::empty(),
        content: None,
    }
}

/// Whether the gather has the sender, and a content where one came.
#[tactic(auto, unfolding(zeus_model::specs::Ownership::is_noted))]
fn is_noted(gather: &Gather, from: NodeId, content: &Option<Content>) -> bool
    ensures { result ≡ is_noted gather.now from content.now }
{
    gather.acks.has(from) && (content.is_none() || gather.content.is_some())
}

/// The gather with the sender and the content; the content that came first stays.
fn noted(gather: &Gather, from: NodeId, content: &Option<Content>) -> Gather
    ensures { result ≡ noted gather.now from content.now }
{
    Gather {
        proposal: gather.proposal,
        acks: gather.acks.insert(from),
        content: first_content(&gather.content, content),
    }
}

/// The content that came before, else this one.
#[tactic(auto, unfolding(zeus_model::specs::Tables::or_else))]
fn first_content(before: &Option<Content>, content: &Option<Content>) -> Option<Content>
    ensures { result ≡ or_else before.now content.now }
{
    match before {
        None => *content,
        Some(before) => Some(*before),
    }
}

/// The proposal and the content of the gather, where it can be decided.
fn decision_of(gather: &Gather, members: NodeSet, directory: NodeSet) -> Option<Decision>
    ensures { (n : Node) → n.members ≡ members → n.directory ≡ directory → result ≡ decision_of n (Some gather.now) }
{
    if !is_decidable(gather, members, directory) {
        return None;
    }
    decision_with(&gather.proposal, &gather.content)
}

#[tactic(auto, unfolding(crate::specs::Gathering::decision_with))]
fn decision_with(p: &Proposal, content: &Option<Content>) -> Option<Decision>
    ensures { result ≡ decision_with p.now content.now }
{
    match content {
        None => None,
        Some(content) => Some(Decision {
            proposal: *p,
            content: *content,
        }),
    }
}

/// Whether the proposal of the gather can be decided, in a view of these members and with this directory.
fn is_decidable(gather: &Gather, members: NodeSet, directory: NodeSet) -> bool
    ensures { (n : Node) → n.members ≡ members → n.directory ≡ directory → result ≡ is_decidable n gather.now }
{
    let proposal = &gather.proposal;
    directory.meet(members).least().is_some()
        && source(&proposal.base_place, members).is_some()
        && new_place(proposal).replicas.meet(members).least().is_some()
        && gather.content.is_some()
        && arbiters(&proposal.base_place, members, directory).is_subset(gather.acks)
}
