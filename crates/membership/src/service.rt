//! The views of a run, and who may make the next one.
ghost use Rattle.std.specs.Prelude.{◌≡◌, ◌↔◌, ◌⊎◌, ◌<◌, ◌≤◌, ◌+◌, ◌-◌, ◌^◌, [], ◌∷◌};
ghost use Rattle.std.specs.Prelude.{true, not, ℕ, List, IfOk, IfSome, IsNone, None, OnErr, length};
ghost use Rattle.std.specs.List.{find};
ghost use Rattle.zeus_base.specs.Nodes.{has};
ghost use Rattle.zeus_base.specs.declared.step.Step.TheVariants.{View as ViewStep};
ghost use Rattle.zeus_model.specs.Tables.{below, nth};
ghost use Rattle.zeus_model.specs.World.{World, happens, last_view, node as node_of, stepped, view_refused};
ghost use Rattle.zeus_model.specs.declared.answer.Answer.TheVariants.{View as ViewAnswer};
ghost use Rattle.membership.specs.Views.{IsWorldWith};

use std::alloc::Global;
use std::marker::Model;
use zeus_base::{NoMemory, NodeId, NodeSet};
use zeus_model::Made;
use zeus_packet::View;

/// The views of a run by epoch from 1, seen as the list of them, each the rising list of its members.
#[derive(Debug, Drop)]
pub struct Service {
    views: Vec<NodeSet>,
}

impl Model for Service {
    ghost use Rattle.std.specs.Prelude.{List, ℕ};
    ghost use Rattle.membership.specs.Views.{AreViews};

    ghost Value = { List (List ℕ) };

    ghost view = { λ s. s.views.items };

    ghost invariant = { λ s. AreViews s.views.items };
}

impl Service {
    /// The views at the start of a run: epoch 1 has all nodes, which are those below this number.
    ///
    /// # Errors
    ///
    /// `NoMemory` where the memory for it is not there.
    pub fn new(alloc: Global, nodes: u8) -> Result<Service, NoMemory>
        requires { nodes ≤ 8 }
        ensures { IfOk result (λ service. service ≡ below nodes ∷ []) }
    {
        let mut views = Vec::with_capacity(alloc, 1).map_err(|_| NoMemory)?;
        views.push_reserved(NodeSet::below(nodes));
        Ok(Service { views })
    }

    /// Makes a view of these members, where of the last view's nodes just these have stopped. The clauses speak of
    /// every world that has these views and in which that is so. The view is of the next epoch. It is refused, and
    /// nothing changes, where it has no member, else where it has a node that is no member of the last view (the
    /// least is told), else where it leaves out one that runs (the least is told).
    ///
    /// # Errors
    ///
    /// `NoMemory` where the view would be made and the memory for it is not there; nothing has changed then.
    pub fn view(&mut self, members: NodeSet, stopped: NodeSet) -> Result<Made, NoMemory>
        requires room { length self.old < 2 ^ 32 - 1 }
        ensures answer { IfOk result (λ made. (w : World) → IsWorldWith w self.old stopped → ViewAnswer made ≡ (happens w (ViewStep members)).answer) }
        ensures after { IfOk result (λ made. (w : World) → IsWorldWith w self.old stopped → self.new ≡ (stepped w (ViewStep members)).views) }
        ensures most { length self.new ≤ length self.old + 1 }
        ensures err { OnErr result (self.new ≡ self.old) }
        ensures unmade { OnErr result ((w : World) → IsWorldWith w self.old stopped → view_refused w members ≡ None) }
    {
        if let Some(refused) = view_refused(self.last(), members, stopped) {
            return Ok(refused);
        }
        self.views.push(members).map_err(|_| NoMemory)?;
        Ok(Made::Installed(self.views.len() as u32))
    }

    /// The members of the last view.
    fn last(&self) -> NodeSet
        ensures { result ≡ last_view self.now }
    {
        let views = self.views.as_slice();
        views[views.len() - 1]
    }

    /// How many views there are, which is the last one's epoch.
    pub fn count(&self) -> u32
        ensures views { result ≡ length self.now }
        ensures some { 0 < result }
    {
        self.views.len() as u32
    }

    /// The view of this epoch; none where there is no such epoch.
    pub fn get(&self, epoch: u32) -> Option<View>
        ensures none { IsNone result ↔ ((epoch ≡ 0) ⊎ (length self.now < epoch)) }
        ensures view { IfSome result (λ view. view ≡ record { epoch = epoch; members = nth [] self.now (epoch - 1) }) }
    {
        if epoch == 0 {
            return None;
        }
        let members = self.views.get(epoch as usize - 1)?;
        Some(View {
            epoch,
            members: *members,
        })
    }
}

/// Why a view of these members is not made: the first cause that holds.
fn view_refused(last: NodeSet, members: NodeSet, stopped: NodeSet) -> Option<Made>
    ensures { (w : World) → last_view w.views ≡ last
        → ((n : ℕ) → has n last ≡ true → (node_of w n).stopped ≡ has n stopped)
        → result ≡ view_refused w members }
{
    if members.is_empty() {
        return Some(Made::Empty);
    }
    if let Some(stranger) = least_apart(members, last) {
        return Some(Made::NotMember(stranger));
    }
    match least_apart(last, members.join(stopped)) {
        Some(running) => Some(Made::NotStopped(running)),
        None => None,
    }
}

/// The least node of the set that is not one of the others.
fn least_apart(set: NodeSet, others: NodeSet) -> Option<NodeId>
    ensures { result ≡ find (λ n. not (has n others)) set }
{
    for node in set {
        if !others.has(node) {
            return Some(node);
        }
    }
    None
}
