//! Why a view may leave a node out.
ghost use Rattle.std.specs.Prelude.{◌≡◌, ◌≢◌, ◌++◌, ℕ, false, List};
ghost use Rattle.zeus_base.specs.Nodes.{has};
ghost use Rattle.zeus_model.specs.declared.answer.Made.TheVariants.{Installed};
ghost use Rattle.zeus_lease.specs.Law.{IsLeftOut, NeverActs};
ghost use Rattle.zeus_lease.specs.Machine.{happens, run, start, stepped};
ghost use Rattle.zeus_lease.specs.declared.answer.LeaseAnswer.TheVariants.{View as Viewed};
ghost use Rattle.zeus_lease.specs.declared.step.LeaseStep.{LeaseStep};
ghost use Rattle.zeus_lease.specs.declared.step.LeaseStep.TheVariants.{View};

/// From the view that leaves a node out on, the node never acts: whatever the numbers of nodes and percent and the length,
/// whatever the steps, and whatever the clocks, as long as none goes faster beside another than the percent allow.
pub fn a_node_left_out_never_acts()
    // Once a view leaves the node out, no act of it is acted, whatever steps come before and behind that view.
    ensures never { (nodes term percent : ℕ) (before after : List LeaseStep) (n : ℕ) → IsLeftOut (run (start nodes term percent) before) n
        → NeverActs (run (start nodes term percent) (before ++ after)) n }
    // No later view has the node again.
    ensures stays { (nodes term percent : ℕ) (before after : List LeaseStep) (n : ℕ) → IsLeftOut (run (start nodes term percent) before) n
        → IsLeftOut (run (start nodes term percent) (before ++ after)) n }
    // A view that is made leaves out just the nodes that are no members of it.
    ensures view { (nodes term percent : ℕ) (before : List LeaseStep) (set : List ℕ) (epoch n : ℕ)
        → (happens (run (start nodes term percent) before) (View set)).answer ≡ Viewed (Installed epoch) → has n set ≡ false
        → IsLeftOut (stepped (run (start nodes term percent) before) (View set)) n }
{}
