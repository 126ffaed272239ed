//! Each step of the machine is a sequence of moves: small changes of one node, with what each needs and what it may send.
#![tactic(auto)]

ghost use Rattle.std.specs.Prelude.{All, List};
ghost use Rattle.zeus_base.specs.Limits.{KeepsLimits};
ghost use Rattle.zeus_base.specs.declared.config.Config.{Config};
ghost use Rattle.zeus_base.specs.declared.step.Step.{Step};
ghost use Rattle.zeus_txn.specs.declared.tx.TxDecl.{TxDecl};
ghost use Rattle.zeus_model.specs.World.{start, stepped, run};
ghost use Rattle.machine_moves.specs.Fits.{StepFits};
ghost use Rattle.machine_moves.specs.Move.{Moves};
ghost use Rattle.machine_moves.specs.SystemState.{system, IsNumbered};

/// In each run of steps that fit the configuration, each step is a sequence of moves, and the live nodes know their
/// numbers, the directory, the degree, their epochs and the members of these.
pub fn steps_are_moves()
    ensures moves { (c : Config) (txs : List TxDecl) (steps : List Step) (s : Step) → KeepsLimits c → All (StepFits c txs) steps → StepFits c txs s
        → Moves (system (run (start c txs) steps)) (system (stepped (run (start c txs) steps) s)) }
    ensures numbered { (c : Config) (txs : List TxDecl) (steps : List Step) → KeepsLimits c → All (StepFits c txs) steps
        → IsNumbered (system (run (start c txs) steps)) }
{}
