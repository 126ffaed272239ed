//! The journals of cells that keep their rules merge to one run of the machine, with the same answers.
#![tactic(auto)]

ghost use Rattle.std.specs.Prelude.{All, IfSome, List, length, map, is_some, true, ℕ, ◌<◌, ◌≤◌, ◌≡◌, ◌+◌, ◌*◌, ◌++◌, ◌∷◌};
ghost use Rattle.zeus_base.specs.Limits.{KeepsLimits};
ghost use Rattle.zeus_base.specs.declared.step.Step.{Step};
ghost use Rattle.zeus_model.specs.Readers.{all_closed, is_closed};
ghost use Rattle.zeus_model.specs.Scripts.{FitsTxs};
ghost use Rattle.live_replay.specs.Closed.{all_closed_at_home, closed_at_home};
ghost use Rattle.live_replay.specs.LiveRun.{IsLiveRun, driven, per_round};
ghost use Rattle.zeus_model.specs.Book.{record_of};
ghost use Rattle.zeus_model.specs.Sound.{Sound};
ghost use Rattle.zeus_model.specs.World.{happens, link, node, run, start};
ghost use Rattle.zeus_model.specs.declared.answer.Answer.TheVariants.{Begin as BeginAnswer};
ghost use Rattle.zeus_model.specs.declared.answer.Begin.TheVariants.{Begun};
ghost use Rattle.machine_moves.specs.Fits.{StepFits};
ghost use Rattle.live_model.specs.Items.{Job, Stamped, travels};
ghost use Rattle.live_model.specs.Cell.{Began, CellEvent, declared, jobs, sends};
ghost use Rattle.live_model.specs.Client.{IsGone};
ghost use Rattle.live_model.specs.Cluster.{Cluster, Events, IsFront, IsThere, Plan};
ghost use Rattle.live_model.specs.Ends.{ClientId, answers, is_of, waits_behind};
ghost use Rattle.live_model.specs.Merge.{Turn, cell_turn, merged, turn_clock, turn_step, turns};
ghost use Rattle.live_replay.specs.Parts.{cell_part, service_part};
ghost use Rattle.live_replay.specs.Replayed.{IsLive, IsLost, IsMissed, IsUntouched, Rises, SameRun, acknowledged, given, world_after};

/// The merge of the journals is a run of the machine, in which each cell, each client and the service see what they saw.
///
/// It holds for each cluster within the limits whose cells, clients and service keep their facts, each by its own doing, and
/// whose rings gave, in order, what was put into them. `past`, `t` and `future` are the events before one, that event, and those
/// behind it, in the order of the merge.
pub fn merged_journals_are_a_run()
    // The steps are those of the events, by clock, then node, the service behind all nodes.
    ensures steps { (p : Plan) (k : Cluster) (es : Events) → IsLive p k es → merged p.config k ≡ map turn_step (turns p.config es) }
    // Each node's events are all there, in their order.
    ensures cells { (p : Plan) (k : Cluster) (es : Events) (n : ℕ) → IsLive p k es → n < p.config.nodes
        → cell_part n (turns p.config es) ≡ es.cells n }
    // So are those of the service.
    ensures service { (p : Plan) (k : Cluster) (es : Events) → IsLive p k es → service_part (turns p.config es) ≡ es.service }
    // Clocks rise.
    ensures clocks { (p : Plan) (k : Cluster) (es : Events) → IsLive p k es → Rises turn_clock (turns p.config es) }
    // Each step fits the configuration and its transactions.
    ensures fit { (p : Plan) (k : Cluster) (es : Events) → IsLive p k es → All (StepFits p.config p.txs) (merged p.config k) }
    // There are at most 5,000,000 for each node, and one for each that stopped.
    ensures few { (p : Plan) (k : Cluster) (es : Events) → IsLive p k es → length (merged p.config k) ≤ 40000100 }

    // Each step has the answer that its cell, or the service, gave.
    ensures answers { (p : Plan) (k : Cluster) (es : Events) (past : List Turn) (t : Turn) (future : List Turn) → IsLive p k es
        → past ++ t ∷ future ≡ turns p.config es
        → (happens (world_after p past) (turn_step t)).answer ≡ given p past t }
    // Each step acknowledges the transactions that its cell acknowledged, in the same order.
    ensures acknowledgements { (p : Plan) (k : Cluster) (es : Events) (past : List Turn) (t : Turn) (future : List Turn) → IsLive p k es
        → past ++ t ∷ future ≡ turns p.config es
        → (happens (world_after p past) (turn_step t)).acked ≡ acknowledged p past t }
    // No step is answered that a transaction was begun before or waits, or that a packet or a view is not there.
    ensures nothing_missed { (p : Plan) (k : Cluster) (es : Events) (past : List Turn) (t : Turn) (future : List Turn) → IsLive p k es
        → past ++ t ∷ future ≡ turns p.config es
        → IsMissed (happens (world_after p past) (turn_step t)).answer → ⊥ }
    // Each begin is answered so.
    ensures begun { (p : Plan) (k : Cluster) (es : Events) (past : List Turn) (n : ℕ) (e : CellEvent) (future : List Turn) (j : Job) → IsLive p k es
        → past ++ cell_turn n e ∷ future ≡ turns p.config es → e.deed ≡ Began j
        → (happens (world_after p past) (turn_step (cell_turn n e))).answer ≡ BeginAnswer Begun }
    // A transaction that is declared behind another is begun behind that one's acknowledgement.
    ensures after { (p : Plan) (k : Cluster) (es : Events) (past : List Turn) (n : ℕ) (e : CellEvent) (future : List Turn) (j : Job) → IsLive p k es
        → past ++ cell_turn n e ∷ future ≡ turns p.config es → e.deed ≡ Began j
        → IfSome (declared p.txs j.tx).after (λ i. is_some (record_of (world_after p past).book i).acked ≡ true) }
    // The world is sound at every moment.
    ensures sound { (p : Plan) (k : Cluster) (es : Events) (past : List Turn) (future : List Turn) → IsLive p k es → past ++ future ≡ turns p.config es
        → Sound (world_after p past) }

    // Each node of the last world is that of its cell.
    ensures nodes { (p : Plan) (k : Cluster) (es : Events) (n : ℕ) → IsLive p k es → n < p.config.nodes
        → node (run (start p.config p.txs) (merged p.config k)) n ≡ ((k.cells n).core).node }
    // The views are those of the service.
    ensures views { (p : Plan) (k : Cluster) (es : Events) → IsLive p k es → (run (start p.config p.txs) (merged p.config k)).views ≡ k.service.views }
    // The letters of a link are all that its cell sent there, also those that found no place in the ring.
    ensures links { (p : Plan) (k : Cluster) (es : Events) (sender receiver : ℕ) → IsLive p k es → sender < p.config.nodes
        → link (run (start p.config p.txs) (merged p.config k)).links sender receiver
        ≡ map (λ (q : Stamped). q.letter) (sends sender p.config p.txs receiver (es.cells sender)) }
    // A transaction is begun, entered, acknowledged and refused just where the book of its node's cell says so, with its reply.
    ensures books { (p : Plan) (k : Cluster) (es : Events) (n id : ℕ) → IsLive p k es → n < p.config.nodes → (declared p.txs id).node ≡ n
        → SameRun (record_of (run (start p.config p.txs) (merged p.config k)).book id) (record_of ((k.cells n).core).book id) }
    // So a transaction is closed there just where the cells have it closed, and all are just where all are.
    ensures closed { (p : Plan) (k : Cluster) (es : Events) (id : ℕ) → IsLive p k es
        → is_closed (run (start p.config p.txs) (merged p.config k)) id ≡ closed_at_home p k id }
    ensures all_closed { (p : Plan) (k : Cluster) (es : Events) → IsLive p k es
        → all_closed (run (start p.config p.txs) (merged p.config k)) ≡ all_closed_at_home p k }

    // The jobs that a client handed over are those begun at its slot, and then those that are still in the ring.
    ensures jobs { (p : Plan) (k : Cluster) (es : Events) (id : ClientId) → IsLive p k es → IsThere p.config id
        → IsFront (jobs p.txs id.slot (es.cells id.node)) (k.clients id).jobs }
    // The answers that a client took are the front of those that its cell's events give it.
    ensures client_answers { (p : Plan) (k : Cluster) (es : Events) (id : ClientId) → IsLive p k es → IsThere p.config id
        → IsFront (k.clients id).answers (answers id.node p.config p.txs id.slot (es.cells id.node)) }
    // What a client passes over, since a transaction behind which it waits was refused or its node stopped, is never begun and
    // never acknowledged.
    ensures gone { (p : Plan) (k : Cluster) (es : Events) (id : ClientId) (tx : ℕ) → IsLive p k es → IsThere p.config id
        → IsGone p.txs (k.clients id) tx
        → IsUntouched (record_of (run (start p.config p.txs) (merged p.config k)).book tx) }
    // It is closed all the same.
    ensures gone_closed { (p : Plan) (k : Cluster) (es : Events) (id : ClientId) (tx : ℕ) → IsLive p k es → IsThere p.config id
        → IsGone p.txs (k.clients id) tx
        → is_closed (run (start p.config p.txs) (merged p.config k)) tx ≡ true }
    // What waits behind a lost transaction, directly or through others, is passed over by each client that has taken all notes of
    // that one's cell, where the cell's clock travels.
    ensures lost_gone { (p : Plan) (k : Cluster) (es : Events) (id : ClientId) (tx lost : ℕ) → IsLive p k es → IsThere p.config id
        → is_of p.txs id tx ≡ true
        → waits_behind p.txs tx lost ≡ true → IsLost (run (start p.config p.txs) (merged p.config k)) lost
        → travels ((k.cells (declared p.txs lost).node).core).clock ≡ true
        → (k.clients id).notes (declared p.txs lost).node ≡ (k.cells (declared p.txs lost).node).notes id → IsGone p.txs (k.clients id) tx }
{}

/// A live run is one that its cells have made, and then its drive.
///
/// `IsLiveRun` says that each step fits, that none finds a transaction begun or waiting, a packet or a view missing, that with a
/// kill the node's step of the kill's number is its stop, that no other step is a stop, and that views and installs stand behind it.
pub fn drives_go_on_live_runs()
    // The steps of merged journals are those of a live run.
    ensures merged { (p : Plan) (k : Cluster) (es : Events) → IsLive p k es → IsLiveRun p (merged p.config k) }
    // With the steps of a drive behind it a live run is still one.
    ensures driven { (p : Plan) (before : List Step) (rounds : ℕ) → KeepsLimits p.config → FitsTxs p.config p.txs → IsLiveRun p before
        → IsLiveRun p (before ++ (driven p before rounds).steps) }
    // The steps lead to the drive's world.
    ensures world { (p : Plan) (before : List Step) (rounds : ℕ) → KeepsLimits p.config → FitsTxs p.config p.txs → IsLiveRun p before
        → (driven p before rounds).world ≡ run (start p.config p.txs) (before ++ (driven p before rounds).steps) }
    // It has ended before its last round only where all transactions are closed.
    ensures ended { (p : Plan) (before : List Step) (rounds : ℕ) → KeepsLimits p.config → FitsTxs p.config p.txs → IsLiveRun p before
        → (driven p before rounds).over ≡ true → all_closed (driven p before rounds).world ≡ true }
    // It makes at most so many steps a round, and beside these one for each transaction that it begins, and the stop.
    ensures few { (p : Plan) (before : List Step) (rounds : ℕ) → KeepsLimits p.config → FitsTxs p.config p.txs → IsLiveRun p before
        → length (driven p before rounds).steps ≤ 20 * rounds * per_round p.config + length p.txs + 1 }
    // So a live run with its drive stays within what a world can count.
    ensures bound { (p : Plan) (before : List Step) (rounds : ℕ) → KeepsLimits p.config → FitsTxs p.config p.txs → IsLiveRun p before
        → rounds ≤ 1000 → length p.txs ≤ 1000 → length before ≤ 40000100 → length (before ++ (driven p before rounds).steps) < 67000000 }
{}
