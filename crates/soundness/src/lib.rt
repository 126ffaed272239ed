//! Every run of the machine is sound, and refuses no letter for a cause that only makes the rules total.
#![tactic(auto)]

ghost use Rattle.std.specs.Prelude.{All, List, Some, is_some, length, take, true, ℕ, ◌<◌, ◌≡◌, ◌≢◌, ◌≤◌, ◌↔◌};
ghost use Rattle.zeus_base.specs.Limits.{KeepsLimits};
ghost use Rattle.zeus_base.specs.Nodes.{has};
ghost use Rattle.zeus_base.specs.declared.config.Config.{Config};
ghost use Rattle.zeus_base.specs.declared.order.Stream.{Stream};
ghost use Rattle.zeus_base.specs.declared.step.Step.{Step};
ghost use Rattle.zeus_packet.specs.declared.letter.Cause.TheVariants.{OwnStream, Window, NotArbiter, NotCollector, OwnPlace};
ghost use Rattle.zeus_txn.specs.declared.reply.Reply.{Reply};
ghost use Rattle.zeus_txn.specs.declared.tx.TxDecl.{TxDecl};
ghost use Rattle.zeus_model.specs.Book.{Point, record_of};
ghost use Rattle.zeus_model.specs.In.{In};
ghost use Rattle.zeus_model.specs.Scripts.{FitsStep, FitsTxs};
ghost use Rattle.zeus_model.specs.Serial.{serial_replies, start_map};
ghost use Rattle.zeus_model.specs.Sound.{HasUpToDateCopy, IsLive, IsLiveOwner, IsOneHistory, IsUpToDate, Sound};
ghost use Rattle.zeus_model.specs.Sound.{history_txs, latest_place, left, replies_of, times};
ghost use Rattle.zeus_model.specs.State.{copy, entry};
ghost use Rattle.zeus_model.specs.World.{Event, events, happens, node, run, start};
ghost use Rattle.zeus_model.specs.declared.answer.Answer.TheVariants.{Receive};
ghost use Rattle.zeus_model.specs.declared.answer.Outcome.TheVariants.{Refused};
ghost use Rattle.zeus_model.specs.declared.state.Copy.{Copy};
ghost use Rattle.soundness.specs.History.{StandsBefore};
ghost use Rattle.soundness.specs.Placements.{AgreeOn, IsLatest};
ghost use Rattle.soundness.specs.Promise.{KeepsPromise};
ghost use Rattle.soundness.specs.Telling.{Answers, Begins, Commits, Does, how_often, ids_of, told_acks, told_points};

/// Every run is sound: whatever the configuration and the transactions within the limits, and whatever the steps, which may
/// deliver any letter that was ever sent, at any time, again, or never, and stop any node.
pub fn every_run_is_sound()
    // No object ever has two live owners.
    ensures one_owner { (c : Config) (txs : List TxDecl) (steps : List Step) → KeepsLimits c → FitsTxs c txs → All (FitsStep c (length txs)) steps
        → (x a b : ℕ) → x < length c.objects → IsLiveOwner (run (start c txs) steps) x a → IsLiveOwner (run (start c txs) steps) x b → a ≡ b }

    // There is one history: each transaction of it stands there once, between its begin and its acknowledgement, and each
    // acknowledged transaction is in it.
    ensures one_history { (c : Config) (txs : List TxDecl) (steps : List Step) → KeepsLimits c → FitsTxs c txs → All (FitsStep c (length txs)) steps
        → IsOneHistory (run (start c txs) steps) }

    // The replies of the history are those of its transactions run one after another.
    ensures serial { (c : Config) (txs : List TxDecl) (steps : List Step) → KeepsLimits c → FitsTxs c txs → All (FitsStep c (length txs)) steps
        → let w = run (start c txs) steps in replies_of w.book.points ≡ serial_replies (start_map w.config) (history_txs w w.book.points) }

    // The history is in the order of the steps: who stands before another has no later point.
    ensures in_order { (c : Config) (txs : List TxDecl) (steps : List Step) → KeepsLimits c → FitsTxs c txs → All (FitsStep c (length txs)) steps
        → let w = run (start c txs) steps in (a b s t : ℕ) → StandsBefore a b w.book.points
        → (record_of w.book a).point ≡ Some s → (record_of w.book b).point ≡ Some t → s ≤ t }

    // A transaction that was acknowledged before another was begun stands before it, if that one is in the history.
    ensures real_time { (c : Config) (txs : List TxDecl) (steps : List Step) → KeepsLimits c → FitsTxs c txs → All (FitsStep c (length txs)) steps
        → let w = run (start c txs) steps in (a b acked begun : ℕ) → (record_of w.book a).acked ≡ Some acked
        → (record_of w.book b).begun ≡ Some begun → acked < begun
        → 1 ≤ times b w.book.points → StandsBefore a b w.book.points }

    // Each transaction of the history has there the reply that a step answered it, as committed or as read, and that its
    // record keeps.
    ensures replies { (c : Config) (txs : List TxDecl) (steps : List Step) → KeepsLimits c → FitsTxs c txs → All (FitsStep c (length txs)) steps
        → let w = run (start c txs) steps in (p : Point) → In p w.book.points
        → ((record_of w.book p.id).reply ≡ Some p.reply) × ((k : ℕ) × Answers (start c txs) steps k p.id p.reply) }

    // No live copy of an object's latest placement is older than what the history leaves, and each valid one is just that.
    ensures copies { (c : Config) (txs : List TxDecl) (steps : List Step) → KeepsLimits c → FitsTxs c txs → All (FitsStep c (length txs)) steps
        → (x n : ℕ) → x < length c.objects → IsLive (run (start c txs) steps) n → has n (latest_place (run (start c txs) steps) x).replicas ≡ true
        → HasUpToDateCopy (run (start c txs) steps) n x }

    // Nodes that have settled an object at one version have settled the same stamp and the same placement.
    ensures one_placement { (c : Config) (txs : List TxDecl) (steps : List Step) → KeepsLimits c → FitsTxs c txs → All (FitsStep c (length txs)) steps
        → let w = run (start c txs) steps in (x a b : ℕ) → x < length c.objects → a < c.nodes → b < c.nodes
        → (entry (node w a) x).stamp.ver ≡ (entry (node w b) x).stamp.ver → AgreeOn w x a b }

    // Each object has one latest placement: no node has settled a greater stamp, and whoever has settled this stamp has settled
    // this placement.
    ensures latest_placement { (c : Config) (txs : List TxDecl) (steps : List Step) → KeepsLimits c → FitsTxs c txs → All (FitsStep c (length txs)) steps
        → let w = run (start c txs) steps in (x : ℕ) → x < length c.objects → IsLatest w x }

    // The live nodes that have a copy of an object are exactly the live nodes of its latest placement.
    ensures copies_where_placed { (c : Config) (txs : List TxDecl) (steps : List Step) → KeepsLimits c → FitsTxs c txs
        → All (FitsStep c (length txs)) steps
        → let w = run (start c txs) steps in (x n : ℕ) → x < length c.objects → IsLive w n
        → (is_some (copy (node w n) x) ≡ true) ↔ (has n (latest_place w x).replicas ≡ true) }

    // No copy at a live node is older than what the history leaves, and each valid one is just that.
    ensures live_copies { (c : Config) (txs : List TxDecl) (steps : List Step) → KeepsLimits c → FitsTxs c txs → All (FitsStep c (length txs)) steps
        → let w = run (start c txs) steps in (x n : ℕ) (held : Copy) → x < length c.objects → IsLive w n
        → copy (node w n) x ≡ Some held → IsUpToDate held (left w x) }

    // The world is sound after each of the steps. (The other clauses hold there too, since they hold of every list of steps.)
    ensures at_every_moment { (c : Config) (txs : List TxDecl) (steps : List Step) → KeepsLimits c → FitsTxs c txs → All (FitsStep c (length txs)) steps
        → (k : ℕ) → Sound (run (start c txs) (take k steps)) }
{}

/// What the steps of a run tell is what its book has, and what happens to a transaction happens once. So the points and the
/// acknowledgements that a report prints at its steps are the history.
pub fn every_run_tells_its_history()
    // The book counts the steps.
    ensures counted { (c : Config) (txs : List TxDecl) (steps : List Step) → KeepsLimits c → FitsTxs c txs → All (FitsStep c (length txs)) steps
        → (run (start c txs) steps).book.steps ≡ length steps }

    // A transaction is begun at the step that begins it.
    ensures begun { (c : Config) (txs : List TxDecl) (steps : List Step) → KeepsLimits c → FitsTxs c txs → All (FitsStep c (length txs)) steps
        → (id k : ℕ) → ((record_of (run (start c txs) steps).book id).begun ≡ Some k) ↔ Begins (start c txs) steps k id }

    // The points that the steps tell, joined in order, are the history.
    ensures points { (c : Config) (txs : List TxDecl) (steps : List Step) → KeepsLimits c → FitsTxs c txs → All (FitsStep c (length txs)) steps
        → ids_of (run (start c txs) steps).book.points ≡ told_points (events (start c txs) steps) }

    // A transaction has its point at the step that tells it.
    ensures point_steps { (c : Config) (txs : List TxDecl) (steps : List Step) → KeepsLimits c → FitsTxs c txs → All (FitsStep c (length txs)) steps
        → (id k : ℕ) → ((record_of (run (start c txs) steps).book id).point ≡ Some k)
        ↔ ((e : Event) × Does (start c txs) steps k e × In id e.points) }

    // A transaction is acknowledged at the step that tells it.
    ensures ack_steps { (c : Config) (txs : List TxDecl) (steps : List Step) → KeepsLimits c → FitsTxs c txs → All (FitsStep c (length txs)) steps
        → (id k : ℕ) → ((record_of (run (start c txs) steps).book id).acked ≡ Some k)
        ↔ ((e : Event) × Does (start c txs) steps k e × In id e.acked) }

    // No acknowledgement is told twice.
    ensures acked_once { (c : Config) (txs : List TxDecl) (steps : List Step) → KeepsLimits c → FitsTxs c txs → All (FitsStep c (length txs)) steps
        → (id : ℕ) → how_often id (told_acks (events (start c txs) steps)) ≤ 1 }

    // A transaction has the entry as which a step commits it.
    ensures entries { (c : Config) (txs : List TxDecl) (steps : List Step) → KeepsLimits c → FitsTxs c txs → All (FitsStep c (length txs)) steps
        → (id number : ℕ) (t : Stream)
        → ((record_of (run (start c txs) steps).book id).entry ≡ Some record { stream = t; number = number }) ↔ ((k : ℕ)
        × Commits (start c txs) steps k t number id) }

    // A transaction has the reply that a step answers it.
    ensures replies { (c : Config) (txs : List TxDecl) (steps : List Step) → KeepsLimits c → FitsTxs c txs → All (FitsStep c (length txs)) steps
        → (id : ℕ) (reply : Reply)
        → ((record_of (run (start c txs) steps).book id).reply ≡ Some reply) ↔ ((k : ℕ) × Answers (start c txs) steps k id reply) }

    // The reply that a transaction has when a step tells its point, which a report prints there, is that of the history.
    ensures told_replies { (c : Config) (txs : List TxDecl) (steps : List Step) → KeepsLimits c → FitsTxs c txs → All (FitsStep c (length txs)) steps
        → (id k : ℕ) (e : Event) → Does (start c txs) steps k e → In id e.points
        → (p : Point) × In p (run (start c txs) steps).book.points × (p.id ≡ id) × ((record_of e.world.book id).reply ≡ Some p.reply) }

    // No transaction is committed or read twice, and none that was committed is read too.
    ensures once_committed { (c : Config) (txs : List TxDecl) (steps : List Step) → KeepsLimits c → FitsTxs c txs → All (FitsStep c (length txs)) steps
        → (id k l : ℕ) (p q : Reply)
        → Answers (start c txs) steps k id p → Answers (start c txs) steps l id q → k ≡ l }

    // No two transactions have one entry.
    ensures own_entry { (c : Config) (txs : List TxDecl) (steps : List Step) → KeepsLimits c → FitsTxs c txs → All (FitsStep c (length txs)) steps
        → (t : Stream) (number k l a b : ℕ)
        → Commits (start c txs) steps k t number a → Commits (start c txs) steps l t number b → a ≡ b }
{}

/// Five refusals of a letter never come, in no step of any run:
///
/// - `OwnStream`: the stream is the receiver's own.
/// - `Window`: the receiver has 16 entries of the stream stored.
/// - `NotArbiter`, `NotCollector`: the receiver is no arbiter of the proposal, or does not collect its acknowledgements.
/// - `OwnPlace`: a base or a decided placement would make the receiver the owner, or a proposal that another node asked for.
pub fn never_refused_so()
    ensures { (c : Config) (txs : List TxDecl) (steps : List Step) (s : Step) → KeepsLimits c → All (FitsStep c (length txs)) steps
        → let answer = (happens (run (start c txs) steps) s).answer in
        (answer ≢ Receive (Refused OwnStream)) × (answer ≢ Receive (Refused Window)) × (answer ≢ Receive (Refused NotArbiter))
        × (answer ≢ Receive (Refused NotCollector)) × (answer ≢ Receive (Refused OwnPlace)) }
{}

/// Every run keeps the whole promise, after each of its steps: all that the other theorems here say, in one word for who
/// hands it on.
pub fn every_run_keeps_its_promise()
    ensures { (c : Config) (txs : List TxDecl) (steps : List Step) → KeepsLimits c → FitsTxs c txs → All (FitsStep c (length txs)) steps
        → (k : ℕ) → KeepsPromise (start c txs) (take k steps) }
{}
