//! The commit protocol of one stream is safe: entries are stored in order, and what passed is stored at every live follower.
#![tactic(auto)]

ghost use Rattle.std.specs.Prelude.{List, length, ℕ, suc, true, ◌<◌, ◌↔◌, ◌≡◌, ◌≢◌, ◌≤◌, ◌⊎◌};
ghost use Rattle.zeus_base.specs.Nodes.{has, is_subset};
ghost use Rattle.replication_safety.specs.StreamState.{end, entry, entry_of, Entry, Has, HasReported, In, IsAlive, IsLive};
ghost use Rattle.replication_safety.specs.StreamState.{IsMember, IsOut, IsView, kept_at, StreamState, Passes, Stores, top, view};
ghost use Rattle.replication_safety.specs.Moves.{Commits, Hears, Installs, NewView, NotesAck, PassesFirst, Raises, ReportsItself, Stops, StoresNext, Tells};
ghost use Rattle.replication_safety.specs.ReplicationInvariant.{Holds, ReplicationInvariant};
ghost use Rattle.replication_safety.specs.Rises.{Rises};
ghost use Rattle.replication_safety.specs.Start.{IsStart};

/// What holds of every stream holds at its start, when no entry has passed.
pub fn start_holds()
    ensures start { (l : StreamState) → IsStart l → ReplicationInvariant l 0 }
{}

/// What holds of a stream holds after each move; only the first pass of an entry raises the count of those that have passed.
pub fn moves_keep_what_holds()
    ensures new_view { (old new : StreamState) (passed : ℕ) (set : List ℕ) → ReplicationInvariant old passed → NewView old new set
        → ReplicationInvariant new passed }
    ensures stops { (old new : StreamState) (passed n : ℕ) → ReplicationInvariant old passed → Stops old new n → ReplicationInvariant new passed }
    ensures installs { (old new : StreamState) (passed n e : ℕ) → ReplicationInvariant old passed → Installs old new n e
        → ReplicationInvariant new passed }
    ensures reports { (old new : StreamState) (passed n : ℕ) → ReplicationInvariant old passed → ReportsItself old new n
        → ReplicationInvariant new passed }
    ensures hears { (old new : StreamState) (passed n a : ℕ) → ReplicationInvariant old passed → Hears old new n a → ReplicationInvariant new passed }
    ensures tells { (old new : StreamState) (passed n : ℕ) → ReplicationInvariant old passed → Tells old new n → ReplicationInvariant new passed }
    ensures commits { (old new : StreamState) (passed : ℕ) (x : Entry) → ReplicationInvariant old passed → Commits old new x
        → ReplicationInvariant new passed }
    ensures stores { (old new : StreamState) (passed n : ℕ) (x : Entry) → ReplicationInvariant old passed → StoresNext old new n x
        → ReplicationInvariant new passed }
    ensures raises { (old new : StreamState) (passed n d : ℕ) → ReplicationInvariant old passed → Raises old new passed n d
        → ReplicationInvariant new passed }
    ensures notes { (old new : StreamState) (passed n k a : ℕ) → ReplicationInvariant old passed → NotesAck old new n k a
        → ReplicationInvariant new passed }
    ensures passes_again { (old new : StreamState) (passed n : ℕ) → ReplicationInvariant old passed → PassesFirst old new n → old.done n < passed
        → ReplicationInvariant new passed }
    ensures passes_first { (old new : StreamState) (passed n : ℕ) → ReplicationInvariant old passed → PassesFirst old new n → old.done n ≡ passed
        → ReplicationInvariant new (suc passed) }
{}

/// An entry that passes for the first time is kept by each of its live followers, whoever passes it; an unpassed entry is the
/// same wherever it is kept; and while the stream's own node lives, no other passes.
pub fn first_pass_is_stored()
    ensures stored { (old new : StreamState) (passed n g : ℕ) → ReplicationInvariant old passed → PassesFirst old new n → old.done n ≡ passed
        → IsLive old g → has g (kept_at old n passed).followers ≡ true → Has old g passed }
    ensures content { (l : StreamState) (passed n k : ℕ) → ReplicationInvariant l passed → Has l n k → passed ≤ k
        → entry_of (kept_at l n k) ≡ entry l k }
    ensures own { (old new : StreamState) (passed n : ℕ) → ReplicationInvariant old passed → PassesFirst old new n
        → IsLive old old.home → n ≡ old.home }
{}

/// An entry that lives after a move lived before it, or was committed by it.
pub fn what_lives_lived_before()
    ensures new_view { (old new : StreamState) (passed now k : ℕ) (set : List ℕ) → NewView old new set → passed ≤ now → IsAlive new now k
        → IsAlive old passed k }
    ensures stops { (old new : StreamState) (passed now k n : ℕ) → Stops old new n → passed ≤ now → IsAlive new now k → IsAlive old passed k }
    ensures installs { (old new : StreamState) (passed now k n e : ℕ) → Installs old new n e → passed ≤ now
        → IsAlive new now k → IsAlive old passed k }
    ensures reports { (old new : StreamState) (passed now k n : ℕ) → ReportsItself old new n → passed ≤ now
        → IsAlive new now k → IsAlive old passed k }
    ensures hears { (old new : StreamState) (passed now k n a : ℕ) → Hears old new n a → passed ≤ now → IsAlive new now k → IsAlive old passed k }
    ensures tells { (old new : StreamState) (passed now k n : ℕ) → Tells old new n → passed ≤ now → IsAlive new now k → IsAlive old passed k }
    ensures commits { (old new : StreamState) (passed now k : ℕ) (x : Entry) → Commits old new x → passed ≤ now → IsAlive new now k
        → IsAlive old passed k ⊎ (k ≡ end old) }
    ensures stores { (old new : StreamState) (passed now k n : ℕ) (x : Entry) → ReplicationInvariant old passed → StoresNext old new n x
        → passed ≤ now → IsAlive new now k → IsAlive old passed k }
    ensures raises { (old new : StreamState) (passed now k n d : ℕ) → Raises old new passed n d → passed ≤ now
        → IsAlive new now k → IsAlive old passed k }
    ensures notes { (old new : StreamState) (passed now k n j a : ℕ) → NotesAck old new n j a → passed ≤ now
        → IsAlive new now k → IsAlive old passed k }
    ensures passes { (old new : StreamState) (passed now k n : ℕ) → PassesFirst old new n → passed ≤ now
        → IsAlive new now k → IsAlive old passed k }
{}

/// No move takes anything back: stops, epochs, what is known to have passed, and entries stay.
pub fn moves_take_nothing_back()
    ensures new_view { (old new : StreamState) (set : List ℕ) → NewView old new set → Rises old new }
    ensures stops { (old new : StreamState) (n : ℕ) → Stops old new n → Rises old new }
    ensures installs { (old new : StreamState) (n e : ℕ) → Installs old new n e → Rises old new }
    ensures reports { (old new : StreamState) (n : ℕ) → ReportsItself old new n → Rises old new }
    ensures hears { (old new : StreamState) (n a : ℕ) → Hears old new n a → Rises old new }
    ensures tells { (old new : StreamState) (n : ℕ) → Tells old new n → Rises old new }
    ensures commits { (old new : StreamState) (x : Entry) → Commits old new x → Rises old new }
    ensures stores { (old new : StreamState) (n : ℕ) (x : Entry) → StoresNext old new n x → Rises old new }
    ensures raises { (old new : StreamState) (passed n d : ℕ) → Raises old new passed n d → Rises old new }
    ensures notes { (old new : StreamState) (n k a : ℕ) → NotesAck old new n k a → Rises old new }
    ensures passes { (old new : StreamState) (n : ℕ) → PassesFirst old new n → Rises old new }
{}

/// A committed entry gets the next number; what a node stores is what the stream's own node committed, and has not passed.
pub fn what_moves_add()
    ensures commits { (old new : StreamState) (x : Entry) → Commits old new x → entry new (end old) ≡ x }
    ensures stores_unpassed { (old new : StreamState) (passed n : ℕ) (x : Entry) → ReplicationInvariant old passed → StoresNext old new n x
        → passed ≤ top old n }
    ensures stores_entry { (old new : StreamState) (passed n : ℕ) (x : Entry) → ReplicationInvariant old passed → StoresNext old new n x
        → x ≡ entry old (top old n) }
    ensures repeats { (old new : StreamState) (passed n from to e k d : ℕ) (x : Entry) → ReplicationInvariant old passed → Tells old new n
        → In (Stores from to e k d x) new.letters → k < passed
        → (sender receiver epoch done : ℕ) × In (Stores sender receiver epoch k done x) old.letters }
{}

/// What follows at one moment: a live node lacks no entry that lives below one that it keeps, what passed is not stored again,
/// and once all members have reported no entry of a non-member's stream lives.
pub fn entries_at_one_moment()
    ensures own_alive { (l : StreamState) (passed k : ℕ) → ReplicationInvariant l passed → IsLive l l.home → IsAlive l passed k ↔ Has l l.home k }
    ensures committed { (l : StreamState) (passed n k : ℕ) → ReplicationInvariant l passed → Has l n k → k < end l }
    ensures stored_down { (l : StreamState) (passed n k j : ℕ) → ReplicationInvariant l passed → IsLive l n → Has l n k → passed ≤ j → j ≤ k
        → Has l n j × IsAlive l passed j }
    ensures no_restore { (l : StreamState) (passed from f e k d : ℕ) (x : Entry) → ReplicationInvariant l passed
        → In (Stores from f e k d x) l.letters → IsLive l f → k < passed → Holds l f k }
    ensures replay_over { (l : StreamState) (passed e k : ℕ) → ReplicationInvariant l passed → IsView l e → IsOut l e l.home
        → ((n : ℕ) → IsMember l e n → HasReported l n e) → IsAlive l passed k → ⊥ }
    ensures open_reported { (l : StreamState) (passed n m : ℕ) → ReplicationInvariant l passed → IsLive l n → 2 ≤ l.epoch n
        → is_subset (view l (l.epoch n)) (l.reported n) ≡ true → IsMember l (l.epoch n) m → HasReported l m (l.epoch n) }
{}

/// No letter goes to a node that would refuse it for the stream being its own or its window being full, and what a letter
/// says to have passed has passed.
pub fn letters_are_never_refused()
    ensures entry_foreign { (l : StreamState) (passed from n e k d : ℕ) (x : Entry) → ReplicationInvariant l passed
        → In (Stores from n e k d x) l.letters → n ≢ l.home }
    ensures done_foreign { (l : StreamState) (passed n d : ℕ) → ReplicationInvariant l passed → In (Passes n d) l.letters → n ≢ l.home }
    ensures room { (l : StreamState) (passed from n e k d : ℕ) (x : Entry) → ReplicationInvariant l passed → In (Stores from n e k d x) l.letters
        → d ≤ l.done n → k ≡ top l n → length (l.kept n) < 16 }
    ensures entry_known { (l : StreamState) (passed from n e k d : ℕ) (x : Entry) → ReplicationInvariant l passed
        → In (Stores from n e k d x) l.letters → d ≤ passed }
    ensures done_known { (l : StreamState) (passed n d : ℕ) → ReplicationInvariant l passed → In (Passes n d) l.letters → d ≤ passed }
{}
