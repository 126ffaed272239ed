//! The law of faults: which bytes have one, and that there is no other.
ghost use Rattle.std.specs.Prelude.{◌≡◌, ◌↔◌, ℕ, List, Err, IsErr};
ghost use Rattle.zeus_model.specs.declared.fault.ScriptFault.{ScriptFault};
ghost use Rattle.zeus_lease.specs.Faults.{HasOneFault, IsFaultOf, SpellsScript};
ghost use Rattle.zeus_lease.specs.Reading.{script_read};

/// Bytes that spell no script of leases have exactly one fault: that of their first faulty line, and in it of the first word
/// that does not fit. It is what reading them line by line gives.
pub fn other_bytes_have_one_fault()
    // Reading gives a fault exactly if the bytes spell no script.
    ensures faulty { (bytes : List ℕ) → IsErr (script_read bytes) ↔ ¬ SpellsScript bytes }
    // It gives this fault exactly if it is the fault of the bytes.
    ensures fault { (bytes : List ℕ) (f : ScriptFault) → (script_read bytes ≡ Err f) ↔ IsFaultOf bytes f }
    // There is one fault of bytes that spell no script.
    ensures one { (bytes : List ℕ) → ¬ SpellsScript bytes → HasOneFault bytes }
    // There is none of bytes that spell one.
    ensures none { (bytes : List ℕ) → SpellsScript bytes → (f : ScriptFault) → ¬ IsFaultOf bytes f }
{}
