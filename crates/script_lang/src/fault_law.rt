//! The law of faults: which bytes have one, and that there is no other.
ghost use Rattle.std.specs.Prelude.{◌≡◌, ◌↔◌, ℕ, Bool, List, Err, IsErr};
ghost use Rattle.zeus_model.specs.declared.fault.ScriptFault.{ScriptFault};
ghost use Rattle.script_lang.specs.OneFault.{HasOneFault, IsFaultOf, SpellsScript};
ghost use Rattle.script_lang.specs.Reading.{script_read};

/// Bytes that spell no script have exactly one fault: that of their first faulty line, and in it of the first word that does
/// not fit. It is what reading them line by line gives.
pub fn other_bytes_have_one_fault()
    // Reading gives a fault exactly if the bytes spell no script.
    ensures faulty { (live : Bool) (bytes : List ℕ) → IsErr (script_read live bytes) ↔ ¬ SpellsScript live bytes }
    // It gives this fault exactly if it is the fault of the bytes.
    ensures fault { (live : Bool) (bytes : List ℕ) (f : ScriptFault) → (script_read live bytes ≡ Err f) ↔ IsFaultOf live bytes f }
    // There is one fault of bytes that spell no script.
    ensures one { (live : Bool) (bytes : List ℕ) → ¬ SpellsScript live bytes → HasOneFault live bytes }
    // There is none of bytes that spell one.
    ensures none { (live : Bool) (bytes : List ℕ) → SpellsScript live bytes → (f : ScriptFault) → ¬ IsFaultOf live bytes f }
{}
