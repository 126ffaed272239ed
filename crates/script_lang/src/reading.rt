//! Why no script was read.
ghost use Rattle.std.specs.Prelude.{◌≡◌};
ghost use Rattle.zeus_model.specs.declared.fault.Kind.TheVariants as kinds;

use std::alloc::AllocError;
use zeus_model::{Kind, ScriptFault};

/// Why no script was read.
#[derive(Debug, Drop)]
pub enum ReadScript {
    /// The bytes are no script.
    Fault(ScriptFault),
    /// Memory was wanting.
    NoMemory,
}

/// A failed allocation is no fault of the script.
impl From<AllocError> for ReadScript {
    ghost use Rattle.script_lang.specs.declared.reading.ReadScript.TheVariants as errors;

    ghost from_gives = { λ _ error. error ≡ errors.NoMemory };

    fn from(_error: AllocError) -> ReadScript {
        ReadScript::NoMemory
    }
}
