//! Which line of a script may come next, and why a line was not taken.
ghost use Rattle.std.specs.Prelude.{◌≡◌};

use std::alloc::{AllocError, AllocFailed};
use zeus_model::Kind;

/// Which line may come next.
#[derive(Clone, Copy, Debug, PartialEq, Eq)]
pub(crate) enum Stage {
    /// The first line, with the version.
    Version,
    Nodes,
    Slots,
    Directory,
    /// Right behind the directory: the degree, or the first object.
    Degree,
    /// An object; behind the first, also a transaction or `run`.
    Objects,
    /// A transaction or `run`.
    Txs,
    /// A step or `end`.
    Steps,
}

/// Why a line was not taken.
#[derive(Debug, Drop)]
pub enum Failure {
    /// A word of it does not fit.
    Kind(Kind),
    /// Memory was wanting.
    NoMemory,
}

impl From<Kind> for Failure {
    ghost use Rattle.script_lang.specs.declared.stage.Failure.TheVariants as failures;

    ghost from_gives = { λ kind failure. failure ≡ failures.Kind kind };

    fn from(kind: Kind) -> Failure {
        Failure::Kind(kind)
    }
}

impl From<AllocError> for Failure {
    ghost use Rattle.script_lang.specs.declared.stage.Failure.TheVariants as failures;

    ghost from_gives = { λ _ failure. failure ≡ failures.NoMemory };

    fn from(_error: AllocError) -> Failure {
        Failure::NoMemory
    }
}

impl<T: Drop> From<AllocFailed<T>> for Failure {
    ghost use Rattle.script_lang.specs.declared.stage.Failure.TheVariants as failures;

    ghost from_gives = { λ _ failure. failure ≡ failures.NoMemory };

    fn from(_error: AllocFailed<T>) -> Failure {
        Failure::NoMemory
    }
}
