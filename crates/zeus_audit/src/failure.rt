//! Why a line of a report was not taken.
ghost use Rattle.std.specs.Prelude.{◌≡◌};

use crate::verdict::Rule;
use std::alloc::{AllocError, AllocFailed};
use zeus_base::NoMemory;
use zeus_model::Kind;

/// Why a line was not taken.
#[derive(Debug, Drop)]
pub(crate) enum Failure {
    /// It breaks this rule, and none before it.
    Rule(Rule),
    /// Memory was wanting.
    NoMemory,
}

impl From<Kind> for Failure {
    ghost use Rattle.zeus_audit.specs.declared.failure.Failure.TheVariants as failures;
    ghost use Rattle.zeus_audit.specs.declared.verdict.Rule.TheVariants as rules;

    ghost from_gives = { λ _ failure. failure ≡ failures.Rule rules.Form };

    fn from(_kind: Kind) -> Failure {
        Failure::Rule(Rule::Form)
    }
}

impl From<NoMemory> for Failure {
    ghost use Rattle.zeus_audit.specs.declared.failure.Failure.TheVariants as failures;

    ghost from_gives = { λ _ failure. failure ≡ failures.NoMemory };

    fn from(_error: NoMemory) -> Failure {
        Failure::NoMemory
    }
}

impl From<AllocError> for Failure {
    ghost use Rattle.zeus_audit.specs.declared.failure.Failure.TheVariants as failures;

    ghost from_gives = { λ _ failure. failure ≡ failures.NoMemory };

    fn from(_error: AllocError) -> Failure {
        Failure::NoMemory
    }
}

impl<T: Drop> From<AllocFailed<T>> for Failure {
    ghost use Rattle.zeus_audit.specs.declared.failure.Failure.TheVariants as failures;

    ghost from_gives = { λ _ failure. failure ≡ failures.NoMemory };

    fn from(_error: AllocFailed<T>) -> Failure {
        Failure::NoMemory
    }
}
