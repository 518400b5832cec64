// Why no state machine comes of a grammar.
ghost use Rattle.std.specs.Prelude.{◌≡◌};
ghost use Rattle.states.specs.declared.error.Limit.{Limit as LimitType};
ghost use Rattle.states.specs.declared.error.Limit.TheVariants.{NoMemory as OutOfMemory};
ghost use Rattle.states.specs.Fault.{fault_of, memory_fault};

use std::alloc::{AllocError, AllocFailed};
use thiserror::Error;

// There are too many expressions, states or derivatives; or there is no memory.
#[derive(Clone, Copy, Debug, PartialEq, Eq, Error)]
pub enum Limit {
    #[error("there are over 512 expressions, 128 states or 512 derivatives")]
    TooLarge,
    #[error("there is no memory for the states")]
    NoMemory,
}

// A rule mentions itself or a later rule in a way that is not lawful; or a limit was met. The last
// two cases are those of `Limit`, not held whole, since the caller matches one enum.
#[derive(Clone, Copy, Debug, PartialEq, Eq, Error)]
pub enum BuildError {
    #[error("rule {0} mentions itself or a later rule where recursion is not lawful")]
    Recursion(usize),
    #[error("there are over 512 expressions, 128 states or 512 derivatives")]
    TooLarge,
    #[error("there is no memory for the states")]
    NoMemory,
}

impl From<AllocError> for Limit {
    ghost from_gives = { λ _ r. r ≡ OutOfMemory };

    fn from(_e: AllocError) -> Limit {
        Limit::NoMemory
    }
}

impl<T: Drop> From<AllocFailed<T>> for Limit {
    ghost from_gives = { λ _ r. r ≡ OutOfMemory };

    fn from(_e: AllocFailed<T>) -> Limit {
        Limit::NoMemory
    }
}

impl From<Limit> for BuildError {
    ghost from_gives = { λ l r. r ≡ fault_of l };

    fn from(limit: Limit) -> BuildError {
        match limit {
            Limit::TooLarge => BuildError::TooLarge,
            Limit::NoMemory => BuildError::NoMemory,
        }
    }
}

impl From<AllocError> for BuildError {
    ghost from_gives = { λ _ r. r ≡ memory_fault };

    fn from(_e: AllocError) -> BuildError {
        BuildError::NoMemory
    }
}
