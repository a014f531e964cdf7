//! Why no tokens were given.

ghost use Rattle.std.specs.Prelude.{◌≡◌};
ghost use Rattle.med_lexer.specs.declared.error.LexFault.TheVariants.{NoMemory};

use std::alloc::{AllocError, AllocFailed};
use thiserror::Error;

/// Why no tokens were given.
#[derive(Clone, Copy, Debug, PartialEq, Eq, Error)]
pub enum LexFault {
    /// Memory ran out.
    #[error("out of memory")]
    NoMemory,
    /// The text has no list of tokens.
    #[error("a part of the text is no token")]
    BadToken,
}

impl From<AllocError> for LexFault {
    ghost from_gives = { λ _ e. e ≡ NoMemory };

    fn from(_e: AllocError) -> LexFault {
        LexFault::NoMemory
    }
}

impl<T: Drop> From<AllocFailed<T>> for LexFault {
    ghost from_gives = { λ _ e. e ≡ NoMemory };

    fn from(_e: AllocFailed<T>) -> LexFault {
        LexFault::from(AllocError)
    }
}
