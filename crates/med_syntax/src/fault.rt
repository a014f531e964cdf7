//! Why nothing was read.

ghost use Rattle.std.specs.Prelude.{◌≡◌};
ghost use Rattle.med_syntax.specs.declared.fault.ParseFault.TheVariants.{NoMemory};
ghost use Rattle.med_syntax.specs.View.{cause_of};

use med_value::Cause;
use std::alloc::{AllocError, AllocFailed};

/// Why nothing was read.
#[derive(Clone, Copy, Debug)]
pub enum ParseFault {
    /// Memory was refused.
    NoMemory,
    /// The text has no tokens, or its tokens are not in the grammar.
    Syntax,
}

impl From<AllocError> for ParseFault {
    ghost from_gives = { λ _ e. e ≡ NoMemory };

    fn from(_e: AllocError) -> ParseFault {
        ParseFault::NoMemory
    }
}

impl<T: Drop> From<AllocFailed<T>> for ParseFault {
    ghost from_gives = { λ _ e. e ≡ NoMemory };

    fn from(_e: AllocFailed<T>) -> ParseFault {
        ParseFault::NoMemory
    }
}

impl From<ParseFault> for Cause {
    ghost from_gives = { λ f c. c ≡ cause_of f };

    fn from(fault: ParseFault) -> Cause {
        match fault {
            ParseFault::NoMemory => Cause::OutOfMemory,
            ParseFault::Syntax => Cause::Syntax,
        }
    }
}
