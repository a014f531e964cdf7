//! Why no expression was read.

ghost use Rattle.std.specs.Prelude.{◌≡◌};
ghost use Rattle.med_syntax.specs.declared.refusal.ReadFault.TheVariants.{NoMemory};
ghost use Rattle.med_syntax.specs.ExprAnswers.{cause_of_read};

use med_value::Cause;
use std::alloc::{AllocError, AllocFailed};

/// Why no tree was read from terminals.
#[derive(Clone, Copy, Debug, PartialEq, Eq, Drop)]
pub enum Refusal {
    /// They are not in the grammar.
    Syntax,
    /// There was no room for the height of the tree.
    TooHigh,
}

/// Why nothing was read.
#[derive(Clone, Copy, Debug, PartialEq, Eq, Drop)]
pub enum ReadFault {
    /// Memory was refused.
    NoMemory,
    Refused(Refusal),
}

impl From<AllocError> for ReadFault {
    ghost from_gives = { λ _ e. e ≡ NoMemory };

    fn from(_e: AllocError) -> ReadFault {
        ReadFault::NoMemory
    }
}

impl<T: Drop> From<AllocFailed<T>> for ReadFault {
    ghost from_gives = { λ _ e. e ≡ NoMemory };

    fn from(_e: AllocFailed<T>) -> ReadFault {
        ReadFault::NoMemory
    }
}

impl From<ReadFault> for Cause {
    ghost from_gives = { λ f c. c ≡ cause_of_read f };

    fn from(fault: ReadFault) -> Cause {
        match fault {
            ReadFault::NoMemory => Cause::OutOfMemory,
            ReadFault::Refused(Refusal::Syntax) => Cause::Syntax,
            ReadFault::Refused(Refusal::TooHigh) => Cause::TooDeep,
        }
    }
}
