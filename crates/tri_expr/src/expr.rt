//! Expressions, and the faults of their evaluation.

ghost use Rattle.std.specs.Prelude.{◌≡◌};
ghost use Rattle.tri_expr.specs.Told.{told_as};
ghost use Rattle.tri_expr.specs.declared.expr.EvalFault.TheVariants.{NoMemory as Refused};

use med_value::{Comparison, NoMemory, Operation, Status, Value};
use thiserror::Error;

/// What an aggregate makes of the values of its argument (SQL standard, 10.9 <general set function>). NULL is skipped.
#[derive(Clone, Copy, Debug, PartialEq, Eq)]
pub enum SetFunction {
    /// `count(x)`: how many values there are.
    Count,
    /// `sum(x)`: the exact total of whole numbers.
    Sum,
    /// `min(x)`: the least value.
    Min,
    /// `max(x)`: the greatest value.
    Max,
}

/// An expression over a class of rows; one row is the class of that row.
///
/// Where a field is called negative, it says whether NOT is written in the form.
#[derive(Debug, Drop)]
pub enum Expr {
    /// The column at a place of the row. Over a class it is the value that all its rows have there, and NULL where they
    /// differ. A place past the row's end is NULL.
    Column(usize),
    /// The parameter of a number, counted from 0. One that is not given is NULL.
    Parameter(usize),
    /// A literal. A minus directly before a number is part of the literal.
    Literal(Value),
    /// A comparison.
    Compare(Comparison, Box<Expr>, Box<Expr>),
    /// `+ - * / %`.
    Compute(Operation, Box<Expr>, Box<Expr>),
    /// Unary minus.
    Negate(Box<Expr>),
    /// A chain of AND.
    And(Vec<Expr>),
    /// A chain of OR.
    Or(Vec<Expr>),
    /// NOT.
    Not(Box<Expr>),
    /// `IS [NOT]` and the test; the second field is negative.
    Is(Status, bool, Box<Expr>),
    /// `x [NOT] BETWEEN low AND high`; the first field is negative.
    Between(bool, Box<Expr>, Box<Expr>, Box<Expr>),
    /// `x [NOT] IN (parts)`; the first field is negative.
    In(bool, Box<Expr>, Vec<Expr>),
    /// `x [NOT] LIKE pattern`; the first field is negative.
    Like(bool, Box<Expr>, String),
    /// An expression in parentheses.
    Parenthesised(Box<Expr>),
    /// `count(*)`: the number of rows of the class.
    CountRows,
    /// An aggregate of its argument over the rows of the class one by one. A fault of the argument on a row counts as NULL
    /// here: whoever evaluates an aggregate also evaluates its argument on each row, and tells that fault.
    Aggregate(SetFunction, Box<Expr>),
}

/// Why an expression has no value.
#[derive(Clone, Copy, Debug, PartialEq, Eq, Error)]
pub enum Fault {
    /// A number would be outside the range from -2^63 to 2^63-1 (22003 numeric_value_out_of_range).
    #[error("number out of range")]
    Range,
    /// The divisor of `/` or `%` is zero (22012 division_by_zero).
    #[error("division by zero")]
    Zero,
}

/// Why an evaluation has no answer.
#[derive(Clone, Copy, Debug, PartialEq, Eq, Error)]
pub enum EvalFault {
    /// A number would be outside the range from -2^63 to 2^63-1 (22003 numeric_value_out_of_range).
    #[error("number out of range")]
    OutOfRange,
    /// The divisor of `/` or `%` is zero (22012 division_by_zero).
    #[error("division by zero")]
    ZeroDivisor,
    /// Memory was asked for and refused (53200 out_of_memory).
    #[error("out of memory")]
    NoMemory,
}

impl From<Fault> for EvalFault {
    ghost from_gives = { λ fault told. told ≡ told_as fault };

    fn from(fault: Fault) -> EvalFault {
        match fault {
            Fault::Range => EvalFault::OutOfRange,
            Fault::Zero => EvalFault::ZeroDivisor,
        }
    }
}

impl From<NoMemory> for EvalFault {
    ghost from_gives = { λ _ fault. fault ≡ Refused };

    fn from(_: NoMemory) -> EvalFault {
        EvalFault::NoMemory
    }
}
