//! Operators of expressions, as they are written and as they are evaluated.

/// An operator on two whole numbers (SQL standard, 6.32 <numeric value expression>; the remainder as in PostgreSQL).
#[derive(Clone, Copy, Debug, PartialEq, Eq, Drop)]
pub enum Operation {
    /// `+`
    Add,
    /// `-`
    Subtract,
    /// `*`
    Multiply,
    /// `/`, truncating towards zero
    Divide,
    /// `%`, with the sign of the dividend
    Remainder,
}

/// What IS asks of its operand (SQL standard, 8.8 <null predicate> and 6.42 <boolean test>).
#[derive(Clone, Copy, Debug, PartialEq, Eq, Drop)]
pub enum Status {
    /// `IS NULL`
    Null,
    /// `IS TRUE`
    True,
    /// `IS FALSE`
    False,
    /// `IS UNKNOWN`
    Unknown,
}
