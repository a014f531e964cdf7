//! Expressions, as they are written.

use med_value::{Comparison, Operation, Status};

/// What joins conditions.
#[derive(Clone, Copy, Debug, PartialEq, Eq, Drop)]
pub enum Joint {
    /// `OR`
    Or,
    /// `AND`
    And,
}

/// An expression, with each pair of its parentheses. A `bool` at the front of a test says whether it is written with `NOT`.
#[derive(Debug, Drop)]
pub enum Expr {
    /// A number without a sign, at most 9223372036854775807.
    Number(u64),
    /// A number directly behind a unary minus, at most 9223372036854775808.
    Negative(u64),
    /// `'text'`
    Text(String),
    /// `TRUE` or `FALSE`
    Truth(bool),
    /// `NULL`
    Null,
    /// `[qualifier .] column`
    Column(Option<String>, String),
    /// `name ( * )`
    CallAll(String),
    /// `name ( [e {, e}] )`
    Call(String, Vec<Expr>),
    /// `( e )`
    Paren(Box<Expr>),
    /// `- e`
    Minus(Box<Expr>),
    /// `a op b`
    Binary(Operation, Box<Expr>, Box<Expr>),
    /// `e [NOT] BETWEEN low AND high`
    Between(bool, Box<Expr>, Box<Expr>, Box<Expr>),
    /// `e [NOT] IN ( first {, other} )`
    In(bool, Box<Expr>, Box<Expr>, Vec<Expr>),
    /// `e [NOT] LIKE 'pattern'`
    Like(bool, Box<Expr>, String),
    /// `a op b`
    Compare(Comparison, Box<Expr>, Box<Expr>),
    /// `e IS [NOT] status`
    Is(bool, Box<Expr>, Status),
    /// `NOT e`
    Not(Box<Expr>),
    /// `first AND other {AND other}`, or the same with `OR`
    Chain(Joint, Box<Expr>, Vec<Expr>),
}
