//! The terminal symbols of the grammar of expressions, and what one or two of them are.

ghost use Rattle.std.specs.Prelude.{◌≡◌, option_map};
ghost use Rattle.med_syntax.specs.ExprReading as reading;
ghost use Rattle.med_syntax.specs.ExprSteps.{behind_minus_of, behind_of, operator_of};
ghost use Rattle.med_syntax.specs.SymbolView.{terminal_of_symbol, terminals_of};

use crate::Joint;
use med_value::{Comparison, Operation, Status};

/// A terminal symbol of the grammar, whose text is the token's.
#[derive(Drop)]
pub enum Symbol<'a> {
    LeftParen,
    RightParen,
    Comma,
    Dot,
    Semicolon,
    Binary(Operation),
    Compare(Comparison),
    Joint(Joint),
    Not,
    Between,
    In,
    Is,
    Like,
    Null,
    Truth(bool),
    Unknown,
    /// The value of digits, at most 2^63.
    Number(u64),
    Text(&'a str),
    Name(&'a str),
    /// A reserved word that no expression has.
    Reserved(&'a str),
}

/// Symbols, one behind the other.
pub type Symbols<'a> = &'a [Symbol<'a>];

/// All of the symbols. A loop takes what it has not read by this one call, before its first round and in each.
pub fn onward(symbols: Symbols<'_>) -> Symbols<'_>
    ensures { result.now ≡ symbols.now }
{
    &symbols[..]
}

/// What parts the items of a list.
#[derive(Clone, Copy, Drop)]
pub enum Separator {
    Between(Joint),
    Comma,
}

/// A level of operators that associate to the left.
#[derive(Clone, Copy, Drop)]
pub enum Level {
    Sum,
    Product,
}

/// The symbols behind the separator, where it comes first.
pub fn behind(separator: Separator, symbols: Symbols<'_>) -> Option<Symbols<'_>>
    ensures { behind_of separator (terminals_of symbols.now) ≡ option_map (λ x. terminals_of x.now) result }
{
    match (separator, symbols) {
        (Separator::Between(Joint::Or), [Symbol::Joint(Joint::Or), rest @ ..]) => Some(rest),
        (Separator::Between(Joint::And), [Symbol::Joint(Joint::And), rest @ ..]) => Some(rest),
        (Separator::Comma, [Symbol::Comma, rest @ ..]) => Some(rest),
        _ => None,
    }
}

/// The symbols behind a minus, where it comes first.
pub fn behind_minus(symbols: Symbols<'_>) -> Option<Symbols<'_>>
    ensures { behind_minus_of (terminals_of symbols.now) ≡ option_map (λ x. terminals_of x.now) result }
{
    match symbols {
        [Symbol::Binary(Operation::Subtract), rest @ ..] => Some(rest),
        _ => None,
    }
}

/// The operator of the level, where one comes first, and the symbols behind it.
pub fn operator(level: Level, symbols: Symbols<'_>) -> Option<(Operation, Symbols<'_>)>
    ensures { operator_of level (terminals_of symbols.now) ≡ option_map (λ x. (x.0, terminals_of x.1.now)) result }
{
    match (level, symbols) {
        (Level::Sum, [Symbol::Binary(Operation::Add), rest @ ..]) => Some((Operation::Add, rest)),
        (Level::Sum, [Symbol::Binary(Operation::Subtract), rest @ ..]) => Some((
            Operation::Subtract,
            rest,
        )),
        (Level::Product, [Symbol::Binary(Operation::Multiply), rest @ ..]) => Some((
            Operation::Multiply,
            rest,
        )),
        (Level::Product, [Symbol::Binary(Operation::Divide), rest @ ..]) => Some((
            Operation::Divide,
            rest,
        )),
        (Level::Product, [Symbol::Binary(Operation::Remainder), rest @ ..]) => Some((
            Operation::Remainder,
            rest,
        )),
        _ => None,
    }
}

/// What IS asks for, where the symbol is that.
pub fn status(symbol: &Symbol<'_>) -> Option<Status>
    ensures { result ≡ reading.status_of (terminal_of_symbol symbol.now) }
{
    match symbol {
        Symbol::Null => Some(Status::Null),
        Symbol::Truth(true) => Some(Status::True),
        Symbol::Truth(false) => Some(Status::False),
        Symbol::Unknown => Some(Status::Unknown),
        _ => None,
    }
}
