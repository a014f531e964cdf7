//! Writes expressions out.
#![tactic(auto, using(crate::proofs::ExprPrints::wrote_one, crate::proofs::ExprPrints::wrote_none, crate::proofs::ExprPrints::wrote_then, crate::proofs::ExprPrints::wrote_more, crate::proofs::ExprPrints::then_if, crate::proofs::ExprPrints::more_if, crate::proofs::ExprPrints::wrote_next, crate::proofs::ExprPrints::wrote_all))]

ghost use Rattle.std.specs.Prelude.{◌≡◌, ◌<◌, ◌++◌, ◌∷◌, [], IfOk, option_map};
ghost use Rattle.std.specs.String.{string_bytes};
ghost use Rattle.med_lexer.specs.Lexemes.{between};
ghost use Rattle.med_lexer.specs.Printing.{raw_of};
ghost use Rattle.med_syntax.specs.Terminal as t;
ghost use Rattle.med_syntax.specs.ExprTree.{call, call_all, paren, chain, between as tree_between, among, like, tested, more};
ghost use Rattle.med_syntax.specs.Prelude.{spelling, spellings, parts_spelling, column_spelling, perhaps_not, expr_tree, expr_trees};
ghost use Rattle.expr_writer.specs.ExprPrinting.{Writes, fixed_terminal, shape_for};

use med_syntax::{Expr, Joint};
use med_value::{Comparison, Operation, Status};
use std::alloc::{AllocError, Global};

/// A terminal symbol that is always written the same.
#[derive(Clone, Copy, Drop)]
pub enum Fixed {
    LeftParen,
    RightParen,
    Comma,
    Dot,
    Binary(Operation),
    Compare(Comparison),
    Joint(Joint),
    Not,
    Between,
    In,
    Is,
    Like,
    Status(Status),
}

// How the operator is written.
fn binary_text(op: Operation) -> &'static str
    ensures { result.now ≡ raw_of (shape_for (t.Binary op)) }
{
    match op {
        Operation::Add => "+",
        Operation::Subtract => "-",
        Operation::Multiply => "*",
        Operation::Divide => "/",
        Operation::Remainder => "%",
    }
}

// How the comparison is written.
fn compare_text(op: Comparison) -> &'static str
    ensures { result.now ≡ raw_of (shape_for (t.Compare op)) }
{
    match op {
        Comparison::Equal => "=",
        Comparison::Apart => "<>",
        Comparison::Below => "<",
        Comparison::AtMost => "<=",
        Comparison::Above => ">",
        Comparison::AtLeast => ">=",
    }
}

// How the symbol is written.
fn fixed_text(fixed: Fixed) -> &'static str
    ensures { result.now ≡ raw_of (shape_for (fixed_terminal fixed)) }
{
    match fixed {
        Fixed::LeftParen => "(",
        Fixed::RightParen => ")",
        Fixed::Comma => ",",
        Fixed::Dot => ".",
        Fixed::Binary(op) => binary_text(op),
        Fixed::Compare(op) => compare_text(op),
        Fixed::Joint(Joint::Or) => "OR",
        Fixed::Joint(Joint::And) => "AND",
        Fixed::Not => "NOT",
        Fixed::Between => "BETWEEN",
        Fixed::In => "IN",
        Fixed::Is => "IS",
        Fixed::Like => "LIKE",
        Fixed::Status(Status::Null) => "NULL",
        Fixed::Status(Status::True) => "TRUE",
        Fixed::Status(Status::False) => "FALSE",
        Fixed::Status(Status::Unknown) => "UNKNOWN",
    }
}

/// Writes a space and the symbol.
pub fn write_fixed(fixed: Fixed, out: &mut String) -> Result<(), AllocError>
    ensures { Writes result out.old out.new (fixed_terminal fixed ∷ []) }
{
    out.push(' ')?;
    out.push_str(fixed_text(fixed))
}

/// Writes a space and the text between two quotes, each quote in it twice.
fn write_quoted(quote: char, text: &str, out: &mut String) -> Result<(), AllocError>
    requires ascii { quote < 128 }
    ensures { IfOk result (λ _. string_bytes out.new ≡ (string_bytes out.old ++ 32 ∷ []) ++ between quote text.now) }
{
    out.push(' ')?;
    out.push(quote)?;
    let mut rest = text;
    while let Some((plain, after)) = rest.split_once(quote) {
        out.push_str(plain)?;
        out.push(quote)?;
        out.push(quote)?;
        rest = after;
    }
    out.push_str(rest)?;
    out.push(quote)
}

/// Writes a space and the name in double quotes.
pub fn write_name(name: &String, out: &mut String) -> Result<(), AllocError>
    ensures { Writes result out.old out.new (t.Name (string_bytes name.now) ∷ []) }
{
    write_quoted('"', name.as_str(), out)
}

/// Writes a space and the text in single quotes.
fn write_text(text: &String, out: &mut String) -> Result<(), AllocError>
    ensures { Writes result out.old out.new (t.Text (string_bytes text.now) ∷ []) }
{
    write_quoted('\'', text.as_str(), out)
}

/// Writes a space and the number.
pub fn write_number(alloc: Global, n: u64, out: &mut String) -> Result<(), AllocError>
    ensures { Writes result out.old out.new (t.Num n ∷ []) }
{
    let digits = n.to_string(alloc)?;
    out.push(' ')?;
    out.push_str(&digits)
}

/// Writes the name, behind its qualifier where there is one.
pub fn write_column(
    qualifier: &Option<String>,
    name: &String,
    out: &mut String,
) -> Result<(), AllocError>
    ensures { Writes result out.old out.new (column_spelling (option_map string_bytes qualifier.now) (string_bytes name.now)) }
{
    match qualifier {
        None => write_name(name, out),
        Some(qualifier) => {
            write_name(qualifier, out)?;
            write_fixed(Fixed::Dot, out)?;
            write_name(name, out)
        }
    }
}

/// Writes the call of the function with `*`.
fn write_call_all(function: &String, out: &mut String) -> Result<(), AllocError>
    ensures { Writes result out.old out.new (spelling (call_all (string_bytes function.now))) }
{
    write_name(function, out)?;
    write_fixed(Fixed::LeftParen, out)?;
    write_fixed(Fixed::Binary(Operation::Multiply), out)?;
    write_fixed(Fixed::RightParen, out)
}

/// Writes NOT where the test is negated.
fn write_not(negated: bool, out: &mut String) -> Result<(), AllocError>
    ensures { Writes result out.old out.new (perhaps_not negated) }
{
    if negated {
        write_fixed(Fixed::Not, out)
    } else {
        Ok(())
    }
}

/// Writes the expression, each of its tokens behind a space.
#[cycle(writer)]
pub fn write(alloc: Global, expr: &Expr, out: &mut String) -> Result<(), AllocError>
    ensures { Writes result out.old out.new (spelling (expr_tree expr.now)) }
{
    match expr {
        Expr::Number(n) => write_number(alloc, *n, out),
        Expr::Negative(n) => {
            write_fixed(Fixed::Binary(Operation::Subtract), out)?;
            write_number(alloc, *n, out)
        }
        Expr::Text(text) => write_text(text, out),
        Expr::Truth(true) => write_fixed(Fixed::Status(Status::True), out),
        Expr::Truth(false) => write_fixed(Fixed::Status(Status::False), out),
        Expr::Null => write_fixed(Fixed::Status(Status::Null), out),
        Expr::Column(qualifier, name) => write_column(qualifier, name, out),
        Expr::CallAll(function) => write_call_all(function, out),
        Expr::Call(function, parts) => write_call(alloc, function, parts, out),
        Expr::Paren(e) => write_paren(alloc, e, out),
        Expr::Minus(e) => {
            write_fixed(Fixed::Binary(Operation::Subtract), out)?;
            write(alloc, e, out)
        }
        Expr::Binary(op, a, b) => write_pair(alloc, Fixed::Binary(*op), a, b, out),
        Expr::Compare(op, a, b) => write_pair(alloc, Fixed::Compare(*op), a, b, out),
        Expr::Not(e) => {
            write_fixed(Fixed::Not, out)?;
            write(alloc, e, out)
        }
        Expr::Chain(joint, first, others) => write_chain(alloc, *joint, first, others, out),
        Expr::Between(negated, e, low, high) => write_between(alloc, *negated, e, low, high, out),
        Expr::In(negated, e, first, others) => write_in(alloc, *negated, e, first, others, out),
        Expr::Like(negated, e, pattern) => write_like(alloc, *negated, e, pattern, out),
        Expr::Is(negated, e, status) => write_is(alloc, *negated, e, *status, out),
    }
}

/// Writes the call of the function with each of its parts.
#[cycle(writer)]
fn write_call(
    alloc: Global,
    function: &String,
    parts: &[Expr],
    out: &mut String,
) -> Result<(), AllocError>
    ensures { Writes result out.old out.new (spelling (call (string_bytes function.now) (expr_trees parts.now))) }
{
    write_name(function, out)?;
    match parts {
        [first, others @ ..] => write_list(alloc, first, others, out),
        [] => {
            write_fixed(Fixed::LeftParen, out)?;
            write_fixed(Fixed::RightParen, out)
        }
    }
}

/// Writes the expressions with the joint between each two.
#[cycle(writer)]
fn write_chain(
    alloc: Global,
    joint: Joint,
    first: &Expr,
    others: &[Expr],
    out: &mut String,
) -> Result<(), AllocError>
    ensures { Writes result out.old out.new (spelling (chain joint (expr_tree first.now) (expr_trees others.now))) }
{
    write(alloc, first, out)?;
    write_others(alloc, Fixed::Joint(joint), others, out)
}

/// Writes the expression, perhaps NOT, BETWEEN the other two.
#[cycle(writer)]
fn write_between(
    alloc: Global,
    negated: bool,
    e: &Expr,
    low: &Expr,
    high: &Expr,
    out: &mut String,
) -> Result<(), AllocError>
    ensures { Writes result out.old out.new (spelling (tree_between negated (expr_tree e.now) (expr_tree low.now) (expr_tree high.now))) }
{
    write(alloc, e, out)?;
    write_not(negated, out)?;
    write_fixed(Fixed::Between, out)?;
    write_pair(alloc, Fixed::Joint(Joint::And), low, high, out)
}

/// Writes the expression, perhaps NOT, IN the list of the others.
#[cycle(writer)]
fn write_in(
    alloc: Global,
    negated: bool,
    e: &Expr,
    first: &Expr,
    others: &[Expr],
    out: &mut String,
) -> Result<(), AllocError>
    ensures { Writes result out.old out.new (spelling (among negated (expr_tree e.now) (expr_tree first.now) (expr_trees others.now))) }
{
    write(alloc, e, out)?;
    write_not(negated, out)?;
    write_fixed(Fixed::In, out)?;
    write_list(alloc, first, others, out)
}

/// Writes the expression, perhaps NOT, LIKE the pattern.
#[cycle(writer)]
fn write_like(
    alloc: Global,
    negated: bool,
    e: &Expr,
    pattern: &String,
    out: &mut String,
) -> Result<(), AllocError>
    ensures { Writes result out.old out.new (spelling (like negated (expr_tree e.now) (string_bytes pattern.now))) }
{
    write(alloc, e, out)?;
    write_not(negated, out)?;
    write_fixed(Fixed::Like, out)?;
    write_text(pattern, out)
}

/// Writes the expression IS, perhaps NOT, of the status.
#[cycle(writer)]
fn write_is(
    alloc: Global,
    negated: bool,
    e: &Expr,
    status: Status,
    out: &mut String,
) -> Result<(), AllocError>
    ensures { Writes result out.old out.new (spelling (tested negated (expr_tree e.now) status)) }
{
    write(alloc, e, out)?;
    write_fixed(Fixed::Is, out)?;
    write_not(negated, out)?;
    write_fixed(Fixed::Status(status), out)
}

/// Writes the expression in parentheses.
#[cycle(writer)]
fn write_paren(alloc: Global, expr: &Expr, out: &mut String) -> Result<(), AllocError>
    ensures { Writes result out.old out.new (spelling (paren (expr_tree expr.now))) }
{
    write_fixed(Fixed::LeftParen, out)?;
    write(alloc, expr, out)?;
    write_fixed(Fixed::RightParen, out)
}

/// Writes the two expressions with the symbol between them.
#[cycle(writer)]
fn write_pair(
    alloc: Global,
    fixed: Fixed,
    a: &Expr,
    b: &Expr,
    out: &mut String,
) -> Result<(), AllocError>
    ensures { Writes result out.old out.new (spelling (expr_tree a.now) ++ fixed_terminal fixed ∷ spelling (expr_tree b.now)) }
{
    write(alloc, a, out)?;
    write_fixed(fixed, out)?;
    write(alloc, b, out)
}

/// Writes the expressions in parentheses, with a comma between each two.
#[cycle(writer)]
fn write_list(
    alloc: Global,
    first: &Expr,
    others: &[Expr],
    out: &mut String,
) -> Result<(), AllocError>
    ensures { Writes result out.old out.new (t.LeftParen ∷ parts_spelling (more (expr_tree first.now) (expr_trees others.now))) }
{
    write_fixed(Fixed::LeftParen, out)?;
    write(alloc, first, out)?;
    write_others(alloc, Fixed::Comma, others, out)?;
    write_fixed(Fixed::RightParen, out)
}

/// Writes each of the expressions behind the symbol.
#[cycle(writer)]
fn write_others(
    alloc: Global,
    fixed: Fixed,
    exprs: &[Expr],
    out: &mut String,
) -> Result<(), AllocError>
    ensures { Writes result out.old out.new (spellings (fixed_terminal fixed) (expr_trees exprs.now)) }
{
    let mut left = exprs;
    while let Some((expr, rest)) = left.split_first() {
        write_fixed(fixed, out)?;
        write(alloc, expr, out)?;
        left = rest;
    }
    Ok(())
}
