//! Conditions that are tests of one column.
ghost use Rattle.std.specs.Prelude.{◌≡◌, false, option_map};
ghost use Rattle.tri_expr.specs.Prelude.{tree, is_parenthesised, bare};
ghost use Rattle.pushdown.specs.Tests.{mirrored as spec_mirrored, in_entry as spec_in_entry, test_of};
ghost use Rattle.pushdown.specs.Tests.{offered_test, with_other as spec_with_other};

use med_value::{Comparison, Status, Value};
use tri_expr::Expr;

/// A test of a column of an entry.
pub enum ColumnTest<'a> {
    /// A comparison with a literal.
    Literal(usize, Comparison, &'a Value),
    /// A comparison with the cell at a place of the row of the earlier entries.
    Earlier(usize, Comparison, usize),
    /// IS NULL, or where the second field says so, IS NOT NULL.
    Null(usize, bool),
}

// What stands in an expression's outer parentheses.
fn inner(e: &Expr) -> &Expr
    ensures same { bare (tree result.now) ≡ bare (tree e.now) }
    ensures open { is_parenthesised (tree result.now) ≡ false }
{
    match e {
        Expr::Parenthesised(a) => inner(a),
        _ => e,
    }
}

// The comparison with its sides exchanged.
fn mirrored(op: Comparison) -> Comparison
    ensures { result ≡ spec_mirrored op }
{
    match op {
        Comparison::Equal => Comparison::Equal,
        Comparison::Apart => Comparison::Apart,
        Comparison::Below => Comparison::Above,
        Comparison::AtMost => Comparison::AtLeast,
        Comparison::Above => Comparison::Below,
        Comparison::AtLeast => Comparison::AtMost,
    }
}

// Whether a place of the joined row is one of the entry's columns.
fn in_entry(base: usize, width: usize, at: usize) -> bool
    ensures { result ≡ spec_in_entry base width at }
{
    base <= at && at - base < width
}

// A column of the entry with one of an earlier entry.
fn with_other<'a>(
    base: usize,
    width: usize,
    a: usize,
    op: Comparison,
    b: usize,
) -> Option<ColumnTest<'a>>
    ensures { option_map test_of result ≡ spec_with_other base width a op b }
{
    if b < base && in_entry(base, width, a) {
        Some(ColumnTest::Earlier(a - base, op, b))
    } else {
        None
    }
}

/// The test of a column of an entry that a condition is, parentheses looked through: a comparison with a literal or with a column of an
/// earlier entry, either way round, or IS [NOT] NULL. The entry's columns stand from a place of the joined row on, so many.
pub fn column_test<'a>(condition: &'a Expr, base: usize, width: usize) -> Option<ColumnTest<'a>>
    ensures { option_map test_of result ≡ offered_test base width (bare (tree condition.now)) }
{
    match inner(condition) {
        Expr::Compare(op, a, b) => match (inner(a), inner(b)) {
            (Expr::Column(at), Expr::Literal(v)) => {
                if in_entry(base, width, *at) {
                    Some(ColumnTest::Literal(*at - base, *op, v))
                } else {
                    None
                }
            }
            (Expr::Literal(v), Expr::Column(at)) => {
                if in_entry(base, width, *at) {
                    Some(ColumnTest::Literal(*at - base, mirrored(*op), v))
                } else {
                    None
                }
            }
            (Expr::Column(at), Expr::Column(other)) => match with_other(
                base, width, *at, *op, *other,
            ) {
                Some(test) => Some(test),
                None => with_other(base, width, *other, mirrored(*op), *at),
            },
            _ => None,
        },
        Expr::Is(Status::Null, negative, a) => match inner(a) {
            Expr::Column(at) => {
                if in_entry(base, width, *at) {
                    Some(ColumnTest::Null(*at - base, *negative))
                } else {
                    None
                }
            }
            _ => None,
        },
        _ => None,
    }
}
