//! Terms and joins of compiled queries, looked at one by one.
ghost use Rattle.std.specs.Prelude.{◌≡◌, length};
ghost use Rattle.sqlite_sql.specs.Syntax.{join_at, order_of, step_join, term_at, terms_of};
ghost use Rattle.sqlite_value.specs.Value.{owned};
ghost use Rattle.sqlite_looks.specs.Terms as spec;

use sqlite_sql::expr::{Node, open};
use sqlite_sql::ops::{BinaryOp, CompareOp};
use sqlite_sql::query::{SortKey, Step};
use sqlite_value::keys::Collation;
use sqlite_value::value::ValueRef;

// Whether the term at a place is this column of this slot.
fn is_column(nodes: &[Node<'_>], depth: usize, at: usize, slot: usize, column: usize) -> bool
    ensures { result ≡ spec.is_column slot column (term_at nodes.now depth at) }
{
    match open(nodes, depth, at).0 {
        Node::Column(other_slot, other_column) => other_slot == slot && other_column == column,
        Node::Literal(_) => false,
        Node::Unary(_, _) => false,
        Node::Binary(_, _, _) => false,
        Node::Case(_, _, _) => false,
    }
}

fn is_int(value: ValueRef<'_>, number: i64) -> bool
    ensures { result ≡ spec.is_int number (owned value.entry) }
{
    match value {
        ValueRef::Int(other) => other == number,
        ValueRef::Null => false,
        ValueRef::Real(_) => false,
        ValueRef::Text(_) => false,
        ValueRef::Blob(_) => false,
    }
}

fn is_null(value: ValueRef<'_>) -> bool
    ensures { result ≡ spec.is_null (owned value.entry) }
{
    match value {
        ValueRef::Null => true,
        ValueRef::Int(_) => false,
        ValueRef::Real(_) => false,
        ValueRef::Text(_) => false,
        ValueRef::Blob(_) => false,
    }
}

// Whether the term at a place is this number.
pub(crate) fn is_number(nodes: &[Node<'_>], at: usize, number: i64) -> bool
    ensures { result ≡ spec.is_number number (term_at nodes.now (length nodes.now) at) }
{
    match open(nodes, nodes.len(), at).0 {
        Node::Literal(value) => is_int(value, number),
        Node::Column(_, _) => false,
        Node::Unary(_, _) => false,
        Node::Binary(_, _, _) => false,
        Node::Case(_, _, _) => false,
    }
}

// Whether the term at a place is NULL.
fn is_nothing(nodes: &[Node<'_>], at: usize) -> bool
    ensures { result ≡ spec.is_nothing (term_at nodes.now (length nodes.now) at) }
{
    match open(nodes, nodes.len(), at).0 {
        Node::Literal(value) => is_null(value),
        Node::Column(_, _) => false,
        Node::Unary(_, _) => false,
        Node::Binary(_, _, _) => false,
        Node::Case(_, _, _) => false,
    }
}

// The operator by which the term at a place compares the rowid with this parameter.
fn compared(nodes: &[Node<'_>], at: usize, parameter: usize) -> Option<BinaryOp>
    ensures { result ≡ spec.compared parameter (term_at nodes.now (length nodes.now) at) }
{
    let (node, below) = open(nodes, nodes.len(), at);
    match node {
        Node::Binary(op, left, right) => {
            if is_column(nodes, below, left, 1, 0) && is_column(nodes, below, right, 0, parameter) {
                Some(op)
            } else {
                None
            }
        }
        Node::Literal(_) => None,
        Node::Column(_, _) => None,
        Node::Unary(_, _) => None,
        Node::Case(_, _, _) => None,
    }
}

fn is_at_least(by: Option<BinaryOp>) -> bool
    ensures { result ≡ spec.is_at_least by }
{
    matches!(
        by,
        Some(BinaryOp::Compare(CompareOp::Ge, Collation::Binary))
    )
}

fn is_at_most(by: Option<BinaryOp>) -> bool
    ensures { result ≡ spec.is_at_most by }
{
    matches!(
        by,
        Some(BinaryOp::Compare(CompareOp::Le, Collation::Binary))
    )
}

fn is_equal(by: Option<BinaryOp>) -> bool
    ensures { result ≡ spec.is_equal by }
{
    matches!(
        by,
        Some(BinaryOp::Compare(CompareOp::Eq, Collation::Binary))
    )
}

// Whether the terms at these places say that the rowid is from the first parameter to the second.
pub(crate) fn is_page_filter(nodes: &[Node<'_>], filter: &[usize]) -> bool
    ensures { result ≡ spec.is_page_filter (terms_of nodes.now filter.now) }
{
    match filter {
        [low, high] => is_at_least(compared(nodes, *low, 0))
            && is_at_most(compared(nodes, *high, 1)),
        _ => false,
    }
}

// Whether the one term says that the rowid is the first parameter.
pub(crate) fn is_delete_filter(nodes: &[Node<'_>], filter: &[usize]) -> bool
    ensures { result ≡ spec.is_delete_filter (terms_of nodes.now filter.now) }
{
    match filter {
        [only] => is_equal(compared(nodes, *only, 0)),
        _ => false,
    }
}

// Whether the terms at these places are the columns of the row at these places.
pub(crate) fn shows(nodes: &[Node<'_>], project: &[usize], places: &[usize]) -> bool
    ensures { result ≡ spec.shows places.now (terms_of nodes.now project.now) }
{
    let mut terms = project;
    let mut wanted = places;
    while let Some((term, terms_after)) = terms.split_first() {
        let Some((place, wanted_after)) = wanted.split_first() else {
            return false;
        };
        if !is_column(nodes, nodes.len(), *term, 1, *place) {
            return false;
        }
        terms = terms_after;
        wanted = wanted_after;
    }
    match wanted.split_first() {
        None => true,
        Some((_place, _wanted_after)) => false,
    }
}

// Whether the term at a place is this cell of a new row.
fn is_cell(nodes: &[Node<'_>], at: usize, cell: Option<usize>) -> bool
    ensures { result ≡ spec.is_cell cell (term_at nodes.now (length nodes.now) at) }
{
    match cell {
        Some(parameter) => is_column(nodes, nodes.len(), at, 0, parameter),
        None => is_nothing(nodes, at),
    }
}

// Whether the terms at these places are these cells of a new row.
pub(crate) fn are_cells(nodes: &[Node<'_>], roots: &[usize], cells: &[Option<usize>]) -> bool
    ensures { result ≡ spec.are_cells cells.now (terms_of nodes.now roots.now) }
{
    let mut terms = roots;
    let mut wanted = cells;
    while let Some((term, terms_after)) = terms.split_first() {
        let Some((cell, wanted_after)) = wanted.split_first() else {
            return false;
        };
        if !is_cell(nodes, *term, *cell) {
            return false;
        }
        terms = terms_after;
        wanted = wanted_after;
    }
    match wanted.split_first() {
        None => true,
        Some((_cell, _wanted_after)) => false,
    }
}

fn is_binary(by: Collation) -> bool
    ensures { result ≡ spec.is_binary by }
{
    matches!(by, Collation::Binary)
}

// Whether rows are in the order of the rowid.
pub(crate) fn is_by_key(nodes: &[Node<'_>], order: &[SortKey]) -> bool
    ensures { result ≡ spec.is_by_key (order_of nodes.now order.now) }
{
    match order {
        [only] => {
            is_column(nodes, nodes.len(), only.node, 1, 0)
                && is_binary(only.key.collation)
                && !only.key.descending
        }
        _ => false,
    }
}

// The step of a join at a place, and the depth to which the steps after it are read. At depth 0, and at a place with no step, it ends.
fn step_at<'a>(steps: &[Step<'a>], depth: usize, at: usize) -> (Step<'a>, usize)
    ensures { (nodes : _) → join_at nodes steps.now depth at ≡ step_join nodes (join_at nodes steps.now result.1) result.0 }
{
    if depth == 0 || at >= steps.len() {
        return (Step::End, 0);
    }
    (steps[at], depth - 1)
}

fn is_end(nodes: &[Node<'_>], steps: &[Step<'_>], depth: usize, at: usize) -> bool
    ensures { result ≡ spec.is_end (join_at nodes.now steps.now depth at) }
{
    match step_at(steps, depth, at).0 {
        Step::End => true,
        Step::Inner(_, _, _) => false,
        Step::Left(_, _, _, _) => false,
        Step::Count(_, _, _, _) => false,
        Step::Make(_, _) => false,
        Step::Fold(_, _, _, _) => false,
        Step::First(_, _, _, _, _) => false,
    }
}

// Whether the rows come from this tree alone.
pub(crate) fn is_from(nodes: &[Node<'_>], steps: &[Step<'_>], from: usize, tree: u32) -> bool
    ensures { result ≡ spec.is_from tree (join_at nodes.now steps.now (length steps.now) from) }
{
    let (step, below) = step_at(steps, steps.len(), from);
    match step {
        Step::Inner(other, _, more) => other == tree && is_end(nodes, steps, below, more),
        Step::End => false,
        Step::Left(_, _, _, _) => false,
        Step::Count(_, _, _, _) => false,
        Step::Make(_, _) => false,
        Step::Fold(_, _, _, _) => false,
        Step::First(_, _, _, _, _) => false,
    }
}
