//! Wrappers round wrappers, and what the calls of a row answer on them.
ghost use Rattle.std.specs.Prelude.{◌≡◌, [], List, IsSome};
ghost use Rattle.fdw_api.specs.Prelude.{Column, IsIdle, table_of, lifted};
ghost use Rattle.wrapper_parts.specs.Either.{box_of_either};
ghost use Rattle.probe_wrapper.specs.Counting.{counted};
ghost use Rattle.probe_wrapper.specs.Shy.{shied, asked_of};
ghost use Rattle.probe_wrapper.specs.Vague.{vague};
ghost use Rattle.probe_wrapper.specs.Failing.{failed};
ghost use Rattle.probe_wrapper.specs.Shuffled.{reordered, turns_of};

use crate::orders::{bind_orders, new_list, prepare};
use crate::parameters::read_by_part;
use crate::reads::{
    begin_two, read, read_above_one, read_again, read_in_turn, read_two, write_counts,
};
use fdw_api::interface::Wrapper;
use fdw_api::lift::Lift;
use med_value::TableNo;
use probe_wrapper::{Counting, Failing, Shuffled, Shy, Vague};
use std::alloc::Global;
use std::test::Fail;
use wrapper_parts::EitherSource;

pub fn in_counting<W: Wrapper>(inner: W) -> Counting<W>
    requires idle { IsIdle (W.meaning inner) }
    requires free { (columns : List Column) → (W.meaning inner).nature.kind.objections columns [] ≡ [] }
    ensures idle { IsIdle (counted (W.meaning result.inner) result.pulled) }
    ensures free { (columns : List Column) → (counted (W.meaning result.inner) result.pulled).nature.kind.objections columns [] ≡ [] }
{
    Counting::new(inner)
}

pub fn in_shy<W: Wrapper>(alloc: Global, inner: W) -> Shy<W>
    requires idle { IsIdle (W.meaning inner) }
    requires free { (columns : List Column) → (W.meaning inner).nature.kind.objections columns [] ≡ [] }
    ensures idle { IsIdle (shied (W.meaning result.inner) (asked_of result.scans)) }
    ensures free { (columns : List Column) → (shied (W.meaning result.inner) (asked_of result.scans)).nature.kind.objections columns [] ≡ [] }
{
    Shy::new(alloc, inner)
}

pub fn in_failing<W: Wrapper>(inner: W, passes: u64) -> Failing<W>
    requires idle { IsIdle (W.meaning inner) }
    requires free { (columns : List Column) → (W.meaning inner).nature.kind.objections columns [] ≡ [] }
    ensures idle { IsIdle (failed (W.meaning result.inner) result.failure) }
    ensures free { (columns : List Column) → (failed (W.meaning result.inner) result.failure).nature.kind.objections columns [] ≡ [] }
{
    Failing::new(inner, passes)
}

pub fn in_shuffled<W: Wrapper>(alloc: Global, inner: W) -> Shuffled<W>
    requires idle { IsIdle (W.meaning inner) }
    requires free { (columns : List Column) → (W.meaning inner).nature.kind.objections columns [] ≡ [] }
    ensures idle { IsIdle (reordered (W.meaning result.inner) (turns_of result.scans) result.pulled) }
    ensures free { (columns : List Column) → (reordered (W.meaning result.inner) (turns_of result.scans) result.pulled).nature.kind.objections columns [] ≡ [] }
{
    Shuffled::new(alloc, inner)
}

pub fn in_vague<W: Wrapper>(alloc: Global, inner: W) -> Vague<W>
    requires idle { IsIdle (W.meaning inner) }
    requires free { (columns : List Column) → (W.meaning inner).nature.kind.objections columns [] ≡ [] }
    ensures idle { IsIdle (vague (W.meaning result.inner) (asked_of result.scans)) }
    ensures free { (columns : List Column) → (vague (W.meaning result.inner) (asked_of result.scans)).nature.kind.objections columns [] ≡ [] }
{
    Vague::new(alloc, inner)
}

pub fn in_lift<W: Wrapper>(inner: W) -> Lift<W>
    requires idle { IsIdle (W.meaning inner) }
    requires free { (columns : List Column) → (W.meaning inner).nature.kind.objections columns [] ≡ [] }
    ensures idle { IsIdle (lifted (W.meaning result.inner)) }
    ensures free { (columns : List Column) → (lifted (W.meaning result.inner)).nature.kind.objections columns [] ≡ [] }
{
    Lift::new(inner)
}

pub fn in_first<W: Wrapper>(inner: W) -> EitherSource<W, W>
    requires idle { IsIdle (W.meaning inner) }
    requires free { (columns : List Column) → (W.meaning inner).nature.kind.objections columns [] ≡ [] }
    ensures idle { IsIdle (box_of_either W.meaning W.meaning result) }
    ensures free { (columns : List Column) → (box_of_either W.meaning W.meaning result).nature.kind.objections columns [] ≡ [] }
{
    EitherSource::First(inner)
}

pub fn in_second<W: Wrapper>(inner: W) -> EitherSource<W, W>
    requires idle { IsIdle (W.meaning inner) }
    requires free { (columns : List Column) → (W.meaning inner).nature.kind.objections columns [] ≡ [] }
    ensures idle { IsIdle (box_of_either W.meaning W.meaning result) }
    ensures free { (columns : List Column) → (box_of_either W.meaning W.meaning result).nature.kind.objections columns [] ≡ [] }
{
    EitherSource::Second(inner)
}

/// The calls of a row: how the orders are bound, and how they are read then.
#[derive(Clone, Copy)]
pub struct Calls<'a> {
    pub first: &'a str,
    pub then: &'a str,
}

/// Reads the orders.
fn reads<W: Wrapper>(
    source: &mut W,
    alloc: Global,
    table: TableNo,
    then: &str,
    out: &mut Vec<u8>,
) -> Result<(), Fail>
    requires { IsSome (table_of (W.meaning source.old) table.number) }
{
    match then {
        "read" => read(source, alloc, table, out)?,
        "two" => read_two(source, alloc, table, out)?,
        "turn" => read_in_turn(source, alloc, table, out)?,
        "again" => read_again(source, alloc, table, out)?,
        "above" => read_above_one(source, alloc, table, out)?,
        "begin" => begin_two(source, alloc, table, out)?,
        _ => return Err("no such read".into()),
    }
    Ok(())
}

/// Does calls on a new source. `part` reads the orders as they are bound.
fn make<W: Wrapper>(
    source: &mut W,
    alloc: Global,
    calls: Calls<'_>,
    out: &mut Vec<u8>,
) -> Result<(), Fail>
    requires idle { IsIdle (W.meaning source.old) }
    requires free { (columns : List Column) → (W.meaning source.old).nature.kind.objections columns [] ≡ [] }
{
    if calls.then == "part" {
        let table = bind_orders(source, alloc)?;
        read_by_part(source, alloc, table, out)?;
        return Ok(());
    }
    let table = prepare(source, alloc, calls.first)?;
    reads(source, alloc, table, calls.then, out)
}

/// What calls answer on a new source, and then what the source counts.
pub fn answered<W: Wrapper>(source: W, alloc: Global, calls: Calls<'_>) -> Result<Vec<u8>, Fail>
    requires idle { IsIdle (W.meaning source) }
    requires free { (columns : List Column) → (W.meaning source).nature.kind.objections columns [] ≡ [] }
{
    let mut source = source;
    let mut out = Vec::new(alloc);
    make(&mut source, alloc, calls, &mut out)?;
    write_counts(alloc, source.ledger(), &mut out)?;
    Ok(out)
}

/// What calls answer on a wrapper of this name round a source: a number is a `Failing` that passes so many calls.
fn answered_in<W: Wrapper>(
    inner: W,
    alloc: Global,
    outer: &str,
    calls: Calls<'_>,
) -> Result<Vec<u8>, Fail>
    requires idle { IsIdle (W.meaning inner) }
    requires free { (columns : List Column) → (W.meaning inner).nature.kind.objections columns [] ≡ [] }
{
    match outer {
        "" => answered(inner, alloc, calls),
        "counting" => answered(in_counting(inner), alloc, calls),
        "shy" => answered(in_shy(alloc, inner), alloc, calls),
        "vague" => answered(in_vague(alloc, inner), alloc, calls),
        "shuffled" => answered(in_shuffled(alloc, inner), alloc, calls),
        passes => answered(in_failing(inner, passes.parse::<u64>()?), alloc, calls),
    }
}

/// What calls answer on two wrappers of these names round a new list, either or both of them left out where they are empty.
pub fn answered_round_list(
    alloc: Global,
    inner: &str,
    outer: &str,
    calls: Calls<'_>,
) -> Result<Vec<u8>, Fail> {
    let list = new_list(alloc)?;
    match inner {
        "" => answered_in(list, alloc, outer, calls),
        "counting" => answered_in(in_counting(list), alloc, outer, calls),
        "shy" => answered_in(in_shy(alloc, list), alloc, outer, calls),
        "vague" => answered_in(in_vague(alloc, list), alloc, outer, calls),
        "shuffled" => answered_in(in_shuffled(alloc, list), alloc, outer, calls),
        passes => answered_in(
            in_failing(list, passes.parse::<u64>()?),
            alloc,
            outer,
            calls,
        ),
    }
}
