//! Rows that are held in runs, one behind the other, so that a change of one row moves no more than a run.
ghost use Rattle.std.specs.Prelude.{◌≡◌, ◌≤◌, ◌<◌, ◌+◌, ◌^◌, ◌++◌, ◌∷◌, [], ℕ, true, false, Some, length, drop, take, slice_set, slice_index_or, IfOk, OnOk, OnErr};
ghost use Rattle.std.specs.Vec.{vec_len, vec_capacity};
ghost use Rattle.med_value.specs.declared.value.Row.{Row};
ghost use Rattle.list_wrapper.specs.Runs.{rows_in, run_rows, before, Counted, IsSpot, room_in};
ghost use Rattle.list_wrapper.specs.Stay.{stay};

use med_value::{NoMemory, Row};
use std::alloc::Global;

/// How many rows a run has at most, where memory lets longer ones be cut.
const SHORT: usize = 1024;

/// Rows one behind the other, and how many rows of the table there are up to their end.
#[derive(Drop)]
pub(crate) struct Run {
    pub(crate) rows: Vec<Row>,
    pub(crate) end: usize,
}

/// A run, and a place in it.
#[derive(Clone, Copy)]
pub(crate) struct Spot {
    pub(crate) run: usize,
    pub(crate) at: usize,
}

/// How many rows there are before the run at a place.
pub(crate) fn start_of(runs: &[Run], at: usize) -> usize
    requires counted { Counted 0 runs.now }
    requires within { at ≤ length runs.now }
    ensures { result ≡ before runs.now at }
{
    if at == 0 { 0 } else { runs[at - 1].end }
}

// Whether the row at a place is one of a run.
fn is_of_run(runs: &[Run], at: usize, place: usize) -> bool
    requires { Counted 0 runs.now }
    ensures { result ≡ true → (at < length runs.now) × (before runs.now at ≤ place) × (place < before runs.now (at + 1)) }
{
    if at >= runs.len() || place >= runs[at].end {
        return false;
    }
    start_of(runs, at) <= place
}

// The run of the row at a place, found by halves.
fn run_by_halves(runs: &[Run], place: usize) -> usize
    requires counted { Counted 0 runs.now }
    requires there { place < length (rows_in runs.now) }
    ensures { (result < length runs.now) × (before runs.now result ≤ place) × (place < before runs.now (result + 1)) }
{
    let mut first = 0;
    let mut end = runs.len();
    while first + 1 < end {
        let middle = first + (end - first) / 2;
        if start_of(runs, middle) <= place {
            first = middle;
        } else {
            end = middle;
        }
    }
    first
}

// The run of the row at a place: mostly that in which it is if all before it are full.
fn run_of(runs: &[Run], place: usize) -> usize
    requires counted { Counted 0 runs.now }
    requires there { place < length (rows_in runs.now) }
    ensures { (result < length runs.now) × (before runs.now result ≤ place) × (place < before runs.now (result + 1)) }
{
    let guess = place / SHORT;
    if is_of_run(runs, guess, place) {
        return guess;
    }
    run_by_halves(runs, place)
}

/// Where the row at a place stands.
pub(crate) fn spot_of(runs: &[Run], place: usize) -> Spot
    requires counted { Counted 0 runs.now }
    requires there { place < length (rows_in runs.now) }
    ensures { IsSpot runs.now place result }
{
    let run = run_of(runs, place);
    let at = place - start_of(runs, run);
    Spot { run, at }
}

/// The row at a place.
pub(crate) fn row_at(runs: &[Run], place: usize) -> &Row
    requires counted { Counted 0 runs.now }
    requires there { place < length (rows_in runs.now) }
    ensures { result.now ≡ slice_index_or (rows_in runs.now) place result.now }
{
    let spot = spot_of(runs, place);
    &runs[spot.run].rows[spot.at]
}

/// Puts a row in the place of another.
pub(crate) fn put_row(runs: &mut Vec<Run>, place: usize, row: Row)
    requires counted { Counted 0 runs.old.items }
    requires there { place < length (rows_in runs.old.items) }
    ensures counted { Counted 0 runs.new.items }
    ensures rows { rows_in runs.new.items ≡ slice_set (rows_in runs.old.items) place row }
    ensures room { room_in runs.new.items ≡ room_in runs.old.items }
{
    let spot = spot_of(runs, place);
    let run = &mut runs[spot.run];
    run.rows[spot.at] = row;
}

// Counts the rows up to the end of each run anew.
fn recount(runs: &mut Vec<Run>)
    requires { length (rows_in runs.old.items) < 2 ^ 64 }
    ensures counted { Counted 0 runs.new.items }
    ensures rows { rows_in runs.new.items ≡ rows_in runs.old.items }
{
    let mut total = 0;
    let mut at = 0;
    while at < runs.len() {
        let run = &mut runs[at];
        total += run.rows.len();
        run.end = total;
        at += 1;
    }
}

// Lets the runs go that have no rows.
fn drop_empty_runs(runs: &mut Vec<Run>)
    ensures { rows_in runs.new.items ≡ rows_in runs.old.items }
{
    let mut at = 0;
    while at < runs.len() {
        if runs[at].rows.is_empty() {
            let _run = runs.remove(at);
        } else {
            at += 1;
        }
    }
}

// Takes a row out of its run: those behind it in the run move up.
fn take_row(runs: &mut Vec<Run>, place: usize)
    requires counted { Counted 0 runs.old.items }
    requires there { place < length (rows_in runs.old.items) }
    ensures { rows_in runs.new.items ≡ take place (rows_in runs.old.items) ++ drop (place + 1) (rows_in runs.old.items) }
{
    let spot = spot_of(runs, place);
    let run = &mut runs[spot.run];
    let _row = run.rows.remove(spot.at);
}

/// Takes the row at a place out.
pub(crate) fn remove_row(runs: &mut Vec<Run>, place: usize)
    requires counted { Counted 0 runs.old.items }
    requires there { place < length (rows_in runs.old.items) }
    ensures counted { Counted 0 runs.new.items }
    ensures rows { rows_in runs.new.items ≡ take place (rows_in runs.old.items) ++ drop (place + 1) (rows_in runs.old.items) }
{
    let _count = start_of(runs, runs.len());
    take_row(runs, place);
    drop_empty_runs(runs);
    recount(runs);
}

/// Whether a row is gone: one past the list is not.
fn is_gone(gone: &[bool], at: usize) -> bool
    ensures { result ≡ slice_index_or gone.now at false }
{
    match gone.get(at) {
        Some(mark) => *mark,
        None => false,
    }
}

/// Takes rows that are gone out: those that stay move up.
fn take_out(rows: &mut Vec<Row>, gone: &[bool])
    ensures { rows.new.items ≡ stay rows.old.items gone.now }
{
    if gone.is_empty() {
        return;
    }
    let mut kept = 0;
    let mut at = 0;
    while at < rows.len() {
        if !is_gone(gone, at) {
            rows.swap(kept, at);
            kept += 1;
        }
        at += 1;
    }
    rows.truncate(kept);
}

// The marks from a place on.
fn marks_from(gone: &[bool], at: usize) -> &[bool]
    ensures { result.now ≡ drop at gone.now }
{
    if at < gone.len() { &gone[at..] } else { &[] }
}

// Takes rows that are gone out of each run.
fn take_out_of_each(runs: &mut Vec<Run>, gone: &[bool])
    ensures { rows_in runs.new.items ≡ stay (rows_in runs.old.items) gone.now }
{
    let mut marks = gone;
    let mut at = 0;
    while at < runs.len() {
        let run = &mut runs[at];
        let count = run.rows.len();
        take_out(&mut run.rows, marks);
        marks = marks_from(marks, count);
        at += 1;
    }
}

/// Takes rows that are gone out.
pub(crate) fn take_rows(runs: &mut Vec<Run>, gone: &[bool])
    requires { Counted 0 runs.old.items }
    ensures counted { Counted 0 runs.new.items }
    ensures rows { rows_in runs.new.items ≡ stay (rows_in runs.old.items) gone.now }
{
    let _count = start_of(runs, runs.len());
    take_out_of_each(runs, gone);
    drop_empty_runs(runs);
    recount(runs);
}

// Takes the end of many rows off.
fn cut_off(rows: &mut Vec<Row>) -> Result<Vec<Row>, NoMemory>
    requires { 1024 < length rows.old.items }
    ensures parts { IfOk result (λ end. rows.old.items ≡ rows.new.items ++ end.items) }
    ensures shorter { OnOk result (length rows.new.items < length rows.old.items) }
    ensures same { OnErr result (rows.new.items ≡ rows.old.items) }
{
    let kept = (rows.len() - 1) / SHORT * SHORT;
    let end = rows.split_off(kept)?;
    if kept == SHORT {
        rows.shrink_to_fit();
    }
    Ok(end)
}

// Cuts the end of a long run off, as a run behind it.
fn cut(runs: &mut Vec<Run>, at: usize) -> Result<(), NoMemory>
    requires there { at < length runs.old.items }
    requires long { 1024 < length (run_rows runs.old.items at) }
    ensures there { at < length runs.new.items }
    ensures rows { rows_in runs.new.items ≡ rows_in runs.old.items }
    ensures shorter { OnOk result (length (run_rows runs.new.items at) < length (run_rows runs.old.items at)) }
{
    runs.reserve(1)?;
    let run = &mut runs[at];
    let rows = cut_off(&mut run.rows)?;
    match runs.insert(at + 1, Run { rows, end: 0 }) {
        Ok(()) => Ok(()),
        Err(_) => unreachable!(),
    }
}

// Cuts the last run into short ones, as far as there is memory.
fn cut_last(runs: &mut Vec<Run>)
    ensures { rows_in runs.new.items ≡ rows_in runs.old.items }
{
    let count = runs.len();
    if count == 0 {
        return;
    }
    let last = count - 1;
    while runs[last].rows.len() > SHORT {
        if cut(runs, last).is_err() {
            return;
        }
    }
}

// Whether the last run is long.
fn is_last_long(runs: &[Run]) -> bool {
    match runs.last() {
        Some(run) => run.rows.len() > SHORT,
        None => false,
    }
}

/// Cuts the last run into short ones if it is long, as far as there is memory.
pub(crate) fn settle(runs: &mut Vec<Run>)
    requires { Counted 0 runs.old.items }
    ensures counted { Counted 0 runs.new.items }
    ensures rows { rows_in runs.new.items ≡ rows_in runs.old.items }
{
    if !is_last_long(runs) {
        return;
    }
    let _count = start_of(runs, runs.len());
    cut_last(runs);
    recount(runs);
}

// Begins a run with room for so many rows.
fn begin_run(alloc: Global, runs: &mut Vec<Run>, count: usize) -> Result<(), NoMemory>
    requires counted { Counted 0 runs.old.items }
    requires few { length (rows_in runs.old.items) + count < 2 ^ 64 }
    ensures counted { Counted 0 runs.new.items }
    ensures rows { rows_in runs.new.items ≡ rows_in runs.old.items }
    ensures ok { OnOk result (count ≤ room_in runs.new.items) }
{
    let end = start_of(runs, runs.len());
    let rows = Vec::with_capacity(alloc, count)?;
    runs.push(Run { rows, end })?;
    Ok(())
}

// Makes room for so many rows in a run that is the last one.
fn widen(runs: &mut Vec<Run>, last: usize, count: usize) -> Result<(), NoMemory>
    requires counted { Counted 0 runs.old.items }
    requires last { last + 1 ≡ length runs.old.items }
    requires few { length (rows_in runs.old.items) + count < 2 ^ 64 }
    ensures counted { Counted 0 runs.new.items }
    ensures rows { rows_in runs.new.items ≡ rows_in runs.old.items }
    ensures ok { OnOk result (count ≤ room_in runs.new.items) }
{
    let run = &mut runs[last];
    run.rows.reserve(count)?;
    Ok(())
}

/// Makes room for so many rows more: in the last run if it stays short, and else in a new one.
pub(crate) fn make_room(alloc: Global, runs: &mut Vec<Run>, count: usize) -> Result<(), NoMemory>
    requires { Counted 0 runs.old.items }
    ensures counted { Counted 0 runs.new.items }
    ensures rows { rows_in runs.new.items ≡ rows_in runs.old.items }
    ensures ok { OnOk result (count ≤ room_in runs.new.items) }
{
    if count == 0 {
        return Ok(());
    }
    let many = runs.len();
    let total = start_of(runs, many);
    if count > usize::MAX - total {
        return Err(NoMemory);
    }
    if many == 0 || runs[many - 1].rows.len().saturating_add(count) > SHORT {
        return begin_run(alloc, runs, count);
    }
    widen(runs, many - 1, count)
}

/// Appends a row, for which there is room.
pub(crate) fn push_row(runs: &mut Vec<Run>, row: Row)
    requires counted { Counted 0 runs.old.items }
    requires room { 0 < room_in runs.old.items }
    ensures counted { Counted 0 runs.new.items }
    ensures rows { rows_in runs.new.items ≡ rows_in runs.old.items ++ row ∷ [] }
    ensures room { room_in runs.old.items ≤ room_in runs.new.items + 1 }
{
    let last = runs.len() - 1;
    let run = &mut runs[last];
    match run.rows.push(row) {
        Ok(()) => run.end += 1,
        Err(_) => unreachable!(),
    }
}

/// Rows as one run.
pub(crate) fn first_run(alloc: Global, rows: Vec<Row>) -> Result<Vec<Run>, NoMemory>
    ensures counted { IfOk result (λ runs. Counted 0 runs.items) }
    ensures rows { IfOk result (λ runs. rows_in runs.items ≡ rows.items) }
{
    let end = rows.len();
    let mut runs = Vec::new(alloc);
    runs.push(Run { rows, end })?;
    Ok(runs)
}
