//! Compiled statements beside the ones that are wanted.
ghost use Rattle.std.specs.Prelude.{◌≡◌, not, is_none, Ok, IfOk};
ghost use Rattle.sqlite_sql.specs.Syntax.{query_of};
ghost use Rattle.sqlite_looks.specs.Terms.{are_cells};
ghost use Rattle.sqlite_looks.specs.Looks as spec;

use crate::terms::{
    are_cells, is_by_key, is_delete_filter, is_from, is_number, is_page_filter, shows,
};
use sqlite_resolve::Compiled;
use sqlite_schema::code::Terms;
use sqlite_schema::command::{Command, Source};
use sqlite_schema::program::Program;
use sqlite_sql::query::Select;
use std::alloc::{AllocError, Global};

// Whether a query shows rows that repeat: it has no DISTINCT.
fn keeps_repeats(select: &Select<'_>) -> bool
    ensures { result ≡ not (query_of select.now).distinct }
{
    !select.distinct
}

// Whether a query reads a page of this tree, and shows the columns at these places.
fn is_page_query(select: &Select<'_>, tree: u32, places: &[usize], size: u32) -> bool
    ensures { result ≡ spec.is_page_query tree places.now size (query_of select.now) }
{
    let nodes = select.nodes;
    is_from(nodes, select.steps, select.from, tree)
        && is_page_filter(nodes, select.filter)
        && select.group.is_none()
        && shows(nodes, select.project, places)
        && keeps_repeats(select)
        && select.collations.is_empty()
        && is_by_key(nodes, select.order)
        && is_number(nodes, select.limit, i64::from(size))
        && is_number(nodes, select.offset, 0)
}

// Whether a query shows the rowid of the row of a rowid in this tree.
fn is_delete_query(select: &Select<'_>, tree: u32) -> bool
    ensures { result ≡ spec.is_delete_query tree (query_of select.now) }
{
    let nodes = select.nodes;
    is_from(nodes, select.steps, select.from, tree)
        && is_delete_filter(nodes, select.filter)
        && select.group.is_none()
        && shows(nodes, select.project, &[0])
        && keeps_repeats(select)
        && select.collations.is_empty()
        && select.order.is_empty()
        && is_number(nodes, select.limit, -1)
        && is_number(nodes, select.offset, 0)
}

// Whether a program is such a query alone.
fn is_page_program(
    alloc: Global,
    program: &Program,
    tree: u32,
    places: &[usize],
    size: u32,
) -> Result<bool, AllocError>
    ensures { IfOk result (λ is. is ≡ spec.is_program (spec.is_page_query tree places.now size) program.now) }
{
    if !program.lets.is_empty() {
        return Ok(false);
    }
    let loan = program.body.lend(alloc)?;
    let select = loan.select();
    Ok(is_page_query(&select, tree, places, size))
}

// Whether a program is such a query alone.
fn is_delete_program(alloc: Global, program: &Program, tree: u32) -> Result<bool, AllocError>
    ensures { IfOk result (λ is. is ≡ spec.is_program (spec.is_delete_query tree) program.now) }
{
    if !program.lets.is_empty() {
        return Ok(false);
    }
    let loan = program.body.lend(alloc)?;
    let select = loan.select();
    Ok(is_delete_query(&select, tree))
}

// Whether expressions are the cells of a new row.
fn are_terms(alloc: Global, terms: &Terms, cells: &[Option<usize>]) -> Result<bool, AllocError>
    ensures { IfOk result (λ is. is ≡ are_cells cells.now terms.now) }
{
    let lent = terms.lend(alloc)?;
    Ok(are_cells(lent.nodes.as_slice(), lent.roots, cells))
}

// Whether the rows of an INSERT are one row of these cells.
fn are_values(
    alloc: Global,
    source: &Source,
    cells: &[Option<usize>],
    width: usize,
) -> Result<bool, AllocError>
    ensures { IfOk result (λ is. is ≡ spec.are_values cells.now width source.now) }
{
    match source {
        Source::Values(terms, wide) => {
            if *wide != width {
                return Ok(false);
            }
            are_terms(alloc, terms, cells)
        }
        Source::Query(_) => Ok(false),
    }
}

// Whether a command reads a page of this tree, and shows the columns at these places.
fn is_page_command(
    alloc: Global,
    command: &Command,
    tree: u32,
    places: &[usize],
    size: u32,
) -> Result<bool, AllocError>
    ensures { IfOk result (λ is. is ≡ spec.is_page_command tree places.now size command.now) }
{
    match command {
        Command::Select(program, _names) => is_page_program(alloc, program, tree, places, size),
        _ => Ok(false),
    }
}

// Whether a command takes the row of a rowid out of the table at this place, in this tree.
fn is_delete_command(
    alloc: Global,
    command: &Command,
    place: usize,
    tree: u32,
) -> Result<bool, AllocError>
    ensures { IfOk result (λ is. is ≡ spec.is_delete_command place tree command.now) }
{
    match command {
        Command::Delete(at, program) => {
            if *at != place {
                return Ok(false);
            }
            is_delete_program(alloc, program, tree)
        }
        _ => Ok(false),
    }
}

// Whether a command puts one row of these cells into the table at this place.
fn is_insert_command(
    alloc: Global,
    command: &Command,
    place: usize,
    cells: &[Option<usize>],
    width: usize,
) -> Result<bool, AllocError>
    ensures { IfOk result (λ is. is ≡ spec.is_insert_command place cells.now width command.now) }
{
    match command {
        Command::Insert(at, source) => {
            if *at != place {
                return Ok(false);
            }
            are_values(alloc, source, cells, width)
        }
        _ => Ok(false),
    }
}

// Whether a statement has no RETURNING, and reads no time.
fn is_plain(compiled: &Compiled) -> bool
    ensures { result ≡ spec.is_plain compiled.now }
{
    compiled.returning.is_none() && compiled.formats.is_empty()
}

// Whether a compiled statement reads such a page.
pub(crate) fn is_page(
    alloc: Global,
    compiled: &Compiled,
    tree: u32,
    places: &[usize],
    size: u32,
) -> Result<bool, AllocError>
    ensures { IfOk result (λ is. is ≡ spec.passes (spec.is_page_command tree places.now size) (Ok compiled.now)) }
{
    if !is_plain(compiled) {
        return Ok(false);
    }
    is_page_command(alloc, &compiled.command, tree, places, size)
}

// Whether a compiled statement takes such a row out.
pub(crate) fn is_delete(
    alloc: Global,
    compiled: &Compiled,
    place: usize,
    tree: u32,
) -> Result<bool, AllocError>
    ensures { IfOk result (λ is. is ≡ spec.passes (spec.is_delete_command place tree) (Ok compiled.now)) }
{
    if !is_plain(compiled) {
        return Ok(false);
    }
    is_delete_command(alloc, &compiled.command, place, tree)
}

// Whether a compiled statement puts such a row in.
pub(crate) fn is_insert(
    alloc: Global,
    compiled: &Compiled,
    place: usize,
    cells: &[Option<usize>],
    width: usize,
) -> Result<bool, AllocError>
    ensures { IfOk result (λ is. is ≡ spec.passes (spec.is_insert_command place cells.now width) (Ok compiled.now)) }
{
    if !is_plain(compiled) {
        return Ok(false);
    }
    is_insert_command(alloc, &compiled.command, place, cells, width)
}
