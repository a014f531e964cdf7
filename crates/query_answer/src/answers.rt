//! The answer of a query over its gathered rows.
ghost use Rattle.std.specs.Prelude.{◌≡◌, ◌++◌, ◌∷◌, [], IfOk, List, None, drop, map};
ghost use Rattle.med_value.specs.Datum.{tuple};
ghost use Rattle.med_query.specs.Prelude.{IsAnswer, Output, Tables, TellsFault, faults, joined_chains, limited, direction_of, chains_of, core_of, query_of};
ghost use Rattle.query_answer.specs.Gathering.{AreGathered};
ghost use Rattle.query_answer.specs.Staging.{output_of, outputs_in};
ghost use Rattle.query_answer.specs.Giving.{AllGive};
ghost use Rattle.query_answer.specs.Finishing.{Finishes};
ghost use Rattle.query_answer.specs.Answering.{AreSmall, AllShow, Shows};

use crate::gathering::Gathering;
use crate::ordering::{in_order, page_length, shown_page};
use crate::outputs::AnswerFault;
use crate::staging::{Staged, staged_row};
use med_query::law::distinct_ignores_order;
use med_query::{Select, SelectCore, SortDirection};
use med_value::{NoMemory, Row};
use std::alloc::Global;
use tri_expr::EvalFault;

// The outputs of some cores, and after them those of one more.
fn joined_outputs(before: Vec<Staged>, more: Vec<Staged>) -> Result<Vec<Staged>, NoMemory>
    ensures { IfOk result (λ out. out.items ≡ before.items ++ more.items) }
{
    if before.is_empty() {
        return Ok(more);
    }
    let mut out = before;
    let mut more = more;
    out.append(&mut more)?;
    Ok(out)
}

// Outputs that stand for those of all cores, one after another.
fn all_outputs(
    alloc: Global,
    gathered: Vec<Gathering<'_>>,
    select: &Select,
) -> Result<Vec<Staged>, AnswerFault>
    ensures gives { IfOk result (λ out. (db : Tables) (cores : List SelectCore) → AreGathered db cores gathered.entry.items
        → AllGive select.now (map core_of cores) db (map output_of out.items)) }
    ensures small { IfOk result (λ _. (db : Tables) (cores : List SelectCore) → AreGathered db cores gathered.entry.items
        → AreSmall (map core_of cores) db) }
    ensures told { (db : Tables) (cores : List SelectCore) → AreGathered db cores gathered.entry.items
        → AllShow result (map core_of cores) db }
{
    let mut all = Vec::new(alloc);
    let mut coming = gathered.into_iter();
    while let Some(one) = coming.next() {
        let more = match one.outputs(alloc, select) {
            Ok(more) => more,
            Err(fault) => return Err(fault),
        };
        all = match joined_outputs(all, more) {
            Ok(joined) => joined,
            Err(_) => return Err(AnswerFault::Evaluation(EvalFault::NoMemory)),
        };
    }
    Ok(all)
}

// ORDER BY, OFFSET and LIMIT.
fn finished(
    alloc: Global,
    staged: Vec<Staged>,
    directions: &[SortDirection],
    offset: usize,
    limit: Option<usize>,
) -> Result<Vec<Row>, NoMemory>
    ensures { IfOk result (λ out. Finishes (map direction_of directions.now) offset limit (map output_of staged.items)
        (map tuple out.items)) }
{
    let ordered = in_order(alloc, directions, staged, offset, limit)?;
    shown_page(alloc, ordered, offset, limit)
}

/// The answer of a SELECT over tables (SQL standard, <query expression>), once the joined rows of each of its cores came: those of them
/// that WHERE keeps, their groups, those of them that HAVING keeps, and what these show, each once under DISTINCT; and of all cores these
/// rows, in an order that ORDER BY allows, cut by OFFSET and LIMIT.
///
/// Groups, DISTINCT and ORDER BY take the time of a sort; where OFFSET and LIMIT leave none but a few of the first rows, these alone are
/// kept in order.
///
/// # Errors
///
/// A fault that may be told, whatever LIMIT says: of WHERE on a joined row, of an aggregate's argument on a kept row, of HAVING on a
/// group, or of an order key or an item of a kept row or kept group. [`EvalFault::NoMemory`] where memory was asked for and refused, or
/// rows were gathered for a query of another ORDER BY, OFFSET or LIMIT. [`AnswerFault::TooManyRows`] where a core groups over more than
/// 2^62 kept rows, and only there.
pub fn answer(
    alloc: Global,
    select: &Select,
    gathered: Vec<Gathering<'_>>,
) -> Result<Vec<Row>, AnswerFault>
    ensures answer { IfOk result (λ out. (db : Tables) → AreGathered db select.now.cores.items gathered.entry.items
        → IsAnswer (query_of select.now) db (map tuple out.items)) }
    ensures small { IfOk result (λ _. (db : Tables) → AreGathered db select.now.cores.items gathered.entry.items
        → AreSmall (query_of select.now).cores db) }
    ensures told { (db : Tables) → AreGathered db select.now.cores.items gathered.entry.items → Shows result (query_of select.now) db }
{
    let staged = match all_outputs(alloc, gathered, select) {
        Ok(staged) => staged,
        Err(fault) => return Err(fault),
    };
    match finished(
        alloc,
        staged,
        select.directions.as_slice(),
        select.offset,
        select.limit,
    ) {
        Ok(out) => Ok(out),
        Err(_) => Err(AnswerFault::Evaluation(EvalFault::NoMemory)),
    }
}

// What an output shows, where there is one and OFFSET and LIMIT leave it.
fn shown_one(
    alloc: Global,
    staged: Option<Staged>,
    offset: usize,
    limit: Option<usize>,
) -> Result<Vec<Row>, NoMemory>
    ensures { IfOk result (λ out. map tuple out.items ≡ limited limit (drop offset (map (λ (o : Output). o.1) (outputs_in staged)))) }
{
    let mut rows = Vec::new(alloc);
    match staged {
        None => {}
        Some(one) => {
            if page_length(1, offset, limit) > 0 {
                rows.push(one.into_row())?;
            }
        }
    }
    Ok(rows)
}

/// The answer of a SELECT of one core that does not group, over its only joined row (SQL standard, <query expression>): what that row
/// shows, where WHERE keeps it, and OFFSET and LIMIT leave it. One row stands in every order, and is equal to no other.
///
/// It is what [`answer`] tells of that row, and keeps no list but that of the answer.
///
/// # Errors
///
/// A fault that may be told, whatever LIMIT says: of WHERE on the row, or where that keeps it of an order key or an item.
/// [`EvalFault::NoMemory`] where memory was asked for and refused.
pub fn answer_row(
    alloc: Global,
    select: &Select,
    core: &SelectCore,
    row: &Row,
) -> Result<Vec<Row>, EvalFault>
    requires one { select.now.cores.items ≡ core.now ∷ [] }
    requires ungrouped { core.now.grouping ≡ None }
    ensures answer { IfOk result (λ out. (db : Tables) → joined_chains db (chains_of core.now.from.items) ≡ tuple row.now ∷ []
        → IsAnswer (query_of select.now) db (map tuple out.items)) }
    ensures told { (db : Tables) → joined_chains db (chains_of core.now.from.items) ≡ tuple row.now ∷ []
        → TellsFault result (faults (query_of select.now) db) }
{
    distinct_ignores_order();
    let staged = match staged_row(alloc, core, row) {
        Ok(staged) => staged,
        Err(fault) => return Err(fault),
    };
    match shown_one(alloc, staged, select.offset, select.limit) {
        Ok(out) => Ok(out),
        Err(_) => Err(EvalFault::NoMemory),
    }
}
