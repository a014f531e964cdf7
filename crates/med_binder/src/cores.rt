//! The cores of a query, their names being resolved.
#![tactic(auto, using(bind_names::proofs::Causes::tells_left, bind_names::proofs::Causes::tells_right, bind_names::proofs::Causes::tells_memory, bind_names::proofs::Causes::tells_one, bind_names::proofs::Causes::none_of_two))]

ghost use Rattle.bind_names.specs.Scope.{entries_of as entries_in, from_scope, scope_of as seen_as, table_shape};
ghost use Rattle.bind_names.specs.Telling.{Means};
ghost use Rattle.bind_query.specs.Resolving.{sorting_form};
ghost use Rattle.bind_query.specs.Shown.{output_of};
ghost use Rattle.med_binder.specs.Looking.{AddsCore, AddsCores, Asks, Assembles, Begins, Completes, ResolvesCore, ResolvesOthers, Sorts, Splits};
ghost use Rattle.med_syntax.specs.QueryView.{core_tree, select_tree};
ghost use Rattle.std.specs.Prelude.{◌≡◌, ℕ, ◌+◌, [], length, map};
ghost use Rattle.tri_expr.specs.Tree.{tree};

use bind_names::{TableView, Visible, entries_of, from_in_view};
use bind_query::grouping::grouping;
use bind_query::joins::{chains, conditions};
use bind_query::keys::places;
use bind_query::outputs::{Shown, outputs_of};
use bind_query::sorting::{Sorting, sorting_for, sorting_keys};
use bind_types::{kinds_in_view, kinds_of_all};
use med_query::{JoinChain, SelectCore};
use med_syntax::{Core, Select};
use med_value::{Cause, ColType};
use std::alloc::Global;
use tri_expr::Expr;

// Names and expressions, each in a list of its own.
#[derive(Drop)]
struct Columns {
    names: Vec<String>,
    items: Vec<Expr>,
}

// The names of the outputs, and their expressions.
fn split(alloc: Global, outputs: Vec<Shown>) -> Result<Columns, Cause>
    ensures { Splits (map output_of outputs.items) result }
{
    let mut names = Vec::new(alloc);
    let mut items = Vec::new(alloc);
    for output in outputs {
        let Shown { name, value } = output;
        names.push(name)?;
        items.push(value)?;
    }
    Ok(Columns { names, items })
}

// The keys of the first core, and by what the rows of the others are sorted.
#[derive(Drop)]
struct SortedCore {
    keys: Vec<Expr>,
    others: Sorting,
}

// By what the rows of a first core with these items are sorted. Its keys are not copied.
fn sorted(alloc: Global, sorting: Sorting, items: &[Expr]) -> Result<SortedCore, Cause>
    ensures { Sorts (sorting_form sorting) (map tree items.now) result }
{
    match sorting {
        Sorting::Keys(keys) => Ok(SortedCore {
            keys,
            others: Sorting::Places(Vec::new(alloc)),
        }),
        Sorting::Places(places) => {
            let others = Sorting::Places(places);
            let keys = sorting_keys(alloc, &others, items)?;
            Ok(SortedCore { keys, others })
        }
    }
}

// What is asked of the entries of a core, its names being resolved.
#[derive(Drop)]
struct AskedCore {
    // FROM.
    from: Vec<JoinChain>,
    // WHERE.
    conditions: Vec<Expr>,
    // GROUP BY.
    places: Vec<usize>,
    // HAVING.
    having: Vec<Expr>,
}

// What a core asks of the entries in view, of which the first has this number, or why a name in it is refused.
fn ask(
    alloc: Global,
    tables: &[TableView<'_>],
    scope: &[Visible<'_>],
    number: usize,
    core: &Core,
) -> Result<AskedCore, Cause>
    ensures { Asks (map table_shape tables.now) (seen_as scope.now) number (core_tree core.now) result }
{
    let from = chains(alloc, tables, number, core.from.as_slice())?;
    let conditions_met = conditions(alloc, scope, &core.condition)?;
    let places = places(alloc, scope, core.groups.as_slice())?;
    let having = conditions(alloc, scope, &core.having)?;
    Ok(AskedCore {
        from,
        conditions: conditions_met,
        places,
        having,
    })
}

// The core with these parts.
fn assemble(
    alloc: Global,
    core: &Core,
    asked: AskedCore,
    items: Vec<Expr>,
    keys: Vec<Expr>,
) -> Result<SelectCore, Cause>
    ensures { Assembles (core_tree core.now) (map tree items.items) (map tree keys.items) asked result }
{
    let AskedCore {
        from,
        conditions,
        places,
        having,
    } = asked;
    let grouping = grouping(
        alloc,
        core,
        places,
        having,
        keys.as_slice(),
        items.as_slice(),
    )?;
    Ok(SelectCore {
        from,
        conditions,
        grouping,
        items,
        distinct: core.distinct,
        keys,
    })
}

/// A core, and the types of its outputs.
#[derive(Drop)]
pub(crate) struct ResolvedCore {
    /// The core.
    pub(crate) core: SelectCore,
    /// The types.
    pub(crate) kinds: Vec<Option<ColType>>,
}

// A core that shows these items and is sorted by these keys, its first entry having this number, or why another name in it is refused.
fn completed(
    alloc: Global,
    tables: &[TableView<'_>],
    scope: &[Visible<'_>],
    number: usize,
    core: &Core,
    items: Vec<Expr>,
    keys: Vec<Expr>,
) -> Result<ResolvedCore, Cause>
    ensures { Completes (map table_shape tables.now) (seen_as scope.now) number (core_tree core.now)
        (map tree items.items) (map tree keys.items) result }
{
    let asked = ask(alloc, tables, scope, number, core)?;
    let seen = kinds_in_view(alloc, scope)?;
    let kinds = kinds_of_all(alloc, seen.as_slice(), items.as_slice())?;
    let core = assemble(alloc, core, asked, items, keys)?;
    Ok(ResolvedCore { core, kinds })
}

/// The first core of a query, and what it says of the others.
#[derive(Drop)]
pub(crate) struct FirstCore {
    /// The names of its outputs.
    pub(crate) names: Vec<String>,
    /// The core.
    pub(crate) found: ResolvedCore,
    /// By what the rows of the others are sorted.
    pub(crate) sorting: Sorting,
}

/// The first core of a query, which has this in view, or why a name in it or a key of ORDER BY is refused. Its outputs are made once.
pub(crate) fn first_core(
    alloc: Global,
    tables: &[TableView<'_>],
    scope: &[Visible<'_>],
    select: &Select,
) -> Result<FirstCore, Cause>
    requires { seen_as scope.now ≡ from_scope (map table_shape tables.now) (select_tree select.now).core.from }
    ensures { Begins (map table_shape tables.now) (select_tree select.now) result }
{
    let outputs = outputs_of(alloc, scope, select.core.items.as_slice())?;
    let sorting = sorting_for(alloc, scope, outputs.as_slice(), select)?;
    let columns = split(alloc, outputs)?;
    let by = sorted(alloc, sorting, columns.items.as_slice())?;
    let found = completed(
        alloc,
        tables,
        scope,
        0,
        &select.core,
        columns.items,
        by.keys,
    )?;
    Ok(FirstCore {
        names: columns.names,
        found,
        sorting: by.others,
    })
}

// A core whose first entry has this number, its names being resolved, or why one is refused.
fn resolved_core(
    alloc: Global,
    tables: &[TableView<'_>],
    sorting: &Sorting,
    number: usize,
    core: &Core,
) -> Result<ResolvedCore, Cause>
    ensures { ResolvesCore (map table_shape tables.now) (sorting_form sorting.now) number (core_tree core.now) result }
{
    let scope = from_in_view(alloc, tables, core.from.as_slice())?;
    let outputs = outputs_of(alloc, scope.as_slice(), core.items.as_slice())?;
    let columns = split(alloc, outputs)?;
    let keys = sorting_keys(alloc, sorting, columns.items.as_slice())?;
    let found = completed(
        alloc,
        tables,
        scope.as_slice(),
        number,
        core,
        columns.items,
        keys,
    )?;
    Ok(found)
}

// The number of the first entry behind those of a core.
fn after_core(alloc: Global, number: usize, core: &Core) -> Result<usize, Cause>
    ensures { Means (λ (n : ℕ). n) [] (number + length (entries_in (core_tree core.now).from)) result }
{
    let written = entries_of(alloc, core.from.as_slice())?;
    match number.checked_add(written.len()) {
        Some(next) => Ok(next),
        None => Err(Cause::OutOfMemory),
    }
}

/// The cores of a query, and the types of the outputs of each.
#[derive(Drop)]
pub(crate) struct ResolvedCores {
    /// The cores.
    pub(crate) cores: Vec<SelectCore>,
    /// The types.
    pub(crate) kinds: Vec<Vec<Option<ColType>>>,
}

// One core more, whose first entry has this number. Answers the number of the first entry behind it.
fn push_core(
    alloc: Global,
    tables: &[TableView<'_>],
    sorting: &Sorting,
    number: usize,
    core: &Core,
    out: &mut ResolvedCores,
) -> Result<usize, Cause>
    ensures { AddsCore (map table_shape tables.now) (sorting_form sorting.now) number (core_tree core.now) out.old out.new result }
{
    let found = resolved_core(alloc, tables, sorting, number, core)?;
    let next = after_core(alloc, number, core)?;
    out.cores.push(found.core)?;
    out.kinds.push(found.kinds)?;
    Ok(next)
}

// The same of one core after another.
fn push_cores(
    alloc: Global,
    tables: &[TableView<'_>],
    sorting: &Sorting,
    first: usize,
    cores: &[Core],
    out: &mut ResolvedCores,
) -> Result<(), Cause>
    ensures { AddsCores (map table_shape tables.now) (sorting_form sorting.now) first (map core_tree cores.now) out.old out.new result }
{
    let mut number = first;
    for core in cores {
        number = push_core(alloc, tables, sorting, number, core, out)?;
    }
    Ok(())
}

// The cores behind the first.
fn push_others(
    alloc: Global,
    tables: &[TableView<'_>],
    sorting: &Sorting,
    select: &Select,
    out: &mut ResolvedCores,
) -> Result<(), Cause>
    ensures { AddsCores (map table_shape tables.now) (sorting_form sorting.now)
        (0 + length (entries_in (select_tree select.now).core.from)) (select_tree select.now).others out.old out.new result }
{
    let others = select.others.as_slice();
    if others.is_empty() {
        return Ok(());
    }
    let next = after_core(alloc, 0, &select.core)?;
    push_cores(alloc, tables, sorting, next, others, out)
}

/// The first core of a query and those behind it, whose entries are counted over all of them from 0, or why a name in one is refused.
pub(crate) fn resolved_cores(
    alloc: Global,
    tables: &[TableView<'_>],
    first: ResolvedCore,
    sorting: &Sorting,
    select: &Select,
) -> Result<ResolvedCores, Cause>
    ensures { ResolvesOthers (map table_shape tables.now) (sorting_form sorting.now) (select_tree select.now) first result }
{
    let mut out = ResolvedCores {
        cores: Vec::new(alloc),
        kinds: Vec::new(alloc),
    };
    out.cores.push(first.core)?;
    out.kinds.push(first.kinds)?;
    push_others(alloc, tables, sorting, select, &mut out)?;
    Ok(out)
}
