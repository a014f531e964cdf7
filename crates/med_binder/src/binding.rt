//! Statements to bound queries over the tables of a catalogue.

ghost use Rattle.std.specs.Prelude.{◌≡◌, ◌⊎◌, List, length, map, true, IfOk, OnOk, IfErr};
ghost use Rattle.med_value.specs.declared.cause.Cause.{Cause as AnyCause};
ghost use Rattle.med_syntax.specs.Prelude.{SelectTree, statement_tree, Name};
ghost use Rattle.med_query.specs.Select.{are_safe_cores};
ghost use Rattle.bind_names.specs.Scope.{query_scope};
ghost use Rattle.bind_types.specs.Typing.{answer_types};
ghost use Rattle.med_binder.specs.Binding.{IsMeant, bound_kinds};
ghost use Rattle.med_binder.specs.Counted.{bound_widths};
ghost use Rattle.med_binder.specs.Within.{widths};
ghost use Rattle.med_binder.specs.Place.{entry_place};
ghost use Rattle.med_catalog.specs.Prelude.{Objects, objects};
ghost use Rattle.med_binder.specs.Tables.{shapes, AreNamedOnce};
ghost use Rattle.med_binder.specs.Places.{Attached, attached, ArePlaces};
ghost use Rattle.med_binder.specs.Queries.{meant_by, QueryNames, QueryTypes, IsBindable, NotBound};
ghost use Rattle.med_binder.specs.Looked.{query_in, IsNamedOver, NamesOver, TypesOver, BindsOver};

use crate::bound::BoundQuery;
use crate::bound_table::BoundTable;
use crate::gathering::{GatheredTables, gathered};
use crate::look_up::look_up;
use crate::named::NamedQuery;
use crate::query_binding::check_types;
use crate::rights::check_rights;
use crate::view_binding::query_of;
use bind_names::query_entries;
use med_catalog::Catalog;
use med_syntax::Statement;
use med_value::Cause;
use std::alloc::Global;

// The query with its names resolved, over the tables that its entries name.
fn named_over<'a>(
    alloc: Global,
    statement: &'a Statement,
    catalog: &'a Catalog,
    bound: &[BoundTable],
    user: &str,
) -> Result<NamedQuery<'a>, Cause>
    requires many { length bound.now ≡ length (objects catalog.now).tables }
    requires once { AreNamedOnce (objects catalog.now) }
    ensures { NamesOver (objects catalog.now) (map attached bound.now) user.now (query_in (statement_tree statement.now)) result }
{
    let select = query_of(statement);
    let written = query_entries(alloc, select)?;
    check_rights(catalog, written.as_slice(), user)?;
    let found = gathered(alloc, catalog, bound, written.as_slice())?;
    let GatheredTables { tables, entries } = found;
    let query = look_up(alloc, select, tables.as_slice(), entries)?;
    Ok(NamedQuery {
        select,
        tables,
        query,
    })
}

/// A query over the tables of the catalogue with its names resolved, or why this user may not have it answered by names or rights: the
/// first half of `bind`, whose second is `typed_query`.
///
/// # Errors
///
/// 42704 where the user, the owner too, has no mapping on the server of a table of FROM; the causes of names of `bind_views`, each of phase
/// 3; and 53200 where memory was refused.
pub fn named_query<'a>(
    alloc: Global,
    statement: &'a Statement,
    catalog: &'a Catalog,
    bound: &[BoundTable],
    user: &str,
) -> Result<NamedQuery<'a>, Cause>
    requires many { length bound.now ≡ length (objects catalog.now).tables }
    requires once { AreNamedOnce (objects catalog.now) }
    // What is answered is the query over the catalogue, and no cause of names or rights stands against it.
    ensures names { NamesOver (objects catalog.now) (map attached bound.now) user.now (query_in (statement_tree statement.now)) result }
    ensures clear { OnOk result ((c : AnyCause) → QueryNames (objects catalog.now) user.now (query_in (statement_tree statement.now)) c → ⊥) }
    // A refusal tells a cause of names or rights that stands, or that memory was refused.
    ensures refused { IfErr result (λ c. (c ≡ AnyCause.OutOfMemory)
        ⊎ QueryNames (objects catalog.now) user.now (query_in (statement_tree statement.now)) c) }
{
    named_over(alloc, statement, catalog, bound, user)
}

/// A query whose names are resolved, bound; or why its types do not fit: the second half of `bind`, behind `named_query`.
///
/// # Errors
///
/// The causes of types of `bind_views`, each of phase 4; and 53200 where memory was refused.
pub fn typed_query(alloc: Global, named: NamedQuery<'_>) -> Result<BoundQuery, Cause>
    // Over each catalogue over which its names are resolved for a user, it is bound for that user; or a cause of its types is told.
    ensures types { (o : Objects) (bound : List Attached) (user : Name) (q : SelectTree) → IsNamedOver o bound user q named.entry
        → TypesOver o bound user q result }
    // No ON of it may fault.
    ensures safe { IfOk result (λ b. are_safe_cores b.select.cores.items ≡ true) }
{
    let NamedQuery {
        select,
        tables,
        query,
    } = named;
    check_types(alloc, select, tables.as_slice(), &query)?;
    Ok(query)
}

// Both, one behind the other.
fn bind_over(
    alloc: Global,
    statement: &Statement,
    catalog: &Catalog,
    bound: &[BoundTable],
    user: &str,
) -> Result<BoundQuery, Cause>
    requires many { length bound.now ≡ length (objects catalog.now).tables }
    requires once { AreNamedOnce (objects catalog.now) }
    ensures { BindsOver (objects catalog.now) (map attached bound.now) user.now (query_in (statement_tree statement.now)) result }
{
    let named = named_over(alloc, statement, catalog, bound, user)?;
    typed_query(alloc, named)
}

/// What a statement means over the tables of the catalogue, or why this user may not have it answered (SQL:2016, 7.16
/// <query specification>).
///
/// Each entry of FROM stands for the table of its name in the catalogue, and is read where `bound` says: a place for each table, in their
/// order. 42704 where the user, the owner too, has no mapping on the server of one; then names and types as in `bind_views`, types
/// where no cause of names or rights stands. It takes time by the entries, however many tables there are; and 53200 where memory was
/// refused.
pub fn bind(
    alloc: Global,
    statement: &Statement,
    catalog: &Catalog,
    bound: &[BoundTable],
    user: &str,
) -> Result<BoundQuery, Cause>
    requires many { length bound.now ≡ length (objects catalog.now).tables }
    requires once { AreNamedOnce (objects catalog.now) }
    // What is answered has no cause against it.
    ensures bindable { OnOk result (IsBindable (objects catalog.now) user.now (query_in (statement_tree statement.now))) }
    // It means the statement.
    ensures meant { IfOk result (λ b. IsMeant (meant_by (objects catalog.now) (query_in (statement_tree statement.now))) b) }
    // Its entries are read where their tables are bound.
    ensures places { IfOk result (λ b. ArePlaces (map attached bound.now)
        (meant_by (objects catalog.now) (query_in (statement_tree statement.now))).entries (map entry_place b.entries.items)) }
    // They have the columns of their tables.
    ensures widths { IfOk result (λ b. bound_widths b
        ≡ widths (query_scope (shapes (objects catalog.now)) (query_in (statement_tree statement.now)))) }
    // It tells the types of what each core answers.
    ensures kinds { IfOk result (λ b. bound_kinds b
        ≡ answer_types (shapes (objects catalog.now)) (query_in (statement_tree statement.now))) }
    // No ON of it may fault.
    ensures safe { IfOk result (λ b. are_safe_cores b.select.cores.items ≡ true) }
    // A refusal tells a cause that stands, one of names or rights before one of types, or that memory was refused.
    ensures refused { IfErr result (λ c. NotBound (objects catalog.now) user.now (query_in (statement_tree statement.now)) c) }
    // Where no cause stands, only memory can be refused.
    ensures read { ((c : AnyCause) → QueryNames (objects catalog.now) user.now (query_in (statement_tree statement.now)) c → ⊥)
        → ((c : AnyCause) → QueryTypes (objects catalog.now) (query_in (statement_tree statement.now)) c → ⊥)
        → IfErr result (λ c. c ≡ AnyCause.OutOfMemory) }
{
    bind_over(alloc, statement, catalog, bound, user)
}
