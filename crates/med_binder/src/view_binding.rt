//! Statements to bound queries over views of tables.

ghost use Rattle.bind_names.specs.Prelude.{meant_in, meant, select_name_causes, statement_name_causes, table_shape};
ghost use Rattle.bind_types.specs.Typing.{answer_types, select_type_causes, statement_type_causes};
ghost use Rattle.med_binder.specs.Alike.{from_kinds, FormAlike};
ghost use Rattle.med_binder.specs.Binding.{IsBound, IsEntryOf, bound_kinds, kinds_of_answer, BindCauses, BindTells};
ghost use Rattle.med_binder.specs.Counted.{bound_widths, FormCounts};
ghost use Rattle.med_binder.specs.Turns.{Binds};
ghost use Rattle.med_binder.specs.Within.{widths_of, FormWithin};
ghost use Rattle.med_query.specs.Prelude.{form_of, are_safe_cores};
ghost use Rattle.med_syntax.specs.Prelude.{select, select_tree, statement_tree};
ghost use Rattle.med_value.specs.declared.cause.Cause.{Cause};
ghost use Rattle.std.specs.Prelude.{◌≡◌, ◌⊎◌, map, true, All, IfOk, OnOk, IfErr};

use crate::bound::BoundQuery;
use crate::entries::bound_entries;
use crate::query_binding::bind_known;
use bind_names::{TableView, query_entries};
use med_syntax::{Select, Statement};
use med_value::Cause;
use std::alloc::Global;

// A query over the tables: those of its entries, then all else.
fn bind_select(
    alloc: Global,
    select: &Select,
    tables: &[TableView<'_>],
) -> Result<BoundQuery, Cause>
    ensures binds { Binds (select_name_causes (map table_shape tables.now) (select_tree select.now))
        (select_type_causes (map table_shape tables.now) (select_tree select.now))
        (meant_in (map table_shape tables.now) (select_tree select.now)) result }
    ensures entries { IfOk result (λ b. All (IsEntryOf tables.now) b.entries.items) }
    ensures kinds { IfOk result (λ b. bound_kinds b ≡ answer_types (map table_shape tables.now) (select_tree select.now)) }
    ensures safe { IfOk result (λ b. are_safe_cores b.select.cores.items ≡ true) }
{
    let written = query_entries(alloc, select)?;
    let entries = bound_entries(alloc, tables, written.as_slice())?;
    bind_known(alloc, select, tables, entries)
}

/// The query that a statement is.
pub(crate) fn query_of(statement: &Statement) -> &Select
    ensures { statement_tree statement.now ≡ select (select_tree result.now) }
{
    match statement {
        Statement::Select(query) => query,
    }
}

// A statement over the tables.
fn bind_statement(
    alloc: Global,
    statement: &Statement,
    tables: &[TableView<'_>],
) -> Result<BoundQuery, Cause>
    ensures binds { Binds (statement_name_causes (map table_shape tables.now) (statement_tree statement.now))
        (statement_type_causes (map table_shape tables.now) (statement_tree statement.now))
        (meant (map table_shape tables.now) (statement_tree statement.now)) result }
    ensures entries { IfOk result (λ b. All (IsEntryOf tables.now) b.entries.items) }
    ensures kinds { IfOk result (λ b. bound_kinds b ≡ kinds_of_answer (map table_shape tables.now) (statement_tree statement.now)) }
    ensures safe { IfOk result (λ b. are_safe_cores b.select.cores.items ≡ true) }
{
    bind_select(alloc, query_of(statement), tables)
}

/// What a statement means over the tables, or why it is refused (SQL:2016, 7.16 <query specification>).
///
/// All names of the statement are looked up first: 42P01 where there is no such table or a qualifier names no visible entry, 42712 where
/// two entries of a core have one name, 42703 where a name means no column and 42702 where it can mean several columns or outputs, 42601
/// for `*` without FROM, 42P10 for an order key that is the position of no output, no output under DISTINCT, or none of a query with UNION
/// ALL. Then its types are checked: 42804 where a condition is not boolean, 42883 where an operator or a function has no such operands,
/// 42803 where a column or an aggregate stands where it may not in a query that groups, 22025 where a pattern of LIKE ends in a lone
/// backslash, 0A000 for an ON that may fault; 42601 for cores of different widths, 42804 where their outputs are of different types. Of
/// several causes of the first kind that stands any may be told; and 53200 where memory was refused.
///
/// There are no rights yet: each user may read each table.
pub fn bind_views(
    alloc: Global,
    statement: &Statement,
    tables: &[TableView<'_>],
    _user: &str,
) -> Result<BoundQuery, Cause>
    // What is answered means the statement.
    ensures bound { IfOk result (λ b. IsBound (map table_shape tables.now) (statement_tree statement.now) b) }
    // Its entries are the tables that they stand for.
    ensures entries { IfOk result (λ b. All (IsEntryOf tables.now) b.entries.items) }
    // They have the columns of their tables.
    ensures widths { IfOk result (λ b. bound_widths b ≡ widths_of (map table_shape tables.now) (statement_tree statement.now)) }
    // It tells the types of what each core answers.
    ensures kinds { IfOk result (λ b. bound_kinds b ≡ kinds_of_answer (map table_shape tables.now) (statement_tree statement.now)) }
    // It counts them from 0 through the chains of its cores, and a LEFT JOIN says how many columns its entry has.
    ensures counts { IfOk result (λ b. FormCounts (bound_widths b) (form_of b.select)) }
    // Each column is one of those in view of its core.
    ensures view { IfOk result (λ b. FormWithin (bound_widths b) (form_of b.select)) }
    // Its conjuncts compare columns of one type.
    ensures alike { IfOk result (λ b. FormAlike (from_kinds (map table_shape tables.now) (statement_tree statement.now)) (form_of b.select)) }
    // No ON of it may fault.
    ensures safe { IfOk result (λ b. are_safe_cores b.select.cores.items ≡ true) }
    // A statement for which a cause of names or types stands is not answered.
    ensures clear { OnOk result ((c : Cause) → BindCauses (map table_shape tables.now) (statement_tree statement.now) c → ⊥) }
    // A refusal tells a cause that stands, one of names before one of types, or that memory was refused.
    ensures refused { IfErr result (λ c. (c ≡ Cause.OutOfMemory)
        ⊎ BindTells (map table_shape tables.now) (statement_tree statement.now) c) }
    // Where no cause stands, only memory can be refused.
    ensures read { ((c : Cause) → BindCauses (map table_shape tables.now) (statement_tree statement.now) c → ⊥)
        → IfErr result (λ c. c ≡ Cause.OutOfMemory) }
{
    bind_statement(alloc, statement, tables)
}
