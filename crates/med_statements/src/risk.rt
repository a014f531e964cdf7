//! Whether a query may fault while it gives its rows.
ghost use Rattle.std.specs.Prelude.{◌≡◌, map, option_map};
ghost use Rattle.std.specs.List.{list_any};
ghost use Rattle.tri_expr.specs.Prelude.{tree, is_risky_tree};
ghost use Rattle.med_query.specs.Form.{core_form, form_of, group_form};
ghost use Rattle.med_query.specs.Form.{is_risky_core as spec_is_risky_core, is_risky_form, group_trees};

use med_query::{Grouping, Select, SelectCore};
use tri_expr::{Expr, is_risky};

// Whether one of the expressions may fault.
fn some_risky(expressions: &[Expr]) -> bool
    ensures { result ≡ list_any is_risky_tree (map tree expressions.now) }
{
    for expression in expressions {
        if is_risky(expression) {
            return true;
        }
    }
    false
}

// Whether an argument of an aggregate or a conjunct of HAVING may fault, where the query groups.
fn is_risky_group(grouping: &Option<Grouping>) -> bool
    ensures { result ≡ list_any is_risky_tree (group_trees (option_map group_form grouping.now)) }
{
    match grouping {
        None => false,
        Some(group) => {
            some_risky(group.arguments.as_slice()) || some_risky(group.having.as_slice())
        }
    }
}

// Whether an expression of a core may fault.
fn is_risky_core(core: &SelectCore) -> bool
    ensures { result ≡ spec_is_risky_core (core_form core.now) }
{
    some_risky(core.conditions.as_slice())
        || is_risky_group(&core.grouping)
        || some_risky(core.items.as_slice())
        || some_risky(core.keys.as_slice())
}

// Whether one of the cores has an expression that may fault.
fn some_core_risky(cores: &[SelectCore]) -> bool
    ensures { result ≡ list_any spec_is_risky_core (map core_form cores.now) }
{
    for core in cores {
        if is_risky_core(core) {
            return true;
        }
    }
    false
}

/// Whether an expression of the query may fault: of WHERE, of HAVING, an aggregate's argument, an item or an order key. No cursor is
/// declared for such a query. An ON may not fault in any query that is bound.
pub fn is_risky_query(select: &Select) -> bool
    ensures { result ≡ is_risky_form (form_of select.now) }
{
    some_core_risky(select.cores.as_slice())
}
