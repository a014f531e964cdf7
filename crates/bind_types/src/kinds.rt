//! The types of values, of expressions whose names are places, and of the columns over which these stand.
#![tactic(auto, using(bind_names::proofs::Added::added_end, crate::proofs::OutputPlaces::kinds_behind))]

ghost use Rattle.std.specs.Prelude.{◌≡◌, ◌++◌, map, IfOk, slice_get};
ghost use Rattle.med_value.specs.Prelude.{column_of, datum};
ghost use Rattle.bind_names.specs.Scope.{columns_of, scope_of};
ghost use Rattle.bind_types.specs.TreeTypes.{column_kinds, datum_type, set_type, tree_type};
ghost use Rattle.tri_expr.specs.Tree.{tree};

use bind_names::Visible;
use med_value::{ColType, ColumnDef, NoMemory, Value};
use std::alloc::Global;
use tri_expr::{Expr, SetFunction};

// The type of a value; NULL has none.
fn value_kind(value: &Value) -> Option<ColType>
    ensures { result ≡ datum_type (datum value.now) }
{
    match value {
        Value::Null => None,
        Value::Int(_) => Some(ColType::Int),
        Value::Text(_) => Some(ColType::Text),
        Value::Bool(_) => Some(ColType::Bool),
    }
}

// The type of an aggregate of an argument of this type.
fn set_kind(function: SetFunction, argument: Option<ColType>) -> Option<ColType>
    ensures { result ≡ set_type function argument }
{
    match function {
        SetFunction::Count | SetFunction::Sum => Some(ColType::Int),
        SetFunction::Min | SetFunction::Max => match argument {
            Some(kind) => Some(kind),
            None => Some(ColType::Text),
        },
    }
}

// The type of the cell in a place; none past the cells.
fn kind_at(kinds: &[ColType], place: usize) -> Option<ColType>
    ensures { result ≡ slice_get kinds.now place }
{
    match kinds.get(place) {
        None => None,
        Some(kind) => Some(*kind),
    }
}

/// The type of an expression over rows whose cells are of these types; none for NULL, which takes any.
#[cycle(kind_of)]
pub fn kind_of(kinds: &[ColType], e: &Expr) -> Option<ColType>
    ensures { result ≡ tree_type kinds.now (tree e.now) }
{
    match e {
        Expr::Column(place) => kind_at(kinds, *place),
        Expr::Parameter(_) => None,
        Expr::Literal(value) => value_kind(value),
        Expr::Compute(_, _, _) | Expr::Negate(_) | Expr::CountRows => Some(ColType::Int),
        Expr::Compare(_, _, _) | Expr::And(_) | Expr::Or(_) => Some(ColType::Bool),
        Expr::Not(_) | Expr::Is(_, _, _) | Expr::Between(_, _, _, _) => Some(ColType::Bool),
        Expr::In(_, _, _) | Expr::Like(_, _, _) => Some(ColType::Bool),
        Expr::Parenthesised(e) => kind_of(kinds, e),
        Expr::Aggregate(function, e) => set_kind(*function, kind_of(kinds, e)),
    }
}

// The types of these columns, behind those that are there.
fn push_kinds(columns: &[ColumnDef], out: &mut Vec<ColType>) -> Result<(), NoMemory>
    ensures { IfOk result (λ _. out.new.items ≡ out.old.items ++ column_kinds (map column_of columns.now)) }
{
    for column in columns {
        out.push(column.kind)?;
    }
    Ok(())
}

/// The types of columns.
pub fn kinds_of(alloc: Global, columns: &[ColumnDef]) -> Result<Vec<ColType>, NoMemory>
    ensures { IfOk result (λ v. v.items ≡ column_kinds (map column_of columns.now)) }
{
    let mut out = Vec::new(alloc);
    push_kinds(columns, &mut out)?;
    Ok(out)
}

/// The types of expressions over rows whose cells are of these types.
pub fn kinds_of_all(
    alloc: Global,
    kinds: &[ColType],
    values: &[Expr],
) -> Result<Vec<Option<ColType>>, NoMemory>
    ensures { IfOk result (λ v. v.items ≡ map (tree_type kinds.now) (map tree values.now)) }
{
    let mut out = Vec::new(alloc);
    for value in values {
        out.push(kind_of(kinds, value))?;
    }
    Ok(out)
}

/// The types of the columns in view, from the left on.
pub fn kinds_in_view(alloc: Global, scope: &[Visible<'_>]) -> Result<Vec<ColType>, NoMemory>
    ensures { IfOk result (λ v. v.items ≡ column_kinds (columns_of (scope_of scope.now))) }
{
    let mut out = Vec::new(alloc);
    for entry in scope {
        push_kinds(entry.columns, &mut out)?;
    }
    Ok(out)
}
