//! Values that are only looked at: a text stays where it is.

ghost use Rattle.std.specs.Prelude.{◌≡◌, true, IfOk, IsErr};
ghost use Rattle.med_value.specs.Prelude.{datum, is_text, datum_cmp, is_missing, type_of};
ghost use Rattle.tri_expr.specs.View.{seen};

use med_value::{NoMemory, Value};
use std::alloc::Global;
use std::cmp::Ordering;

/// A value whose text belongs to a row, a parameter or a literal.
#[derive(Clone, Copy)]
pub enum View<'a> {
    Null,
    Int(i64),
    Text(&'a str),
    Bool(bool),
}

/// The value, looked at where it stands.
pub fn view_of(value: &Value) -> View<'_>
    ensures { seen result ≡ datum value.now }
{
    match value {
        Value::Null => View::Null,
        Value::Int(n) => View::Int(*n),
        Value::Text(text) => View::Text(text.as_str()),
        Value::Bool(b) => View::Bool(*b),
    }
}

/// The value itself. Refused only for want of memory, which only a text asks for.
pub fn owned(alloc: Global, view: View<'_>) -> Result<Value, NoMemory>
    ensures same { IfOk result (λ v. datum v ≡ seen view.entry) }
    ensures without_memory { IsErr result → is_text (seen view.entry) ≡ true }
{
    match view {
        View::Null => Ok(Value::Null),
        View::Int(n) => Ok(Value::Int(n)),
        View::Text(text) => Ok(Value::Text(text.to_string(alloc)?)),
        View::Bool(b) => Ok(Value::Bool(b)),
    }
}

/// Whether the value is NULL.
pub fn is_null(view: View<'_>) -> bool
    ensures { result ≡ is_missing (seen view.entry) }
{
    matches!(view, View::Null)
}

// The number of a value's type, which keeps values of two types apart.
fn type_number(view: View<'_>) -> u8
    ensures { result ≡ type_of (seen view.entry) }
{
    match view {
        View::Null => 0,
        View::Int(_) => 1,
        View::Text(_) => 2,
        View::Bool(_) => 3,
    }
}

/// The order of values: numbers by size, texts by their bytes, false before true.
pub fn compare_views(a: View<'_>, b: View<'_>) -> Ordering
    ensures { result ≡ datum_cmp (seen a.entry) (seen b.entry) }
{
    match (a, b) {
        (View::Int(m), View::Int(n)) => m.cmp(&n),
        (View::Text(s), View::Text(t)) => s.as_bytes().cmp(t.as_bytes()),
        (View::Bool(p), View::Bool(q)) => p.cmp(&q),
        _ => type_number(a).cmp(&type_number(b)),
    }
}
