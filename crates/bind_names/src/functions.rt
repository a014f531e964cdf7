//! Aggregate functions by their names.

ghost use Rattle.bind_names.specs.Meaning.{function_named};
ghost use Rattle.std.specs.Prelude.{◌≡◌};

use tri_expr::SetFunction;

/// The function of this name, if it is one (SQL:2016, 10.9 <aggregate function>).
pub fn function_named(name: &str) -> Option<SetFunction>
    ensures { result ≡ function_named name.now }
{
    match name {
        "count" => Some(SetFunction::Count),
        "sum" => Some(SetFunction::Sum),
        "min" => Some(SetFunction::Min),
        "max" => Some(SetFunction::Max),
        _ => None,
    }
}
