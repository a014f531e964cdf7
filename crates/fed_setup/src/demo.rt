//! The demo list: the tables parts and orders, and the script that makes foreign tables of them.
ghost use Rattle.std.specs.Prelude.{◌≡◌, ◌∷◌, [], IfOk, map, string_bytes};
ghost use Rattle.med_value.specs.Datum.{Whole, Chars, Logic, datum, tuple};
ghost use Rattle.list_wrapper.specs.Lists.{listed};
ghost use Rattle.fed_setup.specs.Demo as spec;

use list_wrapper::ListTable;
use med_value::{ColType, NoMemory, Row, Value};
use std::alloc::Global;

// The foreign table parts, up to its server.
const PARTS: &str =
    "CREATE FOREIGN TABLE parts (id integer NOT NULL, name text, qty integer, live boolean) SERVER ";

// The foreign table orders, up to its server.
const ORDERS: &str = "CREATE FOREIGN TABLE orders (no integer, part integer, n integer) SERVER ";

fn text(alloc: Global, text: &str) -> Result<Value, NoMemory>
    ensures { IfOk result (λ v. datum v ≡ Chars text.now) }
{
    Ok(Value::Text(text.to_string(alloc)?))
}

fn part(alloc: Global, id: i64, name: Value, quantity: Value, live: bool) -> Result<Row, NoMemory>
    ensures { IfOk result (λ r. tuple r ≡ Whole id ∷ datum name ∷ datum quantity ∷ Logic live ∷ []) }
{
    let cells = vec![in alloc; Value::Int(id), name, quantity, Value::Bool(live)]?;
    Ok(Row { cells })
}

fn order(alloc: Global, number: i64, part: i64, quantity: i64) -> Result<Row, NoMemory>
    ensures { IfOk result (λ r. tuple r ≡ Whole number ∷ Whole part ∷ Whole quantity ∷ []) }
{
    let cells = vec![in alloc; Value::Int(number), Value::Int(part), Value::Int(quantity)]?;
    Ok(Row { cells })
}

fn parts(alloc: Global) -> Result<ListTable, NoMemory>
    ensures { IfOk result (λ t. listed t ≡ spec.parts) }
{
    let bolt = part(alloc, 1, text(alloc, "bolt")?, Value::Int(10), true)?;
    let nut = part(alloc, 2, text(alloc, "nut")?, Value::Null, true)?;
    let nameless = part(alloc, 3, Value::Null, Value::Int(0), false)?;
    let kinds = vec![in alloc; ColType::Int, ColType::Text, ColType::Int, ColType::Bool]?;
    Ok(ListTable {
        name: "parts".to_string(alloc)?,
        kinds,
        rows: vec![in alloc; bolt, nut, nameless]?,
    })
}

fn orders(alloc: Global) -> Result<ListTable, NoMemory>
    ensures { IfOk result (λ t. listed t ≡ spec.orders) }
{
    let first = order(alloc, 10, 1, 4)?;
    let second = order(alloc, 11, 1, 6)?;
    let third = order(alloc, 12, 9, 1)?;
    let kinds = vec![in alloc; ColType::Int, ColType::Int, ColType::Int]?;
    Ok(ListTable {
        name: "orders".to_string(alloc)?,
        kinds,
        rows: vec![in alloc; first, second, third]?,
    })
}

/// The tables of the demo list. Refused only for want of memory.
pub fn demo_tables(alloc: Global) -> Result<Vec<ListTable>, NoMemory>
    ensures { IfOk result (λ tables. map listed tables.items ≡ spec.demo_list) }
{
    let parts = parts(alloc)?;
    let orders = orders(alloc)?;
    Ok(vec![in alloc; parts, orders]?)
}

/// The script that sets up the demo list as the source of this name: a wrapper of lists, a server of the same name, a mapping for everyone,
/// and the foreign tables parts and orders. Refused only for want of memory.
pub fn setup_script(alloc: Global, name: &str) -> Result<String, NoMemory>
    ensures { IfOk result (λ script. string_bytes script ≡ spec.setup_script name.now) }
{
    let mut script = String::new(alloc);
    script.push_str("CREATE FOREIGN DATA WRAPPER list HANDLER list\nCREATE SERVER ")?;
    script.push_str(name)?;
    script.push_str(" FOREIGN DATA WRAPPER list OPTIONS (source '")?;
    script.push_str(name)?;
    script.push_str("')\nCREATE USER MAPPING FOR PUBLIC SERVER ")?;
    script.push_str(name)?;
    script.push_str(" OPTIONS (mode 'write')\n")?;
    script.push_str(PARTS)?;
    script.push_str(name)?;
    script.push_str(" OPTIONS (table 'parts')\n")?;
    script.push_str(ORDERS)?;
    script.push_str(name)?;
    script.push_str(" OPTIONS (table 'orders')\n")?;
    Ok(script)
}
