//! Texts bound over the tables parts, orders and "Odd", and what is told of them.
use crate::expect::{cut, same_text};
use fdw_api::wishes::OrderKey;
use med_binder::{BoundQuery, TableView, bind_views};
use med_parser::{Command, parse};
use med_planner::{LoopOffer, offer_core, wish_of};
use med_query::SelectCore;
use med_value::{Cause, ColType, ColumnDef, Row, TableNo, Value, row_text};
use std::alloc::Global;
use std::str::from_utf8;
use std::test::Fail;
use tri_expr::{Expr, eval, verdict};

fn column(alloc: Global, name: &str, kind: ColType) -> Result<ColumnDef, Fail> {
    Ok(ColumnDef {
        name: name.to_string(alloc)?,
        kind,
        not_null: false,
    })
}

fn table<'a>(name: &'a str, columns: &'a [ColumnDef]) -> TableView<'a> {
    TableView {
        name,
        columns,
        source: 0,
        number: TableNo { number: 0 },
    }
}

// Of parts (id integer, name text, qty integer, live boolean).
fn parts(alloc: Global) -> Result<Vec<ColumnDef>, Fail> {
    Ok(vec![in alloc;
        column(alloc, "id", ColType::Int)?,
        column(alloc, "name", ColType::Text)?,
        column(alloc, "qty", ColType::Int)?,
        column(alloc, "live", ColType::Bool)?,
    ]?)
}

// Of orders (no integer, part integer, n integer).
fn orders(alloc: Global) -> Result<Vec<ColumnDef>, Fail> {
    Ok(vec![in alloc;
        column(alloc, "no", ColType::Int)?,
        column(alloc, "part", ColType::Int)?,
        column(alloc, "n", ColType::Int)?,
    ]?)
}

// Of "Odd" (a integer, a text, "B" boolean): two columns of one name.
fn odd(alloc: Global) -> Result<Vec<ColumnDef>, Fail> {
    Ok(vec![in alloc;
        column(alloc, "a", ColType::Int)?,
        column(alloc, "a", ColType::Text)?,
        column(alloc, "B", ColType::Bool)?,
    ]?)
}

fn text(alloc: Global, s: &str) -> Result<Value, Fail> {
    Ok(Value::Text(s.to_string(alloc)?))
}

// A row of the table: (1, 'bolt', 10, true), (10, 1, 4) or (1, 'x', true); without FROM the row of no columns.
fn row(alloc: Global, from: Option<usize>) -> Result<Row, Fail> {
    let cells = match from {
        Some(0) => vec![in alloc;
            Value::Int(1),
            text(alloc, "bolt")?,
            Value::Int(10),
            Value::Bool(true),
        ]?,
        Some(1) => vec![in alloc; Value::Int(10), Value::Int(1), Value::Int(4)]?,
        Some(_) => vec![in alloc; Value::Int(1), text(alloc, "x")?, Value::Bool(true)]?,
        None => Vec::new(alloc),
    };
    Ok(Row { cells })
}

// What the text is bound to over these tables.
fn bound_over(
    alloc: Global,
    text: &str,
    tables: &[TableView<'_>],
) -> Result<Result<BoundQuery, Cause>, Fail> {
    match parse(alloc, text) {
        Ok(Command::Data(statement)) => {
            let bound = bind_views(alloc, &statement, tables, "ann");
            drop(statement);
            Ok(bound)
        }
        Ok(other) => {
            drop(other);
            Err(text.into())
        }
        Err(_) => Err(text.into()),
    }
}

// What the text is bound to over the three tables.
fn bound(alloc: Global, text: &str) -> Result<Result<BoundQuery, Cause>, Fail> {
    let (parts, orders, odd) = (parts(alloc)?, orders(alloc)?, odd(alloc)?);
    let tables = [
        table("parts", parts.as_slice()),
        table("orders", orders.as_slice()),
        table("Odd", odd.as_slice()),
    ];
    bound_over(alloc, text, &tables)
}

// What is told of a bound query: the names of its answer and the fields for the first row of its first entry's table, or the fault of an item; how many
// conditions it has, and whether that row meets them; the places of the tables of its entries; the place of its first item's column; how many keys it groups
// by, and how many arguments its aggregates have; of each entry the columns that are read, and what its scan is offered; or the order that is wished of its
// scan's rows, and how many of them are enough.
fn tell(alloc: Global, told: &str, bound: &BoundQuery) -> Result<String, Fail> {
    match told {
        "answer" => answer(alloc, bound),
        "conditions" => conditions(alloc, bound),
        "entries" => entries(alloc, bound),
        "column" => first_column(alloc, bound),
        "groups" => groups(alloc, bound),
        "offers" => offers(alloc, bound),
        _ => wish(alloc, bound),
    }
}

// Fails where something else is told of a query of the rows `wanted | query`, or another code of its refusal.
fn each_tells(alloc: Global, told: &str, rows: &str) -> Result<(), Fail> {
    for row in rows.lines() {
        let (wanted, query) = cut(row)?;
        let came = match bound(alloc, query)? {
            Ok(bound) => tell(alloc, told, &bound)?,
            Err(cause) => cause.code().to_string(alloc)?,
        };
        same_text(query, came.as_bytes(), wanted)?;
    }
    Ok(())
}

// The place of the first entry's table; none without FROM.
fn place(bound: &BoundQuery) -> Option<usize> {
    match bound.entries.get(0) {
        Some(entry) => Some(entry.place),
        None => None,
    }
}

// Its core: a SELECT has one.
fn only_core(bound: &BoundQuery) -> Result<&SelectCore, Fail> {
    match bound.select.cores.as_slice() {
        [core] => Ok(core),
        _ => Err("not one core".into()),
    }
}

// The names with a space between each two.
fn names_text(alloc: Global, names: &[String]) -> Result<String, Fail> {
    let mut line = "".to_string(alloc)?;
    for name in names {
        if !line.is_empty() {
            line.push(' ')?;
        }
        line.push_str(name.as_str())?;
    }
    Ok(line)
}

// Or the fault of an item.
fn answer(alloc: Global, bound: &BoundQuery) -> Result<String, Fail> {
    let row = row(alloc, place(bound))?;
    let mut cells = Vec::new(alloc);
    for item in &only_core(bound)?.items {
        match eval(alloc, item, &row, &[]) {
            Ok(value) => cells.push(value)?,
            Err(fault) => return Ok(format!(in alloc; "{fault:?}")?),
        }
    }
    let mut fields = Vec::new(alloc);
    row_text(&Row { cells }, &mut fields)?;
    let fields = from_utf8(&fields)?;
    let names = names_text(alloc, &bound.names)?;
    Ok(format!(in alloc; "{names} = {fields}")?)
}

fn conditions(alloc: Global, bound: &BoundQuery) -> Result<String, Fail> {
    let row = row(alloc, place(bound))?;
    let core = only_core(bound)?;
    let count = core.conditions.len();
    let verdict = verdict(&core.conditions, &row, &[]);
    Ok(format!(in alloc; "{count} {verdict:?}")?)
}

fn entries(alloc: Global, bound: &BoundQuery) -> Result<String, Fail> {
    let mut line = "".to_string(alloc)?;
    for entry in &bound.entries {
        if !line.is_empty() {
            line.push(' ')?;
        }
        let place = format!(in alloc; "{}", entry.place)?;
        line.push_str(place.as_str())?;
    }
    Ok(line)
}

fn first_column(alloc: Global, bound: &BoundQuery) -> Result<String, Fail> {
    match only_core(bound)?.items.get(0) {
        Some(Expr::Column(place)) => Ok(format!(in alloc; "{place}")?),
        _ => Ok("no column".to_string(alloc)?),
    }
}

fn groups(alloc: Global, bound: &BoundQuery) -> Result<String, Fail> {
    match &only_core(bound)?.grouping {
        None => Ok("none".to_string(alloc)?),
        Some(grouping) => {
            let keys = grouping.keys.len();
            let arguments = grouping.arguments.len();
            Ok(format!(in alloc; "{keys} {arguments}")?)
        }
    }
}

fn offer_text(alloc: Global, offer: &LoopOffer) -> Result<String, Fail> {
    let mut line = format!(in alloc; "{:?}", offer.wanted)?;
    for restriction in &offer.entry.restrictions {
        let text = format!(in alloc; " {} {:?}", restriction.column, restriction.test)?;
        line.push_str(text.as_str())?;
    }
    Ok(line)
}

fn offers(alloc: Global, bound: &BoundQuery) -> Result<String, Fail> {
    let mut line = "".to_string(alloc)?;
    for offer in &offer_core(alloc, only_core(bound)?, bound.entries.as_slice())? {
        if !line.is_empty() {
            line.push_str(" / ")?;
        }
        line.push_str(offer_text(alloc, offer)?.as_str())?;
    }
    Ok(line)
}

// A key as ORDER BY writes it, by its column's place.
fn key_text(alloc: Global, key: &OrderKey) -> Result<String, Fail> {
    let direction = if key.desc { "DESC" } else { "ASC" };
    let nulls = if key.nulls_first { "FIRST" } else { "LAST" };
    Ok(format!(in alloc; "{} {direction} NULLS {nulls}, ", key.column)?)
}

fn wish(alloc: Global, bound: &BoundQuery) -> Result<String, Fail> {
    let offers = offer_core(alloc, only_core(bound)?, bound.entries.as_slice())?;
    let wish = wish_of(alloc, &bound.select, (vec![in alloc; offers]?).as_slice())?;
    let mut line = "".to_string(alloc)?;
    for key in &wish.order {
        line.push_str(key_text(alloc, key)?.as_str())?;
    }
    let limit = format!(in alloc; "{:?}", wish.limit)?;
    line.push_str(limit.as_str())?;
    Ok(line)
}

// Rows over a table that the program does not have: two of its columns have one name.
const ODD: &str = "\
B = t | SELECT \"B\" FROM \"Odd\"
a a B = 1\tx\tt | SELECT * FROM \"Odd\" o
42703 | SELECT b FROM \"Odd\"
42702 | SELECT a FROM \"Odd\"
42702 | SELECT \"Odd\".a FROM \"Odd\"
42702 | SELECT o.a FROM \"Odd\" o
42702 | SELECT \"B\" FROM \"Odd\" WHERE a = 1
42712 | SELECT 1 FROM parts p, orders, \"Odd\" CROSS JOIN parts p
42703 | SELECT 1 FROM parts JOIN orders ON a = 1 CROSS JOIN \"Odd\"
42703 | SELECT 1 FROM parts, orders JOIN \"Odd\" ON id = 1
42P01 | SELECT 1 FROM parts, orders JOIN \"Odd\" ON parts.id = 1
0A000 | SELECT 1 FROM parts, orders JOIN \"Odd\" ON no / 2 = 1
";

// Rows `conditions Ok(verdict) | query`.
const CONDITIONS: &str = "\
0 Ok(true) | SELECT 1
0 Ok(true) | SELECT 1 FROM parts
1 Ok(false) | SELECT 1 WHERE FALSE
1 Ok(false) | SELECT 1 WHERE NULL
1 Ok(true) | SELECT 1 FROM parts WHERE live
1 Ok(false) | SELECT 1 FROM parts WHERE id = 2
2 Ok(true) | SELECT 1 FROM parts WHERE id = 1 AND live
2 Ok(false) | SELECT 1 FROM parts WHERE id = 1 AND NOT live
1 Ok(true) | SELECT 1 FROM parts WHERE id = 2 OR live
4 Ok(true) | SELECT 1 FROM parts WHERE (id = 1 AND (live AND qty > 5)) AND name = 'bolt'
2 Ok(true) | SELECT 1 FROM parts WHERE id BETWEEN 1 AND 2 AND live
1 Ok(false) | SELECT 1 FROM parts p WHERE NOT (p.id = 1 AND p.live)
3 Ok(true) | SELECT no FROM orders WHERE part = 1 AND n = 4 AND no = 10
2 Ok(false) | SELECT no FROM orders WHERE part = 1 AND n = 10
";

// Rows `places | query`.
const ENTRIES: &str = "\
0 | SELECT 1 FROM parts
 | SELECT 1
1 | SELECT 1 FROM orders parts
2 | SELECT 1 FROM \"Odd\"
0 1 2 | SELECT 1 FROM parts, orders, \"Odd\"
2 1 0 | SELECT 1 FROM \"Odd\" JOIN orders ON TRUE, parts
1 1 0 | SELECT 1 FROM orders a LEFT JOIN orders b ON TRUE CROSS JOIN parts
";

// Rows `place | query` over parts and orders: parts has the places 0 to 3, orders 4 to 6.
const COLUMNS: &str = "\
4 | SELECT no FROM parts, orders
5 | SELECT orders.part FROM parts, orders
4 | SELECT o.* FROM parts p, orders o
0 | SELECT p.* FROM parts p CROSS JOIN orders o
6 | SELECT n FROM parts JOIN orders ON id = part
5 | SELECT o.part FROM parts LEFT JOIN orders o ON id = o.part
4 | SELECT b.part FROM orders a, orders b
";

// Rows `keys arguments | query`.
const GROUPS: &str = "\
0 0 | SELECT count(*) FROM parts
0 0 | SELECT 1 FROM parts HAVING TRUE
1 0 | SELECT name FROM parts GROUP BY name
1 2 | SELECT sum(qty), max(id) FROM parts GROUP BY parts.name
1 1 | SELECT name FROM parts GROUP BY name HAVING min(id) > 1
2 1 | SELECT name FROM parts GROUP BY name, live ORDER BY count(id)
2 0 | SELECT p.name FROM parts p, orders GROUP BY p.name, no
";

// Rows `offers | query`: of each entry the columns that are read, and the restrictions. The tables are parts (id, name, qty, live) and orders
// (no, part, n).
const OFFERS: &str = "\
[] | SELECT count(*) FROM parts
[1, 2] 2 Compare(Above, Constant(Int(5))) | SELECT name FROM parts WHERE qty > 5
[2] 2 Compare(Above, Constant(Int(5))) | SELECT 1 FROM parts WHERE 5 < qty
[0, 3] 3 IsNull | SELECT id FROM parts WHERE live IS NULL
[0, 2] | SELECT id FROM parts WHERE qty + 1 > 2
[0, 2] | SELECT id FROM parts WHERE qty > 1 OR qty IS NULL
[0] / [0, 1, 2] 1 Compare(Equal, Parameter(0)) 2 IsNotNull | SELECT no FROM parts, orders WHERE part = id AND n IS NOT NULL
[0, 2] 2 Compare(Below, Constant(Int(3))) / [0, 1] 1 Compare(Equal, Parameter(0)) \
| SELECT no FROM parts p JOIN orders o ON p.qty < 3 AND o.part = p.id
[0, 3] 3 IsNull / [0, 1, 2] 1 Compare(Equal, Parameter(0)) \
| SELECT no FROM parts p LEFT JOIN orders o ON o.part = p.id WHERE o.n IS NULL AND p.live IS NULL
[0, 2] / [1] 1 Compare(Equal, Parameter(0)) | SELECT 1 FROM parts p LEFT JOIN orders o ON o.part = p.id AND p.qty > 1
";

// Rows `wish | query`: the keys of the order that is wished, by the places of their columns, and how many rows are enough.
const WISHES: &str = "\
0 ASC NULLS LAST, None | SELECT name FROM parts ORDER BY id
0 ASC NULLS LAST, Some(5) | SELECT id FROM parts ORDER BY id LIMIT 3 OFFSET 2
2 DESC NULLS FIRST, 0 ASC NULLS LAST, Some(10) | SELECT id FROM parts ORDER BY qty DESC, id LIMIT 10
1 ASC NULLS FIRST, Some(0) | SELECT id FROM parts ORDER BY (name) NULLS FIRST LIMIT 0
0 ASC NULLS LAST, Some(2) | SELECT id AS x FROM parts ORDER BY x LIMIT 2
0 ASC NULLS LAST, Some(2) | SELECT id FROM parts WHERE qty > 5 AND live IS NULL ORDER BY 1 LIMIT 2
0 ASC NULLS LAST, None | SELECT id FROM parts WHERE qty > 5 OR live ORDER BY id LIMIT 2
0 ASC NULLS LAST, None | SELECT id FROM parts ORDER BY id LIMIT ALL OFFSET 2
0 ASC NULLS LAST, Some(18446744073709551614) | SELECT id FROM parts ORDER BY id LIMIT 9223372036854775807 OFFSET 9223372036854775807
Some(1) | SELECT id FROM parts LIMIT 1
None | SELECT id FROM parts WHERE name LIKE 'b%' LIMIT 1
None | SELECT id FROM parts ORDER BY qty + 1 LIMIT 1
None | SELECT id FROM parts ORDER BY id, qty IS NULL LIMIT 1
None | SELECT id FROM parts WHERE 10 / qty = 1 ORDER BY id LIMIT 1
None | SELECT qty + 1 FROM parts ORDER BY id LIMIT 1
None | SELECT DISTINCT id FROM parts ORDER BY id LIMIT 1
None | SELECT qty FROM parts GROUP BY qty ORDER BY qty LIMIT 1
None | SELECT count(*) FROM parts LIMIT 1
None | SELECT p.id FROM parts p, orders o ORDER BY p.id LIMIT 1
None | SELECT 1 LIMIT 1
";

const TOLD: [(&str, &str); 7] = [
    ("answer", ODD),
    ("conditions", CONDITIONS),
    ("entries", ENTRIES),
    ("column", COLUMNS),
    ("groups", GROUPS),
    ("offers", OFFERS),
    ("wish", WISHES),
];

#[test]
fn queries_are_bound_and_offered(rt: HostRuntime) -> Result<(), Fail> {
    for (told, rows) in TOLD {
        each_tells(rt.alloc(), told, rows)?;
    }
    Ok(())
}
