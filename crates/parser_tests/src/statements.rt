//! Statements read and written out.
use crate::rows::{Answer, assert_row, assert_rows};
use med_parser::{Command, parse, print};
use med_value::NoMemory;
use std::alloc::Global;
use std::test::Fail;

/// The statement of the text, written out, or why it is refused.
pub fn statement_text(alloc: Global, text: &str) -> Result<String, NoMemory> {
    match parse(alloc, text) {
        Ok(command) => Ok(print(alloc, &command)?),
        Err(cause) => Ok(format!(in alloc; "{cause:?}")?),
    }
}

/// The same, as an answer.
pub struct Printed;

impl Answer for Printed {
    fn answer(alloc: Global, text: &str) -> Result<String, Fail> {
        Ok(statement_text(alloc, text)?)
    }
}

#[test]
fn items(rt: HostRuntime) -> Result<(), Fail> {
    assert_rows::<Printed>(
        rt.alloc(),
        &rt,
        "SELECT a+1 x FROM t => SELECT \"a\" + 1 AS \"x\" FROM \"t\"\n\
        SELECT 1 => SELECT 1\n\
        select * => SELECT *\n\
        SELECT * FROM t => SELECT * FROM \"t\"\n\
        SELECT t.* FROM t => SELECT \"t\" . * FROM \"t\"\n\
        SELECT t . * , * FROM t => SELECT \"t\" . * , * FROM \"t\"\n\
        SELECT *, * => SELECT * , *\n\
        SELECT \"T\".*, a FROM \"T\" => SELECT \"T\" . * , \"a\" FROM \"T\"\n\
        SELECT a*b => SELECT \"a\" * \"b\"\n\
        SELECT t.a*b => SELECT \"t\" . \"a\" * \"b\"\n\
        SELECT a b => SELECT \"a\" AS \"b\"\n\
        SELECT a AS b => SELECT \"a\" AS \"b\"\n\
        SELECT a \"B c\" => SELECT \"a\" AS \"B c\"\n\
        SELECT a AS \"B\"\"c\" => SELECT \"a\" AS \"B\"\"c\"\n\
        SELECT a B => SELECT \"a\" AS \"b\"\n\
        SELECT a AS from FROM t => SELECT \"a\" AS \"from\" FROM \"t\"\n\
        SELECT a AS as => SELECT \"a\" AS \"as\"\n\
        SELECT a AS As => SELECT \"a\" AS \"as\"\n\
        SELECT a AS \"AS\" => SELECT \"a\" AS \"AS\"\n\
        SELECT a AS and, b AS or => SELECT \"a\" AS \"and\" , \"b\" AS \"or\"\n\
        SELECT a AS is, unknown => SELECT \"a\" AS \"is\" , \"unknown\"\n\
        SELECT a AS is FROM unknown => SELECT \"a\" AS \"is\" FROM \"unknown\"\n\
        SELECT a AS unknown => SELECT \"a\" AS \"unknown\"\n\
        SELECT a unknown => SELECT \"a\" AS \"unknown\"\n\
        SELECT a IS UNKNOWN unknown => SELECT \"a\" IS UNKNOWN AS \"unknown\"\n\
        SELECT a IS NOT NULL b => SELECT \"a\" IS NOT NULL AS \"b\"\n\
        SELECT -9223372036854775808 => SELECT - 9223372036854775808\n\
        SELECT - 9223372036854775808 => SELECT - 9223372036854775808\n\
        SELECT 9223372036854775807 n => SELECT 9223372036854775807 AS \"n\"\n\
        SELECT -1 - -1 x => SELECT - 1 - - 1 AS \"x\"\n\
        SELECT(1)x => SELECT ( 1 ) AS \"x\"\n\
        SELECT'a'b => SELECT 'a' AS \"b\"\n\
        SELECT 'from' FROM t => SELECT 'from' FROM \"t\"\n\
        SELECT \"from\" FROM \"where\" => SELECT \"from\" FROM \"where\"\n\
        SELECT a -- b => SELECT \"a\"\n\
        SELECT a, b AS c, d e => SELECT \"a\" , \"b\" AS \"c\" , \"d\" AS \"e\"\n\
        SELECT a OR b c, NOT d e => SELECT \"a\" OR \"b\" AS \"c\" , NOT \"d\" AS \"e\"\n\
        SELECT a IN (1, 2) x, a BETWEEN 1 AND 2 y, a LIKE 'z%' z => SELECT \"a\" IN ( 1 , 2 ) AS \"x\" , \"a\" BETWEEN 1 AND 2 AS \"y\" , \"a\" LIKE 'z%' AS \"z\"\n\
        SELECT next, row => SELECT \"next\" , \"row\"\n\
        SELECT TRUE, null n, False => SELECT TRUE , NULL AS \"n\" , FALSE",
    )
}

#[test]
fn clauses(rt: HostRuntime) -> Result<(), Fail> {
    assert_rows::<Printed>(
        rt.alloc(),
        &rt,
        "SELECT a FROM t; => SELECT \"a\" FROM \"t\"\n\
        SELECT 1 ; => SELECT 1\n\
        SELECT a FROM t u => SELECT \"a\" FROM \"t\" AS \"u\"\n\
        SELECT a FROM t AS u => SELECT \"a\" FROM \"t\" AS \"u\"\n\
        SELECT a FROM T As \"U\" => SELECT \"a\" FROM \"t\" AS \"U\"\n\
        SELECT a FROM \"t\"\"u\" => SELECT \"a\" FROM \"t\"\"u\"\n\
        SELECT a b FROM t u => SELECT \"a\" AS \"b\" FROM \"t\" AS \"u\"\n\
        SELECT a FROM t WHERE b => SELECT \"a\" FROM \"t\" WHERE \"b\"\n\
        SELECT a FROM t u WHERE b; => SELECT \"a\" FROM \"t\" AS \"u\" WHERE \"b\"\n\
        SELECT 1 WHERE a => SELECT 1 WHERE \"a\"\n\
        SELECT * WHERE true; => SELECT * WHERE TRUE\n\
        SELECT a where b => SELECT \"a\" WHERE \"b\"\n\
        SELECT u.a FROM t u WHERE u.a = 1 => SELECT \"u\" . \"a\" FROM \"t\" AS \"u\" WHERE \"u\" . \"a\" = 1\n\
        SELECT a FROM t WHERE a AND b OR NOT (c) => SELECT \"a\" FROM \"t\" WHERE \"a\" AND \"b\" OR NOT ( \"c\" )\n\
        SELECT a FROM t WHERE a IS UNKNOWN => SELECT \"a\" FROM \"t\" WHERE \"a\" IS UNKNOWN\n\
        SELECT a FROM t WHERE a = -9223372036854775808 => SELECT \"a\" FROM \"t\" WHERE \"a\" = - 9223372036854775808\n\
        SELECT a.b c FROM d e WHERE f.g != 'h' AND i IS NULL; => SELECT \"a\" . \"b\" AS \"c\" FROM \"d\" AS \"e\" WHERE \"f\" . \"g\" <> 'h' AND \"i\" IS NULL\n\
        SELECT id, name FROM parts => SELECT \"id\" , \"name\" FROM \"parts\"\n\
        SELECT a FROM unknown unknown => SELECT \"a\" FROM \"unknown\" AS \"unknown\"",
    )
}

#[test]
fn joins(rt: HostRuntime) -> Result<(), Fail> {
    assert_rows::<Printed>(
        rt.alloc(),
        &rt,
        "SELECT * FROM a, b => SELECT * FROM \"a\" , \"b\"\n\
        SELECT * FROM a x, b AS y, c => SELECT * FROM \"a\" AS \"x\" , \"b\" AS \"y\" , \"c\"\n\
        SELECT * FROM a JOIN b ON x = y => SELECT * FROM \"a\" JOIN \"b\" ON \"x\" = \"y\"\n\
        SELECT * FROM a INNER JOIN b ON x => SELECT * FROM \"a\" JOIN \"b\" ON \"x\"\n\
        SELECT * FROM a LEFT JOIN b ON x => SELECT * FROM \"a\" LEFT JOIN \"b\" ON \"x\"\n\
        SELECT * FROM a left outer join b y on x => SELECT * FROM \"a\" LEFT JOIN \"b\" AS \"y\" ON \"x\"\n\
        SELECT * FROM a CROSS JOIN b AS c => SELECT * FROM \"a\" CROSS JOIN \"b\" AS \"c\"\n\
        SELECT * FROM a z JOIN b ON x LEFT JOIN c ON y CROSS JOIN d, e JOIN f ON z WHERE w => SELECT * FROM \"a\" AS \"z\" JOIN \"b\" ON \"x\" LEFT JOIN \"c\" ON \"y\" CROSS JOIN \"d\" , \"e\" JOIN \"f\" ON \"z\" WHERE \"w\"",
    )
}

#[test]
fn groups_and_keys(rt: HostRuntime) -> Result<(), Fail> {
    assert_rows::<Printed>(
        rt.alloc(),
        &rt,
        "SELECT DISTINCT a => SELECT DISTINCT \"a\"\n\
        SELECT ALL a => SELECT \"a\"\n\
        SELECT distinct * => SELECT DISTINCT *\n\
        SELECT a FROM t GROUP BY a => SELECT \"a\" FROM \"t\" GROUP BY \"a\"\n\
        SELECT a FROM t WHERE b GROUP BY t.a, \"B\" HAVING c => SELECT \"a\" FROM \"t\" WHERE \"b\" GROUP BY \"t\" . \"a\" , \"B\" HAVING \"c\"\n\
        SELECT 1 HAVING a => SELECT 1 HAVING \"a\"\n\
        SELECT a ORDER BY a => SELECT \"a\" ORDER BY \"a\" ASC NULLS LAST\n\
        SELECT a ORDER BY a ASC, b DESC => SELECT \"a\" ORDER BY \"a\" ASC NULLS LAST , \"b\" DESC NULLS FIRST\n\
        SELECT a ORDER BY a NULLS FIRST, b DESC NULLS LAST, c + 1 asc nulls last => SELECT \"a\" ORDER BY \"a\" ASC NULLS FIRST , \"b\" DESC NULLS LAST , \"c\" + 1 ASC NULLS LAST\n\
        SELECT a ORDER BY 1 DESC NULLS FIRST => SELECT \"a\" ORDER BY 1 DESC NULLS FIRST\n\
        SELECT a FROM t ORDER BY a IS NULL, (b) => SELECT \"a\" FROM \"t\" ORDER BY \"a\" IS NULL ASC NULLS LAST , ( \"b\" ) ASC NULLS LAST",
    )
}

#[test]
fn limits(rt: HostRuntime) -> Result<(), Fail> {
    assert_rows::<Printed>(
        rt.alloc(),
        &rt,
        "SELECT a LIMIT 1 => SELECT \"a\" LIMIT 1\n\
        SELECT a LIMIT ALL => SELECT \"a\" LIMIT ALL\n\
        SELECT a OFFSET 2 => SELECT \"a\" OFFSET 2\n\
        SELECT a OFFSET 2 ROW => SELECT \"a\" OFFSET 2\n\
        SELECT a OFFSET 2 ROWS; => SELECT \"a\" OFFSET 2\n\
        SELECT a LIMIT 1 OFFSET 2 => SELECT \"a\" LIMIT 1 OFFSET 2\n\
        SELECT a OFFSET 2 LIMIT 1 => SELECT \"a\" LIMIT 1 OFFSET 2\n\
        SELECT a OFFSET 2 rows LIMIT ALL => SELECT \"a\" LIMIT ALL OFFSET 2\n\
        SELECT a LIMIT 0 OFFSET 0 => SELECT \"a\" LIMIT 0 OFFSET 0\n\
        SELECT a LIMIT 9223372036854775807 OFFSET 9223372036854775807 => SELECT \"a\" LIMIT 9223372036854775807 OFFSET 9223372036854775807\n\
        SELECT DISTINCT a, b FROM t JOIN u ON c WHERE d GROUP BY a, b HAVING e ORDER BY a DESC LIMIT 3 OFFSET 4 ROWS => SELECT DISTINCT \"a\" , \"b\" FROM \"t\" JOIN \"u\" ON \"c\" WHERE \"d\" GROUP BY \"a\" , \"b\" HAVING \"e\" ORDER BY \"a\" DESC NULLS FIRST LIMIT 3 OFFSET 4",
    )
}

#[test]
fn unions(rt: HostRuntime) -> Result<(), Fail> {
    assert_rows::<Printed>(
        rt.alloc(),
        &rt,
        "SELECT \"id\" FROM \"parts\" UNION ALL SELECT \"part\" FROM \"orders\" ORDER BY \"id\" DESC NULLS FIRST LIMIT 3 => SELECT \"id\" FROM \"parts\" UNION ALL SELECT \"part\" FROM \"orders\" ORDER BY \"id\" DESC NULLS FIRST LIMIT 3\n\
        select 1 union all select 2 Union All select 3; => SELECT 1 UNION ALL SELECT 2 UNION ALL SELECT 3\n\
        SELECT DISTINCT a FROM t WHERE b UNION ALL SELECT ALL c FROM u JOIN v ON d GROUP BY c HAVING e UNION ALL SELECT * => SELECT DISTINCT \"a\" FROM \"t\" WHERE \"b\" UNION ALL SELECT \"c\" FROM \"u\" JOIN \"v\" ON \"d\" GROUP BY \"c\" HAVING \"e\" UNION ALL SELECT *\n\
        SELECT a x FROM t u UNION ALL SELECT b OFFSET 1 ROW LIMIT 2 => SELECT \"a\" AS \"x\" FROM \"t\" AS \"u\" UNION ALL SELECT \"b\" LIMIT 2 OFFSET 1\n\
        SELECT 1 UNION ALL SELECT 2 UNION ALL SELECT 3 UNION ALL SELECT 4 UNION ALL SELECT 5 UNION ALL SELECT 6 UNION ALL SELECT 7 UNION ALL SELECT 8 ORDER BY 1 DESC, (n) LIMIT 5 OFFSET 1 => SELECT 1 UNION ALL SELECT 2 UNION ALL SELECT 3 UNION ALL SELECT 4 UNION ALL SELECT 5 UNION ALL SELECT 6 UNION ALL SELECT 7 UNION ALL SELECT 8 ORDER BY 1 DESC NULLS FIRST , ( \"n\" ) ASC NULLS LAST LIMIT 5 OFFSET 1\n\
        SELECT 1 AS union UNION ALL SELECT 2 AS all => SELECT 1 AS \"union\" UNION ALL SELECT 2 AS \"all\"\n\
        SELECT 1 UNION SELECT 2 => Syntax\n\
        SELECT 1 UNION DISTINCT SELECT 2 => Syntax\n\
        SELECT 1 UNION ALL => Syntax\n\
        SELECT 1 UNION ALL; => Syntax\n\
        SELECT 1 UNION ALL SELECT => Syntax\n\
        SELECT 1 UNION ALL VALUES (2) => Syntax\n\
        SELECT 1 UNION ALL (SELECT 2) => Syntax\n\
        SELECT 1 UNION ALL UNION ALL SELECT 2 => Syntax\n\
        UNION ALL SELECT 1 => Syntax\n\
        SELECT 1 ORDER BY 1 UNION ALL SELECT 2 => Syntax\n\
        SELECT 1 UNION ALL SELECT 2 ORDER BY 1 UNION ALL SELECT 3 => Syntax\n\
        SELECT 1 LIMIT 1 UNION ALL SELECT 2 => Syntax\n\
        SELECT 1 UNION ALL SELECT 9223372036854775808 => LiteralOutOfRange\n\
        SELECT a FROM union => Syntax",
    )
}

#[test]
fn keywords_that_are_names(rt: HostRuntime) -> Result<(), Fail> {
    assert_rows::<Printed>(
        rt.alloc(),
        &rt,
        "SELECT nulls first FROM nulls first => SELECT \"nulls\" AS \"first\" FROM \"nulls\" AS \"first\"\n\
        SELECT first, last AS nulls, 1 row, rows FROM t row => SELECT \"first\" , \"last\" AS \"nulls\" , 1 AS \"row\" , \"rows\" FROM \"t\" AS \"row\"\n\
        SELECT a FROM t GROUP BY nulls, first.last => SELECT \"a\" FROM \"t\" GROUP BY \"nulls\" , \"first\" . \"last\"\n\
        SELECT a ORDER BY nulls NULLS FIRST, first, nulls.last DESC, row + rows => SELECT \"a\" ORDER BY \"nulls\" ASC NULLS FIRST , \"first\" ASC NULLS LAST , \"nulls\" . \"last\" DESC NULLS FIRST , \"row\" + \"rows\" ASC NULLS LAST\n\
        SELECT a ORDER BY \"nulls\" NULLS LAST => SELECT \"a\" ORDER BY \"nulls\" ASC NULLS LAST\n\
        SELECT a AS order FROM nulls first => SELECT \"a\" AS \"order\" FROM \"nulls\" AS \"first\"\n\
        SELECT a AS as ORDER BY a NULLS FIRST OFFSET 1 ROW LIMIT 2 => SELECT \"a\" AS \"as\" ORDER BY \"a\" ASC NULLS FIRST LIMIT 2 OFFSET 1\n\
        SELECT a AS offset, 1 row FROM t => SELECT \"a\" AS \"offset\" , 1 AS \"row\" FROM \"t\"",
    )
}

#[test]
fn newlines_stand_between_tokens(rt: HostRuntime) -> Result<(), Fail> {
    assert_row::<Printed>(
        rt.alloc(),
        &rt,
        "\tselect\r\n A ,b\tFrom T ; -- both => SELECT \"a\" , \"b\" FROM \"t\"",
    )
}

#[test]
fn objects(rt: HostRuntime) -> Result<(), Fail> {
    assert_rows::<Printed>(
        rt.alloc(),
        &rt,
        "CREATE FOREIGN DATA WRAPPER list HANDLER list => CREATE FOREIGN DATA WRAPPER \"list\" HANDLER \"list\"\n\
        create foreign data wrapper \"L\" handler csv; => CREATE FOREIGN DATA WRAPPER \"L\" HANDLER \"csv\"\n\
        CREATE SERVER demo FOREIGN DATA WRAPPER list OPTIONS (source 'demo') => CREATE SERVER \"demo\" FOREIGN DATA WRAPPER \"list\" OPTIONS ( \"source\" 'demo' )\n\
        CREATE SERVER IF NOT EXISTS s TYPE 'a' VERSION '1''2' FOREIGN DATA WRAPPER w => CREATE SERVER IF NOT EXISTS \"s\" TYPE 'a' VERSION '1''2' FOREIGN DATA WRAPPER \"w\"\n\
        CREATE USER MAPPING FOR PUBLIC SERVER demo OPTIONS (mode 'write') => CREATE USER MAPPING FOR \"public\" SERVER \"demo\" OPTIONS ( \"mode\" 'write' )\n\
        CREATE USER MAPPING IF NOT EXISTS FOR USER SERVER demo => CREATE USER MAPPING IF NOT EXISTS FOR USER SERVER \"demo\"\n\
        CREATE USER MAPPING FOR current_user SERVER s OPTIONS (mode 'read') => CREATE USER MAPPING FOR USER SERVER \"s\" OPTIONS ( \"mode\" 'read' )\n\
        CREATE USER MAPPING FOR \"Ann\" SERVER server; => CREATE USER MAPPING FOR \"Ann\" SERVER \"server\"\n\
        CREATE FOREIGN TABLE parts (id integer NOT NULL, name text, qty integer NULL, live boolean) SERVER demo OPTIONS (table 'parts') => CREATE FOREIGN TABLE \"parts\" ( \"id\" \"integer\" NOT NULL , \"name\" \"text\" , \"qty\" \"integer\" , \"live\" \"boolean\" ) SERVER \"demo\" OPTIONS ( \"table\" 'parts' )\n\
        CREATE FOREIGN TABLE IF NOT EXISTS t (a text OPTIONS (member 'b', select '') NOT NULL) SERVER s => CREATE FOREIGN TABLE IF NOT EXISTS \"t\" ( \"a\" \"text\" OPTIONS ( \"member\" 'b' , \"select\" '' ) NOT NULL ) SERVER \"s\"\n\
        DROP FOREIGN DATA WRAPPER list => DROP FOREIGN DATA WRAPPER \"list\"\n\
        DROP FOREIGN DATA WRAPPER IF EXISTS list RESTRICT => DROP FOREIGN DATA WRAPPER IF EXISTS \"list\"\n\
        DROP SERVER IF EXISTS demo RESTRICT; => DROP SERVER IF EXISTS \"demo\"\n\
        DROP SERVER restrict => DROP SERVER \"restrict\"\n\
        DROP FOREIGN TABLE parts => DROP FOREIGN TABLE \"parts\"\n\
        DROP FOREIGN TABLE IF EXISTS parts RESTRICT => DROP FOREIGN TABLE IF EXISTS \"parts\"\n\
        DROP USER MAPPING FOR PUBLIC SERVER demo => DROP USER MAPPING FOR \"public\" SERVER \"demo\"\n\
        DROP USER MAPPING IF EXISTS FOR USER SERVER demo => DROP USER MAPPING IF EXISTS FOR USER SERVER \"demo\"",
    )
}

/// The tree of the text, or why it is refused.
struct Tree;

impl Answer for Tree {
    fn answer(alloc: Global, text: &str) -> Result<String, Fail> {
        match parse(alloc, text) {
            Ok(Command::Data(statement)) => Ok(format!(in alloc; "{statement:?}")?),
            Ok(Command::Rows(statement)) => Ok(format!(in alloc; "{statement:?}")?),
            Ok(Command::Cursor(statement)) => Ok(format!(in alloc; "{statement:?}")?),
            Ok(Command::Ddl(statement)) => Ok(format!(in alloc; "{statement:?}")?),
            Err(cause) => Ok(format!(in alloc; "{cause:?}")?),
        }
    }
}

#[test]
fn trees(rt: HostRuntime) -> Result<(), Fail> {
    assert_rows::<Tree>(
        rt.alloc(),
        &rt,
        "SELECT DISTINCT a FROM t JOIN u ON b LEFT JOIN v ON c CROSS JOIN w, x GROUP BY a, t.b HAVING c ORDER BY a, b DESC, c NULLS FIRST LIMIT 5 OFFSET 6 => Select(Select { core: Core { distinct: true, items: [Expression(Column(None, \"a\"), None)], from: [Chain { first: Entry { table: \"t\", alias: None }, joins: [Inner(Entry { table: \"u\", alias: None }, Column(None, \"b\")), Left(Entry { table: \"v\", alias: None }, Column(None, \"c\")), Cross(Entry { table: \"w\", alias: None })] }, Chain { first: Entry { table: \"x\", alias: None }, joins: [] }], condition: None, groups: [GroupColumn { qualifier: None, name: \"a\" }, GroupColumn { qualifier: Some(\"t\"), name: \"b\" }], having: Some(Column(None, \"c\")) }, others: [], keys: [OrderKey { key: Column(None, \"a\"), descending: false, nulls_first: false }, OrderKey { key: Column(None, \"b\"), descending: true, nulls_first: true }, OrderKey { key: Column(None, \"c\"), descending: false, nulls_first: true }], limit: Some(Rows(5)), offset: Some(6) })\n\
        SELECT *, t.*, a + 1 x, b FROM t u WHERE c => Select(Select { core: Core { distinct: false, items: [All, AllOf(\"t\"), Expression(Binary(Add, Column(None, \"a\"), Number(1)), Some(\"x\")), Expression(Column(None, \"b\"), None)], from: [Chain { first: Entry { table: \"t\", alias: Some(\"u\") }, joins: [] }], condition: Some(Column(None, \"c\")), groups: [], having: None }, others: [], keys: [], limit: None, offset: None })\n\
        SELECT 1 => Select(Select { core: Core { distinct: false, items: [Expression(Number(1), None)], from: [], condition: None, groups: [], having: None }, others: [], keys: [], limit: None, offset: None })\n\
        SELECT 1 UNION ALL SELECT DISTINCT * FROM t HAVING c LIMIT ALL => Select(Select { core: Core { distinct: false, items: [Expression(Number(1), None)], from: [], condition: None, groups: [], having: None }, others: [Core { distinct: true, items: [All], from: [Chain { first: Entry { table: \"t\", alias: None }, joins: [] }], condition: None, groups: [], having: Some(Column(None, \"c\")) }], keys: [], limit: Some(All), offset: None })",
    )
}
