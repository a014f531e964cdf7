//! Long texts of statements, and memory that is refused.
use crate::rows::{Answer, assert_rows, repeated};
use crate::statements::statement_text;
use med_parser::parse;
use std::alloc::Global;
use std::process::Abort;
use std::test::Fail;

/// How the text of a row of parts is answered, and how long it is.
struct Outcome;

impl Answer for Outcome {
    fn answer(alloc: Global, row: &str) -> Result<String, Fail> {
        let text = repeated(alloc, row)?;
        let length = text.len();
        Ok(match parse(alloc, &text) {
            Ok(_) => format!(in alloc; "read in {length} bytes")?,
            Err(cause) => format!(in alloc; "{cause:?} in {length} bytes")?,
        })
    }
}

/// The same where a refusal may have any cause.
struct Refusal;

impl Answer for Refusal {
    fn answer(alloc: Global, row: &str) -> Result<String, Fail> {
        let text = repeated(alloc, row)?;
        let length = text.len();
        Ok(match parse(alloc, &text) {
            Ok(_) => format!(in alloc; "read in {length} bytes")?,
            Err(_) => format!(in alloc; "refused in {length} bytes")?,
        })
    }
}

// In the first two there are over 64 tokens that deepen, and no expression is high.
#[test]
fn long_texts(rt: HostRuntime) -> Result<(), Fail> {
    assert_rows::<Outcome>(
        rt.alloc(),
        &rt,
        "1*SELECT *, t.*, a * 1 b\t1000*, -a * (1) c => read in 12022 bytes\n\
        1*SELECT *\t349522*, * => read in 1048574 bytes\n\
        1*SELECT 1\t1000* UNION ALL SELECT -1 => read in 20008 bytes\n\
        1*SELECT 1 UNION ALL SELECT 1\t64*+1\t1* UNION ALL SELECT 1 => TooDeep in 174 bytes\n\
        1*SELECT 1\t524284*+1 => TooDeep in 1048576 bytes\n\
        1*SELECT a WHERE 1\t30000*+1 => TooDeep in 60016 bytes",
    )
}

// 64 is the height that is read; of a text that is no expression, or no command, 64 tokens that can deepen one are not too many. A call of nothing and one of
// all are as high as a number, a chain and a list are one node each, and many low expressions are no high one.
#[test]
fn heights(rt: HostRuntime) -> Result<(), Fail> {
    assert_rows::<Outcome>(
        rt.alloc(),
        &rt,
        "1*SELECT \t63*(\t1*1\t63*) => read in 134 bytes\n\
        1*SELECT \t64*(\t1*1\t64*) => TooDeep in 136 bytes\n\
        1*SELECT \t64*(\t1*1 => Syntax in 72 bytes\n\
        1*SELECT \t63*not \t1*a => read in 260 bytes\n\
        1*SELECT \t64*not \t1*a => TooDeep in 264 bytes\n\
        1*SELECT \t1*1\t63*+1 => read in 134 bytes\n\
        1*SELECT \t1*1\t64*+1 => TooDeep in 136 bytes\n\
        1*SELECT \t63*f(\t1*1\t63*) => read in 197 bytes\n\
        1*SELECT \t64*f(\t1*1\t64*) => TooDeep in 200 bytes\n\
        1*SELECT \t63*f(\t1*g()\t63*) => read in 199 bytes\n\
        1*SELECT \t63*f(1, \t1*g(*)\t63*) => read in 389 bytes\n\
        1*SELECT \t64*f(\t1*g(*)\t64*) => TooDeep in 203 bytes\n\
        1*SELECT \t64*f(\t1*1 => Syntax in 136 bytes\n\
        1*SELECT \t1*a\t9000* and a => read in 54008 bytes\n\
        1*SELECT \t1*a in (1\t9000*, a\t1*) => read in 27015 bytes\n\
        1*SELECT \t1*f(1\t9000*, a\t1*) => read in 27011 bytes\n\
        1*DELETE FROM t WHERE 1\t63*+1 => read in 147 bytes\n\
        1*DELETE FROM t WHERE 1\t64*+1 => TooDeep in 149 bytes\n\
        1*UPDATE t SET a = 1, b = 1\t64*+1 => TooDeep in 153 bytes\n\
        1*UPDATE t SET a = 1\t63*+1\t1*, b = 1\t63*+1 => read in 277 bytes\n\
        1*UPDATE t SET a = 1 WHERE 1\t64*+1 => TooDeep in 154 bytes\n\
        1*INSERT INTO t VALUES (1\t63*+1\t1*) => read in 150 bytes\n\
        1*INSERT INTO t VALUES (1), (1\t64*+1\t1*) => TooDeep in 157 bytes\n\
        1*INSERT INTO t VALUES (1)\t1000*, (-1) => read in 6024 bytes\n\
        1*INSERT INTO t SELECT 1\t63*+1 => read in 148 bytes\n\
        1*INSERT INTO t SELECT 1\t64*+1 => TooDeep in 150 bytes\n\
        1*DECLARE c CURSOR FOR SELECT 1\t63*+1 => read in 155 bytes\n\
        1*DECLARE c CURSOR FOR SELECT 1\t64*+1 => TooDeep in 157 bytes\n\
        1*DECLARE c CURSOR FOR SELECT 1\t40*, (-1) => read in 269 bytes\n\
        1*FETCH \t64*( => Syntax in 70 bytes\n\
        1*CLOSE c \t64*+ => Syntax in 72 bytes",
    )
}

#[test]
fn long_texts_that_are_refused(rt: HostRuntime) -> Result<(), Fail> {
    assert_rows::<Refusal>(
        rt.alloc(),
        &rt,
        "1*SELECT \t1048569*( => refused in 1048576 bytes\n\
        1*SELECT a FROM t WHERE \t60000*( => refused in 60022 bytes\n\
        1*SELECT \t16000*not  => refused in 64007 bytes\n\
        1*SELECT \t30000*(\t1*1 => refused in 30008 bytes\n\
        1*SELECT \t1*1\t30000*+1 => refused in 60008 bytes\n\
        1*SELECT \t15000*not \t1*a => refused in 60008 bytes",
    )
}

/// Stops where a text is written out otherwise than its row wants, or refused though memory was not. To write it out fails for want of
/// memory alone.
fn assert_written_or_no_memory(alloc: Global, rt: &impl Abort, row: &str) -> Result<(), Fail> {
    let (text, wanted) = row.split_once(" => ").ok_or(row)?;
    if let Ok(came) = statement_text(alloc, text) {
        if came.as_str() != "OutOfMemory" {
            assert_eq!(rt; came.as_str(), wanted, "in {text}");
        }
    }
    Ok(())
}

/// The same of each line.
fn assert_all_written_or_no_memory(alloc: Global, rt: &impl Abort, rows: &str) -> Result<(), Fail> {
    for row in rows.lines() {
        assert_written_or_no_memory(alloc, rt, row)?;
    }
    Ok(())
}

// This holds whichever allocation is refused: `rt try --test --fail-alloc N` refuses the Nth.
#[test]
fn refused_allocations(rt: HostRuntime) -> Result<(), Fail> {
    assert_all_written_or_no_memory(
        rt.alloc(),
        &rt,
        "SELECT *, t.*, a AS from, 'b' c => SELECT * , \"t\" . * , \"a\" AS \"from\" , 'b' AS \"c\"\n\
        SELECT 1 FROM t AS u WHERE a IN (1, b, 'c') AND NOT d LIKE 'e' => SELECT 1 FROM \"t\" AS \"u\" WHERE \"a\" IN ( 1 , \"b\" , 'c' ) AND NOT \"d\" LIKE 'e'\n\
        SELECT -(a + 1) * -2 x WHERE a BETWEEN 1 AND b OR c IS NOT UNKNOWN OR t.d => SELECT - ( \"a\" + 1 ) * - 2 AS \"x\" WHERE \"a\" BETWEEN 1 AND \"b\" OR \"c\" IS NOT UNKNOWN OR \"t\" . \"d\"\n\
        SELECT DISTINCT 1 FROM t u JOIN v ON a LEFT JOIN w x ON b CROSS JOIN y, z => SELECT DISTINCT 1 FROM \"t\" AS \"u\" JOIN \"v\" ON \"a\" LEFT JOIN \"w\" AS \"x\" ON \"b\" CROSS JOIN \"y\" , \"z\"\n\
        SELECT a GROUP BY a, t.b HAVING c ORDER BY a, b DESC NULLS LAST OFFSET 2 ROWS LIMIT 1 => SELECT \"a\" GROUP BY \"a\" , \"t\" . \"b\" HAVING \"c\" ORDER BY \"a\" ASC NULLS LAST , \"b\" DESC NULLS LAST LIMIT 1 OFFSET 2\n\
        SELECT a UNION ALL SELECT b FROM t UNION ALL SELECT 'c' ORDER BY a => SELECT \"a\" UNION ALL SELECT \"b\" FROM \"t\" UNION ALL SELECT 'c' ORDER BY \"a\" ASC NULLS LAST\n\
        CREATE FOREIGN TABLE t (a text OPTIONS (b 'c') NOT NULL, d integer NULL) SERVER s OPTIONS (e 'f') => CREATE FOREIGN TABLE \"t\" ( \"a\" \"text\" OPTIONS ( \"b\" 'c' ) NOT NULL , \"d\" \"integer\" ) SERVER \"s\" OPTIONS ( \"e\" 'f' )\n\
        DROP USER MAPPING IF EXISTS FOR u SERVER s; => DROP USER MAPPING IF EXISTS FOR \"u\" SERVER \"s\"\n\
        INSERT INTO t (a, b) VALUES (1, 'c'), (d + 2, NULL) => INSERT INTO \"t\" ( \"a\" , \"b\" ) VALUES ( 1 , 'c' ) , ( \"d\" + 2 , NULL )\n\
        INSERT INTO t SELECT a FROM u WHERE b => INSERT INTO \"t\" SELECT \"a\" FROM \"u\" WHERE \"b\"\n\
        UPDATE t u SET a = 'b', c = 1 WHERE d => UPDATE \"t\" AS \"u\" SET \"a\" = 'b' , \"c\" = 1 WHERE \"d\"\n\
        DELETE FROM t AS u WHERE a = 'b' => DELETE FROM \"t\" AS \"u\" WHERE \"a\" = 'b'",
    )
}
