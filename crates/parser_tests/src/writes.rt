//! Statements that write rows read and written out.
use crate::rows::assert_rows;
use crate::statements::Printed;
use std::test::Fail;

#[test]
fn inserts(rt: HostRuntime) -> Result<(), Fail> {
    assert_rows::<Printed>(
        rt.alloc(),
        &rt,
        "INSERT INTO t VALUES (1) => INSERT INTO \"t\" VALUES ( 1 )\n\
        insert into T (a, \"B\") values (1, 'x'), (-2, NULL); => INSERT INTO \"t\" ( \"a\" , \"B\" ) VALUES ( 1 , 'x' ) , ( - 2 , NULL )\n\
        INSERT INTO t VALUES (a + 1, (true)), (2, false) => INSERT INTO \"t\" VALUES ( \"a\" + 1 , ( TRUE ) ) , ( 2 , FALSE )\n\
        INSERT INTO t VALUES (1), (2, 3) => INSERT INTO \"t\" VALUES ( 1 ) , ( 2 , 3 )\n\
        INSERT INTO t VALUES (-9223372036854775808, 9223372036854775807) => INSERT INTO \"t\" VALUES ( - 9223372036854775808 , 9223372036854775807 )\n\
        INSERT INTO t SELECT a b FROM u WHERE c LIMIT 1; => INSERT INTO \"t\" SELECT \"a\" AS \"b\" FROM \"u\" WHERE \"c\" LIMIT 1\n\
        INSERT INTO t (a) SELECT DISTINCT 1 ORDER BY a NULLS FIRST => INSERT INTO \"t\" ( \"a\" ) SELECT DISTINCT 1 ORDER BY \"a\" ASC NULLS FIRST\n\
        INSERT INTO t SELECT \"id\" FROM \"parts\" UNION ALL SELECT \"part\" FROM \"orders\" ORDER BY \"id\" DESC NULLS FIRST LIMIT 3 => INSERT INTO \"t\" SELECT \"id\" FROM \"parts\" UNION ALL SELECT \"part\" FROM \"orders\" ORDER BY \"id\" DESC NULLS FIRST LIMIT 3\n\
        INSERT INTO t (a) SELECT 1 UNION ALL SELECT NULL; => INSERT INTO \"t\" ( \"a\" ) SELECT 1 UNION ALL SELECT NULL\n\
        INSERT INTO t SELECT 1 UNION SELECT 2 => Syntax\n\
        INSERT INTO t VALUES (1) UNION ALL SELECT 2 => Syntax\n\
        INSERT INTO nulls (first, row) VALUES (1, 2) => INSERT INTO \"nulls\" ( \"first\" , \"row\" ) VALUES ( 1 , 2 )",
    )
}

#[test]
fn updates_and_deletes(rt: HostRuntime) -> Result<(), Fail> {
    assert_rows::<Printed>(
        rt.alloc(),
        &rt,
        "UPDATE t SET a = 1 => UPDATE \"t\" SET \"a\" = 1\n\
        update t u set a = u.b + 1, \"C\" = null where u.a > 2; => UPDATE \"t\" AS \"u\" SET \"a\" = \"u\" . \"b\" + 1 , \"C\" = NULL WHERE \"u\" . \"a\" > 2\n\
        UPDATE t AS u SET a = b = c => UPDATE \"t\" AS \"u\" SET \"a\" = \"b\" = \"c\"\n\
        UPDATE t SET a = 1, a = 2 => UPDATE \"t\" SET \"a\" = 1 , \"a\" = 2\n\
        DELETE FROM t => DELETE FROM \"t\"\n\
        delete from t where a in (1, 2) or b is null; => DELETE FROM \"t\" WHERE \"a\" IN ( 1 , 2 ) OR \"b\" IS NULL\n\
        DELETE FROM t AS u WHERE u.a LIKE 'x%' => DELETE FROM \"t\" AS \"u\" WHERE \"u\" . \"a\" LIKE 'x%'",
    )
}
