//! Statements on cursors read and written out.
use crate::rows::assert_rows;
use crate::statements::Printed;
use std::test::Fail;

#[test]
fn cursors(rt: HostRuntime) -> Result<(), Fail> {
    assert_rows::<Printed>(
        rt.alloc(),
        &rt,
        "DECLARE c CURSOR FOR SELECT no FROM orders => DECLARE \"c\" CURSOR FOR SELECT \"no\" FROM \"orders\"\n\
        declare C insensitive no scroll cursor with hold for select a b from T; \
        => DECLARE \"c\" CURSOR FOR SELECT \"a\" AS \"b\" FROM \"t\"\n\
        DECLARE c INSENSITIVE CURSOR FOR SELECT 1 => DECLARE \"c\" CURSOR FOR SELECT 1\n\
        DECLARE c NO SCROLL CURSOR FOR SELECT 1 => DECLARE \"c\" CURSOR FOR SELECT 1\n\
        DECLARE c CURSOR WITH HOLD FOR SELECT 1; => DECLARE \"c\" CURSOR FOR SELECT 1\n\
        DECLARE \"C d\" CURSOR FOR SELECT DISTINCT no FROM orders ORDER BY no OFFSET 1 ROW LIMIT 2 \
        => DECLARE \"C d\" CURSOR FOR SELECT DISTINCT \"no\" FROM \"orders\" ORDER BY \"no\" ASC NULLS LAST LIMIT 2 OFFSET 1\n\
        DECLARE c CURSOR FOR SELECT \"id\" FROM \"parts\" UNION ALL SELECT \"part\" FROM \"orders\" ORDER BY \"id\" DESC NULLS FIRST LIMIT 3 \
        => DECLARE \"c\" CURSOR FOR SELECT \"id\" FROM \"parts\" UNION ALL SELECT \"part\" FROM \"orders\" ORDER BY \"id\" DESC NULLS FIRST LIMIT 3\n\
        DECLARE c CURSOR FOR SELECT 1 UNION SELECT 2 => Syntax\n\
        DECLARE insensitive INSENSITIVE CURSOR FOR SELECT 1 => DECLARE \"insensitive\" CURSOR FOR SELECT 1\n\
        DECLARE cursor CURSOR FOR SELECT 1 => DECLARE \"cursor\" CURSOR FOR SELECT 1\n\
        FETCH c => FETCH 1 FROM \"c\"\n\
        FETCH FROM c => FETCH 1 FROM \"c\"\n\
        FETCH 1 FROM c => FETCH 1 FROM \"c\"\n\
        fetch next C; => FETCH 1 FROM \"c\"\n\
        FETCH NEXT c => FETCH 1 FROM \"c\"\n\
        FETCH NEXT FROM c => FETCH 1 FROM \"c\"\n\
        FETCH next => FETCH 1 FROM \"next\"\n\
        FETCH next; => FETCH 1 FROM \"next\"\n\
        FETCH NEXT next => FETCH 1 FROM \"next\"\n\
        FETCH IN next => FETCH 1 FROM \"next\"\n\
        FETCH 007 \"C d\" => FETCH 7 FROM \"C d\"\n\
        FETCH ALL IN c => FETCH ALL FROM \"c\"\n\
        FETCH all c; => FETCH ALL FROM \"c\"\n\
        FETCH \"all\" => FETCH 1 FROM \"all\"\n\
        FETCH 9223372036854775807 c => FETCH 9223372036854775807 FROM \"c\"\n\
        CLOSE c => CLOSE \"c\"\n\
        close \"C d\"; => CLOSE \"C d\"\n\
        CLOSE close => CLOSE \"close\"\n\
        FETCH 5 IN \"C d\" => FETCH 5 FROM \"C d\"\n\
        FETCH 0 c => FetchZero\n\
        CLOSE => Syntax\n\
        FETCH -1 c => Syntax\n\
        DECLARE c SCROLL CURSOR FOR SELECT 1 => Syntax\n\
        DECLARE c CURSOR FOR DELETE FROM t => Syntax\n\
        DECLARE CURSOR FOR SELECT 1 => Syntax",
    )
}
