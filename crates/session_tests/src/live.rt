//! The scans that open cursors hold: which are live after each request, and how many rows they have given.
ghost use Rattle.med_session.specs.Prelude.{IsSound, shown};

use crate::expect::same_text;
use crate::served::{ask, engine_over, in_failing, new_list, request_of};
use fdw_api::interface::Counts;
use fdw_api::wishes::Wrapper2;
use fed_setup::told::RunFault;
use med_session::Engine;
use std::alloc::Global;
use std::test::Fail;

// A session's number and what it asks, how many scans are live then, and how many rows the list has given since the beginning. parts has
// three rows, and so has orders, of which part is 1, 1 and 9. The list gives its rows in the order that is wished.
const ROWS: &str = "\
1 OPEN => 0 0
2 OPEN => 0 0
1 DECLARE a CURSOR FOR SELECT id FROM parts => 1 0
1 FETCH 1 FROM a => 1 1
2 SELECT no FROM orders WHERE no = 11 => 1 2
2 DECLARE b CURSOR FOR SELECT name, n FROM parts JOIN orders ON part = id => 3 2
2 DECLARE b CURSOR FOR SELECT id FROM parts => 3 2
2 FETCH 1 FROM b => 3 4
2 UPDATE orders SET n = 0 => 3 4
1 FETCH ALL FROM a => 3 6
1 FETCH 1 FROM a => 3 6
1 CLOSE a => 2 6
1 DECLARE c CURSOR FOR SELECT no FROM orders ORDER BY no => 3 6
1 FETCH 1 FROM c => 3 7
1 DECLARE d CURSOR FOR SELECT count(*) FROM parts => 3 10
1 FETCH ALL FROM d => 3 10
1 DECLARE e CURSOR FOR SELECT id FROM parts LIMIT 1 => 4 10
1 FETCH ALL FROM e => 4 11
1 DECLARE f CURSOR FOR SELECT nope FROM parts => 4 11
1 BYE => 2 11
2 BYE => 0 11
";

// Fails where the list counts otherwise than a row says, once that is asked.
fn leaves<W: Wrapper2>(
    alloc: Global,
    engine: &mut Engine<W>,
    row: &str,
    out: &mut Vec<u8>,
) -> Result<(), Fail>
    requires { IsSound (shown W.meaning engine.old) }
    ensures { IsSound (shown W.meaning engine.new) }
{
    let (asked, wanted) = row.split_once(" => ").ok_or(row)?;
    let (session, text) = asked.split_once(' ').ok_or(row)?;
    let session = if session == "1" { 1 } else { 2 };
    ask(engine, session, request_of(text), out)?;
    let Some(counts) = engine.counts("demo") else {
        return Err(row.into());
    };
    let came = format!(in alloc; "{} {}", counts.live, counts.pulled)?;
    if came.as_str() == wanted {
        return Ok(());
    }
    Err(Fail::new(format_args!("{row}: {came} came")))
}

// The same of all rows, one after another.
fn leaves_each<W: Wrapper2>(
    alloc: Global,
    engine: &mut Engine<W>,
    out: &mut Vec<u8>,
) -> Result<(), Fail>
    requires { IsSound (shown W.meaning engine.old) }
    ensures { IsSound (shown W.meaning engine.new) }
{
    for row in ROWS.lines() {
        leaves(alloc, engine, row, out)?;
    }
    Ok(())
}

#[test]
fn live_scans_are_those_of_open_cursors(rt: HostRuntime) -> Result<(), Fail> {
    let alloc = rt.alloc();
    let mut out = Vec::new(alloc);
    let mut engine = engine_over(alloc, new_list(alloc)?)?;
    let told = leaves_each(alloc, &mut engine, &mut out);
    drop(engine);
    told
}

// Rows `scans rows | query`: how many scans are begun, and how many rows these give. parts has three rows, of which id is 1, 2 and 3, and qty 10, NULL and
// 0; orders has three, of which part is 1, 1 and 9. What the list takes over it does not give, and an inner scan looks for what the row of the outer one has.
const PULLED: &str = "\
1 1 | SELECT id FROM parts WHERE id = 2
1 1 | SELECT id FROM parts WHERE 2 = id AND qty IS NULL
1 2 | SELECT id FROM parts WHERE qty IS NOT NULL ORDER BY id
1 0 | SELECT count(*) FROM parts WHERE qty > 10
1 3 | SELECT id FROM parts WHERE qty + 1 > 10
1 3 | SELECT id FROM parts WHERE id = 2 OR id = 3
2 5 | SELECT id FROM parts LEFT JOIN orders ON part = id WHERE no IS NULL ORDER BY id
2 5 | SELECT name, n FROM parts JOIN orders ON part = id
2 3 | SELECT name, n FROM parts, orders WHERE part = id AND id = 1
2 12 | SELECT count(*) FROM parts, orders
3 7 | SELECT a.id FROM parts a JOIN orders ON part = a.id JOIN parts b ON b.id = part
1 1 | SELECT id FROM parts LIMIT 1
1 2 | SELECT id FROM parts LIMIT 1 OFFSET 1
1 0 | SELECT id FROM parts LIMIT 0
1 3 | SELECT id FROM parts ORDER BY qty + 1 LIMIT 1
1 3 | SELECT DISTINCT id FROM parts ORDER BY id LIMIT 1
1 3 | SELECT qty FROM parts GROUP BY qty ORDER BY qty LIMIT 1
1 1 | SELECT id FROM parts ORDER BY id LIMIT 1
1 3 | SELECT id FROM parts ORDER BY qty DESC, id LIMIT 1 OFFSET 2
1 0 | SELECT id FROM parts ORDER BY id LIMIT 0
1 3 | SELECT id FROM parts ORDER BY id DESC
1 1 | SELECT id FROM parts WHERE qty IS NOT NULL ORDER BY (name) NULLS FIRST LIMIT 1
1 2 | SELECT id FROM parts WHERE id = 2 OR id = 3 ORDER BY id LIMIT 1
";

// Rows `calls scans live rows faults | statements`, with a semicolon between two: after so many calls the list fails once. Two calls bind the tables; then
// come the scan's begin, three rows and its end.
const FAILING: &str = "\
2 1 0 3 1 | SELECT id, name FROM parts ORDER BY id;SELECT id, name FROM parts ORDER BY id
3 2 0 3 1 | SELECT id, name FROM parts ORDER BY id;SELECT id, name FROM parts ORDER BY id
4 2 0 4 1 | SELECT id, name FROM parts ORDER BY id;SELECT id, name FROM parts ORDER BY id
5 2 0 5 1 | SELECT id, name FROM parts ORDER BY id;SELECT id, name FROM parts ORDER BY id
6 2 0 6 1 | SELECT id, name FROM parts ORDER BY id;SELECT id, name FROM parts ORDER BY id
7 1 0 3 0 | SELECT id, name FROM parts ORDER BY id
";

// Asks for statements with a semicolon between two, in session 1.
fn asks_all<W: Wrapper2>(
    engine: &mut Engine<W>,
    statements: &str,
    out: &mut Vec<u8>,
) -> Result<(), Fail>
    requires { IsSound (shown W.meaning engine.old) }
    ensures { IsSound (shown W.meaning engine.new) }
{
    for text in statements.split(';') {
        ask(engine, 1, request_of(text), out)?;
    }
    Ok(())
}

// What the list counts when session 1 was opened, and statements were answered in it.
fn counted<W: Wrapper2>(
    alloc: Global,
    engine: &mut Engine<W>,
    statements: &str,
) -> Result<Counts, Fail>
    requires { IsSound (shown W.meaning engine.old) }
{
    let mut out = Vec::new(alloc);
    asks_all(engine, "OPEN", &mut out)?;
    asks_all(engine, statements, &mut out)?;
    Ok(engine.counts("demo").ok_or(statements)?)
}

// What a list that fails once, after so many calls, counts when statements were answered: the scans begun, those that are live, the rows given and the faults.
fn counts(alloc: Global, calls: u64, statements: &str) -> Result<String, Fail> {
    let list = in_failing(new_list(alloc)?, calls);
    let mut engine = engine_over(alloc, list)?;
    let counted = counted(alloc, &mut engine, statements);
    drop(engine);
    let counts = counted?;
    Ok(format!(in alloc;
        "{} {} {} {}",
        counts.next, counts.live, counts.pulled, counts.faults
    )?)
}

#[test]
fn queries_pull_what_they_need(rt: HostRuntime) -> Result<(), Fail> {
    let alloc = rt.alloc();
    for row in PULLED.lines() {
        let (wanted, query) = row.split_once(" | ").ok_or(row)?;
        let (scans, rows) = wanted.split_once(' ').ok_or(row)?;
        let wanted = format!(in alloc; "{scans} 0 {rows} 0")?;
        same_text(row, counts(alloc, 99, query)?.as_bytes(), wanted.as_bytes())?;
    }
    Ok(())
}

#[test]
fn query_of_a_source_that_fails_is_refused_once(rt: HostRuntime) -> Result<(), Fail> {
    for row in FAILING.lines() {
        let (wanted, statements) = row.split_once(" | ").ok_or(row)?;
        let (calls, wanted) = wanted.split_once(' ').ok_or(row)?;
        let came = counts(rt.alloc(), calls.parse::<u64>()?, statements)?;
        same_text(row, came.as_bytes(), wanted.as_bytes())?;
    }
    Ok(())
}

#[test]
fn source_that_fails_when_bound_cannot_be_opened(rt: HostRuntime) -> Result<(), Fail> {
    let alloc = rt.alloc();
    for calls in 0..2 {
        let refused = engine_over(alloc, in_failing(new_list(alloc)?, calls)).err();
        assert!(rt; refused == Some(RunFault::CannotOpen("demo")));
    }
    Ok(())
}

// What the owner drops: at the end the server too.
const DROPS: &str =
    "OPEN admin;DROP FOREIGN TABLE parts;DROP FOREIGN TABLE orders;DROP USER MAPPING FOR PUBLIC SERVER demo;DROP SERVER demo";

#[test]
fn dropped_source_is_gone(rt: HostRuntime) -> Result<(), Fail> {
    let alloc = rt.alloc();
    let mut out = Vec::new(alloc);
    let mut engine = engine_over(alloc, new_list(alloc)?)?;
    assert!(rt; engine.counts("demo").is_some() && engine.counts("other").is_none());
    let told = asks_all(&mut engine, DROPS, &mut out);
    assert!(rt; engine.counts("demo").is_none());
    let slots = engine.finish().slots;
    told?;
    assert!(rt; slots.len() == 1 && slots[0].is_none());
    Ok(())
}
