//! Conversations over the demo list of which one call fails, each call in turn: each request is answered as over a list that does not fail, or
//! refused, and what was refused has changed nothing but for a FETCH, which has lost its cursor.
ghost use Rattle.fed_setup.specs.Demo.{demo_list};
ghost use Rattle.list_wrapper.specs.Lists.{IsNewList};
ghost use Rattle.med_session.specs.Prelude.{IsSound, shown};

use crate::served::{
    ask, engine_over, in_counting, in_failing, in_lift, in_shuffled, in_shy, in_vague, new_list,
    request_of,
};
use fdw_api::interface::Counts;
use fdw_api::wishes::Wrapper2;
use med_exec::ledger_at;
use med_session::{Engine, Request};
use std::alloc::Global;
use std::str::from_utf8;
use std::test::Fail;

// A session's number, what it asks, the reply, and the reply once the cursor is lost where that is another. A write stands behind a SELECT
// of what it writes. An empty line ends a conversation. The rows of a query without ORDER BY are equal, since they may come in any order.
const TALKS: &str = "\
1 OPEN => 1 T OPEN;
1 SELECT id, name, qty, live FROM parts ORDER BY id => 1 H\tid\tname\tqty\tlive;1 R\t1\tbolt\t10\tt;1 R\t2\tnut\t\\N\tt;1 R\t3\t\\N\t0\tf;1 T SELECT 3;
1 SELECT name, no FROM parts JOIN orders ON part = id ORDER BY no => 1 H\tname\tno;1 R\tbolt\t10;1 R\tbolt\t11;1 T SELECT 2;
1 SELECT id, no FROM parts LEFT JOIN orders ON part = id ORDER BY id, no => 1 H\tid\tno;1 R\t1\t10;1 R\t1\t11;1 R\t2\t\\N;1 R\t3\t\\N;1 T SELECT 4;

1 OPEN => 1 T OPEN;
1 SELECT no, id FROM orders, parts WHERE n > 4 ORDER BY id DESC => 1 H\tno\tid;1 R\t11\t3;1 R\t11\t2;1 R\t11\t1;1 T SELECT 3;
1 SELECT no FROM orders WHERE n >= 4 ORDER BY no DESC LIMIT 1 => 1 H\tno;1 R\t11;1 T SELECT 1;
1 SELECT DISTINCT part FROM orders ORDER BY part => 1 H\tpart;1 R\t1;1 R\t9;1 T SELECT 2;
1 SELECT id FROM parts WHERE qty / qty = 1 => 1 E 22012 division_by_zero;
1 SELECT nope FROM parts => 1 E 42703 undefined_column;
1 BYE => 1 T BYE;

1 OPEN => 1 T OPEN;
1 SELECT part, sum(n), count(*) FROM orders GROUP BY part ORDER BY part => 1 H\tpart\tsum\tcount;1 R\t1\t10\t2;1 R\t9\t1\t1;1 T SELECT 2;
1 SELECT count(*) FROM parts, orders => 1 H\tcount;1 R\t9;1 T SELECT 1;
1 SELECT max(qty), min(n) FROM parts LEFT JOIN orders ON part = id => 1 H\tmax\tmin;1 R\t10\t4;1 T SELECT 1;
1 SELECT sum(qty / 0) FROM parts => 1 E 22012 division_by_zero;

1 OPEN => 1 T OPEN;
1 SELECT no, part, n FROM orders ORDER BY no => 1 H\tno\tpart\tn;1 R\t10\t1\t4;1 R\t11\t1\t6;1 R\t12\t9\t1;1 T SELECT 3;
1 INSERT INTO orders VALUES (13, 2, 5), (14, 3, NULL) => 1 T INSERT 0 2;
1 SELECT no, part, n FROM orders ORDER BY no => 1 H\tno\tpart\tn;1 R\t10\t1\t4;1 R\t11\t1\t6;1 R\t12\t9\t1;1 R\t13\t2\t5;1 R\t14\t3\t\\N;1 T SELECT 5;
1 UPDATE orders SET n = n + 1 WHERE part = 1 => 1 T UPDATE 2;
1 SELECT no, part, n FROM orders ORDER BY no => 1 H\tno\tpart\tn;1 R\t10\t1\t5;1 R\t11\t1\t7;1 R\t12\t9\t1;1 R\t13\t2\t5;1 R\t14\t3\t\\N;1 T SELECT 5;
1 DELETE FROM orders WHERE n IS NULL OR no = 12 => 1 T DELETE 2;
1 SELECT no, part, n FROM orders ORDER BY no => 1 H\tno\tpart\tn;1 R\t10\t1\t5;1 R\t11\t1\t7;1 R\t13\t2\t5;1 T SELECT 3;

1 OPEN => 1 T OPEN;
1 SELECT no, part, n FROM orders ORDER BY no => 1 H\tno\tpart\tn;1 R\t10\t1\t4;1 R\t11\t1\t6;1 R\t12\t9\t1;1 T SELECT 3;
1 INSERT INTO orders SELECT id + 20, id, qty FROM parts WHERE live => 1 T INSERT 0 2;
1 SELECT no, part, n FROM orders ORDER BY no => 1 H\tno\tpart\tn;1 R\t10\t1\t4;1 R\t11\t1\t6;1 R\t12\t9\t1;1 R\t21\t1\t10;1 R\t22\t2\t\\N;1 T SELECT 5;
1 UPDATE orders SET n = 60 / n => 1 T UPDATE 5;
1 SELECT no, part, n FROM orders ORDER BY no => 1 H\tno\tpart\tn;1 R\t10\t1\t15;1 R\t11\t1\t10;1 R\t12\t9\t60;1 R\t21\t1\t6;1 R\t22\t2\t\\N;1 T SELECT 5;
1 UPDATE orders SET n = 1 / (n - 10) => 1 E 22012 division_by_zero;
1 BYE => 1 T BYE;

1 OPEN => 1 T OPEN;
1 SELECT id, qty FROM parts ORDER BY id => 1 H\tid\tqty;1 R\t1\t10;1 R\t2\t\\N;1 R\t3\t0;1 T SELECT 3;
1 UPDATE parts SET qty = qty + 1, live = NOT live => 1 T UPDATE 3;
1 SELECT id, qty FROM parts ORDER BY id => 1 H\tid\tqty;1 R\t1\t11;1 R\t2\t\\N;1 R\t3\t1;1 T SELECT 3;
1 DELETE FROM parts => 1 T DELETE 3;
1 SELECT id, qty FROM parts ORDER BY id => 1 H\tid\tqty;1 T SELECT 0;

1 OPEN => 1 T OPEN;
2 OPEN => 2 T OPEN;
1 DECLARE c CURSOR FOR SELECT name FROM parts JOIN orders ON part = id => 1 T DECLARE CURSOR;
1 FETCH 1 FROM c => 1 H\tname;1 R\tbolt;1 T FETCH 1; => 1 E 34000 invalid_cursor_name;
2 UPDATE orders SET n = n => 2 E 55006 object_in_use; => 2 T UPDATE 3;
1 FETCH ALL FROM c => 1 H\tname;1 R\tbolt;1 T FETCH 1; => 1 E 34000 invalid_cursor_name;
1 FETCH 1 FROM c => 1 H\tname;1 T FETCH 0; => 1 E 34000 invalid_cursor_name;
1 CLOSE c => 1 T CLOSE CURSOR; => 1 E 34000 invalid_cursor_name;
2 UPDATE orders SET n = n => 2 T UPDATE 3;
1 BYE => 1 T BYE;

1 OPEN => 1 T OPEN;
2 OPEN => 2 T OPEN;
1 DECLARE c CURSOR FOR SELECT no, n FROM orders ORDER BY n DESC => 1 T DECLARE CURSOR;
1 FETCH 2 FROM c => 1 H\tno\tn;1 R\t11\t6;1 R\t10\t4;1 T FETCH 2; => 1 E 34000 invalid_cursor_name;
2 SELECT count(*) FROM orders => 2 H\tcount;2 R\t3;2 T SELECT 1;
1 FETCH 1 FROM c => 1 H\tno\tn;1 R\t12\t1;1 T FETCH 1; => 1 E 34000 invalid_cursor_name;
1 FETCH ALL FROM c => 1 H\tno\tn;1 T FETCH 0; => 1 E 34000 invalid_cursor_name;
1 CLOSE c => 1 T CLOSE CURSOR; => 1 E 34000 invalid_cursor_name;
2 DELETE FROM orders => 2 T DELETE 3;

1 OPEN => 1 T OPEN;
2 OPEN => 2 T OPEN;
1 DECLARE c CURSOR FOR SELECT part, sum(n) FROM orders GROUP BY part => 1 E 0A000 feature_not_supported;
1 DECLARE c CURSOR FOR SELECT part, max(n), count(*) FROM orders GROUP BY part ORDER BY part => 1 T DECLARE CURSOR;
2 SELECT no FROM orders WHERE no = 12 => 2 H\tno;2 R\t12;2 T SELECT 1;
1 FETCH ALL FROM c => 1 H\tpart\tmax\tcount;1 R\t1\t6\t2;1 R\t9\t1\t1;1 T FETCH 2; => 1 E 34000 invalid_cursor_name;
1 CLOSE c => 1 T CLOSE CURSOR; => 1 E 34000 invalid_cursor_name;
1 DECLARE c CURSOR FOR SELECT no FROM orders ORDER BY no LIMIT 2 => 1 T DECLARE CURSOR;
1 CLOSE c => 1 T CLOSE CURSOR;
2 INSERT INTO orders VALUES (13, 1, 1) => 2 T INSERT 0 1;

1 OPEN => 1 T OPEN;
1 DECLARE c CURSOR FOR SELECT id, no FROM parts LEFT JOIN orders ON part = id ORDER BY id, no => 1 T DECLARE CURSOR;
1 FETCH 3 FROM c => 1 H\tid\tno;1 R\t1\t10;1 R\t1\t11;1 R\t2\t\\N;1 T FETCH 3; => 1 E 34000 invalid_cursor_name;
1 BYE => 1 T BYE;
1 OPEN => 1 T OPEN;
1 UPDATE parts SET qty = 0 => 1 T UPDATE 3;

1 OPEN => 1 T OPEN;
2 OPEN => 2 T OPEN;
2 DECLARE d CURSOR FOR SELECT id FROM parts => 2 T DECLARE CURSOR;
1 DECLARE c CURSOR FOR SELECT live FROM parts WHERE live LIMIT 2 => 1 T DECLARE CURSOR;
1 FETCH 1 FROM c => 1 H\tlive;1 R\tt;1 T FETCH 1; => 1 E 34000 invalid_cursor_name;
1 FETCH ALL FROM c => 1 H\tlive;1 R\tt;1 T FETCH 1; => 1 E 34000 invalid_cursor_name;
1 DELETE FROM parts WHERE FALSE => 1 E 55006 object_in_use;

1 OPEN => 1 T OPEN;
2 OPEN => 2 T OPEN;
1 DECLARE c CURSOR FOR SELECT no FROM orders ORDER BY no => 1 T DECLARE CURSOR;
1 FETCH 1 FROM c => 1 H\tno;1 R\t10;1 T FETCH 1; => 1 E 34000 invalid_cursor_name;
2 INSERT INTO orders VALUES (13, 2, 5) => 2 E 55006 object_in_use; => 2 T INSERT 0 1;
1 FETCH ALL FROM c => 1 H\tno;1 R\t11;1 R\t12;1 T FETCH 2; => 1 E 34000 invalid_cursor_name;
2 INSERT INTO orders VALUES (13, 2, 5) => 2 E 55006 object_in_use; => 2 T INSERT 0 1;
1 CLOSE c => 1 T CLOSE CURSOR; => 1 E 34000 invalid_cursor_name;
1 FETCH 1 FROM c => 1 E 34000 invalid_cursor_name;
2 INSERT INTO orders VALUES (13, 2, 5) => 2 T INSERT 0 1;

1 OPEN => 1 T OPEN;
1 SELECT id, name FROM parts ORDER BY id => 1 H\tid\tname;1 R\t1\tbolt;1 R\t2\tnut;1 R\t3\t\\N;1 T SELECT 3;
1 SELECT id, qty FROM parts ORDER BY id => 1 H\tid\tqty;1 R\t1\t10;1 R\t2\t\\N;1 R\t3\t0;1 T SELECT 3;
1 UPDATE parts SET qty = 1 => 1 T UPDATE 3;
1 SELECT id, qty FROM parts ORDER BY id => 1 H\tid\tqty;1 R\t1\t1;1 R\t2\t1;1 R\t3\t1;1 T SELECT 3;
";

// Behind the session's number.
const REFUSAL: &[u8] = b" E HV000 fdw_error;";

// What a row asks, and the replies that it wants.
#[derive(Drop)]
struct Asked<'a> {
    session: u16,
    text: &'a str,
    wanted: &'a str,
    lost: &'a str,
}

impl Asked<'_> {
    // The reply that is wanted.
    fn reply(&self, is_lost: bool) -> &str {
        if is_lost { self.lost } else { self.wanted }
    }
}

fn asked_by(row: &str) -> Result<Asked<'_>, Fail> {
    let (asked, wanted) = row.split_once(" => ").ok_or(row)?;
    let (session, text) = asked.split_once(' ').ok_or(row)?;
    let (wanted, lost) = wanted.split_once(" => ").unwrap_or((wanted, wanted));
    let session = if session == "1" { 1 } else { 2 };
    Ok(Asked {
        session,
        text,
        wanted,
        lost,
    })
}

// How a conversation went so far: how many requests a failing source refused, and whether the cursor is lost.
#[derive(Clone, Copy)]
struct Gone {
    refusals: u64,
    is_lost: bool,
}

// Whether a statement writes rows.
fn is_write(text: &str) -> bool {
    text.starts_with("INSERT") || text.starts_with("UPDATE") || text.starts_with("DELETE")
}

// Fails where the reply to a row is another.
fn is_wanted(case: &str, row: &str, came: &[u8], is_lost: bool) -> Result<(), Fail> {
    if came == asked_by(row)?.reply(is_lost).as_bytes() {
        return Ok(());
    }
    let came = from_utf8(came).unwrap_or("no text");
    Err(Fail::new(format_args!("{case}: {row}: {came} came")))
}

// Asks what a row asks, and fails where the reply is another.
fn answers<W: Wrapper2>(
    case: &str,
    engine: &mut Engine<W>,
    row: &str,
    is_lost: bool,
    out: &mut Vec<u8>,
) -> Result<(), Fail>
    requires { IsSound (shown W.meaning engine.old) }
    ensures { IsSound (shown W.meaning engine.new) }
{
    let asked = asked_by(row)?;
    ask(engine, asked.session, request_of(asked.text), out)?;
    is_wanted(case, row, out, is_lost)
}

// Whether the latter of two rows asks for a write, and the row before it for what is written.
fn is_read_before(before: &str, row: &str) -> Result<bool, Fail> {
    Ok(is_write(asked_by(row)?.text) && asked_by(before)?.text.starts_with("SELECT"))
}

// Behind a write that was refused the SELECT before it gives the rows that it gave then.
fn reads_as_before<W: Wrapper2>(
    case: &str,
    engine: &mut Engine<W>,
    rows: (&str, &str),
    is_lost: bool,
    out: &mut Vec<u8>,
) -> Result<(), Fail>
    requires { IsSound (shown W.meaning engine.old) }
    ensures { IsSound (shown W.meaning engine.new) }
{
    if !is_read_before(rows.0, rows.1)? {
        return Ok(());
    }
    answers(case, engine, rows.0, is_lost, out)
}

// Asks again what a failing source refused, and before a write what it would have written.
fn answers_again<W: Wrapper2>(
    case: &str,
    engine: &mut Engine<W>,
    rows: (&str, &str),
    is_lost: bool,
    out: &mut Vec<u8>,
) -> Result<(), Fail>
    requires { IsSound (shown W.meaning engine.old) }
    ensures { IsSound (shown W.meaning engine.new) }
{
    reads_as_before(case, engine, rows, is_lost, out)?;
    answers(case, engine, rows.1, is_lost, out)
}

// Asks what a row asks, and fails where it is neither answered as it says nor refused, and then answered when it is asked again. The row
// before it comes with it. Tells how the conversation went then.
fn follows<W: Wrapper2>(
    case: &str,
    engine: &mut Engine<W>,
    rows: (&str, &str),
    gone: Gone,
    out: &mut Vec<u8>,
) -> Result<Gone, Fail>
    requires { IsSound (shown W.meaning engine.old) }
    ensures { IsSound (shown W.meaning engine.new) }
{
    let asked = asked_by(rows.1)?;
    ask(engine, asked.session, request_of(asked.text), out)?;
    if out.get(1..) != Some(REFUSAL) {
        is_wanted(case, rows.1, out, gone.is_lost)?;
        return Ok(gone);
    }
    let is_lost = gone.is_lost || asked.text.starts_with("FETCH");
    answers_again(case, engine, rows, is_lost, out)?;
    Ok(Gone {
        refusals: gone.refusals.saturating_add(1),
        is_lost,
    })
}

// The same of all rows of a conversation. Tells how many requests were refused.
fn follows_all<W: Wrapper2>(
    case: &str,
    engine: &mut Engine<W>,
    talk: &str,
    out: &mut Vec<u8>,
) -> Result<u64, Fail>
    requires { IsSound (shown W.meaning engine.old) }
    ensures { IsSound (shown W.meaning engine.new) }
{
    let mut before = "";
    let mut gone = Gone {
        refusals: 0,
        is_lost: false,
    };
    for row in talk.lines() {
        gone = follows(case, engine, (before, row), gone, out)?;
        before = row;
    }
    Ok(gone.refusals)
}

// Fails where a source counts a live scan, or other faults than requests were refused.
fn is_at_rest(case: &str, counts: Option<Counts>, refusals: u64) -> Result<(), Fail> {
    match counts {
        Some(counts) if counts.live == 0 && counts.faults == refusals => Ok(()),
        _ => Err(Fail::new(format_args!("{case}: {refusals} refused, {counts:?} counted"))),
    }
}

// Where the sessions say BYE, ends both by their lines. Fails where a scan is live then.
fn ends_by_lines<W: Wrapper2>(
    case: &str,
    engine: &mut Engine<W>,
    says_bye: bool,
    refusals: u64,
    out: &mut Vec<u8>,
) -> Result<(), Fail>
    requires { IsSound (shown W.meaning engine.old) }
    ensures { IsSound (shown W.meaning engine.new) }
{
    if !says_bye {
        return Ok(());
    }
    ask(engine, 1, Request::Bye, out)?;
    ask(engine, 2, Request::Bye, out)?;
    is_at_rest(case, engine.counts("demo"), refusals)
}

// Ends both sessions by their lines or, where they say nothing, by the end of the engine. Fails where a scan is live then.
fn ends<W: Wrapper2>(
    case: &str,
    engine: Engine<W>,
    says_bye: bool,
    refusals: u64,
    out: &mut Vec<u8>,
) -> Result<(), Fail>
    requires { IsSound (shown W.meaning engine) }
{
    let mut engine = engine;
    let told = ends_by_lines(case, &mut engine, says_bye, refusals, out);
    let counts = ledger_at(&engine.finish().slots, 0);
    told?;
    is_at_rest(case, counts, refusals)
}

// A conversation over a list, and the end of its sessions. Tells how many requests were refused.
fn talks_over<W: Wrapper2>(
    alloc: Global,
    case: &str,
    list: W,
    talk: &str,
    says_bye: bool,
) -> Result<u64, Fail>
    requires { IsNewList (W.meaning list) demo_list }
{
    let mut out = Vec::new(alloc);
    let mut engine = engine_over(alloc, list)?;
    match follows_all(case, &mut engine, talk, &mut out) {
        Ok(refusals) => {
            ends(case, engine, says_bye, refusals, &mut out)?;
            Ok(refusals)
        }
        Err(fault) => {
            drop(engine);
            Err(fault)
        }
    }
}

// The same over the list in a box of this name, of which the call after so many fails.
fn talks_in(
    alloc: Global,
    name: &str,
    calls: u64,
    talk: &str,
    says_bye: bool,
) -> Result<u64, Fail> {
    let case = format!(in alloc; "{name} after {calls} calls")?;
    let list = new_list(alloc)?;
    match name {
        "list" => talks_over(alloc, &case, in_failing(list, calls), talk, says_bye),
        "shy" => talks_over(
            alloc,
            &case,
            in_failing(in_shy(alloc, list), calls),
            talk,
            says_bye,
        ),
        "vague" => talks_over(
            alloc,
            &case,
            in_failing(in_vague(alloc, list), calls),
            talk,
            says_bye,
        ),
        "counting" => talks_over(
            alloc,
            &case,
            in_failing(in_counting(list), calls),
            talk,
            says_bye,
        ),
        "lift" => talks_over(
            alloc,
            &case,
            in_lift(in_failing(list, calls)),
            talk,
            says_bye,
        ),
        "shuffled" => talks_over(
            alloc,
            &case,
            in_failing(in_shuffled(alloc, list), calls),
            talk,
            says_bye,
        ),
        "failing in shuffled" => talks_over(
            alloc,
            &case,
            in_shuffled(alloc, in_failing(list, calls)),
            talk,
            says_bye,
        ),
        "shuffled in shy" => talks_over(
            alloc,
            &case,
            in_failing(in_shy(alloc, in_shuffled(alloc, list)), calls),
            talk,
            says_bye,
        ),
        "shuffled in counting" => talks_over(
            alloc,
            &case,
            in_failing(in_counting(in_shuffled(alloc, list)), calls),
            talk,
            says_bye,
        ),
        "shuffled twice" => talks_over(
            alloc,
            &case,
            in_failing(in_shuffled(alloc, in_shuffled(alloc, list)), calls),
            talk,
            says_bye,
        ),
        "shy in shuffled" => talks_over(
            alloc,
            &case,
            in_failing(in_shuffled(alloc, in_shy(alloc, list)), calls),
            talk,
            says_bye,
        ),
        _ => talks_over(
            alloc,
            &case,
            in_failing(in_shuffled(alloc, in_counting(list)), calls),
            talk,
            says_bye,
        ),
    }
}

// Fails where a conversation does not go as it says whichever call fails. One request is refused by a call that fails, and none where the
// conversation makes no more than 58 calls behind the two that bind both tables, which it has to. Its sessions end in turn by their lines and
// by the end of the engine.
fn talks_whichever_fails(alloc: Global, name: &str, talk: &str) -> Result<(), Fail> {
    let mut refusals = 1;
    for calls in 2..=60u64 {
        let most = refusals;
        refusals = talks_in(alloc, name, calls, talk, calls % 2 == 0)?;
        if refusals > most {
            return Err(Fail::new(format_args!("{name} after {calls} calls: {refusals} refused")));
        }
    }
    if refusals == 0 {
        return Ok(());
    }
    Err(Fail::new(format_args!("{name}: more calls than 60: {talk}")))
}

// The same of all conversations over the list in a box of this name.
fn all_go(alloc: Global, name: &str) -> Result<(), Fail> {
    for talk in TALKS.split("\n\n") {
        talks_whichever_fails(alloc, name, talk)?;
    }
    Ok(())
}

#[test]
fn talks_go_over_a_list(rt: HostRuntime) -> Result<(), Fail> {
    all_go(rt.alloc(), "list")
}

#[test]
fn talks_go_over_a_list_that_takes_no_restriction(rt: HostRuntime) -> Result<(), Fail> {
    all_go(rt.alloc(), "shy")
}

#[test]
fn talks_go_over_a_list_that_gives_hints(rt: HostRuntime) -> Result<(), Fail> {
    all_go(rt.alloc(), "vague")
}

#[test]
fn talks_go_over_a_list_that_counts(rt: HostRuntime) -> Result<(), Fail> {
    all_go(rt.alloc(), "counting")
}

#[test]
fn talks_go_over_a_list_that_promises_no_order(rt: HostRuntime) -> Result<(), Fail> {
    all_go(rt.alloc(), "lift")
}

#[test]
fn talks_go_over_a_shuffled_list(rt: HostRuntime) -> Result<(), Fail> {
    all_go(rt.alloc(), "shuffled")
}

#[test]
fn talks_go_over_a_list_that_fails_in_shuffled(rt: HostRuntime) -> Result<(), Fail> {
    all_go(rt.alloc(), "failing in shuffled")
}

#[test]
fn talks_go_over_shuffled_in_shy(rt: HostRuntime) -> Result<(), Fail> {
    all_go(rt.alloc(), "shuffled in shy")
}

#[test]
fn talks_go_over_shuffled_in_counting(rt: HostRuntime) -> Result<(), Fail> {
    all_go(rt.alloc(), "shuffled in counting")
}

#[test]
fn talks_go_over_a_list_shuffled_twice(rt: HostRuntime) -> Result<(), Fail> {
    all_go(rt.alloc(), "shuffled twice")
}

#[test]
fn talks_go_over_shy_in_shuffled(rt: HostRuntime) -> Result<(), Fail> {
    all_go(rt.alloc(), "shy in shuffled")
}

#[test]
fn talks_go_over_counting_in_shuffled(rt: HostRuntime) -> Result<(), Fail> {
    all_go(rt.alloc(), "counting in shuffled")
}

// Fails where a statement behind OPEN is refused otherwise than by those calls that fail behind fewer than so many.
fn calls_before(alloc: Global, row: &str) -> Result<(), Fail> {
    let (needed, talk) = row.split_once(' ').ok_or(row)?;
    let needed: u64 = needed.parse()?;
    let talk = format!(in alloc; "1 OPEN => 1 T OPEN;\n{talk}")?;
    for calls in 2..=20u64 {
        if (talks_in(alloc, "list", calls, &talk, true)? == 0) != (needed <= calls) {
            return Err(Fail::new(format_args!("{row}: after {calls} calls")));
        }
    }
    Ok(())
}

// Both tables are bound by the first two calls. DECLARE begins a scan by the third. The UPDATE is a scan that is begun and read to its end, in four
// calls, and a write that is begun, of three changes, and ended: ten calls.
const NEEDED: &str = "\
3 1 DECLARE c CURSOR FOR SELECT no FROM orders ORDER BY no => 1 T DECLARE CURSOR;
12 1 UPDATE parts SET qty = 1 => 1 T UPDATE 3;
";

#[test]
fn statements_make_their_calls(rt: HostRuntime) -> Result<(), Fail> {
    for row in NEEDED.lines() {
        calls_before(rt.alloc(), row)?;
    }
    Ok(())
}
