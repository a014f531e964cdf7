//! A CSV file and a file of JSON lines whose device fails at one of its calls, or is worn out: each request is done, or told as a fault of its
//! source, and the file is whole or as it was. It is read by CREATE FOREIGN TABLE alone, so a table is dropped and made again to see it.
ghost use Rattle.fdw_api.specs.State.{IsIdle};
ghost use Rattle.med_catalog.specs.declared.kind.SourceKind.TheVariants.{Csv, JsonLines};
ghost use Rattle.med_session.specs.Prelude.{IsSound, TakesAs, shown};
ghost use Rattle.std.specs.Prelude.{IfOk};

use crate::served::{ask, request_of};
use blob_store::{FaultyBlobs, MemoryBlobs};
use csv_wrapper::CsvWrapper;
use fdw_api::Lift;
use fdw_api::interface::{Counts, Wrapper};
use fdw_api::wishes::Wrapper2;
use jsonl_wrapper::JsonlWrapper;
use med_exec::ledger_at;
use med_session::{Engine, SourceKind};
use source_kinds::law::{csv_takes_its_tables, jsonl_takes_its_tables};
use std::alloc::Global;
use std::str::from_utf8;
use std::test::Fail;

// The two rows of the file, as CSV and as JSON lines.
const CSV: &[u8] = b"1,bolt\n2,nut\n";

const LINES: &[u8] = b"{\"id\":1,\"name\":\"bolt\"}\n{\"id\":2,\"name\":\"nut\"}\n";

// What stands for WRAPPER in a row.
const OVER_CSV: &str = "CREATE FOREIGN DATA WRAPPER files HANDLER csv";

const OVER_LINES: &str = "CREATE FOREIGN DATA WRAPPER files HANDLER jsonl";

const MADE: &str = "\
OPEN admin => 1 T OPEN;
WRAPPER => 1 T CREATE FOREIGN DATA WRAPPER;
CREATE SERVER files FOREIGN DATA WRAPPER files OPTIONS (source 'files') => 1 T CREATE SERVER;
CREATE USER MAPPING FOR PUBLIC SERVER files OPTIONS (mode 'write') => 1 T CREATE USER MAPPING;
";

// What stands for BIND and READ in a row.
const BIND: &str =
    "CREATE FOREIGN TABLE t (id integer, name text) SERVER files OPTIONS (filename 'parts')";

const READ: &str = "SELECT id, name FROM t ORDER BY id";

// No call fails: four of them.
const DONE: &str = "\
BIND => 1 T CREATE FOREIGN TABLE;
READ => 1 H\tid\tname;1 R\t1\tbolt;1 R\t2\tnut;1 T SELECT 2;
INSERT INTO t VALUES (3, NULL) => 1 T INSERT 0 1;
UPDATE t SET name = 'gear' WHERE id = 2 => 1 T UPDATE 1;
DELETE FROM t WHERE id = 1 => 1 T DELETE 1;
DROP FOREIGN TABLE t => 1 T DROP FOREIGN TABLE;
BIND => 1 T CREATE FOREIGN TABLE;
READ => 1 H\tid\tname;1 R\t2\tgear;1 R\t3\t\\N;1 T SELECT 2;
DECLARE c CURSOR FOR SELECT id, name FROM t => 1 T DECLARE CURSOR;
";

// The first call fails, which reads the file.
const UNREAD: &str = "\
BIND => 1 E HV000 fdw_error;
READ => 1 E 42P01 undefined_table;
BIND => 1 T CREATE FOREIGN TABLE;
READ => 1 H\tid\tname;1 R\t1\tbolt;1 R\t2\tnut;1 T SELECT 2;
INSERT INTO t VALUES (3, NULL) => 1 T INSERT 0 1;
DROP FOREIGN TABLE t => 1 T DROP FOREIGN TABLE;
BIND => 1 T CREATE FOREIGN TABLE;
READ => 1 H\tid\tname;1 R\t1\tbolt;1 R\t2\tnut;1 R\t3\t\\N;1 T SELECT 3;
";

// The second fails, which writes it.
const UNWRITTEN: &str = "\
BIND => 1 T CREATE FOREIGN TABLE;
READ => 1 H\tid\tname;1 R\t1\tbolt;1 R\t2\tnut;1 T SELECT 2;
INSERT INTO t VALUES (3, NULL), (4, 'gear') => 1 E HV000 fdw_error;
READ => 1 H\tid\tname;1 R\t1\tbolt;1 R\t2\tnut;1 T SELECT 2;
DROP FOREIGN TABLE t => 1 T DROP FOREIGN TABLE;
BIND => 1 T CREATE FOREIGN TABLE;
READ => 1 H\tid\tname;1 R\t1\tbolt;1 R\t2\tnut;1 T SELECT 2;
INSERT INTO t VALUES (3, NULL), (4, 'gear') => 1 T INSERT 0 2;
READ => 1 H\tid\tname;1 R\t1\tbolt;1 R\t2\tnut;1 R\t3\t\\N;1 R\t4\tgear;1 T SELECT 4;
DROP FOREIGN TABLE t => 1 T DROP FOREIGN TABLE;
BIND => 1 T CREATE FOREIGN TABLE;
READ => 1 H\tid\tname;1 R\t1\tbolt;1 R\t2\tnut;1 R\t3\t\\N;1 R\t4\tgear;1 T SELECT 4;
";

// The third fails, which writes behind a write that was done.
const UNDELETED: &str = "\
BIND => 1 T CREATE FOREIGN TABLE;
INSERT INTO t VALUES (3, NULL) => 1 T INSERT 0 1;
DELETE FROM t WHERE id < 3 => 1 E HV000 fdw_error;
READ => 1 H\tid\tname;1 R\t1\tbolt;1 R\t2\tnut;1 R\t3\t\\N;1 T SELECT 3;
DROP FOREIGN TABLE t => 1 T DROP FOREIGN TABLE;
BIND => 1 T CREATE FOREIGN TABLE;
READ => 1 H\tid\tname;1 R\t1\tbolt;1 R\t2\tnut;1 R\t3\t\\N;1 T SELECT 3;
DELETE FROM t WHERE id < 3 => 1 T DELETE 2;
DROP FOREIGN TABLE t => 1 T DROP FOREIGN TABLE;
BIND => 1 T CREATE FOREIGN TABLE;
READ => 1 H\tid\tname;1 R\t3\t\\N;1 T SELECT 1;
";

// The third fails, which reads the file again.
const UNREAD_AGAIN: &str = "\
BIND => 1 T CREATE FOREIGN TABLE;
UPDATE t SET id = id + 10 => 1 T UPDATE 2;
DROP FOREIGN TABLE t => 1 T DROP FOREIGN TABLE;
BIND => 1 E HV000 fdw_error;
READ => 1 E 42P01 undefined_table;
BIND => 1 T CREATE FOREIGN TABLE;
READ => 1 H\tid\tname;1 R\t11\tbolt;1 R\t12\tnut;1 T SELECT 2;
";

// The second fails, and the count of failures comes to its end by it: the rows that are held are read, and the file is never asked again.
const WEARING_OUT: &str = "\
BIND => 1 T CREATE FOREIGN TABLE;
INSERT INTO t VALUES (3, NULL) => 1 E HV000 fdw_error;
READ => 1 H\tid\tname;1 R\t1\tbolt;1 R\t2\tnut;1 T SELECT 2;
INSERT INTO t VALUES (3, NULL) => 1 E HV000 fdw_error;
UPDATE t SET id = 0 => 1 E HV000 fdw_error;
DELETE FROM t => 1 E HV000 fdw_error;
READ => 1 H\tid\tname;1 R\t1\tbolt;1 R\t2\tnut;1 T SELECT 2;
DROP FOREIGN TABLE t => 1 T DROP FOREIGN TABLE;
BIND => 1 E HV000 fdw_error;
SELECT 1 AS one => 1 H\tone;1 R\t1;1 T SELECT 1;
";

// The count of failures is at its end from the first.
const WORN: &str = "\
BIND => 1 E HV000 fdw_error;
BIND => 1 E HV000 fdw_error;
READ => 1 E 42P01 undefined_table;
SELECT 1 AS one => 1 H\tone;1 R\t1;1 T SELECT 1;
";

// A device: how many calls it passes before the one that fails, and how many failed before; what is asked, and the failures in the end.
type Case = (u64, u64, &'static str, u64);

const CASES: [Case; 8] = [
    (9, 0, DONE, 0),
    (0, 0, UNREAD, 1),
    (1, 0, UNWRITTEN, 1),
    (2, 0, UNDELETED, 1),
    (2, 0, UNREAD_AGAIN, 1),
    (1, u64::MAX - 1, WEARING_OUT, u64::MAX),
    (0, u64::MAX, WORN, u64::MAX),
    (u64::MAX, u64::MAX, WORN, u64::MAX),
];

// The file `parts` with these bytes on such a device.
fn device(alloc: Global, bytes: &[u8], case: Case) -> Result<FaultyBlobs, Fail> {
    let (passes, failures, _, _) = case;
    let mut blobs = MemoryBlobs::new(alloc);
    blobs.put(alloc, "parts", bytes)?;
    Ok(FaultyBlobs::new(blobs, passes, failures))
}

// A source of CSV files on such a device.
fn new_csv(alloc: Global, case: Case) -> Result<Lift<CsvWrapper<FaultyBlobs>>, Fail>
    ensures idle { IfOk result (λ s. IsIdle (⟦<Lift<CsvWrapper<FaultyBlobs>> as Wrapper>⟧.meaning s)) }
    ensures takes { IfOk result (λ s. TakesAs Csv (⟦<Lift<CsvWrapper<FaultyBlobs>> as Wrapper>⟧.meaning s)) }
{
    csv_takes_its_tables();
    let blobs = device(alloc, CSV, case)?;
    let csv = CsvWrapper::new(alloc, blobs);
    Ok(Lift::new(csv))
}

// A source of files of JSON lines on such a device.
fn new_jsonl(alloc: Global, case: Case) -> Result<Lift<JsonlWrapper<FaultyBlobs>>, Fail>
    ensures idle { IfOk result (λ s. IsIdle (⟦<Lift<JsonlWrapper<FaultyBlobs>> as Wrapper>⟧.meaning s)) }
    ensures takes { IfOk result (λ s. TakesAs JsonLines (⟦<Lift<JsonlWrapper<FaultyBlobs>> as Wrapper>⟧.meaning s)) }
{
    jsonl_takes_its_tables();
    let blobs = device(alloc, LINES, case)?;
    let jsonl = JsonlWrapper::new(alloc, blobs);
    Ok(Lift::new(jsonl))
}

// What a row asks for.
fn statement_of<'a>(asked: &'a str, wrapper: &'a str) -> &'a str {
    match asked {
        "WRAPPER" => wrapper,
        "BIND" => BIND,
        "READ" => READ,
        _ => asked,
    }
}

// Fails where the reply to a row is another.
fn replies<W: Wrapper2>(
    engine: &mut Engine<W>,
    wrapper: &str,
    row: &str,
    out: &mut Vec<u8>,
) -> Result<(), Fail>
    requires { IsSound (shown W.meaning engine.old) }
    ensures { IsSound (shown W.meaning engine.new) }
{
    let (asked, wanted) = row.split_once(" => ").ok_or(row)?;
    ask(engine, 1, request_of(statement_of(asked, wrapper)), out)?;
    if out.as_slice() == wanted.as_bytes() {
        return Ok(());
    }
    let came = from_utf8(out).unwrap_or("no text");
    Err(Fail::new(format_args!("{row}: {came} came")))
}

// The same of all rows.
fn replies_to_all<W: Wrapper2>(
    engine: &mut Engine<W>,
    wrapper: &str,
    rows: &str,
    out: &mut Vec<u8>,
) -> Result<(), Fail>
    requires { IsSound (shown W.meaning engine.old) }
    ensures { IsSound (shown W.meaning engine.new) }
{
    for row in rows.lines() {
        replies(engine, wrapper, row, out)?;
    }
    Ok(())
}

// Serves the rows of a case over this source, and tells what the source counts then.
fn served<W: Wrapper2>(
    alloc: Global,
    kind: SourceKind,
    source: W,
    over: &str,
    rows: &str,
) -> Result<Option<Counts>, Fail>
    requires idle { IsIdle (W.meaning source) }
    requires takes { TakesAs kind (W.meaning source) }
{
    let mut out = Vec::new(alloc);
    let rows = format!(in alloc; "{MADE}{rows}")?;
    let mut engine = Engine::<W>::new(alloc, "admin")?;
    match engine.add_source("files", kind, source) {
        Ok(()) => {}
        Err((_, fault)) => {
            drop(engine);
            return Err(Fail::from(fault));
        }
    }
    let told = replies_to_all(&mut engine, over, &rows, &mut out);
    let counts = ledger_at(&engine.finish().slots, 0);
    told?;
    Ok(counts)
}

// Fails where a scan is live, or other failures are counted.
fn counts_as(counts: Option<Counts>, case: Case) -> Result<(), Fail> {
    let (_, _, rows, failures) = case;
    match counts {
        Some(counts) if counts.live == 0 && counts.faults == failures => Ok(()),
        _ => Err(Fail::new(format_args!("{rows}: {counts:?}"))),
    }
}

#[test]
fn csv_file_on_a_device_that_fails_is_whole(rt: HostRuntime) -> Result<(), Fail> {
    let alloc = rt.alloc();
    for case in CASES {
        let source = new_csv(alloc, case)?;
        counts_as(
            served(alloc, SourceKind::Csv, source, OVER_CSV, case.2)?,
            case,
        )?;
    }
    Ok(())
}

#[test]
fn json_lines_on_a_device_that_fails_are_whole(rt: HostRuntime) -> Result<(), Fail> {
    let alloc = rt.alloc();
    for case in CASES {
        let source = new_jsonl(alloc, case)?;
        counts_as(
            served(alloc, SourceKind::JsonLines, source, OVER_LINES, case.2)?,
            case,
        )?;
    }
    Ok(())
}
