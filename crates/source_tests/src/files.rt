//! Rows of scans over a CSV blob and over JSON lines, and what they give.
//!
//! A row has six fields: the wanted columns, the restrictions that are offered, the parameters, those of the second round, what the source
//! agrees to, and the rows of the two rounds. All are of one table: `id` integer, `name` text, `live` boolean.
ghost use Rattle.std.specs.Prelude.{◌≡◌, ◌∷◌, [], codes, false, map, IfOk};
ghost use Rattle.med_value.specs.declared.value.ColType.TheVariants as types;
ghost use Rattle.fdw_api.specs.Prelude.{column_of, IsIdle};

use crate::scans::answered;
use crate::written::written_scan;
use blob_store::MemoryBlobs;
use csv_wrapper::CsvWrapper;
use fdw_api::Wrapper;
use jsonl_wrapper::JsonlWrapper;
use med_value::{ColType, ColumnDef, NoMemory};
use std::alloc::Global;
use std::str::from_utf8;
use std::test::Fail;

const KINDS: [ColType; 3] = [ColType::Int, ColType::Text, ColType::Bool];

// The columns `id`, `name` and `live`.
fn columns(alloc: Global) -> Result<Vec<ColumnDef>, NoMemory>
    ensures { IfOk result (λ columns. map column_of columns.items
        ≡ record { name = codes "id"; kind = types.Int; not_null = false }
        ∷ record { name = codes "name"; kind = types.Text; not_null = false }
        ∷ record { name = codes "live"; kind = types.Bool; not_null = false } ∷ []) }
{
    Ok(vec![in alloc;
        ColumnDef {
            name: "id".to_string(alloc)?,
            kind: ColType::Int,
            not_null: false
        },
        ColumnDef {
            name: "name".to_string(alloc)?,
            kind: ColType::Text,
            not_null: false
        },
        ColumnDef {
            name: "live".to_string(alloc)?,
            kind: ColType::Bool,
            not_null: false
        },
    ]?)
}

// Five rows: `bolt` twice, a name of its length, and a shorter one; NULL in each column.
const CSV: &[u8] = b"1,bolt,t\n2,nut,no\n3,\\N,\n,gear,1\n-4,bolt,f\n";

// The same rows.
const LINES: &[u8] =
    b"{\"id\":1,\"name\":\"bolt\",\"live\":true}\n{\"live\":false,\"name\":\"nut\",\"id\":2}\n{\"id\":3,\"live\":null}\n{\"id\":null,\"name\":\"gear\",\"live\":true}\n{\"id\":-4,\"name\":\"bolt\",\"live\":false}";

fn blob(alloc: Global, bytes: &[u8]) -> Result<MemoryBlobs, Fail> {
    let mut blobs = MemoryBlobs::new(alloc);
    blobs.put(alloc, "parts", bytes)?;
    Ok(blobs)
}

// A source of one CSV blob, `parts`.
fn new_csv(alloc: Global) -> Result<CsvWrapper<MemoryBlobs>, Fail>
    ensures { IfOk result (λ w. IsIdle (⟦<CsvWrapper<MemoryBlobs> as Wrapper>⟧.meaning w)) }
{
    Ok(CsvWrapper::new(alloc, blob(alloc, CSV)?))
}

// A source of one blob of JSON lines, `parts`.
fn new_jsonl(alloc: Global) -> Result<JsonlWrapper<MemoryBlobs>, Fail>
    ensures { IfOk result (λ w. IsIdle (⟦<JsonlWrapper<MemoryBlobs> as Wrapper>⟧.meaning w)) }
{
    Ok(JsonlWrapper::new(alloc, blob(alloc, LINES)?))
}

// What the first four fields of a row give on a new source of this kind.
fn found(alloc: Global, kind: &str, fields: &[&str]) -> Result<Vec<u8>, Fail> {
    let [wanted, offered, params, again] = fields else {
        return Err("four fields".into());
    };
    let asked = written_scan(alloc, wanted, offered, params, again)?;
    let columns = columns(alloc)?;
    if kind == "csv" {
        answered(new_csv(alloc)?, alloc, "parts", &columns, &KINDS, asked)
    } else {
        answered(new_jsonl(alloc)?, alloc, "parts", &columns, &KINDS, asked)
    }
}

// Fails where a row of a source of this kind gives other rows.
fn check_row(alloc: Global, kind: &str, row: &str) -> Result<(), Fail> {
    let fields: Vec<&str> = row.split('|').collect(alloc)?;
    let Some((want, asked)) = fields.split_last() else {
        return Err("no row".into());
    };
    let found = found(alloc, kind, asked)?;
    if found.as_slice() == want.as_bytes() {
        return Ok(());
    }
    let found = from_utf8(&found)?;
    Err(format!(in alloc; "{row}: {found} came")?)?
}

fn check_rows(alloc: Global, kind: &str, rows: &str) -> Result<(), Fail> {
    for row in rows.lines() {
        check_row(alloc, kind, row)?;
    }
    Ok(())
}

#[test]
fn csv_takes_over_integers_booleans_and_null(rt: HostRuntime) -> Result<(), Fail> {
    check_rows(
        rt.alloc(),
        "csv",
        "0|0 = 2|||e narrow: 2 again 2 1/0/2/0
0|0 <> 2|||e narrow: 1 3 -4 again 1 3 -4 1/0/6/0
0|0 < 2|||e narrow: 1 -4 again 1 -4 1/0/4/0
0|0 <= 2|||e narrow: 1 2 -4 again 1 2 -4 1/0/6/0
0|0 > 2|||e narrow: 3 again 3 1/0/2/0
0|0 >= 2|||e narrow: 2 3 again 2 3 1/0/4/0
0|0 <> null|||e narrow: again 1/0/0/0
0|0 <> ?|null|1|e narrow: again 2 3 -4 1/0/3/0
0|0 = ?|1|3|e narrow: 1 again 3 1/0/2/0
2 1|0 missing|||e narrow: t\tgear again t\tgear 1/0/2/0
0|1 missing|||e narrow: 3 again 3 1/0/2/0
0|1 present,2 present|||ee narrow: 1 2 \\N -4 again 1 2 \\N -4 1/0/8/0
0|2 missing|||e narrow: 3 again 3 1/0/2/0
0|2 = t|||e narrow: 1 \\N again 1 \\N 1/0/4/0
0|2 < ?|t|null|e narrow: 2 -4 again 1/0/2/0
0|2 = null|||e narrow: again 1/0/0/0",
    )
}

// A name of another length is left out; one of its length may come, and the others stay with the caller.
#[test]
fn csv_leaves_texts_out_by_their_length(rt: HostRuntime) -> Result<(), Fail> {
    check_rows(
        rt.alloc(),
        "csv",
        "1|1 = bolt|||h narrow: bolt gear bolt again bolt gear bolt 1/0/6/0
1|1 = ?|nut|null|h narrow: nut again 1/0/1/0
1|1 = null|||h narrow: again 1/0/0/0
0|1 < c|||i narrow: 1 2 3 \\N -4 again 1 2 3 \\N -4 1/0/10/0
0|1 <> bolt|||i narrow: 1 2 3 \\N -4 again 1 2 3 \\N -4 1/0/10/0
0|1 = bolt,0 > 0|||he narrow: 1 again 1 1/0/2/0
0|1 >= c,0 > 1|||ie narrow: 2 3 again 2 3 1/0/4/0",
    )
}

#[test]
fn json_lines_take_over_integers_and_null(rt: HostRuntime) -> Result<(), Fail> {
    check_rows(
        rt.alloc(),
        "jsonl",
        "0|0 = 2|||e narrow: 2 again 2 1/0/2/0
0|0 <> 2|||e narrow: 1 3 -4 again 1 3 -4 1/0/6/0
0|0 < 2|||e narrow: 1 -4 again 1 -4 1/0/4/0
0|0 <= 2|||e narrow: 1 2 -4 again 1 2 -4 1/0/6/0
0|0 > 2|||e narrow: 3 again 3 1/0/2/0
0|0 >= 2|||e narrow: 2 3 again 2 3 1/0/4/0
0|0 <> null|||e narrow: again 1/0/0/0
0|0 <> ?|null|1|e narrow: again 2 3 -4 1/0/3/0
0|0 = ?|1|3|e narrow: 1 again 3 1/0/2/0
2 1|0 missing|||e narrow: t\tgear again t\tgear 1/0/2/0
0|1 present,2 present|||ee narrow: 1 2 \\N -4 again 1 2 \\N -4 1/0/8/0
0|2 missing|||e narrow: 3 again 3 1/0/2/0
0|2 = t|||i narrow: 1 2 3 \\N -4 again 1 2 3 \\N -4 1/0/10/0
0|1 = bolt|||i narrow: 1 2 3 \\N -4 again 1 2 3 \\N -4 1/0/10/0
0|1 < c,0 > 1|||ie narrow: 2 3 again 2 3 1/0/4/0",
    )
}
