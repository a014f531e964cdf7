//! Restrictions on a row, and what a scan shows of it.
use crate::rows::{Answer, assert_rows};
use crate::values::value;
use fdw_api::scan::{
    Agree, Agreement, Operand, Restriction, ScanSpec, Test, copy_values, meets_taken,
};
use med_value::text::row_text;
use med_value::{Comparison, NoMemory, Row, Value};
use std::alloc::Global;
use std::test::Fail;

/// The row (1, NULL, 'bolt').
fn part(alloc: Global) -> Result<Row, NoMemory> {
    let name = Value::Text("bolt".to_string(alloc)?);
    let cells = vec![in alloc; Value::Int(1), Value::Null, name]?;
    Ok(Row { cells })
}

/// The third and the first column of the rows whose first column is the parameter, which is taken over, and whose second is NULL.
fn narrow_scan(alloc: Global) -> Result<ScanSpec, NoMemory> {
    let first = Restriction {
        column: 0,
        test: Test::Compare(Comparison::Equal, Operand::Parameter(0)),
    };
    let second = Restriction {
        column: 1,
        test: Test::IsNull,
    };
    Ok(ScanSpec {
        wanted: vec![in alloc; 2, 0]?,
        offered: vec![in alloc; first, second]?,
        agreement: Agreement {
            answers: vec![in alloc; Agree::Exact, Agree::Hint]?,
            narrow: true,
        },
    })
}

/// The comparisons that are true of two values.
struct TrueComparisons;

impl Answer for TrueComparisons {
    fn answer(alloc: Global, words: &str) -> Result<String, Fail> {
        let (left, right) = words.split_once(' ').ok_or(words)?;
        let (left, right) = (value(alloc, left)?, value(alloc, right)?);
        let mut out = String::new(alloc);
        for comparison in [
            Comparison::Equal,
            Comparison::Apart,
            Comparison::Below,
            Comparison::AtMost,
            Comparison::Above,
            Comparison::AtLeast,
        ] {
            if comparison.is_true(&left, &right) {
                out.push_str(&format!(in alloc; "{comparison:?}|")?)?;
            }
        }
        Ok(out)
    }
}

#[test]
fn comparison_with_null_is_never_true(rt: HostRuntime) -> Result<(), Fail> {
    assert_rows::<TrueComparisons>(
        rt.alloc(),
        &rt,
        "2 2 => Equal|AtMost|AtLeast|\n\
        1 2 => Apart|Below|AtMost|\n\
        2 1 => Apart|Above|AtLeast|\n\
        NULL 1 => \n\
        NULL 2 => \n\
        1 NULL => \n\
        2 NULL => \n\
        NULL NULL => ",
    )
}

/// Of the scan with this parameter: whether its restrictions are met and its taken ones, what it shows of the row, and what a plain one does.
struct Narrow;

impl Answer for Narrow {
    fn answer(alloc: Global, parameter: &str) -> Result<String, Fail> {
        let row = part(alloc)?;
        let scan = narrow_scan(alloc)?.copy(alloc)?;
        let params = copy_values(alloc, &[value(alloc, parameter)?])?;
        let met = scan.offered.iter().all(|r| r.is_met(&row, &params));
        let taken = meets_taken(&scan.offered, &scan.agreement.answers, &row, &params);
        let mut out = Vec::new(alloc);
        row_text(&scan.show(alloc, &row)?, &mut out)?;
        out.push(b'|')?;
        row_text(&ScanSpec::plain(alloc).show(alloc, &row)?, &mut out)?;
        let shown = String::from_utf8(out).ok().ok_or(parameter)?;
        Ok(format!(in alloc; "{met} {taken} {}", shown.as_str())?)
    }
}

#[test]
fn narrow_scan_tests_and_shows_a_row(rt: HostRuntime) -> Result<(), Fail> {
    assert_rows::<Narrow>(
        rt.alloc(),
        &rt,
        "1 => true true bolt\t1|1\t\\N\tbolt\n\
        2 => false false bolt\t1|1\t\\N\tbolt",
    )
}
