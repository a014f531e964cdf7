//! Scans of the orders by version 2 of the interface, with a wish.
ghost use Rattle.std.specs.Prelude.{◌≡◌, [], List, IsSome};
ghost use Rattle.fdw_api.specs.Prelude.{Column, IsIdle, table_of};

use crate::boxes::{
    in_counting, in_failing, in_first, in_lift, in_second, in_shuffled, in_shy, in_vague,
};
use crate::calls::checked;
use crate::orders::{bind_orders, new_list};
use crate::reads::{take_four, write_counts};
use fdw_api::interface::{Fault, Wrapper};
use fdw_api::scan::{Agree, Operand, Restriction, ScanSpec, Test};
use fdw_api::wishes::{Agreement2, OrderKey, ScanSpec2, Wish, Wrapper2};
use med_value::{Comparison, TableNo, Value};
use std::alloc::Global;
use std::test::Fail;

/// One row, of those in the descending order of the third column.
fn greatest(alloc: Global) -> Result<Wish, Fault> {
    let key = OrderKey {
        column: 2,
        desc: true,
        nulls_first: false,
    };
    Ok(Wish {
        order: vec![in alloc; key]?,
        limit: Some(1),
    })
}

/// Appends what an agreement says of a restriction, of the columns, and of a wish.
fn write_agreement(agreement: &Agreement2, out: &mut Vec<u8>) -> Result<(), Fault> {
    for answer in agreement.base.answers.as_slice() {
        let word = match answer {
            Agree::Ignored => "ignored ",
            Agree::Hint => "hint ",
            Agree::Exact => "exact ",
        };
        out.extend_from_slice(word.as_bytes())?;
    }
    let word = match (agreement.ordered, agreement.limited) {
        (true, true) => "both ",
        (true, false) => "ordered ",
        (false, true) => "limited ",
        (false, false) => "neither ",
    };
    out.extend_from_slice(word.as_bytes())?;
    Ok(())
}

/// Reads the first column of the orders of more than 1, of which the greatest one is wished, by one scan under the source's own agreement.
fn read_greatest<W: Wrapper2>(
    source: &mut W,
    alloc: Global,
    table: TableNo,
    out: &mut Vec<u8>,
) -> Result<(), Fault>
    requires { IsSome (table_of (W.meaning source.old) table.number) }
{
    let above_one = Restriction {
        column: 2,
        test: Test::Compare(Comparison::Above, Operand::Constant(Value::Int(1))),
    };
    let wanted = vec![in alloc; 0]?;
    let offered = vec![in alloc; above_one]?;
    let wish = greatest(alloc)?;
    let agreement = source.plan2(alloc, table, &wanted, &offered, &wish)?;
    write_agreement(&agreement, out)?;
    let Agreement2 {
        base,
        ordered,
        limited,
    } = agreement;
    let spec = ScanSpec2 {
        base: ScanSpec {
            wanted,
            offered,
            agreement: base,
        },
        wish,
        ordered,
        limited,
    };
    let ticket = source.begin2(alloc, table, &spec, &[])?;
    let taken = take_four(source, alloc, &ticket, out);
    source.end(ticket);
    taken
}

/// What the greatest order reads as on a new source, and then what the source counts.
fn answered<W: Wrapper2>(source: W, alloc: Global) -> Result<Vec<u8>, Fail>
    requires idle { IsIdle (W.meaning source) }
    requires free { (columns : List Column) → (W.meaning source).nature.kind.objections columns [] ≡ [] }
{
    let mut source = source;
    let mut out = Vec::new(alloc);
    let table = bind_orders(&mut source, alloc)?;
    match read_greatest(&mut source, alloc, table, &mut out) {
        Err(Fault::Source) => out.extend_from_slice(b"failed ")?,
        read => read?,
    }
    write_counts(alloc, source.ledger(), &mut out)?;
    Ok(out)
}

/// The same on a box of this name round a new list: a number is a `Failing` that passes so many calls.
fn answered_by(alloc: Global, name: &str) -> Result<Vec<u8>, Fail> {
    let list = new_list(alloc)?;
    match name {
        "list" => answered(list, alloc),
        "boxed" => {
            let source: Box<dyn Wrapper2> = Box::new(alloc, list)?;
            answered(source, alloc)
        }
        "lift" => answered(in_lift(list), alloc),
        "first" => answered(in_first(list), alloc),
        "second" => answered(in_second(list), alloc),
        "counting" => answered(in_counting(list), alloc),
        "shy" => answered(in_shy(alloc, list), alloc),
        "vague" => answered(in_vague(alloc, list), alloc),
        "shuffled" => answered(in_shuffled(alloc, list), alloc),
        passes => answered(in_failing(list, passes.parse::<u64>()?), alloc),
    }
}

fn check_row(alloc: Global, row: &str) -> Result<(), Fail> {
    let fields: Vec<&str> = row.split('|').collect(alloc)?;
    match fields.as_slice() {
        [name, want] => checked(alloc, row, &answered_by(alloc, name)?, want),
        _ => Err(row.to_string(alloc)?)?,
    }
}

// A list answers both, and gives the greatest order alone. `Failing` and `Counting` and boxes of both pass the wish on, the others answer
// neither: their rows are those of `begin`. A `Failing` that passes the bind fails at `begin2`, since `plan2` is not counted.
#[test]
fn each_box_answers_an_order_and_a_limit_as_it_may(rt: HostRuntime) -> Result<(), Fail> {
    let rows = "list|exact both 11 end end end 1/0/1/0
boxed|exact both 11 end end end 1/0/1/0
lift|exact neither 10 11 end end 1/0/2/0
first|exact both 11 end end end 1/0/1/0
second|exact both 11 end end end 1/0/1/0
counting|exact both 11 end end end 1/0/1/0
shuffled|exact neither 11 10 end end 1/0/2/0
shy|ignored neither 10\t1\t4 11\t1\t6 12\t9\t1 end 1/0/3/0
vague|hint neither 10\t1\t4 11\t1\t6 12\t9\t1 end 1/0/3/0
2|exact both failed 1/0/0/1
6|exact both 11 end end end 1/0/1/0
1|exact both failed 0/0/0/1";
    for row in rows.lines() {
        check_row(rt.alloc(), row)?;
    }
    Ok(())
}
