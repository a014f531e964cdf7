//! Values with parameters and over classes, conjuncts, arguments, and which expressions are the same. The values of the other
//! expressions stand in the streams of the program, tests/streams/language/values_* and verdicts_on_rows_and_groups.
use crate::build::{build, class, parameters, part};
use crate::rows::{Answer, assert_rows};
use std::alloc::Global;
use std::test::Fail;
use tri_expr::{Expr, arguments, conjuncts, eval, eval_class, is_same};

/// The value of an expression on a row.
struct RowValue;

impl Answer for RowValue {
    fn answer(alloc: Global, text: &str) -> Result<String, Fail> {
        let (steps, row) = text.split_once(" | ").ok_or(text)?;
        let answer = eval(
            alloc,
            &build(alloc, steps)?,
            &part(alloc, row)?,
            &parameters(alloc)?,
        );
        Ok(format!(in alloc; "{answer:?}")?)
    }
}

#[test]
fn parameters_have_their_values(rt: HostRuntime) -> Result<(), Fail> {
    assert_rows::<RowValue>(
        rt.alloc(),
        &rt,
        "$1 1 + | 1 => Ok(Int(6))\n\
        $2 1 + | 1 => Ok(Null)\n\
        $1 qty * | 1 => Ok(Int(50))\n\
        $3 | 1 => Ok(Text(\"wing\"))\n\
        $4 | 1 => Ok(Null)\n\
        name $3 = | 1 => Ok(Bool(false))",
    )
}

/// The value of an expression over a class of rows.
struct ClassValue;

impl Answer for ClassValue {
    fn answer(alloc: Global, text: &str) -> Result<String, Fail> {
        let (steps, rows) = text.split_once(" | ").ok_or(text)?;
        let answer = eval_class(alloc, &build(alloc, steps)?, &class(alloc, rows)?, &[]);
        Ok(format!(in alloc; "{answer:?}")?)
    }
}

#[test]
fn column_over_a_class_is_the_value_that_its_rows_share(rt: HostRuntime) -> Result<(), Fail> {
    assert_rows::<ClassValue>(
        rt.alloc(),
        &rt,
        "live | 1 2 => Ok(Bool(true))\n\
        live | 1 3 => Ok(Null)",
    )
}

/// The values of expressions on the first row, in order.
fn values(alloc: Global, parts: &[Expr]) -> Result<String, Fail> {
    let row = part(alloc, "1")?;
    let mut text = String::new(alloc);
    for e in parts {
        let answer = eval(alloc, e, &row, &[]).ok().ok_or("no value")?;
        text.push_str(&format!(in alloc; "{answer:?}|")?)?;
    }
    Ok(text)
}

struct ConjunctValues;

impl Answer for ConjunctValues {
    fn answer(alloc: Global, steps: &str) -> Result<String, Fail> {
        values(alloc, &conjuncts(alloc, &build(alloc, steps)?)?)
    }
}

#[test]
fn conjuncts_are_the_parts_at_top_level_ands(rt: HostRuntime) -> Result<(), Fail> {
    assert_rows::<ConjunctValues>(
        rt.alloc(),
        &rt,
        "id name qty () and:2 () live and:3 => Int(1)|Text(\"bolt\")|Int(10)|Bool(true)|\n\
        id name qty live and:2 () and:2 () and:2 () => Int(1)|Text(\"bolt\")|Int(10)|Bool(true)|\n\
        id name and:2 qty and:2 live and:2 => Int(1)|Text(\"bolt\")|Int(10)|Bool(true)|\n\
        id => Int(1)|\n\
        id () () => Int(1)|\n\
        id name or:2 => Null|\n\
        qty 1 20 between => Bool(true)|\n\
        qty 1 20 between live and:2 => Bool(true)|Bool(true)|\n\
        id 1 = name 'x' = and:2 not => Bool(true)|",
    )
}

struct ArgumentValues;

impl Answer for ArgumentValues {
    fn answer(alloc: Global, steps: &str) -> Result<String, Fail> {
        values(alloc, &arguments(alloc, &build(alloc, steps)?)?)
    }
}

#[test]
fn arguments_stand_from_the_left_on(rt: HostRuntime) -> Result<(), Fail> {
    assert_rows::<ArgumentValues>(
        rt.alloc(),
        &rt,
        "id => \n\
        count(*) => \n\
        id sum => Int(1)|\n\
        qty sum id 1 + max + => Int(10)|Int(2)|\n\
        name count 1 = live count 2 = and:2 not => Text(\"bolt\")|Bool(true)|\n\
        id min qty max 7 sum between => Int(1)|Int(10)|Int(7)|\n\
        id max 3 name count in:2 => Int(1)|Text(\"bolt\")|\n\
        name () min () like:b% is:not_null => Text(\"bolt\")|\n\
        id count qty + negate sum => Int(-11)|Int(1)|",
    )
}

struct Sameness;

impl Answer for Sameness {
    fn answer(alloc: Global, text: &str) -> Result<String, Fail> {
        let (one, other) = text.split_once(" | ").ok_or(text)?;
        let same = is_same(&build(alloc, one)?, &build(alloc, other)?);
        Ok(format!(in alloc; "{same}")?)
    }
}

#[test]
fn same_expressions_differ_in_parentheses_alone(rt: HostRuntime) -> Result<(), Fail> {
    assert_rows::<Sameness>(
        rt.alloc(),
        &rt,
        "id | id => true\n\
        id | qty => false\n\
        id () () | id => true\n\
        id | id () => true\n\
        id 1 + () 2 * | id 1 () + 2 * => true\n\
        id 1 + | 1 id + => false\n\
        id 1 + | id 1 - => false\n\
        id 1 = | id 1 <> => false\n\
        $1 | $1 => true\n\
        $1 | $2 => false\n\
        $1 | id => false\n\
        NULL | NULL => true\n\
        'a' | 'a' => true\n\
        'a' | 'A' => false\n\
        1 | '1' => false\n\
        TRUE | FALSE => false\n\
        1 negate | -1 => false\n\
        id name and:2 | id name and:2 => true\n\
        id name and:2 | id name or:2 => false\n\
        id name and:2 | name id and:2 => false\n\
        id name and:2 | id name live and:3 => false\n\
        id name and:2 live and:2 | id name live and:3 => false\n\
        id not | id not () => true\n\
        id is:null | id is:not_null => false\n\
        id is:null | id is:unknown => false\n\
        id 1 2 between | id 1 2 between => true\n\
        id 1 2 between | id 1 2 not_between => false\n\
        id 1 2 in:2 | id 2 1 in:2 => false\n\
        id 1 2 in:2 | id 1 () 2 in:2 => true\n\
        name like:a% | name () like:a% => true\n\
        name like:a% | name like:a_ => false\n\
        count(*) | count(*) => true\n\
        id count | count(*) => false\n\
        id sum | id () min => false",
    )
}

/// `same`, or else how the copy differs.
struct Copied;

impl Answer for Copied {
    fn answer(alloc: Global, steps: &str) -> Result<String, Fail> {
        let e = build(alloc, steps)?;
        let source = format!(in alloc; "{e:?}")?;
        let copy = format!(in alloc; "{:?}", e.copy(alloc)?)?;
        if copy == source {
            return Ok("same".to_string(alloc)?);
        }
        Ok(copy)
    }
}

// There is one expression of each form.
#[test]
fn copies_are_as_their_sources(rt: HostRuntime) -> Result<(), Fail> {
    assert_rows::<Copied>(
        rt.alloc(),
        &rt,
        "$1 7 + negate 3 -5 * < name 'a' 'c' not_between and:2 live not or:2 () qty 1 $2 not_in:2 name not_like:b% is:not_null count(*) id max = and:4 => same",
    )
}
