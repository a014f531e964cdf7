//! Contents that are refused, and changes whose image is read again.
ghost use Rattle.std.specs.Prelude.{◌≡◌, true, map, IfOk};
ghost use Rattle.std.specs.List.{list_all};
ghost use Rattle.fdw_api.specs.Writes.{row_of_change_fits};
ghost use Rattle.wrapper_parts.specs.Staged.{change_is};
ghost use Rattle.tab_tests.specs.Tabs.{texts};
ghost use Rattle.tab_tests.specs.TabForms.{tab_form};

use crate::parts::{PARTS, columns};
use crate::tabs::{TabDraft, TabTable, row_of};
use fdw_api::interface::Fault;
use med_value::{Cause, NoMemory, Row, Value};
use place_wrapper::{PlacedTable, Unwritten};
use std::alloc::Global;
use std::test::Fail;
use wrapper_parts::RowChange;

// A content as the table of the tests.
fn read_parts(alloc: Global, content: &[u8]) -> Result<TabTable, Fault>
    ensures { IfOk result (λ t. (tab_form.bound t).kinds ≡ texts 2) }
{
    let columns = columns(alloc)?;
    let content = Vec::from_slice(alloc, content)?;
    TabTable::read(alloc, "parts", &columns, &[], content)
}

fn is_refused(alloc: Global, content: &[u8]) -> Result<bool, Fail> {
    match read_parts(alloc, content) {
        Ok(_) => Ok(false),
        Err(Fault::Refused(cause)) => Ok(cause == Cause::InvalidFormat),
        Err(_) => Err("trouble".into()),
    }
}

#[test]
fn contents_that_are_no_table_are_refused(rt: HostRuntime) -> Result<(), Fail> {
    let alloc = rt.alloc();
    assert!(rt; !is_refused(alloc, b"")?);
    assert!(rt; !is_refused(alloc, b"\t\nbolt\tred")?);
    assert!(rt; is_refused(alloc, b"bolt\n")?);
    assert!(rt; is_refused(alloc, b"bolt\tred\tbig\n")?);
    assert!(rt; is_refused(alloc, b"b\\olt\tred\n")?);
    assert!(rt; is_refused(alloc, b"bolt\t\xff\n")?);
    Ok(())
}

// The second row is another, the third goes, and one is new.
fn changes(alloc: Global) -> Result<Vec<RowChange>, NoMemory>
    ensures { IfOk result (λ changes. list_all (row_of_change_fits (texts 2)) (map change_is changes.items) ≡ true) }
{
    let nut = row_of(alloc, "nut\tgrey")?;
    let gear = row_of(alloc, "gear\t\\N")?;
    Ok(vec![in alloc;
        RowChange::Update(1, nut),
        RowChange::Delete(2),
        RowChange::Insert(gear),
    ]?)
}

// One row is new.
fn one_more(alloc: Global) -> Result<Vec<RowChange>, NoMemory>
    ensures { IfOk result (λ changes. list_all (row_of_change_fits (texts 2)) (map change_is changes.items) ≡ true) }
{
    let gear = row_of(alloc, "gear\t\\N")?;
    Ok(vec![in alloc; RowChange::Insert(gear)]?)
}

// Whether the image of a draft is these bytes, in one piece.
fn has_image(alloc: Global, draft: &TabDraft, bytes: &[u8]) -> Result<bool, NoMemory> {
    let pieces = TabTable::image(alloc, draft)?;
    Ok(pieces.len() == 1 && pieces[0] == bytes)
}

const CHANGED: &[u8] = b"bolt\tred\nnut\tgrey\nbolt\tblue\ngear\t\\N\n";

#[test]
fn changes_are_read_again(rt: HostRuntime) -> Result<(), Fail> {
    let alloc = rt.alloc();
    let table = read_parts(alloc, PARTS)?;
    let Ok(draft) = table.rewritten(alloc, changes(alloc)?) else {
        return Err("refused".into());
    };
    assert!(rt; has_image(alloc, &draft, CHANGED)?);
    assert_eq!(rt; TabTable::kept(draft).count(), 4);
    let again = read_parts(alloc, CHANGED)?;
    let Ok(same) = again.rewritten(alloc, Vec::new(alloc)) else {
        return Err("refused".into());
    };
    assert!(rt; has_image(alloc, &same, CHANGED)?);
    Ok(())
}

#[test]
fn a_draft_that_is_given_up_is_the_table_as_it_was(rt: HostRuntime) -> Result<(), Fail> {
    let alloc = rt.alloc();
    let table = read_parts(alloc, b"bolt\tred\n")?;
    let Ok(draft) = table.rewritten(alloc, one_more(alloc)?) else {
        return Err("refused".into());
    };
    assert_eq!(rt; TabTable::given_up(draft).count(), 1);
    Ok(())
}

// A new row with a TAB in a text.
fn marked(alloc: Global) -> Result<Vec<RowChange>, NoMemory>
    ensures { IfOk result (λ changes. list_all (row_of_change_fits (texts 2)) (map change_is changes.items) ≡ true) }
{
    let text = "red\thot".to_string(alloc)?;
    let cells = vec![in alloc; Value::Text(text), Value::Null]?;
    Ok(vec![in alloc; RowChange::Insert(Row { cells })]?)
}

#[test]
fn texts_with_tabs_are_refused(rt: HostRuntime) -> Result<(), Fail> {
    let alloc = rt.alloc();
    let table = read_parts(alloc, PARTS)?;
    match table.rewritten(alloc, marked(alloc)?) {
        Err(Unwritten { table, fault }) => {
            assert!(rt; fault == Fault::Refused(Cause::InvalidText));
            assert_eq!(rt; table.count(), 4);
        }
        Ok(_) => return Err("written".into()),
    }
    Ok(())
}
