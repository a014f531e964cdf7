//! Cells of rows, picked by their columns.
use crate::expect::same_text;
use fdw_api::scan::pick_cells;
use med_value::{Row, Value, row_text};
use std::alloc::Global;
use std::test::Fail;

// A part: its id, name and stock.
fn bolt(alloc: Global) -> Result<Row, Fail> {
    let name = Value::Text("bolt".to_string(alloc)?);
    Ok(Row {
        cells: vec![in alloc; Value::Int(1), name, Value::Int(40)]?,
    })
}

// The text of the cells in these places.
fn picked(alloc: Global, places: &[usize]) -> Result<Vec<u8>, Fail> {
    let mut text = Vec::new(alloc);
    row_text(&pick_cells(alloc, &bolt(alloc)?, places)?, &mut text)?;
    Ok(text)
}

#[test]
fn picks_the_cells_of_the_named_columns(rt: HostRuntime) -> Result<(), Fail> {
    let alloc = rt.alloc();
    same_text(
        "the cells",
        &picked(alloc, &[2, 1, 2, 9])?,
        "40\tbolt\t40\t\\N",
    )?;
    same_text("no cells", &picked(alloc, &[])?, "")
}
