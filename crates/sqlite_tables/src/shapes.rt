//! Shapes of remote tables as values: what a table is called, its columns, and the three texts by which it is read and written.
ghost use Rattle.std.specs.Prelude.{◌≡◌, [], ◌∷◌, None, Some, IfOk};
ghost use Rattle.med_value.specs.declared.value.ColType.TheVariants.{Int as IntType};
ghost use Rattle.sqlite_tables.specs.Layouts.{column_at, is_key_column, layouts, orders, people};
ghost use Rattle.sqlite_tables.specs.Shapes.{IsShape, orders_table, people_table};

use crate::PageColumn;
use med_value::{ColType, NoMemory};
use std::alloc::Global;
use std::marker::Model;

/// The shape of a remote table: its name, its columns, what a page shows, what an INSERT stores, and its texts. Clauses see it as a
/// layout.
#[derive(Debug, Drop)]
pub struct Shape {
    name: String,
    columns: Vec<PageColumn>,
    shown: Vec<usize>,
    cells: Vec<Option<usize>>,
    page: String,
    deleting: String,
    inserting: String,
}

impl Model for Shape {
    ghost use Rattle.std.specs.Prelude.{string_bytes};
    ghost use Rattle.sqlite_tables.specs.Layouts.{Layout};

    ghost Value = { Layout };

    ghost view = { λ s. record {
      name = string_bytes s.name;
      columns = s.columns.items;
      shown = s.shown.items;
      cells = s.cells.items;
      page = string_bytes s.page;
      deleting = string_bytes s.deleting;
      inserting = string_bytes s.inserting;
    } };
}

// A key, and two further columns of these types.
fn three_columns(
    alloc: Global,
    second: ColType,
    third: ColType,
) -> Result<Vec<PageColumn>, NoMemory>
    ensures { IfOk result (λ columns. columns.items ≡ column_at 0 IntType ∷ column_at 1 second ∷ column_at 2 third ∷ []) }
{
    let key = PageColumn {
        place: 0,
        kind: ColType::Int,
    };
    let second = PageColumn {
        place: 1,
        kind: second,
    };
    let third = PageColumn {
        place: 2,
        kind: third,
    };
    Ok(vec![in alloc; key, second, third]?)
}

impl Shape {
    /// The shape of tables of orders: a key, a part and a number. Fails only when out of memory.
    pub fn orders(alloc: Global) -> Result<Shape, NoMemory>
        ensures { IfOk result (λ s. s ≡ orders) }
    {
        Ok(Shape {
            name: "orders".to_string(alloc)?,
            columns: three_columns(alloc, ColType::Int, ColType::Int)?,
            shown: vec![in alloc; 2, 3]?,
            cells: vec![in alloc; None, Some(1), Some(2)]?,
            page: "SELECT id, part, n FROM orders WHERE id >= ?1 AND id <= ?2 ORDER BY id LIMIT 64".to_string(
                alloc,
            )?,
            deleting: "DELETE FROM orders WHERE id = ?1".to_string(alloc)?,
            inserting: "INSERT INTO orders (id, part, n) VALUES (?1, ?2, ?3)".to_string(alloc)?,
        })
    }

    /// The shape of tables of people: a key, a name and whether the person is active. Fails only when out of memory.
    pub fn people(alloc: Global) -> Result<Shape, NoMemory>
        ensures { IfOk result (λ s. s ≡ people) }
    {
        Ok(Shape {
            name: "people".to_string(alloc)?,
            columns: three_columns(alloc, ColType::Text, ColType::Bool)?,
            shown: vec![in alloc; 2, 3]?,
            cells: vec![in alloc; None, Some(1), Some(2)]?,
            page: "SELECT id, name, active FROM people WHERE id >= ?1 AND id <= ?2 ORDER BY id LIMIT 64".to_string(
                alloc,
            )?,
            deleting: "DELETE FROM people WHERE id = ?1".to_string(alloc)?,
            inserting: "INSERT INTO people (id, name, active) VALUES (?1, ?2, ?3)".to_string(
                alloc,
            )?,
        })
    }

    /// The name of a table of this shape.
    pub fn name(&self) -> &str
        ensures { result.now ≡ self.now.name }
    {
        self.name.as_str()
    }

    /// Its columns, in their order.
    pub fn columns(&self) -> &[PageColumn]
        ensures { result.now ≡ self.now.columns }
    {
        self.columns.as_slice()
    }

    /// Whether the column at this number, counted from 0, is the key.
    pub fn is_key(&self, column: usize) -> bool
        ensures { result ≡ is_key_column self.now column }
    {
        match self.columns().get(column) {
            Some(column) => column.place == 0,
            None => false,
        }
    }

    /// The text that reads a page of it.
    pub fn page_text(&self) -> &str
        ensures { result.now ≡ self.now.page }
    {
        self.page.as_str()
    }

    /// The text that takes the row of a key out of it.
    pub fn delete_text(&self) -> &str
        ensures { result.now ≡ self.now.deleting }
    {
        self.deleting.as_str()
    }

    /// The text that puts a row into it.
    pub fn insert_text(&self) -> &str
        ensures { result.now ≡ self.now.inserting }
    {
        self.inserting.as_str()
    }
}

/// The shapes of the tables with which a database in memory begins: that of orders, and that of people. Fails only when out of memory.
pub fn shipped_shapes(alloc: Global) -> Result<Vec<Shape>, NoMemory>
    ensures { IfOk result (λ shapes. shapes.items ≡ layouts) }
{
    let orders = Shape::orders(alloc)?;
    let people = Shape::people(alloc)?;
    Ok(vec![in alloc; orders, people]?)
}

/// In a database of one such table alone the texts of each of these shapes are for it: the page text gives the first rows of a key range
/// in key order, the delete text takes the row of a key out, and the insert text puts a row in, which a page then shows as it was put in.
pub fn texts_are_for_their_tables()
    ensures orders { IsShape orders (orders_table 0) }
    ensures people { IsShape people (people_table 0) }
{}
