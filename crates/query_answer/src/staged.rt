//! An output that waits for its place.
ghost use Rattle.std.specs.Prelude.{◌≤◌, length};

use med_value::{Row, Value};

/// A row that waits for its place: what it shows, and behind that what it is sorted by.
#[derive(Drop)]
pub(crate) struct Staged {
    cells: Vec<Value>,
    width: usize,
    ghost within: { width ≤ length cells.items },
}

impl Staged {
    ghost use Rattle.std.specs.Prelude.{◌≡◌, map};
    ghost use Rattle.med_value.specs.Datum.{datum, tuple};
    ghost use Rattle.query_answer.specs.Staging.{output_of, sorted_by, shown_by};

    /// An output that shows so many of these cells, and is sorted by the others.
    pub fn new(cells: Vec<Value>, width: usize) -> Staged
        requires { width ≤ length cells.items }
        ensures cells { result.cells ≡ cells }
        ensures width { result.width ≡ width }
    {
        Staged { cells, width }
    }

    /// What it is sorted by.
    pub fn keys(&self) -> &[Value]
        ensures { map datum result.now ≡ sorted_by self.now }
    {
        &self.cells[self.width..]
    }

    /// What it shows.
    pub fn shown(&self) -> &[Value]
        ensures { map datum result.now ≡ shown_by self.now }
    {
        &self.cells[..self.width]
    }

    /// The row that it shows.
    pub fn into_row(self) -> Row
        ensures { tuple result ≡ shown_by self }
    {
        let Staged { cells, width } = self;
        let mut cells = cells;
        cells.truncate(width);
        Row { cells }
    }
}
