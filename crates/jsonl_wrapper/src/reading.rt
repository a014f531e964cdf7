//! What the lines of a bound table are read with.
ghost use Rattle.std.specs.Prelude.{◌≡◌, map, IfOk};
ghost use Rattle.med_value.specs.Datum.{datum, tuple};
ghost use Rattle.jsonl_wrapper.specs.Fields.{reader_of};
ghost use Rattle.jsonl_wrapper.specs.Objects.{cells_at, json_of, read_cell};

use crate::contents::{cell_of_line, row_of_line};
use crate::fields::Field;
use json::Scratch;
use med_value::{NoMemory, Row, Value};
use std::alloc::Global;
use std::cell::RefCell;

/// A buffer that is kept from line to line: what it holds is of no meaning between two lines.
#[derive(Drop)]
pub struct LineBuffer {
    scratch: Box<RefCell<Scratch>>,
}

impl LineBuffer {
    /// A buffer. It fails for want of memory alone.
    pub(crate) fn new(alloc: Global) -> Result<LineBuffer, NoMemory> {
        let scratch = Box::new(alloc, RefCell::new(Scratch::new(alloc)))?;
        Ok(LineBuffer { scratch })
    }

    /// The row that a line is, as `row_of_line` returns it. Where the buffer is in use, another one is made.
    pub(crate) fn row(&self, alloc: Global, line: &[u8], fields: &[Field]) -> Result<Row, NoMemory>
        ensures { IfOk result (λ row. tuple row ≡ cells_at (map reader_of fields.now) line.now) }
    {
        match self.scratch.try_borrow_mut() {
            Ok(mut scratch) => row_of_line(alloc, &mut scratch, line, fields),
            Err(_) => row_of_line(alloc, &mut Scratch::new(alloc), line, fields),
        }
    }

    /// The cell of one column in a line, as `cell_of_line` returns it.
    pub(crate) fn cell(&self, alloc: Global, line: &[u8], field: &Field) -> Result<Value, NoMemory>
        ensures { IfOk result (λ cell. datum cell ≡ read_cell (json_of line.now) (reader_of field.now)) }
    {
        match self.scratch.try_borrow_mut() {
            Ok(mut scratch) => cell_of_line(alloc, &mut scratch, line, field),
            Err(_) => cell_of_line(alloc, &mut Scratch::new(alloc), line, field),
        }
    }
}
