//! The rows of a table in memory.
ghost use Rattle.std.specs.Prelude.{◌≡◌, ◌≤◌, ◌<◌, ◌+◌, ◌++◌, ◌∷◌, [], length, drop, take, slice_set, slice_index_or, IfOk, OnOk};
ghost use Rattle.med_value.specs.declared.value.Row.{Row};
ghost use Rattle.list_wrapper.specs.Stay.{stay};

use crate::runs::{
    Run, first_run, make_room, push_row, put_row, remove_row, row_at, settle, start_of, take_rows,
};
use med_value::{NoMemory, Row};
use std::alloc::Global;
use std::marker::Model;

/// Rows one behind the other. They are held in runs, so that a change of one of them moves few others.
#[derive(Drop)]
pub(crate) struct Rows {
    runs: Vec<Run>,
}

impl Model for Rows {
    ghost use Rattle.list_wrapper.specs.Runs.{RowList, rows_in, room_in, Counted};

    ghost Value = { RowList };

    ghost view = { λ a. record { items = rows_in a.runs.items; room = room_in a.runs.items } };

    ghost invariant = { λ a. Counted 0 a.runs.items };
}

impl Rows {
    /// These rows.
    pub(crate) fn new(alloc: Global, rows: Vec<Row>) -> Result<Rows, NoMemory>
        ensures { IfOk result (λ all. all.items ≡ rows.items) }
    {
        let mut runs = first_run(alloc, rows)?;
        settle(&mut runs);
        Ok(Rows { runs })
    }

    /// How many rows there are.
    pub(crate) fn len(&self) -> usize
        ensures { result ≡ length self.now.items }
    {
        start_of(&self.runs, self.runs.len())
    }

    /// The row at a place.
    pub(crate) fn at(&self, place: usize) -> &Row
        requires { place < length self.now.items }
        ensures { result.now ≡ slice_index_or self.now.items place result.now }
    {
        row_at(&self.runs, place)
    }

    /// Makes room for so many rows more. It fails for want of memory alone, and then the rows are as before.
    pub(crate) fn reserve(&mut self, alloc: Global, count: usize) -> Result<(), NoMemory>
        ensures items { self.new.items ≡ self.old.items }
        ensures ok { OnOk result (count ≤ self.new.room) }
    {
        make_room(alloc, &mut self.runs, count)
    }

    /// Appends a row, for which there is room.
    pub(crate) fn push(&mut self, row: Row)
        requires { 0 < self.old.room }
        ensures items { self.new.items ≡ self.old.items ++ row ∷ [] }
        ensures room { self.old.room ≤ self.new.room + 1 }
    {
        push_row(&mut self.runs, row)
    }

    /// Puts a row in the place of another.
    pub(crate) fn replace(&mut self, place: usize, row: Row)
        requires { place < length self.old.items }
        ensures items { self.new.items ≡ slice_set self.old.items place row }
        ensures room { self.new.room ≡ self.old.room }
    {
        put_row(&mut self.runs, place, row)
    }

    /// Takes a row out. Others behind it move up.
    pub(crate) fn remove(&mut self, place: usize)
        requires { place < length self.old.items }
        ensures { self.new.items ≡ take place self.old.items ++ drop (place + 1) self.old.items }
    {
        remove_row(&mut self.runs, place)
    }

    /// Takes rows that are gone out.
    pub(crate) fn take_out(&mut self, gone: &[bool])
        ensures { self.new.items ≡ stay self.old.items gone.now }
    {
        take_rows(&mut self.runs, gone)
    }

    /// Holds rows that were appended in runs that are short, as far as there is memory.
    pub(crate) fn settle(&mut self)
        ensures { self.new.items ≡ self.old.items }
    {
        settle(&mut self.runs)
    }
}
