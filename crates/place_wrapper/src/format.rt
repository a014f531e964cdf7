//! Formats: what a blob is read as, and the rows that a table gives.
ghost use Rattle.std.specs.Prelude.{◌≡◌, ◌<◌, ℕ, List, map, length, option_map, IfOk, IfErr, Some, [], true};
ghost use Rattle.std.specs.List.{list_all};
ghost use Rattle.med_value.specs.Datum.{datum};
ghost use Rattle.fdw_api.specs.Prelude.{restriction_form, spec_of, column_of, option_form, row_of_change_fits};
ghost use Rattle.blob_store.specs.Names.{is_blob_name};
ghost use Rattle.wrapper_parts.specs.Staged.{change_is};
ghost use Rattle.wrapper_parts.specs.Scans.{sought, form_of, column_cells};
ghost use Rattle.wrapper_parts.specs.Rising.{AreRising};

use fdw_api::interface::{Fault, TableOption};
use fdw_api::scan::{Agree, Restriction, ScanSpec};
use med_value::{ColumnDef, NoMemory, Row, Value};
use std::alloc::Global;
use wrapper_parts::{RowChange, Sought};

/// A table whose changes were refused, and why.
#[derive(Drop)]
pub struct Unwritten<T> {
    /// The table, as it was.
    pub table: T,
    /// Why.
    pub fault: Fault,
}

/// A table that a blob was read as: it has rows at places, the first at 0. A kind of file is an implementation of it.
///
/// `form` says what such a table is as a bound table of its kind, and what its rows are, and has the laws of both. A table is written by
/// way of a draft, into which it goes: all that can fail is done by then. `makes` says what the table may be once the draft is kept,
/// `leaves` what it may be once the draft is given up, and `image_of` is the image of its changes.
pub trait PlacedTable: Drop {
    /// A table of which a write is under way.
    type Draft: Drop;

    ghost use Rattle.blob_store.specs.Shelves.{joined};
    ghost use Rattle.place_wrapper.specs.Forms.{Form, GivesAt, HasAt, CellAt, ReadsAs, RefusesContent, Drafts, Same, RefusesChanges};

    ghost form: { Form Self };

    ghost makes: { Self.Draft → Self → Type 0 };

    ghost leaves: { Self.Draft → Self → Type 0 };

    ghost image_of: { Self.Draft → List ℕ };

    /// Reads the content of a blob as a table of these columns. It is refused by a cause of least phase that stands against the content, or
    /// for want of memory.
    fn read(
        alloc: Global,
        remote: &str,
        columns: &[ColumnDef],
        options: &[TableOption],
        content: Vec<u8>,
    ) -> Result<Self, Fault>
        requires named { is_blob_name remote.now ≡ true }
        requires no_objection { form.kind.objections (map column_of columns.now) (map option_form options.now) ≡ [] }
        ensures ok { IfOk result (λ t. ReadsAs form remote.now (map column_of columns.now) (map option_form options.now) content.items t) }
        ensures err { IfErr result (λ fault. RefusesContent form (map column_of columns.now) (map option_form options.now)
            content.items fault) };

    /// The remote name of the table.
    fn remote(&self) -> &str
        ensures { result.now ≡ (form.bound self.now).remote };

    /// How many rows there are.
    fn count(&self) -> usize
        ensures { result ≡ length (form.rows self.now) };

    /// Whether the first column is known to rise. It need not be known.
    fn rises(&self) -> bool
        ensures { result ≡ true → AreRising (column_cells 0 (form.rows self.now)) }
    {
        false
    }

    /// What is done about a restriction.
    fn answer(&self, restriction: &Restriction) -> Agree
        ensures { result ≡ form.answer self.now (restriction_form restriction.now) };

    /// The row at a place as a scan shows it, None where the scan does not take it; `found` is what the scan looks for. It fails for want
    /// of memory alone.
    fn give(
        &self,
        alloc: Global,
        at: usize,
        spec: &ScanSpec,
        found: Option<Sought>,
        params: &[Value],
    ) -> Result<Option<Row>, NoMemory>
        requires within { at < length (form.rows self.now) }
        requires found { option_map form_of found ≡ sought (map restriction_form spec.now.offered.items) }
        ensures { IfOk result (λ given. GivesAt form self.now (spec_of spec.now) (map datum params.now) at given) };

    /// The same of a row that has what the scan looks for, as it has at each place to which an index of that column leads.
    fn give_found(
        &self,
        alloc: Global,
        at: usize,
        spec: &ScanSpec,
        found: Sought,
        params: &[Value],
    ) -> Result<Option<Row>, NoMemory>
        requires within { at < length (form.rows self.now) }
        requires found { sought (map restriction_form spec.now.offered.items) ≡ Some (form_of found) }
        requires has { HasAt form self.now (form_of found) (map datum params.now) at }
        ensures { IfOk result (λ given. GivesAt form self.now (spec_of spec.now) (map datum params.now) at given) }
    {
        self.give(alloc, at, spec, Some(found), params)
    }

    /// The cell of a column of the row at a place. It fails for want of memory alone.
    fn cell(&self, alloc: Global, at: usize, column: usize) -> Result<Value, NoMemory>
        requires { at < length (form.rows self.now) }
        ensures { IfOk result (λ v. CellAt form self.now at column (datum v)) };

    /// A draft of the table with staged changes, whose image is read again as the table that it is kept as. It is refused by a cause of the
    /// run that stands for all of the changes together, or for want of memory, and the table comes back.
    fn rewritten(
        self,
        alloc: Global,
        changes: Vec<RowChange>,
    ) -> Result<Self::Draft, Unwritten<Self>>
        requires { list_all (row_of_change_fits (form.bound self).kinds) (map change_is changes.items) ≡ true }
        ensures ok { IfOk result (λ draft. Drafts form self (map change_is changes.items) (makes draft) (leaves draft) (image_of draft)) }
        ensures same { IfErr result (λ unwritten. Same form self unwritten.table) }
        ensures err { IfErr result (λ unwritten. RefusesChanges form self (map change_is changes.items) unwritten.fault) };

    /// The image of a draft, in pieces.
    fn image<'a>(alloc: Global, draft: &'a Self::Draft) -> Result<Vec<&'a [u8]>, NoMemory>
        ensures { IfOk result (λ pieces. joined pieces.items ≡ image_of draft.now) };

    /// The table with the changes of its draft.
    fn kept(draft: Self::Draft) -> Self
        ensures { makes draft result };

    /// The table without the changes of its draft.
    fn given_up(draft: Self::Draft) -> Self
        ensures { leaves draft result };
}
