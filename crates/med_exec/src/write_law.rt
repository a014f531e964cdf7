//! Laws of what a write does to the rows of its table.
ghost use Rattle.std.specs.Prelude.{◌≡◌, ℕ, List, Some, map, nat_eq};
ghost use Rattle.std.specs.List.{IsDistinct};
ghost use Rattle.med_value.specs.Datum.{Tuple};
ghost use Rattle.fdw_api.specs.Prelude.{held, GivenRow, TableRow, BoxTable, BoxState, is_honest, table_of, rows_of};
ghost use Rattle.fdw_api.specs.Writes.{rows_after as rows_changed};
ghost use Rattle.med_write.specs.declared.write.WrittenColumn.{WrittenColumn as Target};
ghost use Rattle.med_write.specs.Form.{WriteForm};
ghost use Rattle.med_write.specs.Writing.{rows_after, changes_of};
ghost use Rattle.med_exec.specs.Writing.{AreRead, Writes};

/// Over rows of which no two have one id, in whatever order they are read, the changes of a write make of the table what the write makes of
/// it. After a write that is done, the rows of the table of an honest box are those, in the order of its kind (SQL standard,
/// <insert statement>, <update statement: searched>, <delete statement: searched>).
pub fn writes_are_of_the_standard()
    ensures changes { (line : Tuple → List (List ℕ)) (w : WriteForm) (answer : List Tuple) (rows : List TableRow) (read : List GivenRow)
        → IsDistinct nat_eq (map (λ r. r.id) rows) → AreRead w rows read
        → rows_changed line rows (changes_of w answer read) ≡ rows_after line w answer (map held rows) }
    ensures rows { (columns : List Target) (w : WriteForm) (answer : List Tuple) (old new : BoxState) (t count : ℕ)
        → is_honest old → IsDistinct nat_eq (map (λ r. r.id) (rows_of old t)) → Writes columns w answer old t count new
        → (b : BoxTable) → table_of old t ≡ Some b
        → map held (rows_of new t) ≡ b.arrangement.arranged (rows_after b.line w answer (map held (rows_of old t))) }
{}
