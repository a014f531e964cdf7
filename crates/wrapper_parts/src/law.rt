//! Laws of scans that look for an equal parameter.
ghost use Rattle.std.specs.Prelude.{◌≡◌, List, Contains, map, true, Some};
ghost use Rattle.med_value.specs.Datum.{Tuple, cell};
ghost use Rattle.fdw_api.specs.Prelude.{TableRow, Spec, IsComing, given_row, is_unpromised};
ghost use Rattle.wrapper_parts.specs.Places.{places};
ghost use Rattle.wrapper_parts.specs.Scans.{SoughtForm, seeks, column_cells, taken_at, rows_taken, sought};

/// A scan that was offered `column = parameter`, and of which no order and no limit is promised, may give just the rows at the places of
/// the parameter's value, in the table's order, each of which meets what was answered Exact: whatever was answered to that restriction.
pub fn sought_rows_come()
    ensures { (rows : List TableRow) (spec : Spec) (params : Tuple) (s : SoughtForm)
        → is_unpromised spec ≡ true → Contains spec.offered (seeks s)
        → IsComing rows spec params (map (given_row spec)
        (taken_at spec params (places (cell params s.parameter) (column_cells s.column rows)) rows)) }
{}

/// What a scan takes of the rows of a table it may give, where no order and no limit is promised; and where it looks for a parameter, that
/// is what it takes of the rows at the places of the parameter's value.
pub fn taken_rows_come()
    ensures comes { (rows : List TableRow) (spec : Spec) (params : Tuple) → is_unpromised spec ≡ true
        → IsComing rows spec params (map (given_row spec) (rows_taken spec params rows)) }
    ensures at_places { (rows : List TableRow) (spec : Spec) (params : Tuple) (s : SoughtForm) → sought spec.offered ≡ Some s
        → rows_taken spec params rows ≡ taken_at spec params (places (cell params s.parameter) (column_cells s.column rows)) rows }
{}
