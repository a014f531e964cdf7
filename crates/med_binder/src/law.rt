//! Laws of binding. A call does nothing: its contract is the law, proved for all statements over all tables. `specs/Within.antt` says what
//! is in view, `specs/Counted.antt` how the entries of FROM are counted, and `specs/Alike.antt` which types are compared.

ghost use Rattle.std.specs.Prelude.{◌≡◌, ◌≤◌, ◌*◌, List, Some, length, sum, All};
ghost use Rattle.med_value.specs.Prelude.{phase_of, column_limit, entry_limit};
ghost use Rattle.med_value.specs.declared.cause.Cause.{Cause as AnyCause};
ghost use Rattle.med_syntax.specs.QueryTree.{StatementTree};
ghost use Rattle.bind_names.specs.Prelude.{TableShape, NameCauses, meant};
ghost use Rattle.bind_types.specs.Typing.{TypeCauses};
ghost use Rattle.med_binder.specs.Alike.{FormAlike, from_kinds};
ghost use Rattle.med_binder.specs.Counted.{AreNarrow, FormCounts, core_numbers, core_widths};
ghost use Rattle.med_query.specs.Form.{CoreForm};
ghost use Rattle.med_binder.specs.Within.{ArePlacesOf, FormWithin, widths_of};

/// Each cause of names is of phase 3, and each cause of types of phase 4.
pub fn causes_have_their_phase()
    ensures names { (tables : List TableShape) (statement : StatementTree) (c : AnyCause)
        → NameCauses tables statement c → phase_of c ≡ Some 3 }
    ensures types { (tables : List TableShape) (statement : StatementTree) (c : AnyCause)
        → TypeCauses tables statement c → phase_of c ≡ Some 4 }
{}

/// Where no cause of names stands, each entry of FROM is the place of a table.
pub fn entries_are_tables()
    ensures { (tables : List TableShape) (statement : StatementTree) → ((c : AnyCause) → NameCauses tables statement c → ⊥)
        → ArePlacesOf tables (meant tables statement).entries }
{}

/// Where no cause of names stands, each column of a core is one of those in view: of all its entries, and in an ON of those on its left in
/// its chain and of its own entry.
pub fn columns_are_in_view()
    ensures { (tables : List TableShape) (statement : StatementTree) → ((c : AnyCause) → NameCauses tables statement c → ⊥)
        → FormWithin (widths_of tables statement) (meant tables statement).form }
{}

/// The query counts the entries of FROM from 0 on, through the chains of its cores in their order, and a LEFT JOIN says how many columns
/// its entry brings.
pub fn tables_are_counted()
    ensures { (tables : List TableShape) (statement : StatementTree)
        → FormCounts (widths_of tables statement) (meant tables statement).form }
{}

/// The entries of FROM bring at most 64 columns each, where no table has more than these: those of all cores, and those of a core that has
/// no more than 8 at most 512.
pub fn widths_are_limited()
    ensures all { (tables : List TableShape) (statement : StatementTree) → AreNarrow tables
        → sum (widths_of tables statement) ≤ length (meant tables statement).entries * column_limit }
    ensures core { (tables : List TableShape) (statement : StatementTree) → AreNarrow tables
        → All (λ (f : CoreForm). length (core_numbers f) ≤ entry_limit
        → sum (core_widths (widths_of tables statement) f) ≤ entry_limit * column_limit) (meant tables statement).form.cores }
{}

/// Where no cause of names or types stands, a conjunct of WHERE or ON that compares two columns compares two of one type.
pub fn compared_columns_are_alike()
    ensures { (tables : List TableShape) (statement : StatementTree) → ((c : AnyCause) → NameCauses tables statement c → ⊥)
        → ((c : AnyCause) → TypeCauses tables statement c → ⊥) → FormAlike (from_kinds tables statement) (meant tables statement).form }
{}
