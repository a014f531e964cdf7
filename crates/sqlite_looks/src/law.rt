//! What is so where a look was passed, and worked texts.
ghost use Rattle.std.specs.Prelude.{◌≡◌, ◌∷◌, ℕ, List, [], length, Option, None, true, false, string_bytes, codes};
ghost use Rattle.sqlite.specs.Schema.{Schema};
ghost use Rattle.sqlite.specs.Order.{Row};
ghost use Rattle.sqlite_schema.specs.declared.schema.Keys.TheVariants.{Enforced};
ghost use Rattle.sqlite_schema.specs.declared.schema.Table.{Table};
ghost use Rattle.sqlite_rules.specs.Action.{works};
ghost use Rattle.sqlite_looks.specs.Pages.{IsPageText};
ghost use Rattle.sqlite_looks.specs.Changes.{IsDeleteText, IsInsertText};
ghost use Rattle.sqlite_looks.specs.Free.{is_free};
ghost use Rattle.sqlite_looks.specs.Shapes.{cells_of, read_only};
ghost use Rattle.sqlite_looks.specs.declared.shapes.Texts.{Texts};
ghost use Rattle.sqlite_looks.specs.Looks.{means_page, means_delete, means_insert};
ghost use Rattle.sqlite_looks.specs.Texts.{page_text, delete_text, insert_text};

/// A text that passes its look is understood as the query or the change that is wanted.
pub fn looks_are_meanings()
    ensures page { (schema : Schema) (text : List ℕ) (tree : ℕ) (places : List ℕ) (size : ℕ)
        → means_page schema text tree places size ≡ true → IsPageText schema text tree places size }
    ensures delete { (schema : Schema) (text : List ℕ) (place tree : ℕ)
        → means_delete schema text place tree ≡ true → IsDeleteText schema text place tree }
    ensures insert { (schema : Schema) (text : List ℕ) (place : ℕ) (cells : List (Option ℕ)) (width : ℕ)
        → means_insert schema text place cells width ≡ true → IsInsertText schema text place cells width }
{}

/// Where no foreign key refers to a table, a change of its rows leads to no work on rows of another table.
pub fn free_tables_lead_nowhere()
    ensures { (schema : Schema) (tree : ℕ) (olds news : List Row) → is_free schema tree ≡ true
        → works schema Enforced 0 tree olds news ≡ [] }
{}

/// What is so of a table that its shape says may be written: it is not AUTOINCREMENT, no default of it reads the time, a change of its
/// rows leads to no work on rows of another table, and its texts take a row out and put one in.
pub fn written_tables()
    ensures counted { (schema : Schema) (at : ℕ) (table : Table) (texts : Texts) → read_only schema at table texts ≡ None
        → table.is_counted ≡ false }
    ensures stamped { (schema : Schema) (at : ℕ) (table : Table) (texts : Texts) → read_only schema at table texts ≡ None
        → table.stamps.terms ≡ [] }
    ensures free { (schema : Schema) (at : ℕ) (table : Table) (texts : Texts) (olds news : List Row)
        → read_only schema at table texts ≡ None → works schema Enforced 0 table.tree olds news ≡ [] }
    ensures delete { (schema : Schema) (at : ℕ) (table : Table) (texts : Texts) → read_only schema at table texts ≡ None
        → IsDeleteText schema (string_bytes texts.delete) at table.tree }
    ensures insert { (schema : Schema) (at : ℕ) (table : Table) (texts : Texts) → read_only schema at table texts ≡ None
        → IsInsertText schema (string_bytes texts.insert) at (cells_of table) (length (cells_of table)) }
{}

/// The texts of worked tables: a table whose name has double quotes, of two columns, one with a double quote; and one without columns.
pub fn worked_texts()
    ensures page { page_text (codes "rowid") (codes "a \"b\"") (codes "x\"y" ∷ codes "z" ∷ [])
        ≡ codes "SELECT rowid, \"x\"\"y\", \"z\" FROM \"a \"\"b\"\"\" WHERE rowid >= ?1 AND rowid <= ?2 ORDER BY rowid LIMIT 64" }
    ensures bare { page_text (codes "oid") (codes "t") []
        ≡ codes "SELECT oid FROM \"t\" WHERE oid >= ?1 AND oid <= ?2 ORDER BY oid LIMIT 64" }
    ensures delete { delete_text (codes "oid") (codes "a \"b\"") ≡ codes "DELETE FROM \"a \"\"b\"\"\" WHERE oid = ?1" }
    ensures insert { insert_text (codes "_rowid_") (codes "a \"b\"") (codes "x\"y" ∷ codes "z" ∷ [])
        ≡ codes "INSERT INTO \"a \"\"b\"\"\" (_rowid_, \"x\"\"y\", \"z\") VALUES (?, ?, ?)" }
{}
