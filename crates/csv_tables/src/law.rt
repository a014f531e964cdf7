//! The laws that what is written is read again.
ghost use Rattle.std.specs.Prelude.{◌≡◌, ◌++◌, [], Option, Some, List, ℕ, length, map, true};
ghost use Rattle.std.specs.List.{list_all};
ghost use Rattle.fdw_api.specs.Kinds.{Entry, Bytes, Change};
ghost use Rattle.csv_tables.specs.CsvRecords.{Record, csv_records, csv_text, has_field, is_header, is_whole, heading, body};
ghost use Rattle.csv_tables.specs.Shapes.{Shape, content_causes, csv_image, csv_reading, image_bytes, read_row};
ghost use Rattle.csv_tables.specs.ReadAgain.{IsUnmarked, IsTable, IsKept, header_under, records_behind_mark, rows_left, records_left};

/// Records with at least one field each that are written one after the other are read again as those records, where no byte order mark
/// stands at the start of their text. Where one does, it is taken from the first field, and of a first record that is the mark alone
/// nothing is left.
///
/// A record of no field would be read as one empty field. Each record that is read has a field, and so has each of a table, since a table
/// has a column.
pub fn records_are_read_again()
    ensures again { (rows : List Record) → list_all has_field rows ≡ true → IsUnmarked (csv_text rows)
        → csv_records (csv_text rows) ≡ rows }
    ensures marked { (rows : List Record) → list_all has_field rows ≡ true → csv_records (csv_text rows) ≡ records_behind_mark rows }
    ensures rows { (shape : Shape) (header rows : List Record) → is_header shape.header header ≡ true → list_all has_field rows ≡ true
        → IsUnmarked (csv_text (header ++ rows))
        → (csv_reading shape (Some (Bytes (csv_text (header ++ rows))))).rows ≡ map (read_row shape) rows }
{}

/// A content for which no cause stands gives a table (`IsTable`), and a kept write leaves one, whose rows are read from its records. The
/// names of the columns, which are the header where no record stands yet, are as many as the columns, and UTF-8.
pub fn tables_stay_tables()
    ensures bound { (shape : Shape) (bytes : List ℕ) → is_whole (length shape.kinds) shape.names ≡ true → content_causes shape bytes ≡ []
        → IsTable shape (heading shape.header shape.names (csv_records bytes)) (body shape.header (csv_records bytes)) }
    ensures kept { (shape : Shape) (header records : List Record) (changes : List Change) → IsKept shape header records changes
        → IsTable shape header (records_left shape records changes) }
    ensures read { (shape : Shape) (header records : List Record) (changes : List Change) → IsKept shape header records changes
        → map (read_row shape) (records_left shape records changes) ≡ rows_left shape records changes }
{}

/// A written table is read again: the image of the rows that a kept write leaves, in the place of the entry that stood there, gives exactly
/// these rows, and no cause stands for it. So a table that was written, dropped and bound again with the same columns and options shows the
/// written rows, where no byte order mark stands at the start of the image.
///
/// Of what `IsKept` asks, `tables_stay_tables` gives the table. Every call that stages a change asks that it fits; each value of a program
/// is storable, and the text of an option is UTF-8; for a write that is kept no cause stands, and what stands under its name is this image
/// (`Written`).
pub fn written_tables_are_read_again()
    ensures rows { (shape : Shape) (entry : Option Entry) (records : List Record) (changes : List Change)
        → IsKept shape (header_under shape entry) records changes → IsUnmarked (image_bytes shape entry (rows_left shape records changes))
        → (csv_reading shape (csv_image shape entry (rows_left shape records changes))).rows ≡ rows_left shape records changes }
    ensures no_cause { (shape : Shape) (entry : Option Entry) (records : List Record) (changes : List Change)
        → IsKept shape (header_under shape entry) records changes → IsUnmarked (image_bytes shape entry (rows_left shape records changes))
        → (csv_reading shape (csv_image shape entry (rows_left shape records changes))).causes ≡ [] }
{}
