//! Records that the writer writes as they stand in a text.
ghost use Rattle.std.specs.Prelude.{◌≡◌, ℕ, List, true};
ghost use Rattle.std.specs.List.{list_all, flat_map};
ghost use Rattle.csv.specs.Records.{fields_of};
ghost use Rattle.csv_tables.specs.CsvRecords.{Record, is_whole};
ghost use Rattle.csv_tables.specs.Held.{ended, is_plain, special, special_in};

use crate::flat_fields::Fields;
use csv::ByteRecord;

/// One for a byte that the writer sets apart, none for another.
fn special(byte: u8) -> usize
    ensures { result ≡ special byte }
{
    match byte {
        b'\n' | b'\r' | b'"' | b',' => 1,
        _ => 0,
    }
}

/// How many bytes of a text the writer sets apart.
fn special_in(text: &[u8]) -> usize
    ensures { result ≡ special_in text.now }
{
    let mut count = 0;
    for byte in text {
        count += special(*byte);
    }
    count
}

/// Whether records of so many fields, two at least, are what the writer would write as they stand: no byte is set apart but those that end
/// the fields.
pub(crate) fn are_plain(width: usize, fields: &Fields) -> bool
    ensures { result ≡ true → (rows : List Record) → list_all (is_whole width) rows ≡ true → fields_of fields.now ≡ flat_map ended rows
        → list_all is_plain rows ≡ true }
{
    let size = fields.len();
    if width < 2 {
        return false;
    }
    special_in(fields.text(0, size)) == size
}

/// Whether records that are plain or not stay plain with one more.
pub(crate) fn stay_plain(plain: bool, row: &ByteRecord) -> bool
    ensures { result ≡ true → (plain ≡ true) × (is_plain (fields_of row.now) ≡ true) }
{
    if !plain {
        return false;
    }
    if row.len() < 2 {
        return false;
    }
    special_in(row.as_slice()) == 0
}
