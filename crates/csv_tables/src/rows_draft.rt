//! The records of a table of which a range is about to be replaced.
ghost use Rattle.std.specs.Prelude.{◌≡◌, ◌≤◌, ◌++◌, length, IfOk, IfErr};
ghost use Rattle.med_value.specs.Prelude.{row_limit};
ghost use Rattle.csv_tables.specs.Flat.{AreRows};
ghost use Rattle.csv_tables.specs.Tables.{records_of};
ghost use Rattle.csv_tables.specs.Rewriting.{records_with};

use crate::flat_fields::Replacing;
use crate::middle::Middle;
use crate::table::Rows;

/// The records of a table, of which a range is about to be replaced: all that can fail is done.
#[derive(Drop)]
pub struct RowsDraft {
    width: usize,
    fields: Replacing,
    /// How many they were, and whether each was known to be what the writer would write.
    old_count: usize,
    old_plain: bool,
    /// The same, with the others in the range's place.
    count: usize,
    plain: bool,
    ghost were: { AreRows old_count width old_plain fields.before },
    ghost are: { AreRows count width plain fields.after },
}

impl RowsDraft {
    ghost use Rattle.csv_tables.specs.Drafted.{records_before, records_kept, text_kept};

    /// The records of a table, of which a range is to be replaced. It fails for want of memory alone, and then the records come back.
    pub(crate) fn new(rows: Rows, middle: Middle) -> Result<RowsDraft, Rows>
        requires order { middle.from ≤ middle.to }
        requires within { middle.to ≤ rows.count }
        requires width { middle.rows.width ≡ rows.width }
        requires few { length (records_with rows middle) ≤ row_limit }
        ensures before { IfOk result (λ d. records_before d ≡ records_of rows) }
        ensures after { IfOk result (λ d. records_kept d ≡ records_with rows middle) }
        ensures width { IfOk result (λ d. d.width ≡ rows.width) }
        ensures err { IfErr result (λ same. (same.width ≡ rows.width) × (records_of same ≡ records_of rows)) }
    {
        let Middle {
            from,
            to,
            rows: others,
        } = middle;
        let size = rows.fields.len();
        let new = others.fields.len();
        let Rows {
            width,
            fields,
            count,
            plain,
        } = rows;
        let left = from + (count - to);
        match Replacing::new(fields, from * width, to * width, others.fields) {
            Ok(fields) => Ok(RowsDraft {
                width,
                fields,
                old_count: count,
                old_plain: plain,
                count: left + others.count,
                plain: plain && others.plain,
            }),
            Err(fields) => Err(Rows {
                width,
                fields,
                count,
                plain,
            }),
        }
    }

    /// The text of the fields with the others in the range's place, in three pieces.
    pub fn text(&self) -> (&[u8], &[u8], &[u8])
        ensures { result.0.now ++ result.1.now ++ result.2.now ≡ text_kept self.now }
    {
        self.fields.text()
    }

    /// The records with the others in the range's place. It cannot fail.
    pub fn kept(self) -> Rows
        ensures width { result.width ≡ self.width }
        ensures records { records_of result ≡ records_kept self }
    {
        Rows {
            width: self.width,
            fields: self.fields.kept(),
            count: self.count,
            plain: self.plain,
        }
    }

    /// The records as they were. It cannot fail.
    pub fn given_up(self) -> Rows
        ensures width { result.width ≡ self.width }
        ensures records { records_of result ≡ records_before self }
    {
        Rows {
            width: self.width,
            fields: self.fields.given_up(),
            count: self.old_count,
            plain: self.old_plain,
        }
    }
}
