//! The law of rows that a write need not read. A call does nothing: its contract is the law, proved for all writes and rows.
ghost use Rattle.med_write.specs.Laws.{RowsOutChangeNothing};

/// A write asks for the same changes in the same order, is told of as many rows and may tell the same faults, whether rows are read or not
/// of which a conjunct of WHERE is false or unknown.
pub fn rows_out_change_nothing()
    ensures { RowsOutChangeNothing }
{}
