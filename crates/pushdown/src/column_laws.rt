//! Laws of what a query reads. A call does nothing: its contract is the law, proved for all expressions, queries and rows.

ghost use Rattle.pushdown.specs.Columns.{AgreeOnFewer, AgreeingAreAsMany, ExpressionsReadTheirColumns, RowsShowTheirColumns};
ghost use Rattle.pushdown.specs.Columns.{ListsKeepTheirColumns, ListsShowTheirColumns};
ghost use Rattle.pushdown.specs.Cores.{CoresReadTheirColumns, ListsReadTheirColumns, QueriesReadTheirColumns, TablesReadTheirColumns};

/// An expression means the same over rows with the same cells in its columns, and so its value and what WHERE keeps depend on these cells
/// alone.
pub fn expressions_read_their_columns()
    ensures means { ExpressionsReadTheirColumns }
    ensures shows { RowsShowTheirColumns }
{}

/// Lists of rows that agree on the columns of expressions show the same rows, and of both a condition keeps rows that agree.
pub fn lists_read_their_columns()
    ensures show { ListsShowTheirColumns }
    ensures keep { ListsKeepTheirColumns }
{}

/// Rows that agree on columns agree on any of these, and are as many.
pub fn rows_agree_on_fewer()
    ensures fewer { AgreeOnFewer }
    ensures many { AgreeingAreAsMany }
{}

/// What is left of a core over one table keeps rows, shows rows and tells faults by the cells of the columns that it reads alone.
pub fn cores_read_their_columns()
    ensures { CoresReadTheirColumns }
{}

/// A query of such cores has the same answers, faults and counts over tables that agree on the columns that each core reads.
pub fn queries_read_their_columns()
    ensures any { QueriesReadTheirColumns }
    ensures tables { TablesReadTheirColumns }
    ensures lists { ListsReadTheirColumns }
{}
