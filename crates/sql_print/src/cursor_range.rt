//! Whether the numbers of a statement on cursors are in range.

ghost use Rattle.write_parser.specs.CursorCauses.{cursor_in_range};
ghost use Rattle.med_syntax.specs.CursorView.{cursor_tree};
ghost use Rattle.std.specs.Prelude.{◌≡◌};

use crate::is_statement_in_range;
use med_syntax::CursorStatement;
use write_parser::is_count_in_range;

/// Whether each number of the statement is in range: those of the query, or that of FETCH.
pub fn is_cursor_in_range(statement: &CursorStatement) -> bool
    ensures { result ≡ cursor_in_range (cursor_tree statement.now) }
{
    match statement {
        CursorStatement::Declare(declare) => is_statement_in_range(&declare.query),
        CursorStatement::Fetch(fetch) => is_count_in_range(fetch.count),
        CursorStatement::Close(_) => true,
    }
}
