//! Laws of the statements on cursors. Each is the contract of a function that does nothing.

ghost use Rattle.write_parser.specs.CursorGrammar.{IsCursor};
ghost use Rattle.med_syntax.specs.Prelude.{CursorTree, DdlTree, StatementTree, IsStatement};
ghost use Rattle.ddl_parser.specs.DdlGrammar.{IsDdl};
ghost use Rattle.med_lexer.specs.Lexemes.{Shape};
ghost use Rattle.std.specs.Prelude.{◌≡◌, List};

/// Tokens are at most one statement on cursors.
pub fn one_cursor()
    ensures { (ss : List Shape) (a b : CursorTree) → IsCursor ss a → IsCursor ss b → a ≡ b }
{}

/// No tokens are a statement on cursors and a query, or one on the catalogue's objects, at once.
pub fn no_statement()
    ensures query { (ss : List Shape) (c : CursorTree) (s : StatementTree) → IsCursor ss c → IsStatement ss s → ⊥ }
    ensures ddl { (ss : List Shape) (c : CursorTree) (d : DdlTree) → IsCursor ss c → IsDdl ss d → ⊥ }
{}
