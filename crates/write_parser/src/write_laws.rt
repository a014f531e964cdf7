//! The law that tokens have one tree: the contract of a function that does nothing.

ghost use Rattle.med_lexer.specs.Lexemes.{Shape};
ghost use Rattle.std.specs.Prelude.{◌≡◌, List};
ghost use Rattle.write_parser.specs.WriteGrammar.{IsWrite};
ghost use Rattle.med_syntax.specs.WriteTree.{WriteTree};

/// Tokens are at most one statement that writes rows.
pub fn one_write()
    ensures { (ss : List Shape) (v w : WriteTree) → IsWrite ss v → IsWrite ss w → v ≡ w }
{}
