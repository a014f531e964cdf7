//! A law of the texts of writes. A call does nothing: its contract is the law.
ghost use Rattle.std.specs.Prelude.{List, ℕ};
ghost use Rattle.med_syntax.specs.WriteTree.{WriteTree};
ghost use Rattle.write_parser.specs.WriteGrammar.{HasWrite};
ghost use Rattle.med_statements.specs.Typed.{IsClean};

/// No text that a statement may write has U+0000, since no literal has (SQL:2016, 5.3 "<literal>").
pub fn texts_are_clean()
    ensures { (text : List ℕ) (w : WriteTree) → HasWrite text w → IsClean w }
{}
