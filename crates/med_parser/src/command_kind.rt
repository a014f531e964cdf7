//! Of which kind tokens can be, by their first word.

ghost use Rattle.med_syntax.specs.View.{shapes_of};
ghost use Rattle.med_lexer.specs.View.{shape_of};
ghost use Rattle.med_parser.specs.CommandGrammar.{IsCommand};
ghost use Rattle.med_parser.specs.CommandKinds as kinds;
ghost use Rattle.med_parser.specs.CommandKinds.{kind_of_tree};
ghost use Rattle.med_parser.specs.CommandTree.{CommandTree};
ghost use Rattle.std.specs.Prelude.{◌≡◌};

use med_lexer::TokenKind;
use med_syntax::token_list::Tokens;

/// A kind of command: each has a reader of its own.
#[derive(Clone, Copy, Drop)]
pub enum CommandKind {
    /// A statement on data: SELECT.
    Data,
    /// A statement that writes rows: INSERT, UPDATE and DELETE.
    Rows,
    /// A statement on a cursor: DECLARE, FETCH and CLOSE.
    Cursor,
    /// A statement on the objects of the catalogue: CREATE and DROP.
    Objects,
}

/// The kind of the commands that begin with the word.
fn kind_of_word(word: &str) -> CommandKind
    ensures { result ≡ kinds.kind_of_word word.now }
{
    if ["create", "drop"].contains(&word) {
        CommandKind::Objects
    } else if ["insert", "update", "delete"].contains(&word) {
        CommandKind::Rows
    } else if ["declare", "fetch", "close"].contains(&word) {
        CommandKind::Cursor
    } else {
        CommandKind::Data
    }
}

/// The kind of the commands that begin with the token.
fn kind_of_token(kind: &TokenKind<'_>) -> CommandKind
    ensures { result ≡ kinds.kind_of_shape (shape_of kind.now) }
{
    match kind {
        TokenKind::Word(word) => kind_of_word(word.as_str()),
        _ => CommandKind::Data,
    }
}

/// The one kind of which tokens can be a command.
pub fn kind_of(tokens: Tokens<'_>) -> CommandKind
    // No tree of another kind has these tokens.
    ensures { (c : CommandTree) → IsCommand (shapes_of tokens.now) c → kind_of_tree c ≡ result }
{
    match tokens {
        [first, ..] => kind_of_token(&first.kind),
        [] => CommandKind::Data,
    }
}
