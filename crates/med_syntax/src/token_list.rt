//! The tokens of a text.

ghost use Rattle.std.specs.Prelude.{◌↔◌, IsTrue, Any};
ghost use Rattle.med_lexer.specs.declared.Token.{Token};
ghost use Rattle.med_lexer.specs.View.{shape_of};
ghost use Rattle.med_syntax.specs.Shapes.{IsLongName};
ghost use Rattle.med_syntax.specs.View.{LexesOnly};

use crate::fault::ParseFault;
use med_lexer::{LexFault, Token, TokenKind, one_list, tokens};
use med_value::limits::NAME_LIMIT;
use std::alloc::Global;

/// Tokens, one behind the other.
pub type Tokens<'a> = &'a [Token<'a>];

/// The tokens of a text.
pub fn tokens_of(alloc: Global, text: &str) -> Result<Vec<Token<'_>>, ParseFault>
    ensures { LexesOnly result text.now }
{
    one_list();
    match tokens(alloc, text) {
        Ok(tokens) => Ok(tokens),
        Err(LexFault::NoMemory) => Err(ParseFault::NoMemory),
        Err(LexFault::BadToken) => Err(ParseFault::Syntax),
    }
}

/// Whether the token is a word or a quoted name that is too long for a name.
fn is_long_name(kind: &TokenKind<'_>) -> bool
    ensures { IsTrue result ↔ IsLongName (shape_of kind.now) }
{
    match kind {
        TokenKind::Word(name) | TokenKind::Quoted(name) => name.len() > NAME_LIMIT,
        _ => false,
    }
}

/// Whether one of the tokens is too long for a name.
pub fn has_long_name(tokens: Tokens<'_>) -> bool
    ensures { IsTrue result ↔ Any (λ (t : Token). IsLongName (shape_of t.kind)) tokens.now }
{
    tokens.iter().any(|token| is_long_name(&token.kind))
}
