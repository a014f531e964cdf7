//! The tokens of a text.

ghost use Rattle.std.specs.Prelude.{◌≡◌, IfOk, IsOkAnd, length, suc};
ghost use Rattle.std.specs.Cow.{IsBorrowedStr, cow_str_bytes};
ghost use Rattle.std.specs.Str.{str_to_ascii_lowercase};
ghost use Rattle.med_lexer.specs.Lexemes as spec;
ghost use Rattle.med_lexer.specs.Cutting as cutting;
ghost use Rattle.med_lexer.specs.View.{views, Tokens};
ghost use Rattle.med_lexer.specs.Steps.{Steps, GivesLexed};
ghost use Rattle.std.specs.Char.{is_ascii_digit};

use crate::bytes::{Class, behind, cut_run, first, is_blank, is_folded, is_start};
use crate::error::LexFault;
use crate::marks::{double, single};
use crate::quotes::unquoted;
use crate::{Token, TokenKind};
use std::alloc::{AllocError, Global};
use std::borrow::CowStr;

/// What stands at the front of a text.
#[derive(Drop)]
enum Step<'a> {
    /// nothing, or a comment
    Done,
    /// a blank, and the text behind it
    Blank(&'a str),
    /// a token, and the text behind it
    Cut(TokenKind<'a>, &'a str),
}

/// The word in lower case, borrowed where it stands so.
fn folded(alloc: Global, raw: &str) -> Result<CowStr<'_, Global>, AllocError>
    ensures same { IfOk result (λ word. cow_str_bytes word ≡ str_to_ascii_lowercase raw.now) }
    ensures lent { str_to_ascii_lowercase raw.now ≡ raw.now → IsOkAnd result IsBorrowedStr }
{
    if is_folded(raw) {
        Ok(CowStr::Borrowed(raw))
    } else {
        Ok(CowStr::Owned(raw.to_ascii_lowercase(alloc)?))
    }
}

/// The word at the front of a text.
fn word(alloc: Global, text: &str) -> Result<Step<'_>, LexFault>
    ensures { Steps result (cutting.word_next (cutting.run spec.is_part text.now)) }
{
    let (raw, after) = cut_run(text, Class::Part);
    Ok(Step::Cut(TokenKind::Word(folded(alloc, raw)?), after))
}

/// The number at the front of a text.
fn number(text: &str) -> Result<Step<'_>, LexFault>
    ensures { Steps result (cutting.number_next (cutting.run is_ascii_digit text.now)) }
{
    let (digits, after) = cut_run(text, Class::Digit);
    let bytes = after.as_bytes();
    if !bytes.is_empty() && is_start(bytes[0]) {
        return Err(LexFault::BadToken);
    }
    Ok(Step::Cut(TokenKind::Number(digits), after))
}

/// The quoted name of which the first quote stands before the text.
fn name(alloc: Global, text: &str) -> Result<Step<'_>, LexFault>
    ensures { Steps result (cutting.name_next (cutting.quote 34 text.now)) }
{
    let (name, after) = unquoted(alloc, b'"', text)?;
    if name.is_empty() {
        return Err(LexFault::BadToken);
    }
    Ok(Step::Cut(TokenKind::Quoted(name), after))
}

/// The text literal of which the first quote stands before the text.
fn literal(alloc: Global, text: &str) -> Result<Step<'_>, LexFault>
    ensures { Steps result (cutting.literal_next (cutting.quote 39 text.now)) }
{
    let (literal, after) = unquoted(alloc, b'\'', text)?;
    Ok(Step::Cut(TokenKind::Literal(literal), after))
}

/// The comment at the front of a text.
fn comment(text: &str) -> Result<Step<'_>, LexFault>
    ensures { Steps result (cutting.comment_next (cutting.run spec.is_text text.now)) }
{
    let (_, after) = cut_run(text, Class::Text);
    if after.is_empty() {
        Ok(Step::Done)
    } else {
        Err(LexFault::BadToken)
    }
}

/// The mark whose first byte stands before the text.
fn mark(b: u8, text: &str) -> Result<Step<'_>, LexFault>
    ensures { Steps result (cutting.mark_next (cutting.double b (cutting.first text.now)) (cutting.single b) text.now) }
{
    match double(b, first(text.as_bytes())) {
        Some(m) => Ok(Step::Cut(TokenKind::Mark(m), behind(text))),
        None => match single(b) {
            Some(m) => Ok(Step::Cut(TokenKind::Mark(m), text)),
            None => Err(LexFault::BadToken),
        },
    }
}

/// What stands at the front of a text.
#[tactic(auto, unfolding(crate::specs::Cutting::next))]
fn next(alloc: Global, text: &str) -> Result<Step<'_>, LexFault>
    ensures { Steps result (cutting.next text.now) }
{
    let bytes = text.as_bytes();
    if bytes.is_empty() {
        return Ok(Step::Done);
    }
    let b = bytes[0];
    if is_start(b) {
        return word(alloc, text);
    }
    if b.is_ascii_digit() {
        return number(text);
    }
    if b >= 128 {
        return Err(LexFault::BadToken);
    }
    let after = behind(text);
    if is_blank(b) {
        Ok(Step::Blank(after))
    } else if b == b'"' {
        name(alloc, after)
    } else if b == b'\'' {
        literal(alloc, after)
    } else if b == b'-' && first(after.as_bytes()) == b'-' {
        comment(text)
    } else {
        mark(b, after)
    }
}

/// The tokens of the text, one after another.
fn cut(alloc: Global, text: &str) -> Result<Vec<Token<'_>>, LexFault>
    ensures { GivesLexed (λ v. views v.items) result (cutting.lex (suc (length text.now)) 0 text.now) }
{
    let mut out = Vec::new(alloc);
    let mut rest = text;
    loop {
        match next(alloc, rest)? {
            Step::Done => return Ok(out),
            Step::Blank(after) => rest = after,
            Step::Cut(kind, after) => {
                let start = text.len() - rest.len();
                let end = text.len() - after.len();
                out.push(Token { kind, start, end })?;
                rest = after;
            }
        }
    }
}

/// The tokens of a text, each the longest at its place, in the order of the text. They borrow from it what stands there as they say it.
///
/// `BadToken` says that the text has no list of tokens. It holds a character outside quotes that begins no token, U+0000, an empty
/// quoted name, a quote that is not closed, or a number directly before a letter or `_`.
pub fn tokens(alloc: Global, text: &str) -> Result<Vec<Token<'_>>, LexFault>
    // the one list of the text's tokens, or that it has none
    ensures { Tokens result text.now }
{
    cut(alloc, text)
}
