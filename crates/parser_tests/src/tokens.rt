//! Tokens of texts.
use crate::rows::{Answer, assert_row, assert_rows};
use med_lexer::{LexFault, Mark, Token, TokenKind, number_value, tokens};
use std::alloc::Global;
use std::test::Fail;

/// A token: its kind, what it says, and the bytes that it covers.
fn shown_token(alloc: Global, token: &Token<'_>) -> Result<String, Fail> {
    let (kind, said) = match &token.kind {
        TokenKind::Word(said) => ("word", said.as_str()),
        TokenKind::Quoted(said) => ("quoted", said.as_str()),
        TokenKind::Literal(said) => ("text", said.as_str()),
        TokenKind::Number(said) => ("number", *said),
        TokenKind::Mark(mark) => ("mark", mark.as_str()),
    };
    Ok(format!(in alloc; "{kind} {said} {}..{}|", token.start, token.end)?)
}

/// The tokens of the text, or why it has none.
struct Shown;

impl Answer for Shown {
    fn answer(alloc: Global, text: &str) -> Result<String, Fail> {
        match tokens(alloc, text) {
            Ok(found) => {
                let mut out = String::new(alloc);
                for token in &found {
                    out.push_str(&shown_token(alloc, token)?)?;
                }
                Ok(out)
            }
            Err(fault) => Ok(format!(in alloc; "{fault:?}: {fault}")?),
        }
    }
}

#[test]
fn kinds_and_places(rt: HostRuntime) -> Result<(), Fail> {
    assert_rows::<Shown>(
        rt.alloc(),
        &rt,
        "a\"b\"\"c\"'d''e'-- x => word a 0..1|quoted b\"c 1..7|text d'e 7..13|\n\
        a!=b<>c => word a 0..1|mark <> 1..3|word b 3..4|mark <> 4..6|word c 6..7|\n\
        <=>=<>=<< => mark <= 0..2|mark >= 2..4|mark <> 4..6|mark = 6..7|mark < 7..8|mark < 8..9|\n\
        - -/%+* => mark - 0..1|mark - 2..3|mark / 3..4|mark % 4..5|mark + 5..6|mark * 6..7|\n\
        ;.,()> => mark ; 0..1|mark . 1..2|mark , 2..3|mark ( 3..4|mark ) 4..5|mark > 5..6|\n\
        \"é\"'日本' -- ü => quoted é 0..4|text 日本 4..12|\n\
        007.5\"x\"'' => number 007 0..3|mark . 3..4|number 5 4..5|quoted x 5..8|text  8..10|\n\
        1--2 => number 1 0..1|\n\
        \u{20}=> ",
    )
}

#[test]
fn newlines_stand_between_tokens(rt: HostRuntime) -> Result<(), Fail> {
    assert_row::<Shown>(
        rt.alloc(),
        &rt,
        "SELECT\tselect\r\nSeLeCt_1$ => word select 0..6|word select 7..13|word select_1$ 15..24|",
    )?;
    assert_row::<Shown>(rt.alloc(), &rt, " \t\r\n-- => ")
}

#[test]
fn no_tokens(rt: HostRuntime) -> Result<(), Fail> {
    assert_rows::<Shown>(
        rt.alloc(),
        &rt,
        "a # b => BadToken: a part of the text is no token\n\
        $ => BadToken: a part of the text is no token\n\
        ! => BadToken: a part of the text is no token\n\
        é => BadToken: a part of the text is no token\n\
        a\u{b}b => BadToken: a part of the text is no token\n\
        a \0 => BadToken: a part of the text is no token\n\
        'a\0b' => BadToken: a part of the text is no token\n\
        \"a\0b\" => BadToken: a part of the text is no token\n\
        a -- b\0 => BadToken: a part of the text is no token\n\
        \"\" => BadToken: a part of the text is no token\n\
        a, \"\"b => BadToken: a part of the text is no token\n\
        \"a\"\" => BadToken: a part of the text is no token\n\
        'a => BadToken: a part of the text is no token\n\
        'a'' => BadToken: a part of the text is no token\n\
        \"a\"\"b => BadToken: a part of the text is no token\n\
        12a => BadToken: a part of the text is no token\n\
        12_ => BadToken: a part of the text is no token\n\
        0é => BadToken: a part of the text is no token",
    )
}

struct NumberValue;

impl Answer for NumberValue {
    fn answer(alloc: Global, digits: &str) -> Result<String, Fail> {
        Ok(format!(in alloc; "{:?}", number_value(digits))?)
    }
}

#[test]
fn values_of_numbers(rt: HostRuntime) -> Result<(), Fail> {
    assert_rows::<NumberValue>(
        rt.alloc(),
        &rt,
        "0 => Some(0)\n\
        007 => Some(7)\n\
        9223372036854775807 => Some(9223372036854775807)\n\
        9223372036854775808 => Some(9223372036854775808)\n\
        9223372036854775809 => None\n\
        18446744073709551617 => None\n\
        \u{20}=> None\n\
        +5 => None\n\
        5x => None",
    )
}

#[test]
fn text_of_no_memory(rt: HostRuntime) -> Result<(), Fail> {
    let came = LexFault::NoMemory.to_string(rt.alloc())?;
    assert_eq!(rt; came.as_str(), "out of memory");
    Ok(())
}
