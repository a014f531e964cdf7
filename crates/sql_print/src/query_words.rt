//! Keywords, and what the clauses have in common: commas and aliases.
#![tactic(auto, using(crate::proofs::Writing::wrote_one, crate::proofs::Writing::wrote_none, crate::proofs::Writing::wrote_then, crate::proofs::Writing::wrote_more, crate::proofs::Writing::then_if, crate::proofs::Writing::more_if, crate::proofs::Writing::wrote_all))]

ghost use Rattle.expr_writer.specs.ExprPrinting.{Writes, shape_for};
ghost use Rattle.med_lexer.specs.Printing.{raw_of};
ghost use Rattle.med_syntax.specs.Terminal as t;
ghost use Rattle.sql_print.specs.QueryPrinting.{keyword_terminal, alias_written};
ghost use Rattle.std.specs.Prelude.{◌≡◌, ◌∷◌, [], option_map};
ghost use Rattle.std.specs.String.{string_bytes};

use expr_writer::{Fixed, write_fixed, write_name};
use std::alloc::AllocError;

/// A keyword that no expression has.
#[derive(Clone, Copy, Drop)]
pub enum Keyword {
    Select,
    Distinct,
    As,
    From,
    Join,
    Left,
    Cross,
    On,
    Where,
    Group,
    By,
    Having,
    Union,
    Order,
    Ascending,
    Descending,
    Nulls,
    First,
    Last,
    Limit,
    All,
    Offset,
    Insert,
    Into,
    Values,
    Update,
    Set,
    Delete,
}

// How the keyword is written.
fn keyword_text(keyword: Keyword) -> &'static str
    ensures { result.now ≡ raw_of (shape_for (keyword_terminal keyword)) }
{
    match keyword {
        Keyword::Select => "SELECT",
        Keyword::Distinct => "DISTINCT",
        Keyword::As => "AS",
        Keyword::From => "FROM",
        Keyword::Join => "JOIN",
        Keyword::Left => "LEFT",
        Keyword::Cross => "CROSS",
        Keyword::On => "ON",
        Keyword::Where => "WHERE",
        Keyword::Group => "GROUP",
        Keyword::By => "BY",
        Keyword::Having => "HAVING",
        Keyword::Union => "UNION",
        Keyword::Order => "ORDER",
        Keyword::Ascending => "ASC",
        Keyword::Descending => "DESC",
        Keyword::Nulls => "NULLS",
        Keyword::First => "FIRST",
        Keyword::Last => "LAST",
        Keyword::Limit => "LIMIT",
        Keyword::All => "ALL",
        Keyword::Offset => "OFFSET",
        Keyword::Insert => "INSERT",
        Keyword::Into => "INTO",
        Keyword::Values => "VALUES",
        Keyword::Update => "UPDATE",
        Keyword::Set => "SET",
        Keyword::Delete => "DELETE",
    }
}

/// Writes a space and the keyword.
pub fn write_keyword(keyword: Keyword, out: &mut String) -> Result<(), AllocError>
    ensures { Writes result out.old out.new (keyword_terminal keyword ∷ []) }
{
    out.push(' ')?;
    out.push_str(keyword_text(keyword))
}

/// Writes AS and the name, where there is one.
pub(crate) fn write_alias(alias: &Option<String>, out: &mut String) -> Result<(), AllocError>
    ensures { Writes result out.old out.new (alias_written (option_map string_bytes alias.now)) }
{
    match alias {
        None => Ok(()),
        Some(name) => {
            write_keyword(Keyword::As, out)?;
            write_name(name, out)
        }
    }
}

/// Writes a space and a comma.
pub(crate) fn write_comma(out: &mut String) -> Result<(), AllocError>
    ensures { Writes result out.old out.new (t.Comma ∷ []) }
{
    write_fixed(Fixed::Comma, out)
}
