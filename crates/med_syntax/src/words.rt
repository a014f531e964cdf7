//! The reserved words.

ghost use Rattle.std.specs.Prelude.{◌≡◌, ◌↔◌, IsTrue, Contains};
ghost use Rattle.med_syntax.specs.Words.{reserved};
ghost use Rattle.med_syntax.specs.Words as words;

const RESERVED: [&str; 57] = [
    "all",
    "and",
    "as",
    "asc",
    "between",
    "by",
    "case",
    "create",
    "cross",
    "current_user",
    "declare",
    "delete",
    "desc",
    "distinct",
    "drop",
    "else",
    "end",
    "except",
    "false",
    "fetch",
    "for",
    "foreign",
    "from",
    "full",
    "group",
    "having",
    "in",
    "inner",
    "insert",
    "intersect",
    "into",
    "is",
    "join",
    "left",
    "like",
    "limit",
    "natural",
    "not",
    "null",
    "offset",
    "on",
    "or",
    "order",
    "outer",
    "right",
    "select",
    "set",
    "then",
    "true",
    "union",
    "update",
    "user",
    "using",
    "values",
    "when",
    "where",
    "with",
];

/// Whether a word in lower case is reserved, and so no name unless it is quoted.
pub fn is_reserved(word: &str) -> bool
    ensures exact { IsTrue result ↔ Contains reserved word.now }
    ensures test { result ≡ words.is_reserved word.now }
{
    RESERVED.contains(&word)
}
