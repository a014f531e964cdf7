//! Statements and expressions as they are written: the trees that the parser makes and the binder reads, and the reserved words.
//!
//! `specs/Terminal.antt` has the terminal symbols, `specs/ExprTree.antt` the trees of expressions with how each is spelled and how tightly
//! it binds, `specs/QueryTree.antt` those of queries, `specs/WriteTree.antt`, `specs/CursorTree.antt` and `specs/DdlTree.antt` the others;
//! `specs/ExprView.antt` and `specs/QueryView.antt` say which tree a value is.
//!
//! What the readers and the writers of expressions share: terminal symbols and the tokens that are them, why nothing was read, and the
//! grammar as lists of terminals are read by it.
//!
//! The grammar stands apart from the readers: which terminals spell a tree, and how tightly each form binds, say the trees.
//! The list reader (`specs/ExprReading.antt`) is proved to find each of these trees, and no other.
//!
//! A form of expressions is added there as a constructor with a line in each definition, then in the list reader at the level on which it
//! binds, in the case lemmas of `proofs/ExprComplete.antt` and `proofs/ExprSound.antt`, and last in the crate `expr_reader`.
//!
//! The grammar of statements, and the terminals that a statement's tokens are:
//! `core {UNION ALL core} [ORDER BY key {, key}] [LIMIT ..] [OFFSET ..] [;]`, where a core is
//! `SELECT [DISTINCT] item {, item} [FROM chain {, chain}] [WHERE expr] [GROUP BY col {, col}] [HAVING expr]`, and a chain is an entry with
//! its joins.
//!
//! `specs/QueryGrammar.antt` says which terminals spell which statement, and `specs/QueryCauses.antt` whether its numbers are in range.
//! The readers and the writer of statements stand on it.
//!
//! NULLS, FIRST, LAST, ROW and ROWS are keywords that are not reserved, so such a word is a name too, and only a name where it is quoted
//! (`IsWord`). Which of the two a word is follows from what stands before it (`specs/QueryTerminals.antt`, `src/query_symbols.rt`).
#![tactic(auto)]

mod cursor;
mod ddl;
mod expr;
pub mod expr_symbols;
mod fault;
pub mod number_range;
mod query_symbols;
pub mod refusal;
mod statement;
pub mod symbols;
pub mod token_list;
pub mod weighing;
mod words;
mod write;

pub use cursor::{Close, CursorStatement, Declare, Fetch, FetchCount};
pub use ddl::{
    CreateMapping, CreateServer, CreateTable, CreateWrapper, Ddl, DropMapping, DropNamed,
    GenericOption, MappingUser, TableColumn,
};
pub use expr::{Expr, Joint};
pub use fault::ParseFault;
pub use query_symbols::{Place, words_of};
pub use statement::{
    Chain, Core, Entry, GroupColumn, Item, Join, Limit, OrderKey, Select, Statement,
};
pub use words::is_reserved;
pub use write::{Delete, Given, Insert, SetClause, Update, WriteStatement};
