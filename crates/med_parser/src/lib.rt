//! Parses a line of this profile of SQL, a command and perhaps a semicolon, and writes commands out. A command is a statement on the
//! objects of the catalogue (`ddl_parser`), one that writes rows (`write_parser`, `sql_print`), one on a cursor (the
//! same two), or one on data:
//! `core {UNION ALL core} [ORDER BY key {, key}] [LIMIT ..] [OFFSET ..] [;]`, where a core is
//! `SELECT [DISTINCT] item {, item} [FROM chain {, chain}] [WHERE expr] [GROUP BY col {, col}] [HAVING expr]`, and a chain is an entry with
//! its joins.
//!
//! The grammar stands apart from the readers: `med_syntax/specs/QueryGrammar.antt` says which terminals spell which statement. The
//! readers (`query_reader`) are proved to find each of these trees, and no other, and what is written of a tree (`sql_print`) is read
//! as that tree.
//!
//! A clause of a query is a field of `CoreTree` and of `Core`, or of `SelectTree` and of `Select` where it is of all cores, in the crate of
//! the trees, with a line in their view, height and range; there a `Spells` relation (`specs/QueryGrammar.antt`) and a line in
//! `proofs/QueryTerminals.antt`; in `query_reader` a part of the list reader (`specs/QueryReading.antt`), a lemma `_takes` and one `_sound`
//! (`proofs/ClauseComplete.antt`, `proofs/ClauseSound.antt`), and a function in `src/query_statement.rt`, `src/query_source.rt` or
//! `src/query_keys.rt`; in `sql_print` a line in `specs/QueryPrinting.antt` and `proofs/QueryPrints.antt`, and a function in
//! `src/query_items.rt`, `src/query_source.rt`, `src/query_keys.rt` or `src/query_writer.rt`; a line in `proofs/QueryWeighing.antt` of
//! `query_reader`; and a function in `sql_print`.
//! Lists, and parts that may be left out behind their keywords, have relations, readers and lemmas of their own (`SpellsListed`,
//! `SpellsPerhaps`). The part before a clause has to stop at its keyword (`Clear`). A word that is optional in the text is no part of the
//! tree: its relation allows both spellings. A kind of statement is a constructor of `StatementTree` with the same.
#![tactic(auto)]

mod command;
mod command_kind;
mod command_laws;
mod command_print;
mod command_range;
mod parser;

pub use command::Command;
pub use command_laws::{one_tree, printed_command};
pub use command_print::print;
pub use parser::parse;
