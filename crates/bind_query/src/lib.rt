//! Phase 3 of binding, names: the parts of a query with their names resolved.
//!
//! `src/resolve.rt` resolves expressions, `src/joins.rt` FROM with its joins, and WHERE and HAVING, `src/outputs.rt` the select list,
//! `src/keys.rt` ORDER BY and GROUP BY, `src/sorting.rt` says by what the rows of each core of a query are sorted, and `src/grouping.rt`
//! whether and how a core groups. What each part means, and which causes
//! stand against it, is said by `specs/Meaning.antt` and `specs/Naming.antt` of the crate of names.
#![tactic(auto)]

pub mod grouping;
pub mod joins;
pub mod keys;
mod numbers;
pub mod outputs;
mod resolve;
pub mod sorting;
pub mod values;
