//! What names mean over the tables of a statement: which entries of FROM are in view, which column a name means there, and which names are
//! those of aggregate functions.
//!
//! `specs/Scope.antt` says what is in view and which columns a name can mean, `specs/Naming.antt` which causes of refusal stand by names,
//! `specs/Aggregates.antt` where aggregates and columns may stand in a query that groups, `specs/Meaning.antt` what a statement means, its
//! names being places, and `specs/Telling.antt` what the functions of binding answer. The crates of types and of queries speak of these,
//! and not of each other.
#![tactic(auto)]

mod aggregates;
mod from;
mod functions;
mod scope;
mod table;

pub use aggregates::{any_has_aggregate, has_aggregate};
pub use from::{
    Located, check_names, entries_of, from_in_view, joined_entry, query_entries, scope_of,
    table_named, visible_of,
};
pub use functions::function_named;
pub use scope::{FoundPlaces, Visible, column_kind, find_column, is_any_named, is_named, one_more};
pub use table::TableView;
