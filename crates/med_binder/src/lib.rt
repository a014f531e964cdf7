//! Binds statements: resolves names, checks types and rights, and says what a statement means over the tables of a catalogue.
//!
//! What is in view, what a name and a statement mean, and which causes of names stand is said in the crate `bind_names`; which causes of
//! types stand in `bind_types`, which checks them; the parts of a query are resolved in `bind_query`. Here `specs/Binding.antt` says what
//! a bound query is, and `specs/Queries.antt` and `specs/Barred.antt` what `bind` answers; `specs/Within.antt`, `specs/Counted.antt` and
//! `specs/Alike.antt` say what the laws in `law` speak of.
//!
//! `bind` is `named_query` and behind it `typed_query`. The first asks the user's rights, gathers the tables that the entries of FROM name
//! (`src/gathering.rt`), and looks all names up (`src/look_up.rt`, core by core `src/cores.rt`). The second has the types of what is
//! written checked, then where aggregates and columns stand, and last whether the outputs of the cores fit. `bind_views` does both over
//! views. A form of expression is a line in `name_causes`, `type_of`, `type_causes` and `resolved`, and an arm in `src/resolve.rt` of
//! `bind_query` and in `src/typing.rt` of `bind_types`.
#![tactic(auto)]

mod binding;
mod bound;
mod bound_table;
pub mod catalog_law;
mod cores;
mod entries;
mod gathering;
pub mod law;
mod look_up;
mod named;
mod query_binding;
mod rights;
mod view_binding;

pub use bind_names::TableView;
pub use binding::{bind, named_query, typed_query};
pub use bound::{BoundEntry, BoundQuery};
pub use bound_table::BoundTable;
pub use named::NamedQuery;
pub use view_binding::bind_views;
