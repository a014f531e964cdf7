//! What INSERT, UPDATE and DELETE mean over the tables of a catalogue and which causes of names, rights and types stand against them, and
//! the parts that these statements share: the table that is written, expressions that see the columns of one table or none, the places of
//! columns, and the types of what is written.
//!
//! `specs/Meaning.antt` says what a write means in terms of places, `specs/Naming.antt` which causes of names and rights stand against it,
//! and `specs/Typing.antt` which of types.
//!
//! INSERT, UPDATE and DELETE bound over the tables of a catalogue, with the rights of their user.
//!
//! `specs/Binding.antt` says what binding answers, in the words of `specs/Meaning.antt`.
#![tactic(auto)]

mod binding;
mod bound;
mod columns;
mod deleting;
mod inserting;
mod kinds;
pub mod law;
pub mod parts_law;
mod places;
mod querying;
mod target;
mod updating;
mod values;
mod write_values;

pub use binding::bind_write;
pub use bound::TableWrite;
pub use columns::{check_list, name_place};
pub use kinds::{cell_kinds, check_cells};
pub use places::{check_fit, check_named, places_for};
pub use target::{Target, find_target, written_columns};
pub use write_values::{BoundValues, bind_values, check_types, table_in_view};
