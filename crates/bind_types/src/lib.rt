//! Phase 4 of binding, types: whether the types of a query fit, and whether its aggregates and columns stand where they may.
//!
//! `specs/Typing.antt` says what type an expression has and which causes of refusal stand. `src/checks.rt` checks the types of what is
//! written, by `src/typing.rt`, `src/forms.rt` where aggregates and columns stand in the query whose names are places, and which ON may
//! fault, and `src/outputs.rt` whether the outputs of its cores fit, by the types of expressions whose names are places
//! (`specs/TreeTypes.antt`, `src/kinds.rt`).
#![tactic(auto)]

mod checks;
mod forms;
mod kinds;
mod outputs;
mod typing;
mod values;

pub use checks::check_written;
pub use forms::{check_form, check_no_aggregate};
pub use kinds::{kind_of, kinds_in_view, kinds_of, kinds_of_all};
pub use outputs::check_outputs;
pub use typing::takes;
pub use values::{type_values, type_where};
