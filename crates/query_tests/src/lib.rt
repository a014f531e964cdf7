//! Tests of values, expressions, restrictions and queries below the engine, by public functions alone: bound, and offered to their sources, as far as the
//! program's streams (`tests/`) cannot show it. They stand apart, so that no crate is proved a second time for its tests.
#![tactic(auto)]

#[cfg(test)]
mod bound;
#[cfg(test)]
mod build;
#[cfg(test)]
mod columns;
#[cfg(test)]
mod expect;
#[cfg(test)]
mod expressions;
#[cfg(test)]
mod fits;
#[cfg(test)]
mod laws;
#[cfg(test)]
mod restrictions;
#[cfg(test)]
mod rows;
#[cfg(test)]
mod values;
