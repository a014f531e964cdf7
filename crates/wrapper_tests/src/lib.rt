//! Tests of lists and of the wrappers round them, by public functions alone. They stand apart, so that no crate is proved a second time for
//! its tests.
#![tactic(auto)]

#[cfg(test)]
mod boxes;
#[cfg(test)]
mod calls;
#[cfg(test)]
mod orders;
#[cfg(test)]
mod parameters;
#[cfg(test)]
mod reads;
#[cfg(test)]
mod refusals;
#[cfg(test)]
mod wishes;
