//! Tests of the engine over boxes and devices of which each call fails in turn, and over boxes that count, hide and shuffle, by public functions alone, as far as
//! the program's streams (`tests/`) cannot show them. They stand apart, so that no crate is proved a second time for its tests.
#![tactic(auto)]

#[cfg(test)]
mod blobs;
#[cfg(test)]
mod expect;
#[cfg(test)]
mod live;
#[cfg(test)]
mod served;
#[cfg(test)]
mod talks;
