//! Tests of the wrappers of CSV files, of JSON lines and of SQLite databases by themselves: what they agree to under offered
//! restrictions and wishes, what their scans give then, limits on steps, and boxes that count, fail and shuffle, by public functions
//! alone; and of the looks at texts over the tables of a database. They stand apart, so that no crate is proved a second time for its
//! tests.
#![tactic(auto)]

#[cfg(test)]
mod asked;
#[cfg(test)]
mod boxes;
#[cfg(test)]
mod files;
#[cfg(test)]
mod keys;
#[cfg(test)]
mod limits;
#[cfg(test)]
mod looks;
#[cfg(test)]
mod orders;
#[cfg(test)]
mod scans;
#[cfg(test)]
mod shapes;
#[cfg(test)]
mod wishes;
#[cfg(test)]
mod writes;
#[cfg(test)]
mod written;
