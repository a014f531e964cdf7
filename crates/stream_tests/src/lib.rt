//! Tests of streams over readers and servers that fail, of counts of reads, of scripts, of sources and sinks in memory, of a hub over
//! connections in memory, and of what each fault says, by public functions alone, as far as the program's streams (`tests/`) cannot show
//! them. They are a crate of their own, so that no crate is proved a second time for its tests.
#![tactic(auto)]

#[cfg(test)]
mod expect;
#[cfg(test)]
mod hub;
#[cfg(test)]
mod list;
#[cfg(test)]
mod output;
#[cfg(test)]
mod serving;
#[cfg(test)]
mod texts;
