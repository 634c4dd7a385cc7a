//! Tests of `spark_tool`, over `run_tool` and the outside in memory.
//!
//! They stand in a crate of their own, so that the library isn't proved a second time for its
//! tests. Each expected answer was worked out by hand from `docs/TOOL.md` and `docs/LANGUAGE.md`;
//! more of them stand in the examples and tables of `spark_examples`. Nothing here is for other
//! crates.
#![tactic(auto)]

#[cfg(test)]
mod called;
#[cfg(test)]
mod calls;
#[cfg(test)]
mod command;
#[cfg(test)]
mod counting;
#[cfg(test)]
mod faults;
#[cfg(test)]
mod limits;
#[cfg(test)]
mod prefixes;
#[cfg(test)]
mod refusals;
#[cfg(test)]
mod run_limits;
#[cfg(test)]
mod runs;
#[cfg(test)]
mod statements;
#[cfg(test)]
mod stores;
#[cfg(test)]
mod words;
