//! Tests of `slot_execute`, over `execute` with both stores.
//!
//! They stand in a crate of their own, so that the library isn't proved a second time for its
//! tests. Each program runs over a `ReuseStore` and over a `WordStore`: both runs write the same bytes
//! and give the same. Each expected answer was worked out by hand from `docs/RUN.md` and
//! `docs/FLOW.md`. Nothing here is for other crates.
#![tactic(auto)]

#[cfg(test)]
mod cells;
#[cfg(test)]
mod endings;
#[cfg(test)]
mod faults;
#[cfg(test)]
mod lists;
#[cfg(test)]
mod program;
