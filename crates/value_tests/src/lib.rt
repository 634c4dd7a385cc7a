//! Tests of `run_values`, over its public names.
//!
//! They stand in a crate of their own, so that the library isn't proved a second time for them.
//! Each expected answer was worked out by hand. Nothing here is for other crates.
#![tactic(auto)]

#[cfg(test)]
mod arithmetic;
#[cfg(test)]
mod images;
#[cfg(test)]
mod items;
#[cfg(test)]
mod values;
