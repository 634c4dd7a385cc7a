//! Tests of `type_table`, over its public names.
//!
//! They stand in a crate of their own, so that the library isn't proved a second time for them.
//! Nothing here is for other crates.
#![tactic(auto)]

#[cfg(test)]
mod definitions;
