//! Tests of `slot_heap` and `word_heap`, over their public names.
//!
//! They stand in a crate of their own, so that no library is proved a second time for its tests.
//! Each call is made over both heaps. Nothing here is for other crates.
#![tactic(auto)]

#[cfg(test)]
mod calls;
#[cfg(test)]
mod heaps;
