//! Tests of `run_results`, `slot_frames` and `run_command`, over their public names.
//!
//! They stand in a crate of their own, so that no library is proved a second time for its tests.
//! Each expected answer was worked out by hand. Nothing here is for other crates.
#![tactic(auto)]

#[cfg(test)]
mod endings;
#[cfg(test)]
mod frames;
#[cfg(test)]
mod inputs;
#[cfg(test)]
mod lines;
#[cfg(test)]
mod pieces;
