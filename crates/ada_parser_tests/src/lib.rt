//! Tables of sources, and of texts that are none from one token on, with what `ada_parser` is to
//! answer to each.
//!
//! Each row was worked out by hand from the grammar (`docs/LANGUAGE.md`, "Grammar"). They are
//! tests, in a crate of their own, so that the proof of the parser isn't done twice. Nothing here
//! is for other crates.
#![tactic(auto)]

#[cfg(test)]
mod accepted;
#[cfg(test)]
mod left_out;
#[cfg(test)]
mod limits;
#[cfg(test)]
mod refused;
#[cfg(test)]
mod table;
