//! Tests of `spark_base`, `ada_lexer` and `token_reading`, over their public names.
//!
//! They stand in a crate of their own, so that no library is proved a second time for its tests.
//! Each expected answer was worked out by hand. Nothing here is for other crates.
#![tactic(auto)]

#[cfg(test)]
mod groups;
#[cfg(test)]
mod memory;
#[cfg(test)]
mod positions;
#[cfg(test)]
mod reserved_words;
#[cfg(test)]
mod tokens;
