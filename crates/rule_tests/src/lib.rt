//! Tests of `place_names` and `rule_reports`, over their public names.
//!
//! They stand in a crate of their own, so that no library is proved a second time for its tests.
//! Each expected answer was worked out by hand from `docs/RULES.md` and `docs/TOOL.md`. Nothing
//! here is for other crates.
#![tactic(auto)]

#[cfg(test)]
mod leaks;
#[cfg(test)]
mod lines;
#[cfg(test)]
mod names;
#[cfg(test)]
mod reports;
#[cfg(test)]
mod texts;
