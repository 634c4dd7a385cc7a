//! The real outside: files, readers and writers of the operating system as the traits of
//! `spark_base`.
//!
//! `RealFiles`, `Reading`, and `Writing` over an `Output` call the operating system and count its
//! errors. They are proved against the traits over any reader, writer and files; what the real ones
//! do with bytes, no clause knows (`docs/TOOL.md`, "The outside"). They take no memory of their own,
//! and make one call of the system for each call, but for a write that is taken in parts.
#![tactic(auto)]

mod files;
mod outputs;
mod reading;
mod writing;

pub use files::RealFiles;
pub use outputs::Output;
pub use reading::Reading;
pub use writing::Writing;

#[cfg(test)]
mod tests;
