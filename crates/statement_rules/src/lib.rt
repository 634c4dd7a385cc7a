//! The sentences on statements that hold no other statements, and on ranges and choices
//! (docs/LANGUAGE.md, "Types"; Ada 2012, 5, 6.4 and 6.5).
//!
//! A statement, or a part of one, is named by its number in the rows, and a `Checker` says where it
//! stands. Each function takes the first fault that is found so far and gives the first one with
//! those of its own, which the definition of the same name in `type_definitions` lists. Only the
//! choices of a `case` take memory: the values that they cover are collected and sorted.
//! Time is linear in the statement, but for what expressions cost and for a `case`: n choices take
//! n log n steps, and n log² n where a value is doubled.
#![tactic(auto)]

mod assignment;
mod call;
mod case_choices;
mod choice;
mod cover;
mod nothing;
mod range;
mod returns;

pub use assignment::{assign_faults, target_faults};
pub use call::call_faults;
pub use case_choices::coverage;
pub use choice::{choice_faults, type_or_integer};
pub use cover::bounds_of;
pub use nothing::is_nothing;
pub use range::{range_faults, range_of_faults, scalar_mark, static_faults, static_value};
pub use returns::{condition, returned};
