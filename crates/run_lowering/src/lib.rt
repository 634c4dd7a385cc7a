//! From typed expressions to expressions, places and values as they are run.
//!
//! A `Site` says what the expressions of a point are lowered by: the types, the objects and the
//! subprograms, the trees, where objects lie, and which values the point takes. `Site::word`,
//! `Site::place` and `Site::value` answer rows of `code_rows`, which stand for what `lowered`,
//! `place` and `value` of `run_codes` say (`specs/Lowered.antt` there). What isn't typed isn't
//! lowered, nor what has too large numbers or too little memory: the answer is none.
#![tactic(auto)]

mod fills;
mod found;
mod frames;
mod lookups;
mod operators;
mod site;
mod sorts;
mod steps;
mod takes;
mod types;
mod values;
mod words;

pub use found::{Base, Filled, Found, Typed};
pub use frames::Frame;
pub use site::{Kept, Site};
pub use sorts::{
    Scalar, Sort, kind_of, one_type, same_designated, same_scalar, same_sort, scalar_of, sort_of,
};
pub use steps::designated_type;
pub use takes::Takes;
pub use values::{place_of, put};
