//! What names and expressions are, read off the declarations that are known.
//!
//! A `Reader` has the trees of a program, what is known of its declarations, and where an
//! expression stands. Its methods answer what a name is as a value, what type an expression has by
//! itself, whether it has the type that is demanded, what its static value is, and what arguments
//! stand for. `type_definitions` has the definitions, each with the name of the function here that
//! computes it; `docs/LANGUAGE.md`, "Types", says them in words (Ada 2012, 3, 4 and 6.4). It
//! refuses nothing: that is for the crates above.
//!
//! Time is linear in what is read. A component after a name, and what an argument by name is for,
//! is found by hash where the record or the subprogram has many and the reader has their index:
//! `component_indexes` makes it for all types, `index_type` for one, and `formal_indexes` for all
//! subprograms. Else it is compared with each. Whether arguments by name are one for each of many
//! components or formals is told with an index of theirs, or, where there is no memory for that, by
//! comparing each.
#![tactic(auto)]

mod arguments;
mod by_name;
mod component_index;
mod formal;
mod formal_index;
mod index_lists;
mod look_up;
mod names;
mod operators;
mod own_types;
mod reader;
mod static_values;
mod views;
mod ways;
mod word_index;
mod words;

pub use component_index::{component_indexes, index_type};
pub use formal::Formal;
pub use formal_index::formal_indexes;
pub use look_up::{BOOLEAN, INTEGER, UNTYPED, is_before};
pub use operators::{is_arithmetic, is_equality, is_join, is_logical, operand_type, unary_type};
pub use own_types::{is_demanding, is_object, is_string};
pub use reader::Reader;
pub use static_values::{ill_typed, is_sound, value_as};
pub use views::{
    designated, element_type, fits_others, has_value, is_access, is_anonymous, is_composite,
    is_scalar, same_bounds, to_constant, view_of,
};
pub use ways::role_of;
pub use word_index::{Occurrence, WordIndex};
pub use words::same_word;
