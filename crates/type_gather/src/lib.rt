//! All declarations of a program, from the code of its units.
//!
//! `gather` takes the rows of a program's code and the numbers of its units, and gives what is
//! `Known`: for each declaration its `Entry`, and for each type its `Info`, both by the number of
//! the declaration. It goes through the units in the order of their text, so that a declaration
//! needs those before it, and twice, so that a type that is incomplete or private is its full type
//! also where it is used before that. `type_definitions` states in `specs/Gathered.antt` what each
//! declaration adds, one definition for one function here, and in `specs/Whole.antt` what is known
//! before the first unit, and both passes. It refuses nothing: a declaration that breaks a rule of
//! typing gets what the definitions say, and is reported by who looks for faults.
//!
//! It recurses only as deep as constructs nest. Time and memory are linear in the rows. The
//! components of a record that has many get an index by name with its type, as far as there is
//! memory for it.
#![tactic(auto)]

mod bounds;
mod declared;
mod gathering;
mod instance;
mod known;
mod objects;
mod predefined;
mod program;
mod subprograms;
mod types;
mod walk;

pub use program::gather;
