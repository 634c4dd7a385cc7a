//! A summary of the points of a subprogram: the facts that their acts can add, the objects
//! that the end of a call looks at, the temporaries, and the words of the frame.
//!
//! Each call takes points with their acts and answers what the definitions of `flow_paths` and
//! `numbered_points` say of them (`specs/Gathered.antt`; `docs/FLOW.md`, "Points"). A list of facts
//! ends where it would have more than 512.
//! Time: each fact that an act adds is compared with those so far, which are at most 512;
//! a move's parts are first compared in order, then with all. All else is linear but for sorting.
#![tactic(auto)]

mod facts;
mod frame;
mod roots;

pub use facts::facts_of;
pub use frame::{filled_types, frame_words};
pub use roots::{kept_roots, set_roots};
