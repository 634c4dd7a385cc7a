//! Programs as they are run, in rows: expressions, values, places, points and subprograms, with
//! offsets, kinds and bounds in place.
//!
//! `Nodes` keeps expressions that only read as rows of nodes, whose parts are numbers of nodes before
//! them. Which expression of `run_codes` a row stands for, `specs/Rows.antt` says; some kinds of
//! nodes stand for frequent forms. `Fills` keeps values of any type in the same way, over the nodes
//! (`specs/Values.antt`). `Rows` has these and what else points are made of, and `Codes` has the points
//! and subprograms of a program, which `specs/Points.antt` says (`program_of`). What is added leaves
//! all that is there as it is. `Stop` is why a step isn't done (`specs/Stops.antt`).
#![tactic(auto)]

mod codes;
mod fill;
mod fills;
mod node;
mod nodes;
mod place;
mod point;
mod range;
mod rows;
mod stop;

pub use codes::Codes;
pub use fill::Fill;
pub use fills::Fills;
pub use node::Node;
pub use nodes::Nodes;
pub use place::Place;
pub use point::{Actual, Choice, Does, NONE, Point, Room, Sub, Text};
pub use range::Range;
pub use rows::Rows;
pub use stop::{Exception, Stop};
