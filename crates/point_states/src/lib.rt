//! What may hold and what may not hold before the acts of each point of a subprogram, over all its
//! control paths.
//!
//! `point_trees` takes the points of one subprogram and a list of facts. It gives an entry for each
//! point: none where no control path ends there, and else a `Tree` over the list. The tree's facts
//! that may hold are exactly those of the list that some path to the point has, and those that may
//! not hold exactly those that some such path lacks (`specs/PointTrees.antt`; `docs/RULES.md`,
//! "Facts"). A worklist carries the state after the acts of a point along each of its successors
//! and joins it there. That it finds each path and no other follows from the laws of labels on a
//! graph (`specs/Labels.antt`), whatever the order; it takes the smallest number first, so that a
//! point is mostly taken once all states have come to it. The list may lack facts that the acts
//! add, since each fact is followed by itself; where it has them all, it has each fact of each path
//! (`proofs/Listed.antt`). The acts of calls on package objects change no fact
//! (`proofs/Globals.antt`).
//! The only error is out of memory. A list with more facts than a `u32` has numbers for counts as
//! that. At most `E * (2 * F + 2)` states are carried, with E successors and F facts, and `Steps`
//! counts them.
#![tactic(auto)]

mod steps;
mod worklist;

pub use steps::Steps;
pub use worklist::point_trees;
