//! The points of subprograms.

use crate::instr::Instr;
use typed_tree::{Fact, Listed, PlaceName, Placed, Pos};

/// A leak check: where it stands and what it looks at, before the effect of the act with this
/// index.
#[derive(Drop)]
pub struct LeakSpot {
    pub pos: Pos,
    pub name: PlaceName,
    pub before: u32,
}

/// A point of a subprogram (`docs/FLOW.md`, "Points").
#[derive(Drop)]
pub struct Point {
    /// Where it stands in the source.
    pub pos: Pos,
    /// What it does to places, in order. Of a call it has all but the acts on package objects,
    /// which go by what the whole program calls.
    pub acts: Listed<Placed>,
    /// Its leak checks, in order.
    pub leaks: Listed<LeakSpot>,
    /// What its step does.
    pub instr: Instr,
    /// The numbers of the points that may follow.
    pub next: Listed<u32>,
}

/// A subprogram with its points.
#[derive(Drop)]
pub struct LaidSub {
    /// The position of its identifier in its body.
    pub pos: Pos,
    /// The words of its frame.
    pub object_words: u64,
    /// The numbers of its formals.
    pub formals: Listed<u32>,
    /// The type of its result, where it is a function.
    pub result: Option<u32>,
    /// Its points, in the order of the text.
    pub points: Listed<Point>,
    /// Each fact that its acts can add, in the order of the first act that adds it.
    pub facts: Listed<Fact>,
}
