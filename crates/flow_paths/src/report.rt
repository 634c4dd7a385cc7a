//! What is said of a program.

use typed_tree::{Listed, PlaceName, Pos, Rule, State};

/// The package objects, and Ada.Text_IO, that each subprogram reads and writes, in ascending order.
#[derive(Drop)]
pub struct Effects {
    pub read: Listed<Listed<u32>>,
    pub written: Listed<Listed<u32>>,
}

/// A report. A rule that looks at the text alone has no word.
#[derive(Drop)]
pub struct Report {
    pub pos: Pos,
    pub rule: Rule,
    pub name: PlaceName,
    pub state: Option<State>,
}

/// A leak check, and whether each control path to it has moved what it looks at.
#[derive(Drop)]
pub struct LeakLine {
    pub pos: Pos,
    pub name: PlaceName,
    pub excused: bool,
}
