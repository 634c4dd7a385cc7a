//! Types, and the definitions of typing.
#![tactic(auto)]

mod judgement;
mod refusal;
mod table;

pub use judgement::{Cover, Fault, Next, Own, Reading, Role, View, Way, Where};
pub use refusal::TypeRefusal;
pub use resolved_tree::{
    Fact, Listed, Mode, Operator, PlaceName, Placed, Pos, Rule, Sel, State, UnaryOperator, Word,
};
pub use table::{
    Component, Entry, FormalInfo, Info, InitialValue, Kind, Known, Made, ObjectInfo, Predefined,
    Profile, Shape, Static,
};
