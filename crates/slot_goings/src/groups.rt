//! Groups of points.
ghost use Rattle.std.specs.Prelude.{◌≡◌};
ghost use Rattle.slot_goings.specs.Groups.{group_of};

use code_rows::Does;

/// What does a point.
#[derive(Clone, Copy)]
pub enum Group {
    /// `change_words`.
    Words,
    /// `change_values`.
    Values,
    /// Others: what they do is no change of the memory alone.
    Others,
}

/// What does such a point.
pub fn grouped(does: Does) -> Group
    ensures { result ≡ group_of does }
{
    match does {
        Does::Go { .. }
        | Does::Put { .. }
        | Does::PutPointer { .. }
        | Does::Store { .. }
        | Does::Test { .. }
        | Does::Choose { .. }
        | Does::Start { .. }
        | Does::Next { .. } => Group::Words,
        Does::Assign { .. }
        | Does::Release { .. }
        | Does::EndPointer { .. }
        | Does::EndScope { .. } => Group::Values,
        _ => Group::Others,
    }
}
