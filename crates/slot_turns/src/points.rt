//! The point that a frame is at.
ghost use Rattle.std.specs.Prelude.{◌≡◌, ◌<◌, length, slice_get, Some, IsTrue};
ghost use Rattle.code_rows.specs.Points.{program_of, point_of, is_point_there, IsWhole};

use code_rows::{Codes, Point};

/// The point with a number.
pub fn point_at(codes: &Codes, n: u32) -> &Point
    requires whole { IsWhole codes.now }
    requires there { n < length codes.now.points.items }
    ensures point { slice_get (program_of codes.now).points n ≡ Some (point_of codes.now result.now) }
    ensures there { IsTrue (is_point_there codes.now result.now) }
{
    &codes.points[n as usize]
}
