//! The points that follow a point.
ghost use Rattle.std.specs.Prelude.{◌≡◌, ◌+◌, ◌<◌, IfSome, IsTrue, Some};
ghost use Rattle.run_codes.specs.Programs.{going};
ghost use Rattle.code_rows.specs.Points.{next_of};
ghost use Rattle.program_lowering.specs.Choices.{follows};
ghost use Rattle.program_lowering.specs.Arounds.{around, point_in};

use crate::around::Around;
use code_rows::NONE;
use flow_paths::Point;

impl<'p> Around<'p> {
    /// The number of a point of the subprogram among all.
    fn numbered(&self, n: u32) -> Option<u32>
        ensures within { IfSome result (λ m. n < self.now.count) }
        ensures next { IfSome result (λ m. next_of m ≡ Some (self.now.first + n)) }
    {
        if n as usize >= self.count {
            return None;
        }
        let number = self.first.checked_add(n)?;
        if number == NONE {
            return None;
        }
        Some(number)
    }

    /// The point that follows as the k-th. Only the last package object is followed by none.
    pub(crate) fn going(&self, p: &Point, k: usize) -> Option<u32>
        ensures { IfSome result (λ n. going (around self.now) (point_in self.now p.now) k ≡ Some (next_of n)) }
    {
        match p.next.as_slice().get(k) {
            Some(next) => self.numbered(*next),
            None => { if self.is_first { Some(NONE) } else { None } }
        }
    }

    /// The point that follows as the k-th, where there is one.
    pub(crate) fn following(&self, p: &Point, k: usize) -> Option<u32>
        ensures going { IfSome result (λ n. going (around self.now) (point_in self.now p.now) k ≡ Some (Some n)) }
        ensures follows { IfSome result (λ n. IsTrue (follows n)) }
    {
        let next = self.going(p, k)?;
        if next == NONE {
            return None;
        }
        Some(next)
    }
}
