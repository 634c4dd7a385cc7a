//! The input of a layout of points, and how one point is added.
ghost use Rattle.std.specs.Prelude.{◌≡◌, ◌+◌, [], ◌∷◌, ◌++◌, length, get_or, IfOk, OnOk};
ghost use Rattle.numbered_points.specs.Prepared.{next_of};
ghost use Rattle.bare_points.specs.Bare.{bare, temporary_of};
ghost use Rattle.bare_points.specs.Spans.{ends_of};
ghost use Rattle.bare_points.specs.Sized.{ArePreps, AreSpans};
ghost use Rattle.bare_points.specs.Layouts.{instr_in, laying, made_in, IsReady};

use crate::sizes::Sizes;
use flow_paths::{Instr, Point};
use spark_base::{Listed, Pos};
use std::alloc::{AllocError, Global};

/// What points are laid out from.
#[derive(Clone, Copy)]
pub struct Layout<'p> {
    /// The rows and the sizes of their nodes.
    pub sizes: Sizes<'p>,
    /// Whether temporaries have numbers.
    pub counted: bool,
}

/// Where some points begin, if there are any; else what follows.
#[tactic(auto, using(crate::proofs::Begins::begins))]
pub fn next_of<'k>(count: usize, here: &'k [u32], k: &'k [u32]) -> &'k [u32]
    requires { length here.now ≡ 1 }
    ensures { result.now ≡ next_of count (get_or here.now 0 0) k.now }
{
    if count == 0 { k } else { here }
}

/// A copy of some numbers.
pub fn copied(alloc: Global, k: &[u32]) -> Result<Listed<u32>, AllocError>
    ensures { IfOk result (λ made. made ≡ k.now) }
{
    Ok(Listed::from_vec(Vec::from_slice(alloc, k)?))
}

/// Some numbers and others after them.
pub fn joined(alloc: Global, a: &[u32], b: &[u32]) -> Result<Listed<u32>, AllocError>
    ensures { IfOk result (λ made. made ≡ a.now ++ b.now) }
{
    let mut both = Vec::from_slice(alloc, a)?;
    both.extend_from_slice(b)?;
    Ok(Listed::from_vec(both))
}

impl<'p> Layout<'p> {
    /// The layout by tables of all nodes.
    pub fn new(sizes: Sizes<'p>, counted: bool) -> Layout<'p>
        requires preps { ArePreps sizes.rows.now (length sizes.rows.now.0) sizes.preps.now }
        requires spans { AreSpans sizes.rows.now (ends_of sizes.ends.now) (length sizes.rows.now.1) sizes.spans.now }
        requires whole { length sizes.spans.now ≡ length sizes.rows.now.1 }
        ensures rows { result.sizes.rows.now ≡ sizes.entry.rows.now }
        ensures ends { result.sizes.ends.now ≡ sizes.entry.ends.now }
        ensures counted { result.counted ≡ counted }
        ensures ready { IsReady result }
    {
        Layout { sizes, counted }
    }

    /// The number of a temporary.
    pub fn temporary(&self, t: u32) -> u32
        ensures { result ≡ temporary_of (laying self.now) t }
    {
        if self.counted { t } else { 0 }
    }

    /// Adds a point.
    pub fn add(
        &self,
        pos: Pos,
        instr: Instr,
        next: Listed<u32>,
        made: &mut Listed<Point>,
    ) -> Result<(), AllocError>
        ensures count { OnOk result (length made.new ≡ length made.old + 1) }
        ensures points { OnOk result (made_in self.now made.new
            ≡ made_in self.now made.old ++ bare pos (instr_in self.now instr) next ∷ []) }
    {
        made.push(Point {
            pos,
            acts: Listed::new(self.sizes.alloc),
            leaks: Listed::new(self.sizes.alloc),
            instr,
            next,
        })
    }
}
