//! The points of subprograms.
ghost use Rattle.std.specs.Prelude.{◌≡◌, ◌<◌, ◌≤◌, ◌+◌, [], ◌∷◌, ◌++◌, length, nat_lt, not, is_some, if◌then◌else◌, IfOk, IfSome, OnOk};
ghost use Rattle.flow_paths.specs.Instructions.{Fall};
ghost use Rattle.numbered_points.specs.Extents.{size};
ghost use Rattle.bare_points.specs.Bare.{bare};
ghost use Rattle.bare_points.specs.Spans.{owned};
ghost use Rattle.bare_points.specs.BareLaid.{bare_closed};
ghost use Rattle.bare_points.specs.BareSubs.{around_body, bare_body_size, bare_package, bare_sub, end_size};
ghost use Rattle.bare_points.specs.Layouts.{code_in, ends_in, laying, made_in, span_in, IsReady};

use crate::layout::Layout;
use crate::own_objects::owned;
use crate::span::{Span, product, sum};
use crate::ways::Ways;
use flow_paths::{Instr, Point};
use spark_base::{Listed, POINTS, Pos};
use std::alloc::AllocError;

/// How many points end a subprogram that declares so many objects whose scopes end.
fn end_size(function: bool, objects: usize) -> Result<usize, AllocError>
    ensures { IfOk result (λ n. n ≡ end_size function objects) }
{
    if function { Ok(1) } else { sum(objects, 1) }
}

/// How many points there are, however many that is.
fn whole_size(span: Span, ways: &Ways) -> Result<usize, AllocError>
    ensures { IfOk result (λ n. n ≡ size span ways.now) }
{
    let exits = product(span.exits(), ways.in_loop().len())?;
    let returns = product(span.returns(), ways.in_all().len())?;
    sum(sum(span.own(), exits)?, returns)
}

/// That temporaries from this one on have numbers. More are too much for memory.
fn numbered(t: u32, filled: usize) -> Result<(), AllocError>
    ensures { OnOk result (t + filled ≤ 4294967295) }
{
    if sum(t as usize, filled)? <= 4_294_967_295 {
        Ok(())
    } else {
        Err(AllocError)
    }
}

impl<'p> Layout<'p> {
    /// Adds the end of a subprogram: that of a function raises Program_Error, that of a procedure
    /// ends all scopes and the call.
    fn end(
        &self,
        pos: Pos,
        function: bool,
        objects: &[u32],
        made: &mut Listed<Point>,
    ) -> Result<(), AllocError>
        requires room { length made.old + end_size function (length objects.now) ≤ 16384 }
        ensures points { OnOk result (made_in self.now made.new ≡ made_in self.now made.old
            ++ (if function then bare pos Fall [] ∷ [] else bare_closed pos objects.now (length made.old))) }
    {
        if function {
            self.add(pos, Instr::Fall, Listed::new(self.sizes.alloc), made)
        } else {
            self.closed(pos, objects, made)
        }
    }

    /// The points of a subprogram for which there is room.
    fn laid_sub(
        &self,
        body: usize,
        end: Pos,
        function: bool,
        t: u32,
        own: &[u32],
        ways: &Ways,
        size: usize,
    ) -> Result<Listed<Point>, AllocError>
        requires ready { IsReady self.now }
        requires node { body < length self.now.sizes.rows.now.1 }
        requires own { own.now ≡ owned (ends_in self.now) (code_in self.now body) }
        requires ways { ways.now ≡ around_body (laying self.now) (code_in self.now body) }
        requires size { size ≡ bare_body_size (laying self.now) (code_in self.now body) }
        requires room { size + end_size function (length own.now) ≤ 16384 }
        requires temporaries { t + (span_in self.now body).filled ≤ 4294967295 }
        ensures { IfOk result (λ points. made_in self.now points
            ≡ bare_sub (laying self.now) (code_in self.now body) end function t) }
    {
        let mut made = Listed::new(self.sizes.alloc);
        let behind = [size as u32];
        self.statements(body, t, ways, &behind, &mut made)?;
        self.end(end, function, own, &mut made)?;
        Ok(made)
    }

    /// The points of a subprogram with this body and the position of its end, where the next
    /// temporary has the number `t`; none where there are more than 16,384. The only error is out
    /// of memory.
    pub fn sub_points(
        &self,
        body: usize,
        end: Pos,
        function: bool,
        t: u32,
    ) -> Result<Option<Listed<Point>>, AllocError>
        requires ready { IsReady self.now }
        requires node { body < length self.now.sizes.rows.now.1 }
        ensures points { IfOk result (λ made. IfSome made (λ points. made_in self.now points
            ≡ bare_sub (laying self.now) (code_in self.now body) end function t)) }
        ensures few { IfOk result (λ made. is_some made
            ≡ not (nat_lt 16384 (length (bare_sub (laying self.now) (code_in self.now body) end function t)))) }
    {
        let objects = owned(self.sizes.alloc, self.sizes.rows, self.sizes.ends, body)?;
        let own = objects.as_slice();
        let ways = Ways::within_body(self.sizes.alloc, own)?;
        let span = self.sizes.span(body);
        numbered(t, span.filled())?;
        let size = whole_size(span, &ways)?;
        if sum(size, end_size(function, own.len())?)? > POINTS {
            return Ok(None);
        }
        Ok(Some(self.laid_sub(body, end, function, t, own, &ways, size)?))
    }

    /// The points that declare the package objects for which there is room.
    fn laid_package(&self, body: usize, ways: &Ways) -> Result<Listed<Point>, AllocError>
        requires ready { IsReady self.now }
        requires node { body < length self.now.sizes.rows.now.1 }
        requires ways { ways.now ≡ around_body (laying self.now) (code_in self.now body) }
        requires room { bare_body_size (laying self.now) (code_in self.now body) ≤ 16384 }
        requires temporaries { (span_in self.now body).filled ≤ 4294967295 }
        ensures { IfOk result (λ points. made_in self.now points ≡ bare_package (laying self.now) (code_in self.now body)) }
    {
        let mut made = Listed::new(self.sizes.alloc);
        self.statements(body, 0, ways, &[], &mut made)?;
        Ok(made)
    }

    /// The points that declare the package objects, which this body has; none where there are more
    /// than 16,384. The only error is out of memory.
    pub fn package_points(&self, body: usize) -> Result<Option<Listed<Point>>, AllocError>
        requires ready { IsReady self.now }
        requires node { body < length self.now.sizes.rows.now.1 }
        ensures points { IfOk result (λ made. IfSome made (λ points. made_in self.now points
            ≡ bare_package (laying self.now) (code_in self.now body))) }
        ensures few { IfOk result (λ made. is_some made
            ≡ not (nat_lt 16384 (length (bare_package (laying self.now) (code_in self.now body))))) }
    {
        let objects = owned(self.sizes.alloc, self.sizes.rows, self.sizes.ends, body)?;
        let ways = Ways::within_body(self.sizes.alloc, objects.as_slice())?;
        let span = self.sizes.span(body);
        numbered(0, span.filled())?;
        if whole_size(span, &ways)? > POINTS {
            return Ok(None);
        }
        Ok(Some(self.laid_package(body, &ways)?))
    }
}
