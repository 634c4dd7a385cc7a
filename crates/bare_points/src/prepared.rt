//! The points that come before those that use an expression.
ghost use Rattle.std.specs.Prelude.{◌≡◌, ◌<◌, ◌≤◌, ◌+◌, [], ◌∷◌, ◌++◌, length, OnOk};
ghost use Rattle.typed_tree.specs.Trees.{Call, Short};
ghost use Rattle.numbered_points.specs.Extents.{filled_in, prep_size};
ghost use Rattle.flow_paths.specs.Instructions.{Evaluate};
ghost use Rattle.bare_points.specs.Bare.{bare, temporary_of};
ghost use Rattle.bare_points.specs.BarePrepared.{bare_prepared, evaluated_short, prepared_both};
ghost use Rattle.bare_points.specs.Layouts.{laying, made_in, tree_in, IsReady};

use crate::layout::{Layout, copied, joined, next_of};
use flow_paths::{Instr, Point};
use spark_base::{Listed, Pos};
use std::alloc::AllocError;
use typed_tree::{ShortCircuit, TypedNode};

impl<'p> Layout<'p> {
    /// Adds the points of a call of a function.
    #[cycle(prepare)]
    #[tactic(auto, unfolding(crate::specs::BarePrepared::bare_prepared))]
    fn call(
        &self,
        pos: Pos,
        sub: u32,
        actuals: usize,
        t: u32,
        k: &[u32],
        made: &mut Listed<Point>,
    ) -> Result<(), AllocError>
        requires ready { IsReady self.now }
        requires node { actuals < length self.now.sizes.rows.now.0 }
        requires room { length made.old + (prep_size (tree_in self.now actuals) + 1) ≤ 16384 }
        requires temporaries { t + (filled_in (tree_in self.now actuals) + 1) ≤ 4294967295 }
        ensures count { OnOk result (length made.new ≡ length made.old + (prep_size (tree_in self.now actuals) + 1)) }
        ensures points { OnOk result (made_in self.now made.new ≡ made_in self.now made.old
            ++ bare_prepared (laying self.now) (Call pos sub (tree_in self.now actuals)) (length made.old) t k.now) }
    {
        let prep = self.sizes.prep(actuals);
        let result = Some(self.temporary(t + prep.filled as u32));
        self.prepare(actuals, t, &[(made.len() + prep.size) as u32], made)?;
        let next = copied(self.sizes.alloc, k)?;
        let instr = Instr::Call {
            sub,
            actuals,
            result,
        };
        self.add(pos, instr, next, made)
    }

    /// Adds the points of an operand, and one that evaluates it into a temporary.
    #[cycle(prepare)]
    fn evaluated(
        &self,
        pos: Pos,
        operand: usize,
        left_of: Option<ShortCircuit>,
        temporary: u32,
        t: u32,
        next: Listed<u32>,
        made: &mut Listed<Point>,
    ) -> Result<(), AllocError>
        requires ready { IsReady self.now }
        requires node { operand < length self.now.sizes.rows.now.0 }
        requires room { length made.old + (prep_size (tree_in self.now operand) + 1) ≤ 16384 }
        requires temporaries { t + filled_in (tree_in self.now operand) ≤ 4294967295 }
        ensures count { OnOk result (length made.new ≡ length made.old + (prep_size (tree_in self.now operand) + 1)) }
        ensures points { OnOk result (made_in self.now made.new ≡ made_in self.now made.old
            ++ (bare_prepared (laying self.now) (tree_in self.now operand) (length made.old) t ((length made.old + prep_size (tree_in self.now operand)) ∷ [])
            ++ bare pos (Evaluate (temporary_of (laying self.now) temporary) (tree_in self.now operand) left_of) next ∷ [])) }
    {
        let prep = self.sizes.prep(operand);
        self.prepare(operand, t, &[(made.len() + prep.size) as u32], made)?;
        let instr = Instr::Evaluate {
            temporary: self.temporary(temporary),
            operand,
            left_of,
        };
        self.add(pos, instr, next, made)
    }

    /// Adds the points of a short circuit with a call on the right.
    #[cycle(prepare)]
    fn short_with_call(
        &self,
        left_of: ShortCircuit,
        left_pos: Pos,
        left: usize,
        right_pos: Pos,
        right: usize,
        t: u32,
        k: &[u32],
        made: &mut Listed<Point>,
    ) -> Result<(), AllocError>
        requires ready { IsReady self.now }
        requires left { left < length self.now.sizes.rows.now.0 }
        requires right { right < length self.now.sizes.rows.now.0 }
        requires room { length made.old + (prep_size (tree_in self.now left) + 1 + (prep_size (tree_in self.now right) + 1)) ≤ 16384 }
        requires temporaries { t + (filled_in (tree_in self.now left) + 1 + filled_in (tree_in self.now right)) ≤ 4294967295 }
        ensures count { OnOk result (length made.new ≡ length made.old
            + (prep_size (tree_in self.now left) + 1 + (prep_size (tree_in self.now right) + 1))) }
        ensures points { OnOk result (made_in self.now made.new ≡ made_in self.now made.old
            ++ evaluated_short (laying self.now) left_of left_pos (tree_in self.now left) right_pos (tree_in self.now right) (length made.old) t k.now) }
    {
        let a = self.sizes.prep(left);
        let here = t + a.filled as u32;
        let behind = (made.len() + a.size) as u32 + 1;
        let next = joined(self.sizes.alloc, &[behind], k)?;
        self.evaluated(left_pos, left, Some(left_of), here, t, next, made)?;
        let next = copied(self.sizes.alloc, k)?;
        self.evaluated(right_pos, right, None, here, here + 1, next, made)
    }

    /// Adds the points of one expression and of another.
    #[cycle(prepare)]
    #[tactic(auto, unfolding(crate::specs::BarePrepared::bare_prepared))]
    fn both(
        &self,
        first: usize,
        second: usize,
        t: u32,
        k: &[u32],
        made: &mut Listed<Point>,
    ) -> Result<(), AllocError>
        requires ready { IsReady self.now }
        requires first { first < length self.now.sizes.rows.now.0 }
        requires second { second < length self.now.sizes.rows.now.0 }
        requires room { length made.old + (prep_size (tree_in self.now first) + prep_size (tree_in self.now second)) ≤ 16384 }
        requires temporaries { t + (filled_in (tree_in self.now first) + filled_in (tree_in self.now second)) ≤ 4294967295 }
        ensures count { OnOk result (length made.new ≡ length made.old
            + (prep_size (tree_in self.now first) + prep_size (tree_in self.now second))) }
        ensures points { OnOk result (made_in self.now made.new ≡ made_in self.now made.old
            ++ prepared_both (laying self.now) (tree_in self.now first) (tree_in self.now second) (length made.old) t k.now) }
    {
        let a = self.sizes.prep(first);
        let b = self.sizes.prep(second);
        let behind = [(made.len() + a.size) as u32];
        self.prepare(first, t, next_of(b.size, &behind, k), made)?;
        self.prepare(second, t + a.filled as u32, k, made)
    }

    /// Adds the points of an expression that isn't gone along as a list.
    #[cycle(prepare)]
    #[tactic(auto, unfolding(crate::specs::BarePrepared::bare_prepared, numbered_points::specs::Extents::prep_size, numbered_points::specs::Extents::filled_in))]
    fn operand(
        &self,
        e: usize,
        t: u32,
        k: &[u32],
        made: &mut Listed<Point>,
    ) -> Result<(), AllocError>
        requires ready { IsReady self.now }
        requires node { e < length self.now.sizes.rows.now.0 }
        requires room { length made.old + prep_size (tree_in self.now e) ≤ 16384 }
        requires temporaries { t + filled_in (tree_in self.now e) ≤ 4294967295 }
        ensures count { OnOk result (length made.new ≡ length made.old + prep_size (tree_in self.now e)) }
        ensures points { OnOk result (made_in self.now made.new ≡ made_in self.now made.old
            ++ bare_prepared (laying self.now) (tree_in self.now e) (length made.old) t k.now) }
    {
        match self.sizes.rows.node(e) {
            TypedNode::Call { pos, sub, actuals } => self.call(*pos, *sub, *actuals, t, k, made),
            TypedNode::Short {
                operator,
                left_pos,
                left,
                right_pos,
                right,
            } => self.short(*operator, *left_pos, *left, *right_pos, *right, t, k, made),
            TypedNode::Binary {
                left: first,
                right: second,
                ..
            }
            | TypedNode::Element {
                index: first,
                rest: second,
                ..
            }
            | TypedNode::More {
                first,
                rest: second,
            } => self.both(*first, *second, t, k, made),
            TypedNode::Name { steps: part, .. }
            | TypedNode::Component { rest: part, .. }
            | TypedNode::Designated { rest: part }
            | TypedNode::Parens { inner: part }
            | TypedNode::Image { value: part, .. }
            | TypedNode::Unary { operand: part, .. }
            | TypedNode::IsNull { name: part, .. }
            | TypedNode::Aggregate { parts: part, .. }
            | TypedNode::Alike { value: part, .. }
            | TypedNode::New { value: part, .. } => self.prepare(*part, t, k, made),
            _ => Ok(()),
        }
    }

    /// Adds the points of a short circuit.
    #[cycle(prepare)]
    #[tactic(auto, unfolding(crate::specs::BarePrepared::bare_prepared, numbered_points::specs::Extents::prep_size, numbered_points::specs::Extents::filled_in))]
    fn short(
        &self,
        operator: ShortCircuit,
        left_pos: Pos,
        left: usize,
        right_pos: Pos,
        right: usize,
        t: u32,
        k: &[u32],
        made: &mut Listed<Point>,
    ) -> Result<(), AllocError>
        requires ready { IsReady self.now }
        requires left { left < length self.now.sizes.rows.now.0 }
        requires right { right < length self.now.sizes.rows.now.0 }
        requires room { length made.old
            + prep_size (Short operator left_pos (tree_in self.now left) right_pos (tree_in self.now right)) ≤ 16384 }
        requires temporaries { t
            + filled_in (Short operator left_pos (tree_in self.now left) right_pos (tree_in self.now right)) ≤ 4294967295 }
        ensures count { OnOk result (length made.new ≡ length made.old
            + prep_size (Short operator left_pos (tree_in self.now left) right_pos (tree_in self.now right))) }
        ensures points { OnOk result (made_in self.now made.new ≡ made_in self.now made.old
            ++ bare_prepared (laying self.now) (Short operator left_pos (tree_in self.now left) right_pos (tree_in self.now right))
            (length made.old) t k.now) }
    {
        if self.sizes.prep(right).calls {
            self.short_with_call(operator, left_pos, left, right_pos, right, t, k, made)
        } else {
            self.both(left, right, t, k, made)
        }
    }

    /// Adds the points that come before one that uses an expression, where the next temporary has
    /// the number `t` and `k` is what follows. A list is gone along, and an expression without such
    /// points isn't gone into.
    #[cycle(prepare)]
    #[tactic(auto, unfolding(crate::specs::BarePrepared::bare_prepared, numbered_points::specs::Extents::prep_size, numbered_points::specs::Extents::filled_in))]
    pub fn prepare(
        &self,
        e: usize,
        t: u32,
        k: &[u32],
        made: &mut Listed<Point>,
    ) -> Result<(), AllocError>
        requires ready { IsReady self.now }
        requires node { e < length self.now.sizes.rows.now.0 }
        requires room { length made.old + prep_size (tree_in self.now e) ≤ 16384 }
        requires temporaries { t + filled_in (tree_in self.now e) ≤ 4294967295 }
        ensures count { OnOk result (length made.new ≡ length made.old + prep_size (tree_in self.now e)) }
        ensures points { OnOk result (made_in self.now made.new ≡ made_in self.now made.old
            ++ bare_prepared (laying self.now) (tree_in self.now e) (length made.old) t k.now) }
    {
        if self.sizes.prep(e).size == 0 {
            return Ok(());
        }
        let mut i = e;
        let mut t = t;
        'parts: while let TypedNode::More { first, rest } = self.sizes.rows.node(i) {
            let a = self.sizes.prep(*first);
            let b = self.sizes.prep(*rest);
            let behind = [(made.len() + a.size) as u32];
            self.operand(*first, t, next_of(b.size, &behind, k), made)?;
            t += a.filled as u32;
            i = *rest;
        }
        self.operand(i, t, k, made)
    }
}
