//! The points of statements that hold no others.
ghost use Rattle.std.specs.Prelude.{◌≡◌, ◌<◌, ◌≤◌, ◌+◌, [], ◌∷◌, ◌++◌, length, map, IfOk, IsTrue, OnOk};
ghost use Rattle.typed_tree.specs.Trees.{If, More};
ghost use Rattle.flow_paths.specs.Instructions.{Hold, LeaveLoop};
ghost use Rattle.flow_paths.specs.Layout.{choices_in, choices_of};
ghost use Rattle.numbered_points.specs.Extents.{filled_in, prep_size, size};
ghost use Rattle.numbered_points.specs.Prepared.{next_of};
ghost use Rattle.numbered_points.specs.Statements.{unless_empty};
ghost use Rattle.bare_points.specs.Spans.{branches_span, whens_span};
ghost use Rattle.bare_points.specs.BareLaid.{bare_closed, bare_ended, bare_laid, bare_used, bare_used_both, whens_start};
ghost use Rattle.bare_points.specs.Layouts.{code_in, ends_in, instr_in, is_plain, laying, made_in, span_in, tree_in, IsReady};

use crate::layout::{Layout, copied, joined, next_of};
use crate::span::Span;
use crate::ways::Ways;
use flow_paths::{Instr, Point};
use spark_base::{Listed, Pos};
use std::alloc::AllocError;
use typed_tree::{TypedCodeNode, TypedNode};

impl<'p> Layout<'p> {
    /// How many points there are, by what stands around them.
    pub fn size(&self, span: Span, ways: &Ways) -> usize
        requires { size span ways.now ≤ 16384 }
        ensures { result ≡ size span ways.now }
    {
        let exits = span.exits() * ways.in_loop().len();
        let returns = span.returns() * ways.in_all().len();
        span.own() + exits + returns
    }

    /// Lemma for callers: the statements' points fit. No code.
    pub fn has_room(&self, c: usize, ways: &Ways, n: usize)
        requires { n + size (span_in self.now c) ways.now ≤ 16384 }
        ensures { n + size (span_in self.now c) ways.now ≤ 16384 }
    {}

    /// Lemma for callers: the points of the first of a list fit, and those of the rest. No code.
    pub fn has_room_for_list(
        &self,
        c: usize,
        first: usize,
        rest: usize,
        ways: &Ways,
        n: usize,
        t: u32,
    )
        requires list { code_in self.now c ≡ More (code_in self.now first) (code_in self.now rest) }
        requires room { n + size (span_in self.now c) ways.now ≤ 16384 }
        requires temporaries { t + (span_in self.now c).filled ≤ 4294967295 }
        ensures room { n + (size (span_in self.now first) ways.now + size (span_in self.now rest) ways.now) ≤ 16384 }
        ensures temporaries { t + ((span_in self.now first).filled + (span_in self.now rest).filled) ≤ 4294967295 }
    {}

    /// Lemma for callers: the points of the branches of an `if` fit, and those of the rest. No
    /// code.
    pub fn has_room_for_if(
        &self,
        c: usize,
        branches: usize,
        rest: usize,
        ways: &Ways,
        n: usize,
        t: u32,
    )
        requires list { code_in self.now c ≡ If (code_in self.now branches) (code_in self.now rest) }
        requires room { n + size (span_in self.now c) ways.now ≤ 16384 }
        requires temporaries { t + (span_in self.now c).filled ≤ 4294967295 }
        ensures room { n + (size (branches_span (ends_in self.now) (code_in self.now branches)) ways.now + size (span_in self.now rest) ways.now) ≤ 16384 }
        ensures temporaries { t + ((branches_span (ends_in self.now) (code_in self.now branches)).filled + (span_in self.now rest).filled) ≤ 4294967295 }
    {}

    /// Adds the ends of scopes: one point for each object.
    pub fn ended(
        &self,
        pos: Pos,
        objects: &[u32],
        k: &[u32],
        made: &mut Listed<Point>,
    ) -> Result<(), AllocError>
        requires room { length made.old + length objects.now ≤ 16384 }
        ensures count { OnOk result (length made.new ≡ length made.old + length objects.now) }
        ensures points { OnOk result (made_in self.now made.new
            ≡ made_in self.now made.old ++ bare_ended pos objects.now (length made.old) k.now) }
    {
        let mut left = objects.len();
        'objects: for x in objects {
            left -= 1;
            let behind = [made.len() as u32 + 1];
            let next = copied(self.sizes.alloc, next_of(left, &behind, k))?;
            self.add(pos, Instr::EndScope { object: *x }, next, made)?;
        }
        Ok(())
    }

    /// Adds the ends of all scopes, and the end of the call.
    pub fn closed(
        &self,
        pos: Pos,
        objects: &[u32],
        made: &mut Listed<Point>,
    ) -> Result<(), AllocError>
        requires room { length made.old + (length objects.now + 1) ≤ 16384 }
        ensures count { OnOk result (length made.new ≡ length made.old + (length objects.now + 1)) }
        ensures points { OnOk result (made_in self.now made.new
            ≡ made_in self.now made.old ++ bare_closed pos objects.now (length made.old)) }
    {
        let finish = [(made.len() + objects.len()) as u32];
        self.ended(pos, objects, &finish, made)?;
        self.add(pos, Instr::Finish, Listed::new(self.sizes.alloc), made)
    }

    /// Adds a point that uses an expression, after those that come before.
    pub fn used(
        &self,
        pos: Pos,
        e: usize,
        instr: Instr,
        t: u32,
        next: Listed<u32>,
        made: &mut Listed<Point>,
    ) -> Result<(), AllocError>
        requires ready { IsReady self.now }
        requires node { e < length self.now.sizes.rows.now.0 }
        requires room { length made.old + (prep_size (tree_in self.now e) + 1) ≤ 16384 }
        requires temporaries { t + filled_in (tree_in self.now e) ≤ 4294967295 }
        ensures count { OnOk result (length made.new ≡ length made.old + (prep_size (tree_in self.now e) + 1)) }
        ensures points { OnOk result (made_in self.now made.new ≡ made_in self.now made.old
            ++ bare_used (laying self.now) pos (tree_in self.now e) (instr_in self.now instr) (length made.old) t next) }
    {
        let prep = self.sizes.prep(e);
        self.prepare(e, t, &[(made.len() + prep.size) as u32], made)?;
        self.add(pos, instr, next, made)
    }

    /// Adds a point that uses an expression and goes on to `k`.
    pub fn used_then(
        &self,
        pos: Pos,
        e: usize,
        instr: Instr,
        t: u32,
        k: &[u32],
        made: &mut Listed<Point>,
    ) -> Result<(), AllocError>
        requires ready { IsReady self.now }
        requires node { e < length self.now.sizes.rows.now.0 }
        requires room { length made.old + (prep_size (tree_in self.now e) + 1) ≤ 16384 }
        requires temporaries { t + filled_in (tree_in self.now e) ≤ 4294967295 }
        ensures count { OnOk result (length made.new ≡ length made.old + (prep_size (tree_in self.now e) + 1)) }
        ensures points { OnOk result (made_in self.now made.new ≡ made_in self.now made.old
            ++ bare_used (laying self.now) pos (tree_in self.now e) (instr_in self.now instr) (length made.old) t k.now) }
    {
        let next = copied(self.sizes.alloc, k)?;
        self.used(pos, e, instr, t, next, made)
    }

    /// Adds a point that uses two expressions, the first one evaluated first, and goes on to `k`.
    pub fn used_both(
        &self,
        pos: Pos,
        a: usize,
        b: usize,
        instr: Instr,
        t: u32,
        k: &[u32],
        made: &mut Listed<Point>,
    ) -> Result<(), AllocError>
        requires ready { IsReady self.now }
        requires first { a < length self.now.sizes.rows.now.0 }
        requires second { b < length self.now.sizes.rows.now.0 }
        requires room { length made.old + (prep_size (tree_in self.now a) + (prep_size (tree_in self.now b) + 1)) ≤ 16384 }
        requires temporaries { t + (filled_in (tree_in self.now a) + filled_in (tree_in self.now b)) ≤ 4294967295 }
        ensures count { OnOk result (length made.new
            ≡ length made.old + (prep_size (tree_in self.now a) + (prep_size (tree_in self.now b) + 1))) }
        ensures points { OnOk result (made_in self.now made.new ≡ made_in self.now made.old
            ++ bare_used_both (laying self.now) pos (tree_in self.now a) (tree_in self.now b) (instr_in self.now instr)
            (length made.old) t k.now) }
    {
        let next = copied(self.sizes.alloc, k)?;
        let first = self.sizes.prep(a);
        self.prepare(a, t, &[(made.len() + first.size) as u32], made)?;
        self.used(pos, b, instr, t + first.filled as u32, next, made)
    }

    /// Nothing where a list of expressions is empty, else `k`.
    fn unless_empty<'k>(&self, e: usize, k: &'k [u32]) -> &'k [u32]
        requires { e < length self.now.sizes.rows.now.0 }
        ensures { result.now ≡ unless_empty (tree_in self.now e) k.now }
    {
        match self.sizes.rows.node(e) {
            TypedNode::More { .. } => k,
            _ => &[],
        }
    }

    /// Adds the points of an `exit`.
    pub fn exit(
        &self,
        pos: Pos,
        condition: usize,
        t: u32,
        ways: &Ways,
        k: &[u32],
        made: &mut Listed<Point>,
    ) -> Result<(), AllocError>
        requires ready { IsReady self.now }
        requires node { condition < length self.now.sizes.rows.now.0 }
        requires room { length made.old + (prep_size (tree_in self.now condition) + 1 + length ways.now.in_loop) ≤ 16384 }
        requires temporaries { t + filled_in (tree_in self.now condition) ≤ 4294967295 }
        ensures count { OnOk result (length made.new
            ≡ length made.old + (prep_size (tree_in self.now condition) + 1 + length ways.now.in_loop)) }
        ensures points { OnOk result (made_in self.now made.new ≡ made_in self.now made.old
            ++ (bare_used (laying self.now) pos (tree_in self.now condition) (LeaveLoop (tree_in self.now condition)) (length made.old) t
            (next_of (length ways.now.in_loop) (length made.old + prep_size (tree_in self.now condition) + 1) ways.now.leave
            ++ unless_empty (tree_in self.now condition) k.now)
            ++ bare_ended pos ways.now.in_loop (length made.old + prep_size (tree_in self.now condition) + 1) ways.now.leave)) }
    {
        let behind = [(made.len() + self.sizes.prep(condition).size) as u32 + 1];
        let out = next_of(ways.in_loop().len(), &behind, ways.leave());
        let next = joined(self.sizes.alloc, out, self.unless_empty(condition, k))?;
        self.used(
            pos,
            condition,
            Instr::LeaveLoop { condition },
            t,
            next,
            made,
        )?;
        self.ended(pos, ways.in_loop(), ways.leave(), made)
    }

    /// Adds the points of a `return`.
    pub fn give_back(
        &self,
        pos: Pos,
        value: usize,
        t: u32,
        ways: &Ways,
        made: &mut Listed<Point>,
    ) -> Result<(), AllocError>
        requires ready { IsReady self.now }
        requires node { value < length self.now.sizes.rows.now.0 }
        requires room { length made.old + (prep_size (tree_in self.now value) + 1 + (length ways.now.in_all + 1)) ≤ 16384 }
        requires temporaries { t + filled_in (tree_in self.now value) ≤ 4294967295 }
        ensures count { OnOk result (length made.new
            ≡ length made.old + (prep_size (tree_in self.now value) + 1 + (length ways.now.in_all + 1))) }
        ensures points { OnOk result (made_in self.now made.new ≡ made_in self.now made.old
            ++ (bare_used (laying self.now) pos (tree_in self.now value) (Hold (tree_in self.now value)) (length made.old) t
            ((length made.old + prep_size (tree_in self.now value) + 1) ∷ [])
            ++ bare_closed pos ways.now.in_all (length made.old + prep_size (tree_in self.now value) + 1))) }
    {
        let behind = [(made.len() + self.sizes.prep(value).size) as u32 + 1];
        self.used_then(pos, value, Instr::Hold { value }, t, &behind, made)?;
        self.closed(pos, ways.in_all(), made)
    }

    /// Adds the list of choices of an alternative of a `case`.
    #[tactic(auto, unfolding(flow_paths::specs::Layout::choices_of))]
    fn choices_in(&self, c: usize, found: &mut Listed<usize>) -> Result<(), AllocError>
        requires { c < length self.now.sizes.rows.now.1 }
        ensures { OnOk result (map (code_in self.now) found.new ≡ map (code_in self.now) found.old ++ choices_in (code_in self.now c)) }
    {
        match self.sizes.rows.code(c) {
            TypedCodeNode::When { choices, .. } => found.push(*choices),
            _ => Ok(()),
        }
    }

    /// The lists of choices of the alternatives of a `case`.
    #[tactic(auto, unfolding(flow_paths::specs::Layout::choices_of))]
    pub fn choices(&self, list: usize) -> Result<Listed<usize>, AllocError>
        requires { list < length self.now.sizes.rows.now.1 }
        ensures { IfOk result (λ found. map (code_in self.now) found ≡ choices_of (code_in self.now list)) }
    {
        let mut found = Listed::new(self.sizes.alloc);
        let mut i = list;
        'alternatives: while let TypedCodeNode::More { first, rest } = self.sizes.rows.code(i) {
            self.choices_in(*first, &mut found)?;
            i = *rest;
        }
        Ok(found)
    }

    /// Where the alternatives of a `case` begin, the first one at `n`.
    #[tactic(auto, unfolding(crate::specs::Spans::whens_span))]
    pub fn starts(
        &self,
        list: usize,
        n: usize,
        ways: &Ways,
        k: &[u32],
    ) -> Result<Listed<u32>, AllocError>
        requires ready { IsReady self.now }
        requires node { list < length self.now.sizes.rows.now.1 }
        requires room { n + size (whens_span (laying self.now).ends (code_in self.now list)) ways.now ≤ 16384 }
        ensures { IfOk result (λ found. found ≡ whens_start (laying self.now).ends (code_in self.now list) n ways.now k.now) }
    {
        let mut found = Vec::new(self.sizes.alloc);
        let mut n = n;
        let mut i = list;
        'alternatives: while let TypedCodeNode::More { first, rest } = self.sizes.rows.code(i) {
            let size = self.size(self.sizes.alternative(*first), ways);
            let here = [n as u32];
            found.extend_from_slice(next_of(size, &here, k))?;
            n += size;
            i = *rest;
        }
        Ok(Listed::from_vec(found))
    }

    /// Adds the points of a statement that holds no others. What holds others has none here.
    #[tactic(auto, unfolding(crate::specs::BareLaid::bare_laid, crate::specs::Spans::code_span))]
    pub fn plain(
        &self,
        c: usize,
        t: u32,
        ways: &Ways,
        k: &[u32],
        made: &mut Listed<Point>,
    ) -> Result<(), AllocError>
        requires ready { IsReady self.now }
        requires node { c < length self.now.sizes.rows.now.1 }
        requires plain { IsTrue (is_plain (code_in self.now c)) }
        requires room { length made.old + size (span_in self.now c) ways.now ≤ 16384 }
        requires temporaries { t + (span_in self.now c).filled ≤ 4294967295 }
        ensures count { OnOk result (length made.new ≡ length made.old + size (span_in self.now c) ways.now) }
        ensures points { OnOk result (made_in self.now made.new ≡ made_in self.now made.old
            ++ bare_laid (laying self.now) (code_in self.now c) (length made.old) t ways.now k.now) }
    {
        match self.sizes.rows.code(c) {
            TypedCodeNode::Declare { pos, object, value } => {
                let instr = Instr::Declare {
                    object: *object,
                    value: *value,
                };
                self.used_then(*pos, *value, instr, t, k, made)
            }
            TypedCodeNode::Assign { pos, target, value } => {
                let instr = Instr::Assign {
                    target: *target,
                    source: *value,
                };
                self.used_both(*pos, *value, *target, instr, t, k, made)
            }
            TypedCodeNode::Skip { pos } => {
                let next = copied(self.sizes.alloc, k)?;
                self.add(*pos, Instr::Skip, next, made)
            }
            TypedCodeNode::Call { pos, sub, actuals } => {
                let instr = Instr::Call {
                    sub: *sub,
                    actuals: *actuals,
                    result: None,
                };
                self.used_then(*pos, *actuals, instr, t, k, made)
            }
            TypedCodeNode::Output { pos, text, line } => {
                let instr = Instr::Output {
                    text: *text,
                    line: *line,
                };
                self.used_then(*pos, *text, instr, t, k, made)
            }
            TypedCodeNode::Input { pos, target } => {
                self.used_then(*pos, *target, Instr::Input { target: *target }, t, k, made)
            }
            TypedCodeNode::Release { pos, name } => {
                self.used_then(*pos, *name, Instr::Release { name: *name }, t, k, made)
            }
            TypedCodeNode::Exit { pos, condition } => {
                self.exit(*pos, *condition, t, ways, k, made)
            }
            TypedCodeNode::Return { pos, value } => self.give_back(*pos, *value, t, ways, made),
            _ => Ok(()),
        }
    }
}
