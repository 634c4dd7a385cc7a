//! The points of statements.
ghost use Rattle.std.specs.Prelude.{◌≡◌, ◌<◌, ◌≤◌, ◌+◌, [], ◌∷◌, ◌++◌, length, OnOk};
ghost use Rattle.typed_tree.specs.Trees.{Block, Branch, Case, For, If, Loop, More, While};
ghost use Rattle.numbered_points.specs.Extents.{ending_with, filled_in, in_turns, prep_size, size};
ghost use Rattle.bare_points.specs.Spans.{branch_span, branches_span, owned, when_span, whens_span};
ghost use Rattle.bare_points.specs.BareLaid.{bare_branch, bare_branches, bare_laid, bare_turns, bare_when, bare_whens};
ghost use Rattle.bare_points.specs.Layouts.{code_in, ends_in, instr_in, laying, made_in, span_in, tree_in, IsReady};

use crate::layout::{Layout, joined, next_of};
use crate::own_objects::owned;
use crate::ways::Ways;
use flow_paths::{Instr, Point};
use spark_base::{Listed, Pos};
use std::alloc::AllocError;
use typed_tree::TypedCodeNode;

impl<'p> Layout<'p> {
    /// Adds the points of an `if`: those of its branches, and of what follows `else`.
    #[cycle(lay)]
    #[tactic(auto, unfolding(crate::specs::BareLaid::bare_laid))]
    fn if_statement(
        &self,
        branches: usize,
        otherwise: usize,
        t: u32,
        ways: &Ways,
        k: &[u32],
        made: &mut Listed<Point>,
    ) -> Result<(), AllocError>
        requires ready { IsReady self.now }
        requires branches { branches < length self.now.sizes.rows.now.1 }
        requires otherwise { otherwise < length self.now.sizes.rows.now.1 }
        requires room { length made.old + (size (branches_span (ends_in self.now) (code_in self.now branches)) ways.now
            + size (span_in self.now otherwise) ways.now) ≤ 16384 }
        requires temporaries { t + ((branches_span (ends_in self.now) (code_in self.now branches)).filled
            + (span_in self.now otherwise).filled) ≤ 4294967295 }
        ensures count { OnOk result (length made.new ≡ length made.old
            + (size (branches_span (ends_in self.now) (code_in self.now branches)) ways.now + size (span_in self.now otherwise) ways.now)) }
        ensures points { OnOk result (made_in self.now made.new ≡ made_in self.now made.old
            ++ bare_laid (laying self.now) (If (code_in self.now branches) (code_in self.now otherwise)) (length made.old) t ways.now k.now) }
    {
        let first = self.sizes.branches(branches)?;
        let behind = [(made.len() + self.size(first, ways)) as u32];
        let size = self.size(self.sizes.span(otherwise), ways);
        self.branches(branches, t, ways, k, next_of(size, &behind, k), made)?;
        self.statements(otherwise, t + first.filled() as u32, ways, k, made)
    }

    /// Adds the points of the branches of an `if`. Where no condition holds, `otherwise` is what
    /// follows.
    #[cycle(lay)]
    #[tactic(auto, unfolding(crate::specs::BareLaid::bare_branches, crate::specs::Spans::branches_span))]
    fn branches(
        &self,
        list: usize,
        t: u32,
        ways: &Ways,
        k: &[u32],
        otherwise: &[u32],
        made: &mut Listed<Point>,
    ) -> Result<(), AllocError>
        requires ready { IsReady self.now }
        requires node { list < length self.now.sizes.rows.now.1 }
        requires room { length made.old + size (branches_span (ends_in self.now) (code_in self.now list)) ways.now ≤ 16384 }
        requires temporaries { t + (branches_span (ends_in self.now) (code_in self.now list)).filled ≤ 4294967295 }
        ensures count { OnOk result (length made.new ≡ length made.old
            + size (branches_span (ends_in self.now) (code_in self.now list)) ways.now) }
        ensures points { OnOk result (made_in self.now made.new ≡ made_in self.now made.old
            ++ bare_branches (laying self.now) (code_in self.now list) (length made.old) t ways.now k.now otherwise.now) }
    {
        let mut left = self.size(self.sizes.branches(list)?, ways);
        let mut t = t;
        let mut i = list;
        'branches: while let TypedCodeNode::More { first, rest } = self.sizes.rows.code(i) {
            let span = self.sizes.branch(*first)?;
            let size = self.size(span, ways);
            left -= size;
            let behind = [(made.len() + size) as u32];
            self.branch(*first, t, ways, k, next_of(left, &behind, otherwise), made)?;
            t += span.filled() as u32;
            i = *rest;
        }
        Ok(())
    }

    /// Adds the points of a branch of an `if`.
    #[cycle(lay)]
    #[tactic(auto, unfolding(crate::specs::BareLaid::bare_branch, crate::specs::Spans::branch_span))]
    fn branch(
        &self,
        c: usize,
        t: u32,
        ways: &Ways,
        k: &[u32],
        otherwise: &[u32],
        made: &mut Listed<Point>,
    ) -> Result<(), AllocError>
        requires ready { IsReady self.now }
        requires node { c < length self.now.sizes.rows.now.1 }
        requires room { length made.old + size (branch_span (ends_in self.now) (code_in self.now c)) ways.now ≤ 16384 }
        requires temporaries { t + (branch_span (ends_in self.now) (code_in self.now c)).filled ≤ 4294967295 }
        ensures count { OnOk result (length made.new ≡ length made.old
            + size (branch_span (ends_in self.now) (code_in self.now c)) ways.now) }
        ensures points { OnOk result (made_in self.now made.new ≡ made_in self.now made.old
            ++ bare_branch (laying self.now) (code_in self.now c) (length made.old) t ways.now k.now otherwise.now) }
    {
        match self.sizes.rows.code(c) {
            TypedCodeNode::Branch {
                pos,
                condition,
                stmts,
            } => self.conditional(*pos, *condition, *stmts, t, ways, k, otherwise, made),
            _ => Ok(()),
        }
    }

    /// Adds the points of a condition, and of the statements that it leads to.
    #[cycle(lay)]
    #[tactic(auto, unfolding(crate::specs::BareLaid::bare_branch))]
    fn conditional(
        &self,
        pos: Pos,
        condition: usize,
        stmts: usize,
        t: u32,
        ways: &Ways,
        k: &[u32],
        otherwise: &[u32],
        made: &mut Listed<Point>,
    ) -> Result<(), AllocError>
        requires ready { IsReady self.now }
        requires condition { condition < length self.now.sizes.rows.now.0 }
        requires stmts { stmts < length self.now.sizes.rows.now.1 }
        requires room { length made.old + (prep_size (tree_in self.now condition) + 1 + size (span_in self.now stmts) ways.now) ≤ 16384 }
        requires temporaries { t + (filled_in (tree_in self.now condition) + (span_in self.now stmts).filled) ≤ 4294967295 }
        ensures count { OnOk result (length made.new ≡ length made.old
            + (prep_size (tree_in self.now condition) + 1 + size (span_in self.now stmts) ways.now)) }
        ensures points { OnOk result (made_in self.now made.new ≡ made_in self.now made.old
            ++ bare_branch (laying self.now) (Branch pos (tree_in self.now condition) (code_in self.now stmts)) (length made.old)
            t ways.now k.now otherwise.now) }
    {
        let prep = self.sizes.prep(condition);
        let inner = [(made.len() + prep.size) as u32 + 1];
        let size = self.size(self.sizes.span(stmts), ways);
        let next = joined(self.sizes.alloc, next_of(size, &inner, k), otherwise)?;
        self.used(pos, condition, Instr::Test { condition }, t, next, made)?;
        self.statements(stmts, t + prep.filled as u32, ways, k, made)
    }

    /// Adds the points of a `case`.
    #[cycle(lay)]
    #[tactic(auto, unfolding(crate::specs::BareLaid::bare_laid))]
    fn case(
        &self,
        pos: Pos,
        selector: usize,
        alternatives: usize,
        t: u32,
        ways: &Ways,
        k: &[u32],
        made: &mut Listed<Point>,
    ) -> Result<(), AllocError>
        requires ready { IsReady self.now }
        requires selector { selector < length self.now.sizes.rows.now.0 }
        requires alternatives { alternatives < length self.now.sizes.rows.now.1 }
        requires room { length made.old + (prep_size (tree_in self.now selector) + 1
            + size (whens_span (ends_in self.now) (code_in self.now alternatives)) ways.now) ≤ 16384 }
        requires temporaries { t + (filled_in (tree_in self.now selector)
            + (whens_span (ends_in self.now) (code_in self.now alternatives)).filled) ≤ 4294967295 }
        ensures count { OnOk result (length made.new ≡ length made.old + (prep_size (tree_in self.now selector) + 1
            + size (whens_span (ends_in self.now) (code_in self.now alternatives)) ways.now)) }
        ensures points { OnOk result (made_in self.now made.new ≡ made_in self.now made.old
            ++ bare_laid (laying self.now) (Case pos (tree_in self.now selector) (code_in self.now alternatives)) (length made.old)
            t ways.now k.now) }
    {
        let prep = self.sizes.prep(selector);
        let next = self.starts(alternatives, made.len() + prep.size + 1, ways, k)?;
        let choices = self.choices(alternatives)?;
        self.used(
            pos,
            selector,
            Instr::Choose { selector, choices },
            t,
            next,
            made,
        )?;
        self.alternatives(alternatives, t + prep.filled as u32, ways, k, made)
    }

    /// Adds the points of the alternatives of a `case`.
    #[cycle(lay)]
    #[tactic(auto, unfolding(crate::specs::BareLaid::bare_whens, crate::specs::Spans::whens_span))]
    fn alternatives(
        &self,
        list: usize,
        t: u32,
        ways: &Ways,
        k: &[u32],
        made: &mut Listed<Point>,
    ) -> Result<(), AllocError>
        requires ready { IsReady self.now }
        requires node { list < length self.now.sizes.rows.now.1 }
        requires room { length made.old + size (whens_span (ends_in self.now) (code_in self.now list)) ways.now ≤ 16384 }
        requires temporaries { t + (whens_span (ends_in self.now) (code_in self.now list)).filled ≤ 4294967295 }
        ensures count { OnOk result (length made.new ≡ length made.old
            + size (whens_span (ends_in self.now) (code_in self.now list)) ways.now) }
        ensures points { OnOk result (made_in self.now made.new ≡ made_in self.now made.old
            ++ bare_whens (laying self.now) (code_in self.now list) (length made.old) t ways.now k.now) }
    {
        let mut t = t;
        let mut i = list;
        'alternatives: while let TypedCodeNode::More { first, rest } = self.sizes.rows.code(i) {
            self.alternative(*first, t, ways, k, made)?;
            t += self.sizes.alternative(*first).filled() as u32;
            i = *rest;
        }
        Ok(())
    }

    /// Adds the points of an alternative of a `case`.
    #[cycle(lay)]
    #[tactic(auto, unfolding(crate::specs::BareLaid::bare_when, crate::specs::Spans::when_span))]
    fn alternative(
        &self,
        c: usize,
        t: u32,
        ways: &Ways,
        k: &[u32],
        made: &mut Listed<Point>,
    ) -> Result<(), AllocError>
        requires ready { IsReady self.now }
        requires node { c < length self.now.sizes.rows.now.1 }
        requires room { length made.old + size (when_span (ends_in self.now) (code_in self.now c)) ways.now ≤ 16384 }
        requires temporaries { t + (when_span (ends_in self.now) (code_in self.now c)).filled ≤ 4294967295 }
        ensures count { OnOk result (length made.new ≡ length made.old
            + size (when_span (ends_in self.now) (code_in self.now c)) ways.now) }
        ensures points { OnOk result (made_in self.now made.new ≡ made_in self.now made.old
            ++ bare_when (laying self.now) (code_in self.now c) (length made.old) t ways.now k.now) }
    {
        match self.sizes.rows.code(c) {
            TypedCodeNode::When { stmts, .. } => self.statements(*stmts, t, ways, k, made),
            _ => Ok(()),
        }
    }

    /// Adds the points of a plain loop, which are those of its statements.
    #[cycle(lay)]
    #[tactic(auto, unfolding(crate::specs::BareLaid::bare_laid))]
    fn plain_loop(
        &self,
        stmts: usize,
        t: u32,
        ways: &Ways,
        k: &[u32],
        made: &mut Listed<Point>,
    ) -> Result<(), AllocError>
        requires ready { IsReady self.now }
        requires stmts { stmts < length self.now.sizes.rows.now.1 }
        requires room { length made.old + size (in_turns (span_in self.now stmts)) ways.now ≤ 16384 }
        requires temporaries { t + (span_in self.now stmts).filled ≤ 4294967295 }
        ensures count { OnOk result (length made.new ≡ length made.old + size (in_turns (span_in self.now stmts)) ways.now) }
        ensures points { OnOk result (made_in self.now made.new ≡ made_in self.now made.old
            ++ bare_laid (laying self.now) (Loop (code_in self.now stmts)) (length made.old) t ways.now k.now) }
    {
        let inner = ways.within_loop(self.sizes.alloc, k)?;
        let size = self.size(self.sizes.span(stmts), &inner);
        let here = [made.len() as u32];
        self.statements(stmts, t, &inner, next_of(size, &here, k), made)
    }

    /// Adds the points of a `while` loop.
    #[cycle(lay)]
    #[tactic(auto, unfolding(crate::specs::BareLaid::bare_laid))]
    fn while_loop(
        &self,
        pos: Pos,
        condition: usize,
        stmts: usize,
        t: u32,
        ways: &Ways,
        k: &[u32],
        made: &mut Listed<Point>,
    ) -> Result<(), AllocError>
        requires ready { IsReady self.now }
        requires condition { condition < length self.now.sizes.rows.now.0 }
        requires stmts { stmts < length self.now.sizes.rows.now.1 }
        requires room { length made.old + (prep_size (tree_in self.now condition) + 1 + size (in_turns (span_in self.now stmts)) ways.now) ≤ 16384 }
        requires temporaries { t + (filled_in (tree_in self.now condition) + (span_in self.now stmts).filled) ≤ 4294967295 }
        ensures count { OnOk result (length made.new ≡ length made.old
            + (prep_size (tree_in self.now condition) + 1 + size (in_turns (span_in self.now stmts)) ways.now)) }
        ensures points { OnOk result (made_in self.now made.new ≡ made_in self.now made.old
            ++ bare_laid (laying self.now) (While pos (tree_in self.now condition) (code_in self.now stmts)) (length made.old)
            t ways.now k.now) }
    {
        let prep = self.sizes.prep(condition);
        let inner = ways.within_loop(self.sizes.alloc, k)?;
        let size = self.size(self.sizes.span(stmts), &inner);
        let turn = [made.len() as u32];
        let begin = [(made.len() + prep.size) as u32 + 1];
        let next = joined(self.sizes.alloc, next_of(size, &begin, &turn), k)?;
        self.used(pos, condition, Instr::Test { condition }, t, next, made)?;
        self.statements(stmts, t + prep.filled as u32, &inner, &turn, made)
    }

    /// Adds the points of the iterations of a `for` loop: one that takes the next value, and those
    /// of its statements.
    #[cycle(lay)]
    fn turns(
        &self,
        pos: Pos,
        instr: Instr,
        stmts: usize,
        t: u32,
        ways: &Ways,
        k: &[u32],
        made: &mut Listed<Point>,
    ) -> Result<(), AllocError>
        requires ready { IsReady self.now }
        requires stmts { stmts < length self.now.sizes.rows.now.1 }
        requires room { length made.old + (1 + size (in_turns (span_in self.now stmts)) ways.now) ≤ 16384 }
        requires temporaries { t + (span_in self.now stmts).filled ≤ 4294967295 }
        ensures count { OnOk result (length made.new ≡ length made.old + (1 + size (in_turns (span_in self.now stmts)) ways.now)) }
        ensures points { OnOk result (made_in self.now made.new ≡ made_in self.now made.old
            ++ bare_turns (laying self.now) pos (instr_in self.now instr) (code_in self.now stmts) (length made.old) t ways.now k.now) }
    {
        let inner = ways.within_loop(self.sizes.alloc, k)?;
        let size = self.size(self.sizes.span(stmts), &inner);
        let turn = [made.len() as u32];
        let begin = [made.len() as u32 + 1];
        let next = joined(self.sizes.alloc, next_of(size, &begin, &turn), k)?;
        self.add(pos, instr, next, made)?;
        self.statements(stmts, t, &inner, &turn, made)
    }

    /// Adds the points of a `for` loop.
    #[cycle(lay)]
    #[tactic(auto, unfolding(crate::specs::BareLaid::bare_laid))]
    fn for_loop(
        &self,
        pos: Pos,
        parameter: u32,
        reverse: bool,
        low: usize,
        high: usize,
        stmts: usize,
        t: u32,
        ways: &Ways,
        k: &[u32],
        made: &mut Listed<Point>,
    ) -> Result<(), AllocError>
        requires ready { IsReady self.now }
        requires low { low < length self.now.sizes.rows.now.0 }
        requires high { high < length self.now.sizes.rows.now.0 }
        requires stmts { stmts < length self.now.sizes.rows.now.1 }
        requires room { length made.old + (prep_size (tree_in self.now low) + (prep_size (tree_in self.now high) + 1)
            + (1 + size (in_turns (span_in self.now stmts)) ways.now)) ≤ 16384 }
        requires temporaries { t + (filled_in (tree_in self.now low) + filled_in (tree_in self.now high)
            + (span_in self.now stmts).filled) ≤ 4294967295 }
        ensures count { OnOk result (length made.new ≡ length made.old + (prep_size (tree_in self.now low) + (prep_size (tree_in self.now high) + 1)
            + (1 + size (in_turns (span_in self.now stmts)) ways.now))) }
        ensures points { OnOk result (made_in self.now made.new ≡ made_in self.now made.old
            ++ bare_laid (laying self.now) (For pos parameter reverse (tree_in self.now low) (tree_in self.now high) (code_in self.now stmts))
            (length made.old) t ways.now k.now) }
    {
        let first = self.sizes.prep(low);
        let second = self.sizes.prep(high);
        let start = Instr::Start {
            parameter,
            reverse,
            low,
            high,
        };
        let turn = Instr::Next {
            parameter,
            reverse,
            low,
            high,
        };
        let next = [(made.len() + first.size + second.size) as u32 + 1];
        self.used_both(pos, low, high, start, t, &next, made)?;
        let behind = t + first.filled as u32 + second.filled as u32;
        self.turns(pos, turn, stmts, behind, ways, k, made)
    }

    /// Adds the points of a block, and the ends of its scope.
    #[cycle(lay)]
    #[tactic(auto, unfolding(crate::specs::BareLaid::bare_laid))]
    fn block(
        &self,
        scope: u32,
        stmts: usize,
        end: Pos,
        t: u32,
        ways: &Ways,
        k: &[u32],
        made: &mut Listed<Point>,
    ) -> Result<(), AllocError>
        requires ready { IsReady self.now }
        requires stmts { stmts < length self.now.sizes.rows.now.1 }
        requires room { length made.old
            + size (ending_with (length (owned (ends_in self.now) (code_in self.now stmts))) (span_in self.now stmts)) ways.now ≤ 16384 }
        requires temporaries { t + (span_in self.now stmts).filled ≤ 4294967295 }
        ensures count { OnOk result (length made.new ≡ length made.old
            + size (ending_with (length (owned (ends_in self.now) (code_in self.now stmts))) (span_in self.now stmts)) ways.now) }
        ensures points { OnOk result (made_in self.now made.new ≡ made_in self.now made.old
            ++ bare_laid (laying self.now) (Block scope (code_in self.now stmts) end) (length made.old) t ways.now k.now) }
    {
        let objects = owned(self.sizes.alloc, self.sizes.rows, self.sizes.ends, stmts)?;
        let own = objects.as_slice();
        let inner = ways.within_block(self.sizes.alloc, own)?;
        let size = self.size(self.sizes.span(stmts), &inner);
        let behind = [(made.len() + size) as u32];
        let next = next_of(own.len(), &behind, k);
        self.has_room(stmts, &inner, made.len());
        self.statements(stmts, t, &inner, next, made)?;
        self.ended(end, own, k, made)
    }

    /// Adds the points of two parts of code, of which the first leads to the second.
    #[cycle(lay)]
    #[tactic(auto, unfolding(crate::specs::BareLaid::bare_laid))]
    fn pair(
        &self,
        first: usize,
        rest: usize,
        t: u32,
        ways: &Ways,
        k: &[u32],
        made: &mut Listed<Point>,
    ) -> Result<(), AllocError>
        requires ready { IsReady self.now }
        requires first { first < length self.now.sizes.rows.now.1 }
        requires rest { rest < length self.now.sizes.rows.now.1 }
        requires room { length made.old + (size (span_in self.now first) ways.now + size (span_in self.now rest) ways.now) ≤ 16384 }
        requires temporaries { t + ((span_in self.now first).filled + (span_in self.now rest).filled) ≤ 4294967295 }
        ensures count { OnOk result (length made.new ≡ length made.old
            + (size (span_in self.now first) ways.now + size (span_in self.now rest) ways.now)) }
        ensures points { OnOk result (made_in self.now made.new ≡ made_in self.now made.old
            ++ bare_laid (laying self.now) (More (code_in self.now first) (code_in self.now rest)) (length made.old) t ways.now k.now) }
    {
        let span = self.sizes.span(first);
        let behind = [(made.len() + self.size(span, ways)) as u32];
        let size = self.size(self.sizes.span(rest), ways);
        self.statements(first, t, ways, next_of(size, &behind, k), made)?;
        self.statements(rest, t + span.filled() as u32, ways, k, made)
    }

    /// Adds the points of a statement that holds others. What is no statement has none.
    #[cycle(lay)]
    #[tactic(auto, unfolding(crate::specs::BareLaid::bare_laid, crate::specs::Spans::code_span))]
    fn compound(
        &self,
        c: usize,
        t: u32,
        ways: &Ways,
        k: &[u32],
        made: &mut Listed<Point>,
    ) -> Result<(), AllocError>
        requires ready { IsReady self.now }
        requires node { c < length self.now.sizes.rows.now.1 }
        requires room { length made.old + size (span_in self.now c) ways.now ≤ 16384 }
        requires temporaries { t + (span_in self.now c).filled ≤ 4294967295 }
        ensures count { OnOk result (length made.new ≡ length made.old + size (span_in self.now c) ways.now) }
        ensures points { OnOk result (made_in self.now made.new ≡ made_in self.now made.old
            ++ bare_laid (laying self.now) (code_in self.now c) (length made.old) t ways.now k.now) }
    {
        match self.sizes.rows.code(c) {
            TypedCodeNode::More { first, rest } => {
                self.has_room_for_list(c, *first, *rest, ways, made.len(), t);
                self.pair(*first, *rest, t, ways, k, made)
            }
            TypedCodeNode::If {
                branches,
                otherwise,
            } => {
                self.has_room_for_if(c, *branches, *otherwise, ways, made.len(), t);
                self.if_statement(*branches, *otherwise, t, ways, k, made)
            }
            TypedCodeNode::Case {
                pos,
                selector,
                alternatives,
            } => self.case(*pos, *selector, *alternatives, t, ways, k, made),
            TypedCodeNode::Loop { stmts } => self.plain_loop(*stmts, t, ways, k, made),
            TypedCodeNode::While {
                pos,
                condition,
                stmts,
            } => self.while_loop(*pos, *condition, *stmts, t, ways, k, made),
            TypedCodeNode::For {
                pos,
                parameter,
                reverse,
                low,
                high,
                stmts,
            } => self.for_loop(
                *pos, *parameter, *reverse, *low, *high, *stmts, t, ways, k, made,
            ),
            TypedCodeNode::Block { scope, stmts, end } => {
                self.block(*scope, *stmts, *end, t, ways, k, made)
            }
            _ => self.plain(c, t, ways, k, made),
        }
    }

    /// Adds the points of statements, where the next temporary has the number `t` and `k` is what
    /// follows. A list is gone along, so that the depth of calls is that of nesting.
    #[cycle(lay)]
    #[tactic(auto, unfolding(crate::specs::BareLaid::bare_laid, crate::specs::Spans::code_span))]
    pub fn statements(
        &self,
        c: usize,
        t: u32,
        ways: &Ways,
        k: &[u32],
        made: &mut Listed<Point>,
    ) -> Result<(), AllocError>
        requires ready { IsReady self.now }
        requires node { c < length self.now.sizes.rows.now.1 }
        requires room { length made.old + size (span_in self.now c) ways.now ≤ 16384 }
        requires temporaries { t + (span_in self.now c).filled ≤ 4294967295 }
        ensures count { OnOk result (length made.new ≡ length made.old + size (span_in self.now c) ways.now) }
        ensures points { OnOk result (made_in self.now made.new ≡ made_in self.now made.old
            ++ bare_laid (laying self.now) (code_in self.now c) (length made.old) t ways.now k.now) }
    {
        let mut t = t;
        let mut i = c;
        'parts: while let TypedCodeNode::More { first, rest } = self.sizes.rows.code(i) {
            let span = self.sizes.span(*first);
            let behind = [(made.len() + self.size(span, ways)) as u32];
            let size = self.size(self.sizes.span(*rest), ways);
            self.compound(*first, t, ways, next_of(size, &behind, k), made)?;
            t += span.filled() as u32;
            i = *rest;
        }
        self.compound(i, t, ways, k, made)
    }
}
