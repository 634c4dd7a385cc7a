//! How many points the code in rows has.
ghost use Rattle.std.specs.Prelude.{◌≡◌, ◌<◌, ◌≤◌, length, IfOk};
ghost use Rattle.typed_tree.specs.Trees.{If};
ghost use Rattle.typed_tree.specs.Nodes.{typed_at, typed_code_at};
ghost use Rattle.numbered_points.specs.Extents.{both, ending_with, extent, in_turns, using};
ghost use Rattle.bare_points.specs.Spans.{branch_span, branches_span, code_span, ends_of, owned, when_span, whens_span};
ghost use Rattle.bare_points.specs.Sized.{prep_of, used_by, ArePreps, AreSpans};
ghost use Rattle.bare_points.specs.Tables.{AreSizes};

use crate::own_objects::{Ends, owned};
use crate::prep::Prep;
use crate::span::{Span, sum};
use spark_base::Listed;
use std::alloc::{AllocError, Global};
use typed_tree::{TypedCodeNode, TypedRows};

/// The sizes of nodes, by number.
#[derive(Clone, Copy)]
pub struct Sizes<'p> {
    /// Where memory comes from.
    pub alloc: Global,
    /// The nodes.
    pub rows: &'p TypedRows,
    /// By the number of an object, whether its scope ends at a point.
    pub ends: &'p Ends,
    /// Of nodes of expressions, what comes before the points that use them.
    pub preps: &'p [Prep],
    /// Of nodes of code, how many points they have.
    pub spans: &'p [Span],
}

/// Points that use an expression, after those that come before.
fn used_by(prep: Prep, points: usize) -> Result<Span, AllocError>
    ensures { IfOk result (λ made. made ≡ used_by prep points) }
{
    Ok(Span::new(sum(prep.size, points)?, 0, 0, prep.filled))
}

impl<'p> Sizes<'p> {
    /// What comes before the points that use an expression.
    pub fn prep(&self, e: usize) -> Prep
        requires ready { AreSizes self.now }
        requires node { e < length self.now.rows.now.0 }
        ensures { result ≡ prep_of (typed_at self.now.rows.now e) }
    {
        Prep::at(self.preps, e)
    }

    /// How many points a statement, or a list of statements, has.
    pub fn span(&self, c: usize) -> Span
        requires ready { AreSizes self.now }
        requires node { c < length self.now.spans.now }
        ensures { result ≡ code_span (ends_of self.now.ends.now) (typed_code_at self.now.rows.now c) }
    {
        Span::at(self.spans, c)
    }

    /// Points that use an expression, and those before them.
    fn using(&self, e: usize, points: usize) -> Result<Span, AllocError>
        requires ready { AreSizes self.now }
        requires node { e < length self.now.rows.now.0 }
        ensures { IfOk result (λ made. made ≡ using (typed_at self.now.rows.now e) points) }
    {
        used_by(self.prep(e), points)
    }

    /// A point that uses two expressions.
    fn using_both(&self, a: usize, b: usize) -> Result<Span, AllocError>
        requires ready { AreSizes self.now }
        requires first { a < length self.now.rows.now.0 }
        requires second { b < length self.now.rows.now.0 }
        ensures { IfOk result (λ made. made
            ≡ both (using (typed_at self.now.rows.now a) 0) (using (typed_at self.now.rows.now b) 1)) }
    {
        self.using(a, 0)?.and(self.using(b, 1)?)
    }

    /// A point that uses an expression, and what follows it.
    fn before(&self, e: usize, behind: Span) -> Result<Span, AllocError>
        requires ready { AreSizes self.now }
        requires node { e < length self.now.rows.now.0 }
        ensures { IfOk result (λ made. made ≡ both (using (typed_at self.now.rows.now e) 1) behind) }
    {
        self.using(e, 1)?.and(behind)
    }

    /// A branch of an `if`. What is none has no points.
    #[tactic(auto, unfolding(crate::specs::Spans::branch_span))]
    pub fn branch(&self, c: usize) -> Result<Span, AllocError>
        requires ready { AreSizes self.now }
        requires node { c < length self.now.spans.now }
        ensures { IfOk result (λ made. made ≡ branch_span (ends_of self.now.ends.now) (typed_code_at self.now.rows.now c)) }
    {
        match self.rows.code(c) {
            TypedCodeNode::Branch {
                condition,
                stmts,
                ..
            } => self.before(*condition, self.span(*stmts)),
            _ => Ok(Span::nothing()),
        }
    }

    /// The branches of an `if`.
    #[tactic(auto, using(crate::proofs::Sums::sums), unfolding(crate::specs::Spans::branches_span))]
    pub fn branches(&self, list: usize) -> Result<Span, AllocError>
        requires ready { AreSizes self.now }
        requires node { list < length self.now.spans.now }
        ensures { IfOk result (λ made. made ≡ branches_span (ends_of self.now.ends.now) (typed_code_at self.now.rows.now list)) }
    {
        let mut total = Span::nothing();
        let mut i = list;
        'branches: while let TypedCodeNode::More { first, rest } = self.rows.code(i) {
            total = total.and(self.branch(*first)?)?;
            i = *rest;
        }
        Ok(total)
    }

    /// An alternative of a `case`. What is none has no points.
    #[tactic(auto, unfolding(crate::specs::Spans::when_span))]
    pub fn alternative(&self, c: usize) -> Span
        requires ready { AreSizes self.now }
        requires node { c < length self.now.spans.now }
        ensures { result ≡ when_span (ends_of self.now.ends.now) (typed_code_at self.now.rows.now c) }
    {
        match self.rows.code(c) {
            TypedCodeNode::When { stmts, .. } => self.span(*stmts),
            _ => Span::nothing(),
        }
    }

    /// The alternatives of a `case`.
    #[tactic(auto, using(crate::proofs::Sums::sums), unfolding(crate::specs::Spans::whens_span))]
    pub fn alternatives(&self, list: usize) -> Result<Span, AllocError>
        requires ready { AreSizes self.now }
        requires node { list < length self.now.spans.now }
        ensures { IfOk result (λ made. made ≡ whens_span (ends_of self.now.ends.now) (typed_code_at self.now.rows.now list)) }
    {
        let mut total = Span::nothing();
        let mut i = list;
        'alternatives: while let TypedCodeNode::More { first, rest } = self.rows.code(i) {
            total = total.and(self.alternative(*first))?;
            i = *rest;
        }
        Ok(total)
    }

    /// An `if`.
    #[tactic(auto, unfolding(crate::specs::Spans::code_span))]
    fn if_statement(&self, branches: usize, otherwise: usize) -> Result<Span, AllocError>
        requires ready { AreSizes self.now }
        requires branches { branches < length self.now.spans.now }
        requires otherwise { otherwise < length self.now.spans.now }
        ensures { IfOk result (λ made. made ≡ code_span (ends_of self.now.ends.now)
            (If (typed_code_at self.now.rows.now branches) (typed_code_at self.now.rows.now otherwise))) }
    {
        self.branches(branches)?.and(self.span(otherwise))
    }

    /// A `case`: its expression and its alternatives.
    fn case(&self, selector: usize, alternatives: usize) -> Result<Span, AllocError>
        requires ready { AreSizes self.now }
        requires selector { selector < length self.now.rows.now.0 }
        requires alternatives { alternatives < length self.now.spans.now }
        ensures { IfOk result (λ made. made ≡ both (using (typed_at self.now.rows.now selector) 1)
            (whens_span (ends_of self.now.ends.now) (typed_code_at self.now.rows.now alternatives))) }
    {
        self.before(selector, self.alternatives(alternatives)?)
    }

    /// A `for` loop: its bounds, its two points and its statements.
    fn for_loop(&self, low: usize, high: usize, stmts: usize) -> Result<Span, AllocError>
        requires ready { AreSizes self.now }
        requires low { low < length self.now.rows.now.0 }
        requires high { high < length self.now.rows.now.0 }
        requires stmts { stmts < length self.now.spans.now }
        ensures { IfOk result (λ made. made ≡ both (both (using (typed_at self.now.rows.now low) 0) (using (typed_at self.now.rows.now high) 1))
            (both (extent 1 0 0 0) (in_turns (code_span (ends_of self.now.ends.now) (typed_code_at self.now.rows.now stmts))))) }
    {
        let turns = Span::new(1, 0, 0, 0).and(self.span(stmts).in_turns())?;
        self.using_both(low, high)?.and(turns)
    }

    /// A block with these declarations and statements.
    fn block(&self, stmts: usize) -> Result<Span, AllocError>
        requires ready { AreSizes self.now }
        requires stmts { stmts < length self.now.spans.now }
        ensures { IfOk result (λ made. made ≡ ending_with (length (owned (ends_of self.now.ends.now) (typed_code_at self.now.rows.now stmts)))
            (code_span (ends_of self.now.ends.now) (typed_code_at self.now.rows.now stmts))) }
    {
        let objects = owned(self.alloc, self.rows, self.ends, stmts)?;
        self.span(stmts).ending_with(objects.len())
    }

    /// A node of code, whose parts have lower numbers.
    #[tactic(auto, unfolding(crate::specs::Spans::code_span))]
    fn node(&self, c: usize) -> Result<Span, AllocError>
        requires ready { AreSizes self.now }
        requires node { c < length self.now.rows.now.1 }
        requires parts { c ≤ length self.now.spans.now }
        ensures { IfOk result (λ made. made ≡ code_span (ends_of self.now.ends.now) (typed_code_at self.now.rows.now c)) }
    {
        match self.rows.code(c) {
            TypedCodeNode::More { first, rest } => self.span(*first).and(self.span(*rest)),
            TypedCodeNode::Declare { value: e, .. }
            | TypedCodeNode::Call { actuals: e, .. }
            | TypedCodeNode::Output { text: e, .. }
            | TypedCodeNode::Input { target: e, .. }
            | TypedCodeNode::Release { name: e, .. } => self.using(*e, 1),
            TypedCodeNode::Assign { target, value, .. } => self.using_both(*value, *target),
            TypedCodeNode::Skip { .. } => Ok(Span::new(1, 0, 0, 0)),
            TypedCodeNode::If {
                branches,
                otherwise,
            } => self.if_statement(*branches, *otherwise),
            TypedCodeNode::Case {
                selector,
                alternatives,
                ..
            } => self.case(*selector, *alternatives),
            TypedCodeNode::Loop { stmts } => Ok(self.span(*stmts).in_turns()),
            TypedCodeNode::While {
                condition,
                stmts,
                ..
            } => self.before(*condition, self.span(*stmts).in_turns()),
            TypedCodeNode::For {
                low,
                high,
                stmts,
                ..
            } => self.for_loop(*low, *high, *stmts),
            TypedCodeNode::Exit { condition, .. } => {
                self.before(*condition, Span::new(0, 1, 0, 0))
            }
            TypedCodeNode::Return { value, .. } => self.before(*value, Span::new(1, 0, 1, 0)),
            TypedCodeNode::Block { stmts, .. } => self.block(*stmts),
            _ => Ok(Span::nothing()),
        }
    }
}

/// How many points each node of code has, by number.
pub fn spans(
    alloc: Global,
    rows: &TypedRows,
    ends: &Ends,
    preps: &[Prep],
) -> Result<Listed<Span>, AllocError>
    requires { ArePreps rows.now (length rows.now.0) preps.now }
    ensures length { IfOk result (λ made. length made ≡ length rows.now.1) }
    ensures spans { IfOk result (λ made. AreSpans rows.now (ends_of ends.now) (length rows.now.1) made) }
{
    let mut made = Listed::new(alloc);
    'nodes: for i in 0..rows.code_len() {
        let sizes = Sizes {
            alloc,
            rows,
            ends,
            preps,
            spans: made.as_slice(),
        };
        let span = sizes.node(i)?;
        made.push(span)?;
    }
    Ok(made)
}
