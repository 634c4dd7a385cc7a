//! Lists of arguments, in the order of what they are for.
ghost use Rattle.std.specs.Prelude.{◌≡◌, ◌<◌, length, map, All, IfOk};
ghost use Rattle.resolved_tree.specs.Nodes.{tree_at};
ghost use Rattle.type_definitions.specs.Expressions.{given_names};
ghost use Rattle.expression_types.specs.Here.{here};
ghost use Rattle.expression_types.specs.Occurrences.{occurs};
ghost use Rattle.typed_tree.specs.Trees.{typed_list};
ghost use Rattle.typed_tree.specs.Nodes.{typed_at, Grew, Holds, HoldsAll};
ghost use Rattle.typed_tree.specs.Expressions.{arguments_given, role_names, typed_actuals, typed_imaged, typed_values};
ghost use Rattle.typed_expressions.specs.Sites.{site};
ghost use Rattle.typed_expressions.specs.Arguments.{named_number, number_at};

use crate::writer::Writer;
use ada_tree::Word;
use expression_types::{INTEGER, WordIndex};
use resolved_tree::Node;
use std::alloc::AllocError;
use type_definitions::{Component, FormalInfo, Role};
use typed_tree::{TypedNode, TypedRows};

impl<'p> Writer<'p> {
    /// Adds the expressions of arguments, in the order of the text.
    #[cycle(expression)]
    #[tactic(auto, using(typed_tree::proofs::Grown::grew_none), unfolding(typed_tree::specs::Expressions::typed_values))]
    fn values(&self, role: Role, args: usize, to: &mut TypedRows) -> Result<Vec<usize>, AllocError>
        requires { args < length self.now.reader.rows.now.0 }
        ensures trees { IfOk result (λ made. HoldsAll to.new made.items (typed_values (site self.now) role 0 (tree_at self.now.reader.rows.now args))) }
        ensures grew { Grew to.old to.new }
    {
        let mut made = Vec::new(self.alloc);
        let mut i = args;
        let mut n = 0;
        'arguments: while let Node::Argument { name, value, rest } = self.reader.rows.node(i) {
            let want = self.reader.matched_type(role, n, name);
            let number = self.expression(want, *value, to)?;
            made.push(number)?;
            n += 1;
            i = *rest;
        }
        Ok(made)
    }

    /// The number of the value of the argument with a name, or another number.
    fn named_number(
        &self,
        other: usize,
        word: &Word,
        index: &WordIndex,
        numbers: &[usize],
    ) -> Result<usize, AllocError>
        ensures { IfOk result (λ n. n ≡ number_at other numbers.now (occurs index.now word.now)) }
    {
        let Some(found) = index.occurrence(self.alloc, word)? else {
            return Ok(other);
        };
        match numbers.get(found.first) {
            Some(number) => Ok(*number),
            None => Ok(other),
        }
    }

    /// The numbers of values in the order of components.
    fn named_components(
        &self,
        other: usize,
        components: &[Component],
        index: &WordIndex,
        numbers: &[usize],
    ) -> Result<Vec<usize>, AllocError>
        ensures { IfOk result (λ made. made.items
            ≡ map (λ w. number_at other numbers.now (occurs index.now w)) (map (λ k. k.name) components.now)) }
    {
        let mut made = Vec::new(self.alloc);
        'components: for component in components {
            made.push(self.named_number(other, &component.name, index, numbers)?)?;
        }
        Ok(made)
    }

    /// The numbers of values in the order of formals.
    fn named_formals(
        &self,
        other: usize,
        formals: &[FormalInfo],
        index: &WordIndex,
        numbers: &[usize],
    ) -> Result<Vec<usize>, AllocError>
        ensures { IfOk result (λ made. made.items
            ≡ map (λ w. number_at other numbers.now (occurs index.now w)) (map (λ f. f.name) formals.now)) }
    {
        let mut made = Vec::new(self.alloc);
        'formals: for formal in formals {
            made.push(self.named_number(other, &formal.name, index, numbers)?)?;
        }
        Ok(made)
    }

    /// The numbers of values in the order of what they are for, found by the index of arguments.
    fn indexed(
        &self,
        other: usize,
        role: Role,
        index: &WordIndex,
        numbers: &[usize],
    ) -> Result<Vec<usize>, AllocError>
        ensures { IfOk result (λ made. made.items
            ≡ map (λ w. number_at other numbers.now (occurs index.now w)) (role_names (here self.now.reader) role)) }
    {
        match role {
            Role::Parts { of } => {
                self.named_components(other, self.reader.fields(of), index, numbers)
            }
            Role::Actuals { of } => {
                self.named_formals(other, self.reader.formals(of), index, numbers)
            }
            Role::Allocated { .. } | Role::Every { .. } => Ok(Vec::new(self.alloc)),
        }
    }

    /// The numbers of values in the order of what they are for.
    fn named(
        &self,
        other: usize,
        role: Role,
        args: usize,
        numbers: &[usize],
    ) -> Result<Vec<usize>, AllocError>
        requires { args < length self.now.reader.rows.now.0 }
        ensures { IfOk result (λ made. made.items
            ≡ map (λ w. named_number other w (given_names (tree_at self.now.reader.rows.now args)) numbers.now) (role_names (here self.now.reader) role)) }
    {
        let index = self.reader.given_index(args)?;
        self.indexed(other, role, &index, numbers)
    }

    /// Adds the list of values in the order of what they are for.
    fn in_order(
        &self,
        role: Role,
        args: usize,
        values: &[usize],
        to: &mut TypedRows,
    ) -> Result<usize, AllocError>
        requires args { args < length self.now.reader.rows.now.0 }
        requires values { All (λ i. i < length to.old.0) values.now }
        ensures tree { IfOk result (λ n. Holds to.new n
            (arguments_given (here self.now.reader) role (tree_at self.now.reader.rows.now args) (map (typed_at to.old) values.now))) }
        ensures grew { Grew to.old to.new }
    {
        if self.reader.by_position(args) {
            return to.list(values);
        }
        let other = to.push(TypedNode::Null)?;
        let parts = self.named(other, role, args, values)?;
        to.list(&parts)
    }

    /// Adds the list of arguments.
    #[cycle(expression)]
    #[tactic(auto, using(typed_tree::proofs::Grown::grew_on))]
    pub fn arguments(
        &self,
        role: Role,
        args: usize,
        to: &mut TypedRows,
    ) -> Result<usize, AllocError>
        requires { args < length self.now.reader.rows.now.0 }
        ensures tree { IfOk result (λ n. Holds to.new n
            (arguments_given (here self.now.reader) role (tree_at self.now.reader.rows.now args)
            (typed_values (site self.now) role 0 (tree_at self.now.reader.rows.now args)))) }
        ensures grew { Grew to.old to.new }
    {
        let values = self.values(role, args, to)?;
        self.in_order(role, args, &values, to)
    }

    /// Adds the value of an allocator, or none.
    #[cycle(expression)]
    #[tactic(auto, using(typed_tree::proofs::Grown::grew_on))]
    pub fn allocated(&self, of: u32, args: usize, to: &mut TypedRows) -> Result<usize, AllocError>
        requires { args < length self.now.reader.rows.now.0 }
        ensures tree { IfOk result (λ n. Holds to.new n
            (typed_list (typed_values (site self.now) (Role.Allocated of) 0 (tree_at self.now.reader.rows.now args)))) }
        ensures grew { Grew to.old to.new }
    {
        let values = self.values(Role::Allocated { of }, args, to)?;
        to.list(&values)
    }

    /// Adds the actuals of a function, where such follow its name.
    #[cycle(expression)]
    #[tactic(auto, unfolding(typed_tree::specs::Expressions::typed_actuals))]
    pub fn actuals(&self, f: u32, rest: usize, to: &mut TypedRows) -> Result<usize, AllocError>
        requires { rest < length self.now.reader.rows.now.0 }
        ensures tree { IfOk result (λ n. Holds to.new n (typed_actuals (site self.now) f (tree_at self.now.reader.rows.now rest))) }
        ensures grew { Grew to.old to.new }
    {
        if let Node::More { first, .. } = self.reader.rows.node(rest) {
            if let Node::Applied { args } = self.reader.rows.node(*first) {
                return self.arguments(Role::Actuals { of: f }, *args, to);
            }
        }
        to.push(TypedNode::NoMore)
    }

    /// Adds the argument of Image.
    #[cycle(expression)]
    #[tactic(auto, unfolding(typed_tree::specs::Expressions::typed_imaged))]
    pub fn imaged(&self, rest: usize, to: &mut TypedRows) -> Result<usize, AllocError>
        requires { rest < length self.now.reader.rows.now.0 }
        ensures tree { IfOk result (λ n. Holds to.new n (typed_imaged (site self.now) (tree_at self.now.reader.rows.now rest))) }
        ensures grew { Grew to.old to.new }
    {
        if let Node::More { rest: behind, .. } = self.reader.rows.node(rest) {
            if let Node::More { first, .. } = self.reader.rows.node(*behind) {
                if let Node::Applied { args } = self.reader.rows.node(*first) {
                    return self.first(INTEGER, *args, to);
                }
            }
        }
        to.push(TypedNode::Null)
    }
}
