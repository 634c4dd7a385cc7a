//! The suffixes of names, as steps.
ghost use Rattle.std.specs.Prelude.{◌≡◌, ◌<◌, length, IfOk};
ghost use Rattle.resolved_tree.specs.Nodes.{tree_at};
ghost use Rattle.type_definitions.specs.Types.{fields};
ghost use Rattle.type_definitions.specs.Names.{through};
ghost use Rattle.type_definitions.specs.Expressions.{next_type};
ghost use Rattle.expression_types.specs.Here.{here};
ghost use Rattle.typed_tree.specs.Nodes.{typed_at, Grew, Holds};
ghost use Rattle.typed_tree.specs.Expressions.{component_number, designating, element, typed_first, typed_step, typed_steps};
ghost use Rattle.typed_expressions.specs.Sites.{site};
ghost use Rattle.typed_expressions.specs.Stations.{stations, Stand};

use crate::writer::Writer;
use ada_tree::Word;
use expression_types::INTEGER;
use resolved_tree::Node;
use std::alloc::AllocError;
use type_definitions::{Next, View};
use typed_tree::{TypedNode, TypedRows};

/// A suffix of a name, and the type that it starts from.
#[derive(Clone, Copy)]
pub struct Station {
    pub suffix: usize,
    pub of: u32,
}

/// What a selector or an index starts from: of an access value, what it designates.
fn through(view: View, t: u32) -> u32
    ensures { result ≡ through view t }
{
    match view {
        View::Access { designated, .. } => designated,
        _ => t,
    }
}

/// The type that a step leads to, or Integer.
fn next_type(next: Next) -> u32
    ensures { result ≡ next_type next }
{
    match next {
        Next::Goes { of } => of,
        _ => INTEGER,
    }
}

/// Adds an implicit dereference in front of steps from an access value.
fn designating(view: View, steps: usize, to: &mut TypedRows) -> Result<usize, AllocError>
    requires { steps < length to.old.0 }
    ensures tree { IfOk result (λ n. Holds to.new n (designating view (typed_at to.old steps))) }
    ensures grew { Grew to.old to.new }
{
    match view {
        View::Access { .. } => to.push(TypedNode::Designated { rest: steps }),
        _ => Ok(steps),
    }
}

/// Adds a step to an element.
fn element(view: View, index: usize, behind: usize, to: &mut TypedRows) -> Result<usize, AllocError>
    requires index { index < length to.old.0 }
    requires behind { behind < length to.old.0 }
    ensures tree { IfOk result (λ n. Holds to.new n (element view (typed_at to.old index) (typed_at to.old behind))) }
    ensures grew { Grew to.old to.new }
{
    match view {
        View::Elements { low, high, .. } => to.push(TypedNode::Element {
            index,
            low,
            high,
            rest: behind,
        }),
        _ => Ok(behind),
    }
}

impl<'p> Writer<'p> {
    /// The suffixes of a name, each with the type that it starts from.
    #[tactic(auto, unfolding(crate::specs::Stations::stations))]
    fn stations(&self, t: u32, rest: usize) -> Result<Vec<Station>, AllocError>
        requires { rest < length self.now.reader.rows.now.0 }
        ensures { IfOk result (λ made.
            Stand self.now.reader.rows.now rest made.items (stations (here self.now.reader) t (tree_at self.now.reader.rows.now rest))) }
    {
        let mut found = Vec::new(self.alloc);
        let mut of = t;
        let mut i = rest;
        'suffixes: while let Node::More { first, rest } = self.reader.rows.node(i) {
            found.push(Station { suffix: *first, of })?;
            of = next_type(self.reader.step(*first, of));
            i = *rest;
        }
        Ok(found)
    }

    /// The number of the component of a type with an identifier. More than four billion components
    /// count as too little memory.
    fn component_number(&self, t: u32, word: &Word) -> Result<u32, AllocError>
        ensures { IfOk result (λ n. n ≡ component_number word.now (fields self.now.reader.known.now.table t)) }
    {
        match u32::try_from(self.reader.component_number(t, word)) {
            Ok(number) => Ok(number),
            Err(_) => Err(AllocError),
        }
    }

    /// Adds the steps from a type on.
    #[cycle(expression)]
    #[tactic(auto, using(crate::proofs::Steps::steps_are, crate::proofs::Steps::station_step, typed_tree::proofs::Grown::grew_on, typed_tree::proofs::Grown::kept))]
    pub fn steps(&self, t: u32, rest: usize, to: &mut TypedRows) -> Result<usize, AllocError>
        requires { rest < length self.now.reader.rows.now.0 }
        ensures tree { IfOk result (λ n. Holds to.new n (typed_steps (site self.now) t (tree_at self.now.reader.rows.now rest))) }
        ensures grew { Grew to.old to.new }
    {
        let found = self.stations(t, rest)?;
        let mut made = to.push(TypedNode::NoMore)?;
        let mut left = found.len();
        'turns: while left > 0 {
            left -= 1;
            let station = found[left];
            made = self.step(station.of, station.suffix, made, to)?;
        }
        Ok(made)
    }

    /// Adds one step, in front of those that follow it.
    #[cycle(expression)]
    #[tactic(auto, using(typed_tree::proofs::Grown::grew_on, typed_tree::proofs::Grown::kept), unfolding(typed_tree::specs::Expressions::typed_step))]
    fn step(
        &self,
        t: u32,
        suffix: usize,
        behind: usize,
        to: &mut TypedRows,
    ) -> Result<usize, AllocError>
        requires suffix { suffix < length self.now.reader.rows.now.0 }
        requires behind { behind < length to.old.0 }
        ensures tree { IfOk result (λ n. Holds to.new n
            (typed_step (site self.now) t (tree_at self.now.reader.rows.now suffix) (typed_at to.old behind))) }
        ensures grew { Grew to.old to.new }
    {
        let view = self.reader.seen(t);
        match self.reader.rows.node(suffix) {
            Node::Selected { selector } => {
                let number = self.component_number(through(view, t), selector)?;
                let steps = to.push(TypedNode::Component {
                    number,
                    rest: behind,
                })?;
                designating(view, steps, to)
            }
            Node::All => to.push(TypedNode::Designated { rest: behind }),
            Node::Applied { args } => {
                let index = self.first(INTEGER, *args, to)?;
                let array = self.reader.seen(through(view, t));
                let steps = element(array, index, behind, to)?;
                designating(view, steps, to)
            }
            _ => Ok(behind),
        }
    }

    /// Adds the expression of an argument that stands alone.
    #[cycle(expression)]
    #[tactic(auto, unfolding(typed_tree::specs::Expressions::typed_first))]
    pub fn first(&self, want: u32, args: usize, to: &mut TypedRows) -> Result<usize, AllocError>
        requires { args < length self.now.reader.rows.now.0 }
        ensures tree { IfOk result (λ n. Holds to.new n (typed_first (site self.now) want (tree_at self.now.reader.rows.now args))) }
        ensures grew { Grew to.old to.new }
    {
        match self.reader.rows.node(args) {
            Node::Argument { value, .. } => self.expression(want, *value, to),
            _ => to.push(TypedNode::Null),
        }
    }
}
