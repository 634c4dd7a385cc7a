//! Expressions that only read, of one word, and where names lead.
ghost use Rattle.std.specs.Prelude.{◌≡◌, ◌+◌, ◌<◌, IfSome, IsTrue, Some, length};
ghost use Rattle.typed_tree.specs.Trees.{Binary, Unary};
ghost use Rattle.flow_paths.specs.Names.{waiting};
ghost use Rattle.machine.specs.Evaluate.{AsValue};
ghost use Rattle.run_codes.specs.Lowered.{lowered, led, place};
ghost use Rattle.code_rows.specs.Rows.{Grew};
ghost use Rattle.run_lowering.specs.Sites.{site, tree, use_of};
ghost use Rattle.run_lowering.specs.Steps.{indexed};
ghost use Rattle.run_lowering.specs.Found.{placed, is_there, lowered_in};

use crate::found::{Found, Typed};
use crate::operators::{binary, null_test, short, typed, unary};
use crate::site::Site;
use crate::sorts::Sort;
use code_rows::{Node, Nodes};
use resolved_tree::{Operator, UnaryOperator};
use typed_tree::{ShortCircuit, TypedNode};

/// The declaration of Boolean.
const BOOLEAN: u32 = 3;

impl<'p> Site<'p> {
    /// An expression that only reads, where so many values are taken before. What is of an owning type
    /// is looked at alone.
    #[cycle(word)]
    #[tactic(auto, unfolding(run_codes::specs::Lowered::lowered, flow_paths::specs::Names::waiting))]
    pub fn word(&self, nodes: &mut Nodes, k: usize, n: usize, looked_at: bool) -> Option<Typed>
        ensures word { IfSome result (λ t. lowered (site self.now) k (use_of looked_at) (tree self.now n) ≡ Some (lowered_in nodes.new t)) }
        ensures there { IfSome result (λ t. t.node < length nodes.new) }
        ensures taken { IfSome result (λ t. t.taken ≡ k + waiting (tree self.now n)) }
        ensures grew { Grew nodes.old nodes.new }
    {
        match self.rows.node(n) {
            TypedNode::Number { value } => {
                typed(nodes, Node::Number { value: *value }, Sort::Whole, k)
            }
            TypedNode::Literal { position } => {
                let value = i32::try_from(*position).ok()?;
                typed(nodes, Node::Number { value }, Sort::Position, k)
            }
            TypedNode::Name { .. } => self.name_word(nodes, k, n, looked_at),
            TypedNode::Call { sub, .. } => {
                let of = self.typing.result(*sub)?;
                self.waited(nodes, k, of)
            }
            TypedNode::EndOfFile => typed(nodes, Node::EndOfFile, Sort::Position, k),
            TypedNode::Parens { inner } => self.word(nodes, k, *inner, false),
            TypedNode::Unary { operator, operand } => {
                self.unary_word(nodes, k, *operator, *operand)
            }
            TypedNode::Binary {
                operator,
                left,
                right,
            } => self.binary_word(nodes, k, *operator, *left, *right),
            TypedNode::Short { .. } => self.short_word(nodes, k, n),
            TypedNode::IsNull { equal, name } => {
                let pointer = self.word(nodes, k, *name, true)?;
                null_test(nodes, *equal, pointer)
            }
            _ => None,
        }
    }

    /// An operator with one operand.
    #[cycle(word)]
    #[tactic(auto, unfolding(run_codes::specs::Lowered::lowered, flow_paths::specs::Names::waiting))]
    fn unary_word(
        &self,
        nodes: &mut Nodes,
        k: usize,
        operator: UnaryOperator,
        operand: usize,
    ) -> Option<Typed>
        ensures word { IfSome result (λ t. lowered (site self.now) k AsValue (Unary operator (tree self.now operand)) ≡ Some (lowered_in nodes.new t)) }
        ensures there { IfSome result (λ t. t.node < length nodes.new) }
        ensures taken { IfSome result (λ t. t.taken ≡ k + waiting (tree self.now operand)) }
        ensures grew { Grew nodes.old nodes.new }
    {
        let operand = self.word(nodes, k, operand, false)?;
        unary(nodes, operator, operand)
    }

    /// An operator with two operands that is no short circuit.
    #[cycle(word)]
    #[tactic(auto, using(code_rows::proofs::Grown::grew_on, code_rows::proofs::Grown::kept, code_rows::proofs::Grown::kept_there), unfolding(run_codes::specs::Lowered::lowered, flow_paths::specs::Names::waiting))]
    fn binary_word(
        &self,
        nodes: &mut Nodes,
        k: usize,
        operator: Operator,
        left: usize,
        right: usize,
    ) -> Option<Typed>
        ensures word { IfSome result (λ t. lowered (site self.now) k AsValue (Binary operator (tree self.now left) (tree self.now right)) ≡ Some (lowered_in nodes.new t)) }
        ensures there { IfSome result (λ t. t.node < length nodes.new) }
        ensures taken { IfSome result (λ t. t.taken ≡ k + (waiting (tree self.now left) + waiting (tree self.now right))) }
        ensures grew { Grew nodes.old nodes.new }
    {
        let left = self.word(nodes, k, left, false)?;
        let right = self.word(nodes, left.taken, right, false)?;
        binary(nodes, operator, left, right)
    }

    /// A short circuit. Where the right operand has a call, its value waits.
    #[cycle(word)]
    #[tactic(auto, using(code_rows::proofs::Grown::grew_on, code_rows::proofs::Grown::kept, code_rows::proofs::Grown::kept_there), unfolding(run_codes::specs::Lowered::lowered, flow_paths::specs::Names::waiting))]
    fn short_word(&self, nodes: &mut Nodes, k: usize, n: usize) -> Option<Typed>
        ensures word { IfSome result (λ t. lowered (site self.now) k AsValue (tree self.now n) ≡ Some (lowered_in nodes.new t)) }
        ensures there { IfSome result (λ t. t.node < length nodes.new) }
        ensures taken { IfSome result (λ t. t.taken ≡ k + waiting (tree self.now n)) }
        ensures grew { Grew nodes.old nodes.new }
    {
        let TypedNode::Short {
            operator,
            left,
            right,
            ..
        } = self.rows.node(n)
        else {
            return None;
        };
        if self.rows.has_call(*right) {
            return self.waited(nodes, k, BOOLEAN);
        }
        let left = self.word(nodes, k, *left, false)?;
        let right = self.word(nodes, left.taken, *right, false)?;
        short(nodes, *operator, left, right)
    }

    /// The word of a name.
    #[cycle(word)]
    #[tactic(auto, using(code_rows::proofs::Grown::grew_on), unfolding(run_codes::specs::Lowered::lowered, flow_paths::specs::Names::waiting))]
    fn name_word(&self, nodes: &mut Nodes, k: usize, n: usize, looked_at: bool) -> Option<Typed>
        ensures word { IfSome result (λ t. lowered (site self.now) k (use_of looked_at) (tree self.now n) ≡ Some (lowered_in nodes.new t)) }
        ensures there { IfSome result (λ t. t.node < length nodes.new) }
        ensures taken { IfSome result (λ t. t.taken ≡ k + waiting (tree self.now n)) }
        ensures grew { Grew nodes.old nodes.new }
    {
        let found = self.place(nodes, k, n)?;
        self.named(nodes, found, looked_at)
    }

    /// The place of a name, which is of the type that is kept of it.
    #[cycle(word)]
    #[tactic(auto, unfolding(flow_paths::specs::Names::waiting))]
    pub fn place(&self, nodes: &mut Nodes, k: usize, n: usize) -> Option<Found>
        ensures place { IfSome result (λ f. place (site self.now) k (tree self.now n) ≡ Some (placed nodes.new f)) }
        ensures there { IfSome result (λ f. IsTrue (is_there nodes.new f)) }
        ensures taken { IfSome result (λ f. f.taken ≡ k + waiting (tree self.now n)) }
        ensures grew { Grew nodes.old nodes.new }
    {
        let TypedNode::Name {
            object,
            steps,
            of,
            ..
        } = self.rows.node(n)
        else {
            return None;
        };
        let whole = self.object(*object, k)?;
        let found = self.led(nodes, whole, *steps)?;
        if found.of != *of {
            return None;
        }
        Some(found)
    }

    /// Where the steps of a name lead from a place.
    #[cycle(word)]
    #[tactic(auto, using(code_rows::proofs::Grown::grew_on), unfolding(run_codes::specs::Lowered::led, flow_paths::specs::Names::waiting, crate::specs::Steps::indexed))]
    fn led(&self, nodes: &mut Nodes, found: Found, steps: usize) -> Option<Found>
        requires { IsTrue (is_there nodes.old found) }
        ensures place { IfSome result (λ f. led (site self.now) found.taken (placed nodes.old found) (tree self.now steps) ≡ Some (placed nodes.new f)) }
        ensures there { IfSome result (λ f. IsTrue (is_there nodes.new f)) }
        ensures taken { IfSome result (λ f. f.taken ≡ found.taken + waiting (tree self.now steps)) }
        ensures grew { Grew nodes.old nodes.new }
    {
        match self.rows.node(steps) {
            TypedNode::Component { number, rest } => {
                let part = self.component(found, *number)?;
                self.led(nodes, part, *rest)
            }
            TypedNode::Designated { rest } => {
                let cell = self.designated(nodes, found)?;
                self.led(nodes, cell, *rest)
            }
            TypedNode::Element {
                index,
                low,
                high,
                rest,
            } => {
                let part = self.indexed(nodes, found, *index, *low, *high)?;
                self.led(nodes, part, *rest)
            }
            TypedNode::NoMore => Some(found),
            _ => None,
        }
    }

    /// The element of an array that an index leads to.
    #[cycle(word)]
    #[tactic(auto, using(code_rows::proofs::Grown::grew_on, crate::proofs::Founds::kept_found, crate::proofs::Founds::kept_placed))]
    fn indexed(
        &self,
        nodes: &mut Nodes,
        found: Found,
        index: usize,
        low: i32,
        high: i32,
    ) -> Option<Found>
        requires { IsTrue (is_there nodes.old found) }
        ensures place { IfSome result (λ f. indexed self.now.typing.table.now (placed nodes.old found) low high (lowered (site self.now) found.taken AsValue (tree self.now index)) ≡ Some (placed nodes.new f)) }
        ensures there { IfSome result (λ f. IsTrue (is_there nodes.new f)) }
        ensures taken { IfSome result (λ f. f.taken ≡ found.taken + waiting (tree self.now index)) }
        ensures grew { Grew nodes.old nodes.new }
    {
        let index = self.word(nodes, found.taken, index, false)?;
        self.element(nodes, found, index, low, high)
    }
}
