//! Operators, on words that are lowered.
ghost use Rattle.std.specs.Prelude.{◌≡◌, ◌<◌, IfSome, IsTrue, Some, length};
ghost use Rattle.machine.specs.Typed.{takes_whole, takes_truth, compares_words, is_not};
ghost use Rattle.run_codes.specs.Codes as codes;
ghost use Rattle.run_codes.specs.Lowered.{unary, binary, short_circuit, null_test};
ghost use Rattle.code_rows.specs.Rows.{is_below, code_of, code_at, Grew};
ghost use Rattle.run_lowering.specs.Found.{lowered_in};
ghost use Rattle.run_lowering.specs.Sorts.{sort_in};

use crate::found::Typed;
use crate::sorts::Sort;
use code_rows::{Node, Nodes};
use resolved_tree::{Operator, UnaryOperator};
use typed_tree::ShortCircuit;

/// Whether an operator takes values of Integer alone, and gives one.
fn takes_whole(operator: Operator) -> bool
    ensures { result ≡ takes_whole operator }
{
    matches!(
        operator,
        Operator::Add
            | Operator::Subtract
            | Operator::Multiply
            | Operator::Divide
            | Operator::Modulo
            | Operator::Remainder
    )
}

/// Whether an operator takes truths alone.
fn takes_truth(operator: Operator) -> bool
    ensures { result ≡ takes_truth operator }
{
    matches!(operator, Operator::And | Operator::Or | Operator::Xor)
}

/// Whether an operator compares words.
fn compares_words(operator: Operator) -> bool
    ensures { result ≡ compares_words operator }
{
    matches!(
        operator,
        Operator::Equal
            | Operator::NotEqual
            | Operator::Less
            | Operator::LessEqual
            | Operator::Greater
            | Operator::GreaterEqual
    )
}

/// Whether an operator is `not`.
fn is_not(operator: UnaryOperator) -> bool
    ensures { result ≡ is_not operator }
{
    matches!(operator, UnaryOperator::Not)
}

/// A node whose word has a sort.
pub(crate) fn typed(nodes: &mut Nodes, node: Node, sort: Sort, taken: usize) -> Option<Typed>
    requires { IsTrue (is_below (length nodes.old) node) }
    ensures code { IfSome result (λ t. code_at nodes.new t.node ≡ code_of (code_at nodes.old) node) }
    ensures sort { IfSome result (λ t. t.sort ≡ sort) }
    ensures there { IfSome result (λ t. t.node < length nodes.new) }
    ensures taken { IfSome result (λ t. t.taken ≡ taken) }
    ensures grew { Grew nodes.old nodes.new }
{
    let node = nodes.push(node)?;
    Some(Typed { node, sort, taken })
}

/// The node of a value of Integer.
pub(crate) fn whole(word: Typed) -> Option<u32>
    ensures is { IfSome result (λ n. n ≡ word.node) }
    ensures sort { IfSome result (λ n. word.sort ≡ Sort.Whole) }
{
    match word.sort {
        Sort::Whole => Some(word.node),
        _ => None,
    }
}

/// The sort of what an operator with one operand gives.
fn sort_alone(operator: UnaryOperator, operand: Sort) -> Option<Sort>
    ensures { (c : codes.Code) → IfSome result (λ s. unary operator (record { code = c; sort = sort_in operand }) ≡ Some (record { code = codes.Unary operator c; sort = sort_in s })) }
{
    match operand {
        Sort::Whole if !is_not(operator) => Some(Sort::Whole),
        Sort::Position if is_not(operator) => Some(Sort::Position),
        _ => None,
    }
}

/// The sort of what an operator with two operands gives.
fn sort_given(operator: Operator, left: Sort, right: Sort) -> Option<Sort>
    ensures { (a b : codes.Code) → IfSome result (λ s. binary operator (record { code = a; sort = sort_in left }) (record { code = b; sort = sort_in right })
        ≡ Some (record { code = codes.Binary operator a b; sort = sort_in s })) }
{
    match (left, right) {
        (Sort::Whole, Sort::Whole) => {
            if takes_whole(operator) {
                Some(Sort::Whole)
            } else if compares_words(operator) {
                Some(Sort::Position)
            } else {
                None
            }
        }
        (Sort::Position, Sort::Position) => {
            if takes_truth(operator) || compares_words(operator) {
                Some(Sort::Position)
            } else {
                None
            }
        }
        _ => None,
    }
}

/// An operator with one operand.
pub(crate) fn unary(nodes: &mut Nodes, operator: UnaryOperator, operand: Typed) -> Option<Typed>
    requires { operand.node < length nodes.old }
    ensures word { IfSome result (λ t. unary operator (lowered_in nodes.old operand) ≡ Some (lowered_in nodes.new t)) }
    ensures there { IfSome result (λ t. t.node < length nodes.new) }
    ensures taken { IfSome result (λ t. t.taken ≡ operand.taken) }
    ensures grew { Grew nodes.old nodes.new }
{
    let sort = sort_alone(operator, operand.sort)?;
    let node = Node::Unary {
        operator,
        operand: operand.node,
    };
    typed(nodes, node, sort, operand.taken)
}

/// The node of an operator with two operands, the right one often a number.
fn two(nodes: &Nodes, operator: Operator, left: u32, right: u32) -> Node
    requires left { left < length nodes.now }
    requires right { right < length nodes.now }
    ensures code { code_of (code_at nodes.now) result ≡ codes.Binary operator (code_at nodes.now left) (code_at nodes.now right) }
    ensures below { IsTrue (is_below (length nodes.now) result) }
{
    match nodes.node(right) {
        Node::Number { value } => Node::WithNumber {
            operator,
            left,
            right: value,
        },
        _ => Node::Binary {
            operator,
            left,
            right,
        },
    }
}

/// An operator with two operands that is no short circuit.
pub(crate) fn binary(
    nodes: &mut Nodes,
    operator: Operator,
    left: Typed,
    right: Typed,
) -> Option<Typed>
    requires left { left.node < length nodes.old }
    requires right { right.node < length nodes.old }
    ensures word { IfSome result (λ t. binary operator (lowered_in nodes.old left) (lowered_in nodes.old right) ≡ Some (lowered_in nodes.new t)) }
    ensures there { IfSome result (λ t. t.node < length nodes.new) }
    ensures taken { IfSome result (λ t. t.taken ≡ right.taken) }
    ensures grew { Grew nodes.old nodes.new }
{
    let sort = sort_given(operator, left.sort, right.sort)?;
    let node = two(nodes, operator, left.node, right.node);
    typed(nodes, node, sort, right.taken)
}

/// A short circuit.
pub(crate) fn short(
    nodes: &mut Nodes,
    operator: ShortCircuit,
    left: Typed,
    right: Typed,
) -> Option<Typed>
    requires left { left.node < length nodes.old }
    requires right { right.node < length nodes.old }
    ensures word { IfSome result (λ t. short_circuit operator (lowered_in nodes.old left) (lowered_in nodes.old right) ≡ Some (lowered_in nodes.new t)) }
    ensures there { IfSome result (λ t. t.node < length nodes.new) }
    ensures taken { IfSome result (λ t. t.taken ≡ right.taken) }
    ensures grew { Grew nodes.old nodes.new }
{
    match (left.sort, right.sort) {
        (Sort::Position, Sort::Position) => {
            let node = Node::Short {
                operator,
                left: left.node,
                right: right.node,
            };
            typed(nodes, node, Sort::Position, right.taken)
        }
        _ => None,
    }
}

/// An access value that is compared with `null`.
pub(crate) fn null_test(nodes: &mut Nodes, equal: bool, pointer: Typed) -> Option<Typed>
    requires { pointer.node < length nodes.old }
    ensures word { IfSome result (λ t. null_test equal (lowered_in nodes.old pointer) ≡ Some (lowered_in nodes.new t)) }
    ensures there { IfSome result (λ t. t.node < length nodes.new) }
    ensures taken { IfSome result (λ t. t.taken ≡ pointer.taken) }
    ensures grew { Grew nodes.old nodes.new }
{
    match pointer.sort {
        Sort::Pointer { .. } => {
            let node = Node::IsNull {
                equal,
                pointer: pointer.node,
            };
            typed(nodes, node, Sort::Position, pointer.taken)
        }
        _ => None,
    }
}
