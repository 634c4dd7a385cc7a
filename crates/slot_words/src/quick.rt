//! The words of frequent expressions, without why there is none.
ghost use Rattle.std.specs.Prelude.{◌≡◌, ◌<◌, length, false, IfSome, Ok};
ghost use Rattle.code_rows.specs.Rows.{code_at};
ghost use Rattle.code_rows.specs.Stops.{shown};
ghost use Rattle.run_codes.specs.Codes.{Number, Local, Via, Scaled, Binary, IsNull};
ghost use Rattle.run_codes.specs.Lowered.{no_index};
ghost use Rattle.run_codes.specs.Flat as flat;
ghost use Rattle.run_codes.specs.Flat.{is_broken, Given};
ghost use Rattle.slot_words.specs.Reading.{Reads, Gives};

use crate::words;
use crate::words::{local, via_local};
use code_rows::{Node, Nodes, Stop};
use resolved_tree::Operator;
use run_values::Kind;
use slot_heap::Store;
use slot_memory::Memory;
use word_operators::{operated, scaled, truth};

/// What is given. None: it stops.
#[inline(always)]
fn given(word: Result<i64, Stop>) -> Option<i64>
    ensures { IfSome result (λ w. shown word ≡ Given w) }
{
    match word {
        Ok(word) => Some(word),
        Err(_) => None,
    }
}

/// Whether an operator takes a multiplication or a division.
#[inline(always)]
fn is_long(operator: Operator) -> bool {
    matches!(
        operator,
        Operator::Multiply | Operator::Divide | Operator::Modulo | Operator::Remainder
    )
}

/// The value of an operator that is quick. None: it isn't, or it stops.
#[inline(always)]
fn operate_quick(operator: Operator, left: i64, right: i64) -> Option<i64>
    requires { is_broken (flat.operated operator left right) ≡ false }
    ensures { IfSome result (λ w. flat.operated operator left right ≡ Given w) }
{
    if is_long(operator) {
        return None;
    }
    given(operated(operator, left, right))
}

/// An index between bounds, as an offset. None: it stops.
#[inline(always)]
fn scale(index: i64, low: i32, high: i32, size: u32) -> Option<i64>
    requires { is_broken (flat.scaled low high size index) ≡ false }
    ensures { IfSome result (λ w. flat.scaled low high size index ≡ Given w) }
{
    given(scaled(index, low, high, size))
}

/// The value of an operator. None: it stops.
#[inline(always)]
fn operate(operator: Operator, left: i64, right: i64) -> Option<i64>
    requires { is_broken (flat.operated operator left right) ≡ false }
    ensures { IfSome result (λ w. flat.operated operator left right ≡ Given w) }
{
    given(operated(operator, left, right))
}

// ---- one operator at most

/// A word of the cell that a word of the frame designates. None: it stops.
#[inline(always)]
fn given_behind<R: Store>(memory: &Memory<R>, from: u32, at: u32, kind: Kind) -> Option<i64>
    requires { Reads R.Means memory.now (Via (Local from no_index) at no_index kind) }
    ensures { IfSome result (λ w. Gives R.Means memory.now (Via (Local from no_index) at no_index kind) (Ok w)) }
{
    match via_local(memory, from, at, kind) {
        Ok(word) => Some(word),
        Err(_) => None,
    }
}

/// A word of the frame, or a word of the cell that one designates. None: it is another expression, or
/// it stops.
#[inline(always)]
fn variable<R: Store>(nodes: &Nodes, memory: &Memory<R>, n: u32) -> Option<i64>
    requires there { n < length nodes.now }
    requires whole { Reads R.Means memory.now (code_at nodes.now n) }
    ensures { IfSome result (λ w. Gives R.Means memory.now (code_at nodes.now n) (Ok w)) }
{
    let node = nodes.node(n);
    if let Node::Local { at } = node {
        return Some(local(memory, at));
    }
    if let Node::ViaLocal { local, at, kind } = node {
        return given_behind(memory, local, at, kind);
    }
    None
}

/// Such a word, or a number. None: it is another expression, or it stops.
#[inline(always)]
fn leaf<R: Store>(nodes: &Nodes, memory: &Memory<R>, n: u32) -> Option<i64>
    requires there { n < length nodes.now }
    requires whole { Reads R.Means memory.now (code_at nodes.now n) }
    ensures { IfSome result (λ w. Gives R.Means memory.now (code_at nodes.now n) (Ok w)) }
{
    if let Node::Number { value } = nodes.node(n) {
        return Some(value as i64);
    }
    variable(nodes, memory, n)
}

/// An operator with two words of the frame or of cells.
#[inline(always)]
#[tactic(auto, using(crate::proofs::Operands::binary_rules))]
fn leaves<R: Store>(
    nodes: &Nodes,
    memory: &Memory<R>,
    operator: Operator,
    left: u32,
    right: u32,
) -> Option<i64>
    requires left { left < length nodes.now }
    requires right { right < length nodes.now }
    requires whole { Reads R.Means memory.now (Binary operator (code_at nodes.now left) (code_at nodes.now right)) }
    ensures { IfSome result (λ w. Gives R.Means memory.now (Binary operator (code_at nodes.now left) (code_at nodes.now right)) (Ok w)) }
{
    let left = variable(nodes, memory, left)?;
    let right = variable(nodes, memory, right)?;
    operate_quick(operator, left, right)
}

/// Such an access value compared with `null`.
#[inline(always)]
#[tactic(auto, using(crate::proofs::Operators::null_rules))]
fn leaf_is_null<R: Store>(
    nodes: &Nodes,
    memory: &Memory<R>,
    equal: bool,
    pointer: u32,
) -> Option<i64>
    requires there { pointer < length nodes.now }
    requires whole { Reads R.Means memory.now (IsNull equal (code_at nodes.now pointer)) }
    ensures { IfSome result (λ w. Gives R.Means memory.now (IsNull equal (code_at nodes.now pointer)) (Ok w)) }
{
    let pointer = variable(nodes, memory, pointer)?;
    Some(truth((pointer == 0) == equal))
}

/// The same, as an expression. None: it is another one, or it stops.
#[inline(always)]
fn compared<R: Store>(nodes: &Nodes, memory: &Memory<R>, n: u32) -> Option<i64>
    requires there { n < length nodes.now }
    requires whole { Reads R.Means memory.now (code_at nodes.now n) }
    ensures { IfSome result (λ w. Gives R.Means memory.now (code_at nodes.now n) (Ok w)) }
{
    if let Node::IsNull { equal, pointer } = nodes.node(n) {
        return leaf_is_null(nodes, memory, equal, pointer);
    }
    None
}

/// All of these. Nothing is called here, so that no registers are saved.
#[inline(never)]
fn simple<R: Store>(nodes: &Nodes, memory: &Memory<R>, n: u32) -> Option<i64>
    requires there { n < length nodes.now }
    requires whole { Reads R.Means memory.now (code_at nodes.now n) }
    ensures { IfSome result (λ w. Gives R.Means memory.now (code_at nodes.now n) (Ok w)) }
{
    let node = nodes.node(n);
    if let Node::IsNull { equal, pointer } = node {
        return leaf_is_null(nodes, memory, equal, pointer);
    }
    if let Node::Binary {
        operator,
        left,
        right,
    } = node
    {
        return leaves(nodes, memory, operator, left, right);
    }
    leaf(nodes, memory, n)
}

// ---- more operators

/// One of these words, or an operator with two of them.
#[inline(always)]
fn term<R: Store>(nodes: &Nodes, memory: &Memory<R>, n: u32) -> Option<i64>
    requires there { n < length nodes.now }
    requires whole { Reads R.Means memory.now (code_at nodes.now n) }
    ensures { IfSome result (λ w. Gives R.Means memory.now (code_at nodes.now n) (Ok w)) }
{
    if let Node::Binary {
        operator,
        left,
        right,
    } = nodes.node(n)
    {
        return leaves(nodes, memory, operator, left, right);
    }
    variable(nodes, memory, n)
}

/// An operator with such an operand on the left, and a number on the right.
#[inline(never)]
#[tactic(auto, using(crate::proofs::Operands::binary_rules, crate::proofs::Leaves::number_gives))]
fn term_with<R: Store>(
    nodes: &Nodes,
    memory: &Memory<R>,
    operator: Operator,
    left: u32,
    right: i32,
) -> Option<i64>
    requires there { left < length nodes.now }
    requires whole { Reads R.Means memory.now (Binary operator (code_at nodes.now left) (Number right)) }
    ensures { IfSome result (λ w. Gives R.Means memory.now (Binary operator (code_at nodes.now left) (Number right)) (Ok w)) }
{
    let left = term(nodes, memory, left)?;
    operate(operator, left, right as i64)
}

/// The word of an expression with two operators at most. None: it is another one, or it stops.
#[inline(always)]
fn shallow<R: Store>(nodes: &Nodes, memory: &Memory<R>, n: u32) -> Option<i64>
    requires there { n < length nodes.now }
    requires whole { Reads R.Means memory.now (code_at nodes.now n) }
    ensures { IfSome result (λ w. Gives R.Means memory.now (code_at nodes.now n) (Ok w)) }
{
    if let Node::WithNumber {
        operator,
        left,
        right,
    } = nodes.node(n)
    {
        return term_with(nodes, memory, operator, left, right);
    }
    simple(nodes, memory, n)
}

/// An operator with two operands.
#[cycle(quick)]
#[tactic(auto, using(crate::proofs::Operands::binary_rules))]
fn binary<R: Store>(
    nodes: &Nodes,
    memory: &Memory<R>,
    operator: Operator,
    left: u32,
    right: u32,
) -> Option<i64>
    requires left { left < length nodes.now }
    requires right { right < length nodes.now }
    requires whole { Reads R.Means memory.now (Binary operator (code_at nodes.now left) (code_at nodes.now right)) }
    ensures { IfSome result (λ w. Gives R.Means memory.now (Binary operator (code_at nodes.now left) (code_at nodes.now right)) (Ok w)) }
{
    let left = quick(nodes, memory, left)?;
    let right = quick(nodes, memory, right)?;
    operate(operator, left, right)
}

/// An operator with a number on the right.
#[cycle(quick)]
#[tactic(auto, using(crate::proofs::Operands::binary_rules, crate::proofs::Leaves::number_gives))]
fn with_number<R: Store>(
    nodes: &Nodes,
    memory: &Memory<R>,
    operator: Operator,
    left: u32,
    right: i32,
) -> Option<i64>
    requires there { left < length nodes.now }
    requires whole { Reads R.Means memory.now (Binary operator (code_at nodes.now left) (Number right)) }
    ensures { IfSome result (λ w. Gives R.Means memory.now (Binary operator (code_at nodes.now left) (Number right)) (Ok w)) }
{
    let left = quick(nodes, memory, left)?;
    operate(operator, left, right as i64)
}

/// An index between bounds, as an offset.
#[cycle(quick)]
#[tactic(auto, using(crate::proofs::Operators::element_rules))]
fn element<R: Store>(
    nodes: &Nodes,
    memory: &Memory<R>,
    index: u32,
    low: i32,
    high: i32,
    size: u32,
) -> Option<i64>
    requires there { index < length nodes.now }
    requires whole { Reads R.Means memory.now (Scaled (code_at nodes.now index) low high size) }
    ensures { IfSome result (λ w. Gives R.Means memory.now (Scaled (code_at nodes.now index) low high size) (Ok w)) }
{
    let index = quick(nodes, memory, index)?;
    scale(index, low, high, size)
}

/// The word at two offsets in the frame.
#[cycle(quick)]
#[tactic(auto, using(crate::proofs::Indexed::local_rules))]
fn local_at<R: Store>(nodes: &Nodes, memory: &Memory<R>, at: u32, index: u32) -> Option<i64>
    requires there { index < length nodes.now }
    requires whole { Reads R.Means memory.now (Local at (code_at nodes.now index)) }
    ensures { IfSome result (λ w. Gives R.Means memory.now (Local at (code_at nodes.now index)) (Ok w)) }
{
    let index = quick(nodes, memory, index)?;
    Some(memory.local_at(at, index))
}

/// All of these.
#[cycle(quick)]
#[inline(never)]
fn deep<R: Store>(nodes: &Nodes, memory: &Memory<R>, n: u32) -> Option<i64>
    requires there { n < length nodes.now }
    requires whole { Reads R.Means memory.now (code_at nodes.now n) }
    ensures { IfSome result (λ w. Gives R.Means memory.now (code_at nodes.now n) (Ok w)) }
{
    match nodes.node(n) {
        Node::Binary {
            operator,
            left,
            right,
        } => binary(nodes, memory, operator, left, right),
        Node::WithNumber {
            operator,
            left,
            right,
        } => with_number(nodes, memory, operator, left, right),
        Node::Scaled {
            index,
            low,
            high,
            size,
        } => element(nodes, memory, index, low, high, size),
        Node::LocalAt { at, index } => local_at(nodes, memory, at, index),
        _ => None,
    }
}

/// The word of a frequent expression. None: it is another one, or it stops.
#[cycle(quick)]
#[inline(always)]
fn quick<R: Store>(nodes: &Nodes, memory: &Memory<R>, n: u32) -> Option<i64>
    requires there { n < length nodes.now }
    requires whole { Reads R.Means memory.now (code_at nodes.now n) }
    ensures { IfSome result (λ w. Gives R.Means memory.now (code_at nodes.now n) (Ok w)) }
{
    match shallow(nodes, memory, n) {
        Some(word) => Some(word),
        None => deep(nodes, memory, n),
    }
}

/// The word that an expression gives, or why there is none: the same as `word`, and quicker for the
/// most frequent expressions.
#[inline(always)]
pub fn evaluate<R: Store>(nodes: &Nodes, memory: &Memory<R>, n: u32) -> Result<i64, Stop>
    requires there { n < length nodes.now }
    requires whole { Reads R.Means memory.now (code_at nodes.now n) }
    ensures { Gives R.Means memory.now (code_at nodes.now n) result }
{
    match quick(nodes, memory, n) {
        Some(word) => Ok(word),
        None => words::word(nodes, memory, n),
    }
}

/// The same, without a call where an access value is compared with `null`.
#[inline(always)]
pub fn evaluate_condition<R: Store>(nodes: &Nodes, memory: &Memory<R>, n: u32) -> Result<i64, Stop>
    requires there { n < length nodes.now }
    requires whole { Reads R.Means memory.now (code_at nodes.now n) }
    ensures { Gives R.Means memory.now (code_at nodes.now n) result }
{
    match compared(nodes, memory, n) {
        Some(word) => Ok(word),
        None => evaluate(nodes, memory, n),
    }
}
