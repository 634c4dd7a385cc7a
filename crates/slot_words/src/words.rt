//! The words that expressions give.
ghost use Rattle.std.specs.Prelude.{◌≡◌, ◌<◌, length, Ok};
ghost use Rattle.code_rows.specs.Rows.{code_at};
ghost use Rattle.run_codes.specs.Codes.{Number, Local, Global, Via, Scaled, Plus, Unary, Binary, Short, IsNull, Waiting};
ghost use Rattle.run_codes.specs.Lowered.{no_index};
ghost use Rattle.run_codes.specs.Flat.{decides};
ghost use Rattle.slot_words.specs.Reading.{Reads, Gives, ReadsNames, GivesNames, ReadsBehind, GivesBehind};

use code_rows::{Node, Nodes, Stop};
use resolved_tree::{Operator, UnaryOperator};
use run_values::Kind;
use slot_heap::Store;
use slot_memory::Memory;
use typed_tree::ShortCircuit;
use word_operators::{operated, operated_alone, plus, scaled, truth};

/// The word of a kind at an offset in the cell that an access value designates.
#[inline(always)]
pub(crate) fn behind<R: Store>(
    memory: &Memory<R>,
    pointer: i64,
    at: u64,
    kind: Kind,
) -> Result<i64, Stop>
    requires { ReadsBehind R.Means memory.now at kind pointer }
    ensures { GivesBehind R.Means memory.now at kind pointer result }
{
    memory.behind(pointer, at, kind)
}

/// The word at an offset in the frame.
#[inline(always)]
#[tactic(auto, using(crate::proofs::Leaves::local_given))]
pub(crate) fn local<R: Store>(memory: &Memory<R>, at: u32) -> i64
    requires { Reads R.Means memory.now (Local at no_index) }
    ensures { Gives R.Means memory.now (Local at no_index) (Ok result) }
{
    memory.local(at)
}

/// The word at an offset among the package objects.
#[inline(always)]
#[tactic(auto, using(crate::proofs::Leaves::global_given))]
fn global<R: Store>(memory: &Memory<R>, at: u32) -> i64
    requires { Reads R.Means memory.now (Global at no_index) }
    ensures { Gives R.Means memory.now (Global at no_index) (Ok result) }
{
    memory.global(at)
}

/// The word at an offset among those that the point takes.
#[inline(always)]
#[tactic(auto, using(crate::proofs::Leaves::waiting_given))]
fn waiting<R: Store>(memory: &Memory<R>, at: u32) -> i64
    requires { Reads R.Means memory.now (Waiting at) }
    ensures { Gives R.Means memory.now (Waiting at) (Ok result) }
{
    memory.waiting(at)
}

/// The word of the cell that a word of the frame designates.
#[inline(always)]
#[tactic(auto, using(crate::proofs::Behind::via_rules))]
pub(crate) fn via_local<R: Store>(
    memory: &Memory<R>,
    from: u32,
    at: u32,
    kind: Kind,
) -> Result<i64, Stop>
    requires { Reads R.Means memory.now (Via (Local from no_index) at no_index kind) }
    ensures { Gives R.Means memory.now (Via (Local from no_index) at no_index kind) result }
{
    let pointer = local(memory, from);
    behind(memory, pointer, at as u64, kind)
}

/// The word at two offsets in the frame.
#[cycle(word)]
#[tactic(auto, using(crate::proofs::Indexed::local_rules))]
fn local_at<R: Store>(nodes: &Nodes, memory: &Memory<R>, at: u32, index: u32) -> Result<i64, Stop>
    requires there { index < length nodes.now }
    requires whole { Reads R.Means memory.now (Local at (code_at nodes.now index)) }
    ensures { Gives R.Means memory.now (Local at (code_at nodes.now index)) result }
{
    let index = word(nodes, memory, index)?;
    Ok(memory.local_at(at, index))
}

/// The word at two offsets among the package objects.
#[cycle(word)]
#[tactic(auto, using(crate::proofs::Indexed::global_rules))]
fn global_at<R: Store>(nodes: &Nodes, memory: &Memory<R>, at: u32, index: u32) -> Result<i64, Stop>
    requires there { index < length nodes.now }
    requires whole { Reads R.Means memory.now (Global at (code_at nodes.now index)) }
    ensures { Gives R.Means memory.now (Global at (code_at nodes.now index)) result }
{
    let index = word(nodes, memory, index)?;
    Ok(memory.global_at(at, index))
}

/// The word at an offset in the cell that an access value designates.
#[cycle(word)]
#[tactic(auto, using(crate::proofs::Behind::via_rules))]
fn via<R: Store>(
    nodes: &Nodes,
    memory: &Memory<R>,
    pointer: u32,
    at: u32,
    kind: Kind,
) -> Result<i64, Stop>
    requires there { pointer < length nodes.now }
    requires whole { Reads R.Means memory.now (Via (code_at nodes.now pointer) at no_index kind) }
    ensures { Gives R.Means memory.now (Via (code_at nodes.now pointer) at no_index kind) result }
{
    let pointer = word(nodes, memory, pointer)?;
    behind(memory, pointer, at as u64, kind)
}

/// The word at two offsets in the cell that an access value designates.
#[cycle(word)]
#[tactic(auto, using(crate::proofs::Behind::via_at_rules))]
fn via_at<R: Store>(
    nodes: &Nodes,
    memory: &Memory<R>,
    pointer: u32,
    at: u32,
    index: u32,
    kind: Kind,
) -> Result<i64, Stop>
    requires there { pointer < length nodes.now }
    requires index { index < length nodes.now }
    requires whole { Reads R.Means memory.now (Via (code_at nodes.now pointer) at (code_at nodes.now index) kind) }
    ensures { Gives R.Means memory.now (Via (code_at nodes.now pointer) at (code_at nodes.now index) kind) result }
{
    let _named = names(nodes, memory, pointer)?;
    let index = word(nodes, memory, index)?;
    let pointer = word(nodes, memory, pointer)?;
    behind(memory, pointer, at as u64 + index.unsigned_abs(), kind)
}

/// An operator with two operands.
#[cycle(word)]
#[tactic(auto, using(crate::proofs::Operands::binary_rules))]
fn binary<R: Store>(
    nodes: &Nodes,
    memory: &Memory<R>,
    operator: Operator,
    left: u32,
    right: u32,
) -> Result<i64, Stop>
    requires left { left < length nodes.now }
    requires right { right < length nodes.now }
    requires whole { Reads R.Means memory.now (Binary operator (code_at nodes.now left) (code_at nodes.now right)) }
    ensures { Gives R.Means memory.now (Binary operator (code_at nodes.now left) (code_at nodes.now right)) result }
{
    let left = operand(nodes, memory, left)?;
    let right = operand(nodes, memory, right)?;
    operated(operator, left, right)
}

/// An operator with a number on the right.
#[cycle(word)]
#[tactic(auto, using(crate::proofs::Operands::binary_rules, crate::proofs::Leaves::number_gives))]
fn with_number<R: Store>(
    nodes: &Nodes,
    memory: &Memory<R>,
    operator: Operator,
    left: u32,
    right: i32,
) -> Result<i64, Stop>
    requires there { left < length nodes.now }
    requires whole { Reads R.Means memory.now (Binary operator (code_at nodes.now left) (Number right)) }
    ensures { Gives R.Means memory.now (Binary operator (code_at nodes.now left) (Number right)) result }
{
    let left = operand(nodes, memory, left)?;
    operated(operator, left, right as i64)
}

/// An operator with one operand.
#[cycle(word)]
#[tactic(auto, using(crate::proofs::Operators::unary_rules))]
fn unary<R: Store>(
    nodes: &Nodes,
    memory: &Memory<R>,
    operator: UnaryOperator,
    operand: u32,
) -> Result<i64, Stop>
    requires there { operand < length nodes.now }
    requires whole { Reads R.Means memory.now (Unary operator (code_at nodes.now operand)) }
    ensures { Gives R.Means memory.now (Unary operator (code_at nodes.now operand)) result }
{
    let operand = word(nodes, memory, operand)?;
    operated_alone(operator, operand)
}

/// Whether the left operand of a short circuit decides.
fn decides(operator: ShortCircuit, left: i64) -> bool
    ensures { result ≡ decides operator left }
{
    match operator {
        ShortCircuit::AndThen => left == 0,
        ShortCircuit::OrElse => left != 0,
    }
}

/// A short circuit.
#[cycle(word)]
#[tactic(auto, using(crate::proofs::Operands::short_rules))]
fn short<R: Store>(
    nodes: &Nodes,
    memory: &Memory<R>,
    operator: ShortCircuit,
    left: u32,
    right: u32,
) -> Result<i64, Stop>
    requires left { left < length nodes.now }
    requires right { right < length nodes.now }
    requires whole { Reads R.Means memory.now (Short operator (code_at nodes.now left) (code_at nodes.now right)) }
    ensures { Gives R.Means memory.now (Short operator (code_at nodes.now left) (code_at nodes.now right)) result }
{
    let left = word(nodes, memory, left)?;
    if decides(operator, left) {
        Ok(left)
    } else {
        word(nodes, memory, right)
    }
}

/// An access value compared with `null`.
#[cycle(word)]
#[tactic(auto, using(crate::proofs::Operators::null_rules))]
fn is_null<R: Store>(
    nodes: &Nodes,
    memory: &Memory<R>,
    equal: bool,
    pointer: u32,
) -> Result<i64, Stop>
    requires there { pointer < length nodes.now }
    requires whole { Reads R.Means memory.now (IsNull equal (code_at nodes.now pointer)) }
    ensures { Gives R.Means memory.now (IsNull equal (code_at nodes.now pointer)) result }
{
    let pointer = operand(nodes, memory, pointer)?;
    Ok(truth((pointer == 0) == equal))
}

/// An index between bounds, as an offset.
#[cycle(word)]
#[tactic(auto, using(crate::proofs::Operators::element_rules))]
fn element<R: Store>(
    nodes: &Nodes,
    memory: &Memory<R>,
    index: u32,
    low: i32,
    high: i32,
    size: u32,
) -> Result<i64, Stop>
    requires there { index < length nodes.now }
    requires whole { Reads R.Means memory.now (Scaled (code_at nodes.now index) low high size) }
    ensures { Gives R.Means memory.now (Scaled (code_at nodes.now index) low high size) result }
{
    let index = operand(nodes, memory, index)?;
    scaled(index, low, high, size)
}

/// The sum of two offsets.
#[cycle(word)]
#[tactic(auto, using(crate::proofs::Operands::sum_rules))]
fn sum<R: Store>(nodes: &Nodes, memory: &Memory<R>, left: u32, right: u32) -> Result<i64, Stop>
    requires left { left < length nodes.now }
    requires right { right < length nodes.now }
    requires whole { Reads R.Means memory.now (Plus (code_at nodes.now left) (code_at nodes.now right)) }
    ensures { Gives R.Means memory.now (Plus (code_at nodes.now left) (code_at nodes.now right)) result }
{
    let left = word(nodes, memory, left)?;
    let right = word(nodes, memory, right)?;
    Ok(plus(left, right))
}

/// The word that an expression gives, or why there is none.
#[cycle(word)]
#[tactic(auto, using(crate::proofs::Leaves::end_given))]
pub fn word<R: Store>(nodes: &Nodes, memory: &Memory<R>, n: u32) -> Result<i64, Stop>
    requires there { n < length nodes.now }
    requires whole { Reads R.Means memory.now (code_at nodes.now n) }
    ensures { Gives R.Means memory.now (code_at nodes.now n) result }
{
    match nodes.node(n) {
        Node::Number { value } => Ok(value as i64),
        Node::Local { at } => Ok(local(memory, at)),
        Node::LocalAt { at, index } => local_at(nodes, memory, at, index),
        Node::Global { at } => Ok(global(memory, at)),
        Node::GlobalAt { at, index } => global_at(nodes, memory, at, index),
        Node::Via { pointer, at, kind } => via(nodes, memory, pointer, at, kind),
        Node::ViaLocal { local, at, kind } => via_local(memory, local, at, kind),
        Node::ViaAt {
            pointer,
            at,
            index,
            kind,
        } => via_at(nodes, memory, pointer, at, index, kind),
        Node::Scaled {
            index,
            low,
            high,
            size,
        } => element(nodes, memory, index, low, high, size),
        Node::Plus { left, right } => sum(nodes, memory, left, right),
        Node::Unary { operator, operand } => unary(nodes, memory, operator, operand),
        Node::Binary {
            operator,
            left,
            right,
        } => binary(nodes, memory, operator, left, right),
        Node::WithNumber {
            operator,
            left,
            right,
        } => with_number(nodes, memory, operator, left, right),
        Node::Short {
            operator,
            left,
            right,
        } => short(nodes, memory, operator, left, right),
        Node::IsNull { equal, pointer } => is_null(nodes, memory, equal, pointer),
        Node::Waiting { at } => Ok(waiting(memory, at)),
        Node::EndOfFile => Ok(truth(memory.at_end())),
    }
}

/// The same, without a call for the most frequent expressions.
#[cycle(word)]
#[inline(always)]
pub fn operand<R: Store>(nodes: &Nodes, memory: &Memory<R>, n: u32) -> Result<i64, Stop>
    requires there { n < length nodes.now }
    requires whole { Reads R.Means memory.now (code_at nodes.now n) }
    ensures { Gives R.Means memory.now (code_at nodes.now n) result }
{
    let node = nodes.node(n);
    if let Node::Local { at } = node {
        return Ok(local(memory, at));
    }
    if let Node::ViaLocal { local, at, kind } = node {
        return via_local(memory, local, at, kind);
    }
    if let Node::Number { value } = node {
        return Ok(value as i64);
    }
    word(nodes, memory, n)
}

/// The indexes of a name, in order. They come before the name is followed.
#[cycle(word)]
#[tactic(auto, using(crate::proofs::Indexes::names_rules))]
pub(crate) fn names<R: Store>(nodes: &Nodes, memory: &Memory<R>, n: u32) -> Result<i64, Stop>
    requires there { n < length nodes.now }
    requires whole { ReadsNames R.Means memory.now (code_at nodes.now n) }
    ensures { GivesNames R.Means memory.now (code_at nodes.now n) result }
{
    match nodes.node(n) {
        Node::LocalAt { index, .. } => word(nodes, memory, index),
        Node::GlobalAt { index, .. } => word(nodes, memory, index),
        Node::Via { pointer, .. } => {
            names(nodes, memory, pointer)?;
            Ok(0)
        }
        Node::ViaAt { pointer, index, .. } => {
            names(nodes, memory, pointer)?;
            word(nodes, memory, index)
        }
        _ => Ok(0),
    }
}
