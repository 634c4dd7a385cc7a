//! Values of any type.
ghost use Rattle.std.specs.Prelude.{◌≡◌, ◌<◌, length, IsTrue};
ghost use Rattle.code_rows.specs.Rows.{code_at, place_of, is_place_below};
ghost use Rattle.code_rows.specs.Values.{fill_at, are_within};
ghost use Rattle.run_codes.specs.Codes as codes;
ghost use Rattle.slot_memory.specs.Memory.{elsewhere};
ghost use Rattle.slot_values.specs.Fillings.{Fillable, Filled};

use code_rows::{Fill, Fills, Nodes, Place, Stop};
use run_values::Kind;
use slot_hand::Hand;
use slot_heap::Store;
use slot_memory::Memory;
use slot_words::{operand, spot};
use type_layouts::Layouts;
use word_operators::within;

/// One scalar word within bounds.
#[inline(always)]
#[tactic(auto, using(crate::proofs::Scalars::checked_rules))]
fn checked<R: Store>(
    table: &Layouts,
    nodes: &Nodes,
    memory: &Memory<R>,
    hand: &mut Hand,
    value: u32,
    low: i32,
    high: i32,
) -> Result<(), Stop>
    requires there { value < length nodes.now }
    requires whole { Fillable R.Means memory.now table.now (codes.Checked (code_at nodes.now value) low high) }
    ensures { Filled R.Means memory.now table.now (codes.Checked (code_at nodes.now value) low high) result hand.old hand.new memory.now }
{
    let given = operand(nodes, memory, value)?;
    let kept = within(given, low, high)?;
    hand.push(kept)
}

/// An access value that is looked at.
#[inline(always)]
#[tactic(auto, using(crate::proofs::Scalars::looked_rules))]
fn looked_at<R: Store>(
    table: &Layouts,
    nodes: &Nodes,
    memory: &Memory<R>,
    hand: &mut Hand,
    value: u32,
) -> Result<(), Stop>
    requires there { value < length nodes.now }
    requires whole { Fillable R.Means memory.now table.now (codes.Pointer (code_at nodes.now value)) }
    ensures { Filled R.Means memory.now table.now (codes.Pointer (code_at nodes.now value)) result hand.old hand.new memory.now }
{
    let given = operand(nodes, memory, value)?;
    hand.push(given)
}

/// An access value that is moved out of its place.
#[inline(always)]
#[tactic(auto, using(crate::proofs::Places::pointer_rules))]
fn moved_pointer<R: Store>(
    table: &Layouts,
    nodes: &Nodes,
    memory: &mut Memory<R>,
    hand: &mut Hand,
    place: Place,
) -> Result<(), Stop>
    requires there { IsTrue (is_place_below (length nodes.now) place) }
    requires whole { Fillable R.Means memory.old table.now (codes.MovedPointer (place_of (code_at nodes.now) place)) }
    ensures made { Filled R.Means memory.old table.now (codes.MovedPointer (place_of (code_at nodes.now) place)) result hand.old hand.new memory.new }
    ensures elsewhere { elsewhere memory.new ≡ elsewhere memory.old }
{
    let found = spot(nodes, memory, place)?;
    let given = memory.word_at(found.same(), Kind::Access);
    memory.move_out(found.same(), &[0])?;
    hand.push(given)
}

/// What a place of a type holds.
#[tactic(auto, using(crate::proofs::Places::copied_rules))]
fn copied<R: Store>(
    table: &Layouts,
    nodes: &Nodes,
    memory: &Memory<R>,
    hand: &mut Hand,
    place: Place,
    of: u32,
) -> Result<(), Stop>
    requires there { IsTrue (is_place_below (length nodes.now) place) }
    requires whole { Fillable R.Means memory.now table.now (codes.Copied (place_of (code_at nodes.now) place) of) }
    ensures { Filled R.Means memory.now table.now (codes.Copied (place_of (code_at nodes.now) place) of) result hand.old hand.new memory.now }
{
    let found = spot(nodes, memory, place)?;
    hand.push_held(table, memory, found, of)
}

/// What a place of a type holds, whose access parts are moved out.
#[tactic(auto, using(crate::proofs::Places::moved_rules))]
fn moved<R: Store>(
    table: &Layouts,
    nodes: &Nodes,
    memory: &mut Memory<R>,
    hand: &mut Hand,
    place: Place,
    of: u32,
) -> Result<(), Stop>
    requires there { IsTrue (is_place_below (length nodes.now) place) }
    requires whole { Fillable R.Means memory.old table.now (codes.Moved (place_of (code_at nodes.now) place) of) }
    ensures made { Filled R.Means memory.old table.now (codes.Moved (place_of (code_at nodes.now) place) of) result hand.old hand.new memory.new }
    ensures elsewhere { elsewhere memory.new ≡ elsewhere memory.old }
{
    let found = spot(nodes, memory, place)?;
    hand.push_held(table, memory, found.same(), of)?;
    hand.move_out(table, memory, found.same(), of)
}

/// Words of the values that the point takes.
#[tactic(auto, using(crate::proofs::Scalars::waited_rules))]
fn waited<R: Store>(
    table: &Layouts,
    memory: &Memory<R>,
    hand: &mut Hand,
    at: u32,
    words: u32,
) -> Result<(), Stop>
    requires { Fillable R.Means memory.now table.now (codes.Waited at words) }
    ensures { Filled R.Means memory.now table.now (codes.Waited at words) result hand.old hand.new memory.now }
{
    hand.push_waiting(memory, at, words)
}

/// The words of an object of a type without a value.
#[tactic(auto, using(crate::proofs::Scalars::default_rules))]
fn defaults<R: Store>(
    table: &Layouts,
    memory: &Memory<R>,
    hand: &mut Hand,
    of: u32,
) -> Result<(), Stop>
    ensures { Filled R.Means memory.now table.now (codes.Default of) result hand.old hand.new memory.now }
{
    hand.push_default(table, of)
}

/// A new cell of a type with a value.
#[cycle(list)]
#[inline(never)]
#[tactic(auto, using(crate::proofs::Nested::new_rules))]
fn new<R: Store>(
    table: &Layouts,
    nodes: &Nodes,
    fills: &Fills,
    memory: &mut Memory<R>,
    hand: &mut Hand,
    value: u32,
    of: u32,
) -> Result<(), Stop>
    requires within { IsTrue (are_within nodes.now fills.now) }
    requires there { value < length fills.now }
    requires whole { Fillable R.Means memory.old table.now (codes.New (fill_at nodes.now fills.now value) of) }
    ensures made { Filled R.Means memory.old table.now (codes.New (fill_at nodes.now fills.now value) of) result hand.old hand.new memory.new }
    ensures elsewhere { elsewhere memory.new ≡ elsewhere memory.old }
{
    let from = hand.len();
    list(table, nodes, fills, memory, hand, value)?;
    hand.make(table, memory, of, from)
}

/// The same value so many times.
#[cycle(list)]
#[tactic(auto, using(crate::proofs::Nested::repeated_rules))]
fn repeated<R: Store>(
    table: &Layouts,
    nodes: &Nodes,
    fills: &Fills,
    memory: &mut Memory<R>,
    hand: &mut Hand,
    value: u32,
    count: u32,
) -> Result<(), Stop>
    requires within { IsTrue (are_within nodes.now fills.now) }
    requires there { value < length fills.now }
    requires whole { Fillable R.Means memory.old table.now (codes.Repeated (fill_at nodes.now fills.now value) count) }
    ensures made { Filled R.Means memory.old table.now (codes.Repeated (fill_at nodes.now fills.now value) count) result hand.old hand.new memory.new }
    ensures elsewhere { elsewhere memory.new ≡ elsewhere memory.old }
{
    let from = hand.len();
    nested(table, nodes, fills, memory, hand, value)?;
    hand.repeat(from, count)
}

/// One value after the other.
#[cycle(list)]
#[tactic(auto, using(crate::proofs::Nested::both_rules))]
fn both<R: Store>(
    table: &Layouts,
    nodes: &Nodes,
    fills: &Fills,
    memory: &mut Memory<R>,
    hand: &mut Hand,
    first: u32,
    second: u32,
) -> Result<(), Stop>
    requires within { IsTrue (are_within nodes.now fills.now) }
    requires first { first < length fills.now }
    requires second { second < length fills.now }
    requires whole { Fillable R.Means memory.old table.now (codes.Both (fill_at nodes.now fills.now first) (fill_at nodes.now fills.now second)) }
    ensures made { Filled R.Means memory.old table.now (codes.Both (fill_at nodes.now fills.now first) (fill_at nodes.now fills.now second)) result hand.old hand.new memory.new }
    ensures elsewhere { elsewhere memory.new ≡ elsewhere memory.old }
{
    nested(table, nodes, fills, memory, hand, first)?;
    nested(table, nodes, fills, memory, hand, second)
}

/// One value of a list: in place, unless it is made of others.
#[cycle(list)]
#[inline(always)]
#[tactic(auto, using(crate::proofs::Scalars::empty_makes))]
fn part<R: Store>(
    table: &Layouts,
    nodes: &Nodes,
    fills: &Fills,
    memory: &mut Memory<R>,
    hand: &mut Hand,
    n: u32,
) -> Result<(), Stop>
    requires within { IsTrue (are_within nodes.now fills.now) }
    requires there { n < length fills.now }
    requires whole { Fillable R.Means memory.old table.now (fill_at nodes.now fills.now n) }
    ensures made { Filled R.Means memory.old table.now (fill_at nodes.now fills.now n) result hand.old hand.new memory.new }
    ensures elsewhere { elsewhere memory.new ≡ elsewhere memory.old }
{
    match fills.fill(n, nodes) {
        Fill::Nothing => Ok(()),
        Fill::Checked { value, low, high } => {
            checked(table, nodes, memory, hand, value, low, high)
        }
        Fill::Pointer { value } => looked_at(table, nodes, memory, hand, value),
        Fill::MovedPointer { place } => moved_pointer(table, nodes, memory, hand, place),
        Fill::Copied { place, of } => copied(table, nodes, memory, hand, place, of),
        Fill::Moved { place, of } => moved(table, nodes, memory, hand, place, of),
        Fill::Waited { at, words } => waited(table, memory, hand, at, words),
        Fill::New { value, of } => new(table, nodes, fills, memory, hand, value, of),
        Fill::Default { of } => defaults(table, memory, hand, of),
        Fill::Repeated { value, count } => {
            repeated(table, nodes, fills, memory, hand, value, count)
        }
        Fill::Both { first, second } => both(table, nodes, fills, memory, hand, first, second),
    }
}

/// The values of a list, which is right nested, or another value.
#[cycle(list)]
#[inline(always)]
#[tactic(auto, using(crate::proofs::Nested::list_rules))]
fn list<R: Store>(
    table: &Layouts,
    nodes: &Nodes,
    fills: &Fills,
    memory: &mut Memory<R>,
    hand: &mut Hand,
    n: u32,
) -> Result<(), Stop>
    requires within { IsTrue (are_within nodes.now fills.now) }
    requires there { n < length fills.now }
    requires whole { Fillable R.Means memory.old table.now (fill_at nodes.now fills.now n) }
    ensures made { Filled R.Means memory.old table.now (fill_at nodes.now fills.now n) result hand.old hand.new memory.new }
    ensures elsewhere { elsewhere memory.new ≡ elsewhere memory.old }
{
    let mut rest = n;
    'values: while let Fill::Both { first, second } = fills.fill(rest, nodes) {
        part(table, nodes, fills, memory, hand, first)?;
        rest = second;
    }
    part(table, nodes, fills, memory, hand, rest)
}

/// The same, by a call.
#[cycle(list)]
#[inline(never)]
fn nested<R: Store>(
    table: &Layouts,
    nodes: &Nodes,
    fills: &Fills,
    memory: &mut Memory<R>,
    hand: &mut Hand,
    n: u32,
) -> Result<(), Stop>
    requires within { IsTrue (are_within nodes.now fills.now) }
    requires there { n < length fills.now }
    requires whole { Fillable R.Means memory.old table.now (fill_at nodes.now fills.now n) }
    ensures made { Filled R.Means memory.old table.now (fill_at nodes.now fills.now n) result hand.old hand.new memory.new }
    ensures elsewhere { elsewhere memory.new ≡ elsewhere memory.old }
{
    list(table, nodes, fills, memory, hand, n)
}

/// Makes a value: its words are appended to those at hand.
#[inline(always)]
pub fn fill<R: Store>(
    table: &Layouts,
    nodes: &Nodes,
    fills: &Fills,
    memory: &mut Memory<R>,
    hand: &mut Hand,
    n: u32,
) -> Result<(), Stop>
    requires within { IsTrue (are_within nodes.now fills.now) }
    requires there { n < length fills.now }
    requires whole { Fillable R.Means memory.old table.now (fill_at nodes.now fills.now n) }
    ensures made { Filled R.Means memory.old table.now (fill_at nodes.now fills.now n) result hand.old hand.new memory.new }
    ensures elsewhere { elsewhere memory.new ≡ elsewhere memory.old }
{
    if let Fill::New { value, of } = fills.fill(n, nodes) {
        return new(table, nodes, fills, memory, hand, value, of);
    }
    nested(table, nodes, fills, memory, hand, n)
}
