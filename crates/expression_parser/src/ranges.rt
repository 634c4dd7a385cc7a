//! Ranges and choices.
ghost use Rattle.std.specs.Prelude.{◌≤◌};
ghost use Rattle.spark_base.specs.declared.limits.TheConstants.{NESTING};
ghost use Rattle.token_reading.specs.Reading.{Reads};
ghost use Rattle.ada_tree.specs.Lone.{dotted_or_name};
ghost use Rattle.ada_grammar.specs.Items as readers;
ghost use Rattle.expression_parser.specs.Parts.{ReadsAs, constraint_parts};

use crate::expression::expr;
use crate::parts::{Constraint, boxed};
use ada_lexer::{Reserved, Symbol};
use ada_tree::{Choice, Dotted, Expr, Name, NextChoice, Range};
use spark_base::{Boxed, Listed, Pos};
use std::alloc::Global;
use token_reading::{Cursor, ReadFault, Side};

/// `..` expr
fn to_high(
    alloc: Global,
    tokens: &mut Cursor<'_, '_>,
    depth: u32,
) -> Result<(Pos, Boxed<Expr>), ReadFault>
    ensures { Reads (readers.to_high depth) tokens.old result tokens.new }
{
    let dots = tokens.symbol(Side::Apart, Symbol::DoubleDot)?;
    let high = boxed(alloc, expr(alloc, tokens, depth))?;
    Ok((dots, high))
}

/// `range` expr `..` expr (Ada 2012, 3.5).
pub fn constraint(
    alloc: Global,
    tokens: &mut Cursor<'_, '_>,
    depth: u32,
) -> Result<Constraint, ReadFault>
    ensures { ReadsAs constraint_parts (readers.constraint depth) tokens.old result tokens.new }
{
    let range = tokens.word(Side::Apart, Reserved::KwRange)?;
    let low = boxed(alloc, expr(alloc, tokens, depth))?;
    let (dots, high) = to_high(alloc, tokens, depth)?;
    Ok(Constraint {
        range,
        low,
        dots,
        high,
    })
}

/// range = mark [`range` expr `..` expr], after the mark (Ada 2012, 3.2.2 and 3.6.1).
#[tactic(auto, unfolding(ada_grammar::specs::Items::marked_range))]
fn marked_range(
    alloc: Global,
    tokens: &mut Cursor<'_, '_>,
    depth: u32,
    pos: Pos,
    mark: Dotted,
) -> Result<Range, ReadFault>
    ensures { Reads (readers.marked_range depth pos mark) tokens.old result tokens.new }
{
    if tokens.sees_word(Reserved::KwRange) {
        let Constraint {
            range,
            low,
            dots,
            high,
        } = constraint(alloc, tokens, depth)?;
        return Ok(Range::Constrained {
            pos,
            mark,
            range,
            low,
            dots,
            high,
        });
    }
    Ok(Range::Marked { pos, mark })
}

/// range = mark [`range` expr `..` expr] | name `'` `range`, after the name that it begins with
/// (Ada 2012, 3.5 and 3.6.1).
fn named_range(
    alloc: Global,
    tokens: &mut Cursor<'_, '_>,
    depth: u32,
    pos: Pos,
    name: Name,
) -> Result<Range, ReadFault>
    ensures { Reads (readers.mark_or_attribute depth pos (dotted_or_name name)) tokens.old result tokens.new }
{
    match name.into_dotted(alloc)? {
        Ok(mark) => marked_range(alloc, tokens, depth, pos, mark),
        Err(name) => {
            let Some((name, apostrophe, range)) = name.split_range() else {
                return Err(ReadFault::Refused);
            };
            let name = Boxed::new(alloc, name)?;
            Ok(Range::RangeOf {
                pos,
                name,
                apostrophe,
                range,
            })
        }
    }
}

/// range = expr `..` expr | mark [`range` expr `..` expr] | name `'` `range` (Ada 2012, 3.5 and
/// 3.6.1).
#[tactic(auto, unfolding(ada_grammar::specs::Items::range))]
pub fn range(alloc: Global, tokens: &mut Cursor<'_, '_>, depth: u32) -> Result<Range, ReadFault>
    ensures { Reads (readers.range depth) tokens.old result tokens.new }
{
    let pos = tokens.position()?;
    let low = expr(alloc, tokens, depth)?;
    if tokens.sees_symbol(Symbol::DoubleDot) {
        let low = Boxed::new(alloc, low)?;
        let (dots, high) = to_high(alloc, tokens, depth)?;
        return Ok(Range::Bounds {
            pos,
            low,
            dots,
            high,
        });
    }
    let Some(name) = low.into_name() else {
        return Err(ReadFault::Refused);
    };
    named_range(alloc, tokens, depth, pos, name)
}

/// choice = expr [`..` expr] | `others` (Ada 2012, 3.8.1 and 5.4).
#[tactic(auto, unfolding(ada_grammar::specs::Items::choice))]
pub fn choice(alloc: Global, tokens: &mut Cursor<'_, '_>, depth: u32) -> Result<Choice, ReadFault>
    ensures { Reads (readers.choice depth) tokens.old result tokens.new }
{
    if tokens.sees_word(Reserved::KwOthers) {
        let pos = tokens.word(Side::Apart, Reserved::KwOthers)?;
        return Ok(Choice::Others { pos });
    }
    let pos = tokens.position()?;
    let value = boxed(alloc, expr(alloc, tokens, depth))?;
    if tokens.sees_symbol(Symbol::DoubleDot) {
        let (dots, high) = to_high(alloc, tokens, depth)?;
        return Ok(Choice::Interval {
            pos,
            low: value,
            dots,
            high,
        });
    }
    Ok(Choice::Value { pos, value })
}

/// `|` choice (Ada 2012, 5.4)
#[tactic(auto, unfolding(ada_grammar::specs::Items::next_choice))]
fn next_choice(
    alloc: Global,
    tokens: &mut Cursor<'_, '_>,
    depth: u32,
) -> Result<NextChoice, ReadFault>
    ensures { Reads (readers.next_choice depth) tokens.old result tokens.new }
{
    let pos = tokens.symbol(Side::Apart, Symbol::Bar)?;
    let choice = choice(alloc, tokens, depth)?;
    Ok(NextChoice::Bar { pos, choice })
}

/// {`|` choice} (Ada 2012, 5.4)
pub fn next_choices(
    alloc: Global,
    tokens: &mut Cursor<'_, '_>,
    depth: u32,
) -> Result<Listed<NextChoice>, ReadFault>
    requires { depth ≤ NESTING }
    ensures { Reads (readers.next_choices depth) tokens.old result tokens.new }
{
    let mut all = Listed::new(alloc);
    'turns: while tokens.sees_symbol(Symbol::Bar) {
        all.push(next_choice(alloc, tokens, depth)?)?;
    }
    Ok(all)
}
