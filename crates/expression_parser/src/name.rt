//! Identifiers, and names that are made of identifiers alone.
ghost use Rattle.token_reading.specs.Reading.{Reads};
ghost use Rattle.ada_grammar.specs.Expressions as readers;

use ada_lexer::Symbol;
use ada_tree::{Dotted, Identifier, NextDotted, NextPart, Word};
use spark_base::Listed;
use std::alloc::Global;
use token_reading::{Cursor, ReadFault, Side};

/// id (Ada 2012, 2.3).
#[tactic(auto, unfolding(ada_grammar::specs::Expressions::identifier))]
pub fn identifier(
    alloc: Global,
    tokens: &mut Cursor<'_, '_>,
    side: Side,
) -> Result<Identifier, ReadFault>
    ensures { Reads (readers.identifier side) tokens.old result tokens.new }
{
    let (pos, text) = tokens.identifier(alloc, side)?;
    Ok(Identifier {
        pos,
        text: Word::from_listed(text),
    })
}

/// `.` id (Ada 2012, 4.1.3).
#[tactic(auto, unfolding(ada_grammar::specs::Expressions::next_part))]
fn next_part(alloc: Global, tokens: &mut Cursor<'_, '_>, side: Side) -> Result<NextPart, ReadFault>
    ensures { Reads (readers.next_part side) tokens.old result tokens.new }
{
    let pos = tokens.symbol(side, Symbol::Dot)?;
    let name = identifier(alloc, tokens, side)?;
    Ok(NextPart::FurtherPart { pos, name })
}

/// {`.` id}
fn next_parts(
    alloc: Global,
    tokens: &mut Cursor<'_, '_>,
    side: Side,
) -> Result<Listed<NextPart>, ReadFault>
    ensures { Reads (readers.next_parts side) tokens.old result tokens.new }
{
    let mut all = Listed::new(alloc);
    'turns: while tokens.sees_symbol(Symbol::Dot) {
        all.push(next_part(alloc, tokens, side)?)?;
    }
    Ok(all)
}

/// dotted = id {`.` id}, and mark = dotted (Ada 2012, 3.2.2 and 4.1.3).
#[tactic(auto, unfolding(ada_grammar::specs::Expressions::dotted))]
pub fn dotted(alloc: Global, tokens: &mut Cursor<'_, '_>, side: Side) -> Result<Dotted, ReadFault>
    ensures { Reads (readers.dotted side) tokens.old result tokens.new }
{
    let first = identifier(alloc, tokens, side)?;
    let rest = next_parts(alloc, tokens, side)?;
    Ok(Dotted {
        pos: first.pos,
        first,
        rest,
    })
}

/// `,` dotted (Ada 2012, 8.4 and 10.1.2).
#[tactic(auto, unfolding(ada_grammar::specs::Expressions::next_dotted))]
fn next_dotted(alloc: Global, tokens: &mut Cursor<'_, '_>) -> Result<NextDotted, ReadFault>
    ensures { Reads readers.next_dotted tokens.old result tokens.new }
{
    let pos = tokens.symbol(Side::Apart, Symbol::Comma)?;
    let name = dotted(alloc, tokens, Side::Apart)?;
    Ok(NextDotted::FurtherDotted { pos, name })
}

/// {`,` dotted}
pub fn next_dotteds(
    alloc: Global,
    tokens: &mut Cursor<'_, '_>,
) -> Result<Listed<NextDotted>, ReadFault>
    ensures { Reads readers.next_dotteds tokens.old result tokens.new }
{
    let mut all = Listed::new(alloc);
    'turns: while tokens.sees_symbol(Symbol::Comma) {
        all.push(next_dotted(alloc, tokens)?)?;
    }
    Ok(all)
}
