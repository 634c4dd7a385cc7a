//! Items, the declarations that stand in each declarative part.
ghost use Rattle.std.specs.Prelude.{◌≤◌};
ghost use Rattle.spark_base.specs.declared.limits.TheConstants.{NESTING};
ghost use Rattle.token_reading.specs.Reading.{Reads};
ghost use Rattle.ada_grammar.specs.Items as readers;
ghost use Rattle.expression_parser.specs.Parts.{ReadsAs};
ghost use Rattle.statement_parser.specs.Parts as parts;

use crate::clause::{indication, next_identifiers, pragma, use_clause};
use crate::parts::Actuals;
use crate::type_item::type_item;
use ada_lexer::{Reserved, Symbol};
use ada_tree::{Expr, Identifier, Item, NextIdentifier};
use expression_parser::{
    Constraint, arg_at, boxed, constraint, dotted, expr, identifier, next_args_at,
};
use spark_base::{Boxed, Listed, Pos};
use std::alloc::Global;
use token_reading::{Cursor, Kind, ReadFault, Side};

/// [`range` expr `..` expr] `;` (Ada 2012, 3.2.2)
fn subtype_end(
    alloc: Global,
    tokens: &mut Cursor<'_, '_>,
    depth: u32,
) -> Result<(Option<Constraint>, Pos), ReadFault>
    ensures { ReadsAs parts.subtype_end (readers.subtype_end depth) tokens.old result tokens.new }
{
    if tokens.sees_word(Reserved::KwRange) {
        let constraint = constraint(alloc, tokens, depth)?;
        let semicolon = tokens.symbol(Side::Apart, Symbol::Semicolon)?;
        return Ok((Some(constraint), semicolon));
    }
    let semicolon = tokens.symbol(Side::Apart, Symbol::Semicolon)?;
    Ok((None, semicolon))
}

/// subtype = `subtype` id `is` mark [`range` expr `..` expr] `;` (Ada 2012, 3.2.2).
#[tactic(auto, unfolding(ada_grammar::specs::Items::subtype_item))]
fn subtype_item(alloc: Global, tokens: &mut Cursor<'_, '_>, depth: u32) -> Result<Item, ReadFault>
    ensures { Reads (readers.subtype_item depth) tokens.old result tokens.new }
{
    let pos = tokens.word(Side::Apart, Reserved::KwSubtype)?;
    let name = identifier(alloc, tokens, Side::Apart)?;
    let is = tokens.word(Side::Apart, Reserved::KwIs)?;
    let mark = dotted(alloc, tokens, Side::Apart)?;
    let (constraint, semicolon) = subtype_end(alloc, tokens, depth)?;
    match constraint {
        None => Ok(Item::Subtype {
            pos,
            name,
            is,
            mark,
            semicolon,
        }),
        Some(constraint) => Ok(Item::ConstrainedSubtype {
            pos,
            name,
            is,
            mark,
            range: constraint.range,
            low: constraint.low,
            dots: constraint.dots,
            high: constraint.high,
            semicolon,
        }),
    }
}

/// [`:=` expr] `;` (Ada 2012, 3.3.1)
fn object_end(
    alloc: Global,
    tokens: &mut Cursor<'_, '_>,
    depth: u32,
) -> Result<(Option<(Pos, Boxed<Expr>)>, Pos), ReadFault>
    ensures { Reads (readers.object_end depth) tokens.old result tokens.new }
{
    if tokens.sees_symbol(Symbol::Becomes) {
        let becomes = tokens.symbol(Side::Apart, Symbol::Becomes)?;
        let value = boxed(alloc, expr(alloc, tokens, depth))?;
        let semicolon = tokens.symbol(Side::Apart, Symbol::Semicolon)?;
        return Ok((Some((becomes, value)), semicolon));
    }
    let semicolon = tokens.symbol(Side::Apart, Symbol::Semicolon)?;
    Ok((None, semicolon))
}

/// object = id {`,` id} `:` [`constant`] (mark | anon) [`:=` expr] `;`, after [`constant`] (Ada
/// 2012, 3.3.1).
#[tactic(auto, unfolding(ada_grammar::specs::Items::objects))]
fn objects(
    alloc: Global,
    tokens: &mut Cursor<'_, '_>,
    depth: u32,
    first: Identifier,
    rest: Listed<NextIdentifier>,
    colon: Pos,
    constant: Option<Pos>,
) -> Result<Item, ReadFault>
    ensures { Reads (readers.objects depth first rest colon constant) tokens.old result tokens.new }
{
    let indication = indication(alloc, tokens)?;
    let (value, semicolon) = object_end(alloc, tokens, depth)?;
    match value {
        None => Ok(Item::Objects {
            pos: first.pos,
            first,
            rest,
            colon,
            constant,
            indication,
            semicolon,
        }),
        Some((becomes, value)) => Ok(Item::InitializedObjects {
            pos: first.pos,
            first,
            rest,
            colon,
            constant,
            indication,
            becomes,
            value,
            semicolon,
        }),
    }
}

/// object = id {`,` id} `:` [`constant`] (mark | anon) [`:=` expr] `;` | id {`,` id} `:` `constant`
/// `:=` expr `;` (Ada 2012, 3.3.1 and 3.3.2).
#[tactic(auto, unfolding(ada_grammar::specs::Items::object_item))]
fn object_item(alloc: Global, tokens: &mut Cursor<'_, '_>, depth: u32) -> Result<Item, ReadFault>
    ensures { Reads (readers.object_item depth) tokens.old result tokens.new }
{
    let first = identifier(alloc, tokens, Side::Apart)?;
    let rest = next_identifiers(alloc, tokens)?;
    let colon = tokens.symbol(Side::Apart, Symbol::Colon)?;
    if tokens.sees_word(Reserved::KwConstant) {
        let constant = tokens.word(Side::Apart, Reserved::KwConstant)?;
        if tokens.sees_symbol(Symbol::Becomes) {
            let becomes = tokens.symbol(Side::Apart, Symbol::Becomes)?;
            let value = boxed(alloc, expr(alloc, tokens, depth))?;
            let semicolon = tokens.symbol(Side::Apart, Symbol::Semicolon)?;
            return Ok(Item::Numbers {
                pos: first.pos,
                first,
                rest,
                colon,
                constant,
                becomes,
                value,
                semicolon,
            });
        }
        return objects(alloc, tokens, depth, first, rest, colon, Some(constant));
    }
    objects(alloc, tokens, depth, first, rest, colon, None)
}

/// arg {`,` arg} `)` `;`, after the `(` of an instance (Ada 2012, 12.3)
#[tactic(auto, unfolding(ada_grammar::specs::Items::first_actual, ada_grammar::specs::Items::next_actuals))]
fn actuals(alloc: Global, tokens: &mut Cursor<'_, '_>, depth: u32) -> Result<Actuals, ReadFault>
    requires { depth ≤ NESTING }
    ensures { ReadsAs parts.actual_parts (readers.actual_parts depth) tokens.old result tokens.new }
{
    let first = boxed(alloc, arg_at(alloc, tokens, Side::Apart, depth))?;
    let rest = next_args_at(alloc, tokens, Side::Apart, depth)?;
    let right_paren = tokens.symbol(Side::Apart, Symbol::RightParenthesis)?;
    let semicolon = tokens.symbol(Side::Apart, Symbol::Semicolon)?;
    Ok(Actuals {
        first,
        rest,
        right_paren,
        semicolon,
    })
}

/// instance = `procedure` id `is` `new` dotted `(` arg {`,` arg} `)` `;`, after `is` (Ada 2012,
/// 12.3).
#[tactic(auto, unfolding(ada_grammar::specs::Items::instance_of))]
pub fn instance_of(
    alloc: Global,
    tokens: &mut Cursor<'_, '_>,
    depth: u32,
    pos: Pos,
    name: Identifier,
    is: Pos,
) -> Result<Item, ReadFault>
    requires { depth ≤ NESTING }
    ensures { Reads (readers.instance_of depth pos name is) tokens.old result tokens.new }
{
    let new = tokens.word(Side::Apart, Reserved::KwNew)?;
    let generic = dotted(alloc, tokens, Side::Apart)?;
    let left_paren = tokens.opens_symbol(Side::Apart, Symbol::LeftParenthesis, depth)?;
    let actuals = actuals(alloc, tokens, depth)?;
    Ok(Item::Instance {
        pos,
        name,
        is,
        new,
        generic,
        left_paren,
        first: actuals.first,
        rest: actuals.rest,
        right_paren: actuals.right_paren,
        semicolon: actuals.semicolon,
    })
}

/// instance = `procedure` id `is` `new` dotted `(` arg {`,` arg} `)` `;` (Ada 2012, 12.3).
#[tactic(auto, unfolding(ada_grammar::specs::Items::instance))]
fn instance(alloc: Global, tokens: &mut Cursor<'_, '_>, depth: u32) -> Result<Item, ReadFault>
    requires { depth ≤ NESTING }
    ensures { Reads (readers.instance depth) tokens.old result tokens.new }
{
    let pos = tokens.word(Side::Apart, Reserved::KwProcedure)?;
    let name = identifier(alloc, tokens, Side::Apart)?;
    let is = tokens.word(Side::Apart, Reserved::KwIs)?;
    instance_of(alloc, tokens, depth, pos, name, is)
}

/// item = type | subtype | object | usecl | pragma: each item that is no instance (Ada 2012, 3.11).
#[tactic(auto, unfolding(ada_grammar::specs::Items::plain_item))]
pub fn plain_item(alloc: Global, tokens: &mut Cursor<'_, '_>, depth: u32) -> Result<Item, ReadFault>
    requires { depth ≤ NESTING }
    ensures { Reads (readers.plain_item depth) tokens.old result tokens.new }
{
    if tokens.sees_word(Reserved::KwType) {
        return type_item(alloc, tokens, depth);
    }
    if tokens.sees_word(Reserved::KwSubtype) {
        return subtype_item(alloc, tokens, depth);
    }
    if tokens.sees_word(Reserved::KwUse) {
        let clause = use_clause(alloc, tokens)?;
        return Ok(Item::Use {
            pos: clause.pos,
            clause,
        });
    }
    if tokens.sees_word(Reserved::KwPragma) {
        let clause = pragma(alloc, tokens, depth)?;
        return Ok(Item::Pragma {
            pos: clause.pos,
            clause,
        });
    }
    object_item(alloc, tokens, depth)
}

/// item = type | subtype | object | instance | usecl | pragma (Ada 2012, 3.11).
#[tactic(auto, unfolding(ada_grammar::specs::Items::item))]
pub fn item(alloc: Global, tokens: &mut Cursor<'_, '_>, depth: u32) -> Result<Item, ReadFault>
    requires { depth ≤ NESTING }
    ensures { Reads (readers.item depth) tokens.old result tokens.new }
{
    if tokens.sees_word(Reserved::KwProcedure) {
        return instance(alloc, tokens, depth);
    }
    plain_item(alloc, tokens, depth)
}

/// What an item begins with.
const ITEM_FIRST: [Kind; 6] = [
    Kind::Word(Reserved::KwProcedure),
    Kind::Word(Reserved::KwType),
    Kind::Word(Reserved::KwSubtype),
    Kind::Word(Reserved::KwUse),
    Kind::Word(Reserved::KwPragma),
    Kind::Identifier,
];

/// {item} (Ada 2012, 3.11)
pub fn items(
    alloc: Global,
    tokens: &mut Cursor<'_, '_>,
    depth: u32,
) -> Result<Listed<Item>, ReadFault>
    requires { depth ≤ NESTING }
    ensures { Reads (readers.items depth) tokens.old result tokens.new }
{
    let mut all = Listed::new(alloc);
    'turns: while tokens.sees_any(&ITEM_FIRST) {
        all.push(item(alloc, tokens, depth)?)?;
    }
    Ok(all)
}
