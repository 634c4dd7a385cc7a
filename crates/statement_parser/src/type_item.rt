//! Declarations of types.
ghost use Rattle.std.specs.Prelude.{◌≤◌};
ghost use Rattle.spark_base.specs.declared.limits.TheConstants.{NESTING};
ghost use Rattle.token_reading.specs.Reading.{Reads};
ghost use Rattle.ada_grammar.specs.Items as readers;
ghost use Rattle.expression_parser.specs.Parts.{ReadsAs};
ghost use Rattle.statement_parser.specs.Parts.{element_parts, literal_parts};

use crate::clause::next_identifiers;
use crate::parts::{Element, Literals};
use crate::simple_statement::ending;
use ada_lexer::{Reserved, Symbol};
use ada_tree::{Component, Identifier, Item, Range};
use expression_parser::{dotted, identifier, range};
use spark_base::{Listed, Pos};
use std::alloc::Global;
use token_reading::{Cursor, ReadFault, Side};

/// comp = id {`,` id} `:` mark `;` (Ada 2012, 3.8).
#[tactic(auto, unfolding(ada_grammar::specs::Items::component))]
fn component(alloc: Global, tokens: &mut Cursor<'_, '_>) -> Result<Component, ReadFault>
    ensures { Reads readers.component tokens.old result tokens.new }
{
    let first = identifier(alloc, tokens, Side::Apart)?;
    let rest = next_identifiers(alloc, tokens)?;
    let colon = tokens.symbol(Side::Apart, Symbol::Colon)?;
    let mark = dotted(alloc, tokens, Side::Apart)?;
    let semicolon = tokens.symbol(Side::Apart, Symbol::Semicolon)?;
    Ok(Component::Fields {
        pos: first.pos,
        first,
        rest,
        colon,
        mark,
        semicolon,
    })
}

/// {comp} (Ada 2012, 3.8)
fn next_components(
    alloc: Global,
    tokens: &mut Cursor<'_, '_>,
) -> Result<Listed<Component>, ReadFault>
    ensures { Reads readers.next_components tokens.old result tokens.new }
{
    let mut all = Listed::new(alloc);
    'turns: while tokens.sees_identifier() {
        all.push(component(alloc, tokens)?)?;
    }
    Ok(all)
}

/// The index range of an array type, one construct further in (Ada 2012, 3.6).
#[tactic(auto, unfolding(ada_grammar::specs::Items::index_range))]
fn index_range(alloc: Global, tokens: &mut Cursor<'_, '_>, depth: u32) -> Result<Range, ReadFault>
    requires { depth ≤ NESTING }
    ensures { Reads (readers.index_range depth) tokens.old result tokens.new }
{
    range(alloc, tokens, depth + 1)
}

/// `)` `of` mark `;`, after the range of an array type's index (Ada 2012, 3.6).
fn element(alloc: Global, tokens: &mut Cursor<'_, '_>) -> Result<Element, ReadFault>
    ensures { ReadsAs element_parts readers.element_parts tokens.old result tokens.new }
{
    let right_paren = tokens.symbol(Side::Apart, Symbol::RightParenthesis)?;
    let of = tokens.word(Side::Apart, Reserved::KwOf)?;
    let mark = dotted(alloc, tokens, Side::Apart)?;
    let semicolon = tokens.symbol(Side::Apart, Symbol::Semicolon)?;
    Ok(Element {
        right_paren,
        of,
        mark,
        semicolon,
    })
}

/// type = `type` id `is` `array` `(` range `)` `of` mark `;`, after `is` (Ada 2012, 3.6).
#[tactic(auto, unfolding(ada_grammar::specs::Items::array_type))]
fn array_type(
    alloc: Global,
    tokens: &mut Cursor<'_, '_>,
    depth: u32,
    pos: Pos,
    name: Identifier,
    is: Pos,
) -> Result<Item, ReadFault>
    requires { depth ≤ NESTING }
    ensures { Reads (readers.array_type depth pos name is) tokens.old result tokens.new }
{
    let array = tokens.word(Side::Apart, Reserved::KwArray)?;
    let left_paren = tokens.opens_symbol(Side::Apart, Symbol::LeftParenthesis, depth)?;
    let range = index_range(alloc, tokens, depth)?;
    let element = element(alloc, tokens)?;
    Ok(Item::ArrayType {
        pos,
        name,
        is,
        array,
        left_paren,
        range,
        right_paren: element.right_paren,
        of: element.of,
        element: element.mark,
        semicolon: element.semicolon,
    })
}

/// type = `type` id `is` `record` comp {comp} `end` `record` `;`, after `is` (Ada 2012, 3.8).
#[tactic(auto, unfolding(ada_grammar::specs::Items::record_type, ada_grammar::specs::Statements::ending))]
fn record_type(
    alloc: Global,
    tokens: &mut Cursor<'_, '_>,
    depth: u32,
    pos: Pos,
    name: Identifier,
    is: Pos,
) -> Result<Item, ReadFault>
    ensures { Reads (readers.record_type depth pos name is) tokens.old result tokens.new }
{
    let record_word = tokens.opens_word(Reserved::KwRecord, depth)?;
    let first = component(alloc, tokens)?;
    let rest = next_components(alloc, tokens)?;
    let ending = ending(tokens, Reserved::KwRecord)?;
    Ok(Item::RecordType {
        pos,
        name,
        is,
        record_word,
        first,
        rest,
        end: ending.end,
        end_record: ending.word,
        semicolon: ending.semicolon,
    })
}

/// id {`,` id} `)` `;`, after the `(` of an enumeration type (Ada 2012, 3.5.1).
fn literals(alloc: Global, tokens: &mut Cursor<'_, '_>) -> Result<Literals, ReadFault>
    ensures { ReadsAs literal_parts readers.literal_parts tokens.old result tokens.new }
{
    let first = identifier(alloc, tokens, Side::Apart)?;
    let rest = next_identifiers(alloc, tokens)?;
    let right_paren = tokens.symbol(Side::Apart, Symbol::RightParenthesis)?;
    let semicolon = tokens.symbol(Side::Apart, Symbol::Semicolon)?;
    Ok(Literals {
        first,
        rest,
        right_paren,
        semicolon,
    })
}

/// type = `type` id `is` `(` id {`,` id} `)` `;`, after `is` (Ada 2012, 3.5.1).
#[tactic(auto, unfolding(ada_grammar::specs::Items::enumeration_type))]
fn enumeration_type(
    alloc: Global,
    tokens: &mut Cursor<'_, '_>,
    depth: u32,
    pos: Pos,
    name: Identifier,
    is: Pos,
) -> Result<Item, ReadFault>
    ensures { Reads (readers.enumeration_type depth pos name is) tokens.old result tokens.new }
{
    let left_paren = tokens.opens_symbol(Side::Apart, Symbol::LeftParenthesis, depth)?;
    let literals = literals(alloc, tokens)?;
    Ok(Item::EnumerationType {
        pos,
        name,
        is,
        left_paren,
        first: literals.first,
        rest: literals.rest,
        right_paren: literals.right_paren,
        semicolon: literals.semicolon,
    })
}

/// type = `type` id `is` `private` `;`, after `is` (Ada 2012, 7.3).
fn private_type(
    tokens: &mut Cursor<'_, '_>,
    pos: Pos,
    name: Identifier,
    is: Pos,
) -> Result<Item, ReadFault>
    ensures { Reads (readers.private_type pos name is) tokens.old result tokens.new }
{
    let private = tokens.word(Side::Apart, Reserved::KwPrivate)?;
    let semicolon = tokens.symbol(Side::Apart, Symbol::Semicolon)?;
    Ok(Item::PrivateType {
        pos,
        name,
        is,
        private,
        semicolon,
    })
}

/// type = `type` id `is` `access` mark `;`, after `is` (Ada 2012, 3.10).
fn access_type(
    alloc: Global,
    tokens: &mut Cursor<'_, '_>,
    pos: Pos,
    name: Identifier,
    is: Pos,
) -> Result<Item, ReadFault>
    ensures { Reads (readers.access_type pos name is) tokens.old result tokens.new }
{
    let access = tokens.word(Side::Apart, Reserved::KwAccess)?;
    let designated = dotted(alloc, tokens, Side::Apart)?;
    let semicolon = tokens.symbol(Side::Apart, Symbol::Semicolon)?;
    Ok(Item::AccessType {
        pos,
        name,
        is,
        access,
        designated,
        semicolon,
    })
}

/// type = `type` id `is` .., after `is` (Ada 2012, 3.2.1).
#[tactic(auto, unfolding(ada_grammar::specs::Items::defined_type))]
fn defined_type(
    alloc: Global,
    tokens: &mut Cursor<'_, '_>,
    depth: u32,
    pos: Pos,
    name: Identifier,
    is: Pos,
) -> Result<Item, ReadFault>
    requires { depth ≤ NESTING }
    ensures { Reads (readers.defined_type depth pos name is) tokens.old result tokens.new }
{
    if tokens.sees_word(Reserved::KwPrivate) {
        return private_type(tokens, pos, name, is);
    }
    if tokens.sees_word(Reserved::KwAccess) {
        return access_type(alloc, tokens, pos, name, is);
    }
    if tokens.sees_word(Reserved::KwArray) {
        return array_type(alloc, tokens, depth, pos, name, is);
    }
    if tokens.sees_word(Reserved::KwRecord) {
        return record_type(alloc, tokens, depth, pos, name, is);
    }
    enumeration_type(alloc, tokens, depth, pos, name, is)
}

/// type = `type` id `;` | `type` id `is` .. (Ada 2012, 3.2.1 and 3.10.1).
#[tactic(auto, unfolding(ada_grammar::specs::Items::type_item))]
pub fn type_item(alloc: Global, tokens: &mut Cursor<'_, '_>, depth: u32) -> Result<Item, ReadFault>
    requires { depth ≤ NESTING }
    ensures { Reads (readers.type_item depth) tokens.old result tokens.new }
{
    let pos = tokens.word(Side::Apart, Reserved::KwType)?;
    let name = identifier(alloc, tokens, Side::Apart)?;
    if tokens.sees_symbol(Symbol::Semicolon) {
        let semicolon = tokens.symbol(Side::Apart, Symbol::Semicolon)?;
        return Ok(Item::IncompleteType {
            pos,
            name,
            semicolon,
        });
    }
    let is = tokens.word(Side::Apart, Reserved::KwIs)?;
    defined_type(alloc, tokens, depth, pos, name, is)
}
