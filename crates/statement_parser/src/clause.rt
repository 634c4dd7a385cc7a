//! Parts of declarations, use clauses and pragmas.
ghost use Rattle.std.specs.Prelude.{◌≡◌, map};
ghost use Rattle.std.specs.Char.{to_ascii_lowercase};
ghost use Rattle.token_reading.specs.Reading.{Reads};
ghost use Rattle.ada_grammar.specs.Items as readers;

use ada_lexer::{Reserved, Symbol};
use ada_tree::{Identifier, Indication, NextIdentifier, PragmaClause, PragmaOn, UseClause, Word};
use expression_parser::{dotted, identifier, next_dotteds};
use spark_base::Listed;
use std::alloc::Global;
use token_reading::{Cursor, ReadFault, Side};

/// `,` id (Ada 2012, 3.3.1)
#[tactic(auto, unfolding(ada_grammar::specs::Items::next_identifier))]
fn next_identifier(alloc: Global, tokens: &mut Cursor<'_, '_>) -> Result<NextIdentifier, ReadFault>
    ensures { Reads readers.next_identifier tokens.old result tokens.new }
{
    let pos = tokens.symbol(Side::Apart, Symbol::Comma)?;
    let name = identifier(alloc, tokens, Side::Apart)?;
    Ok(NextIdentifier::FurtherIdentifier { pos, name })
}

/// {`,` id} (Ada 2012, 3.3.1)
pub fn next_identifiers(
    alloc: Global,
    tokens: &mut Cursor<'_, '_>,
) -> Result<Listed<NextIdentifier>, ReadFault>
    ensures { Reads readers.next_identifiers tokens.old result tokens.new }
{
    let mut all = Listed::new(alloc);
    'turns: while tokens.sees_symbol(Symbol::Comma) {
        all.push(next_identifier(alloc, tokens)?)?;
    }
    Ok(all)
}

/// The identifier that has this spelling in lower case, as `SPARK_Mode` (Ada 2012, 2.3(5)).
#[tactic(auto, unfolding(ada_grammar::specs::Items::called))]
pub fn called(
    alloc: Global,
    tokens: &mut Cursor<'_, '_>,
    name: &[u8],
) -> Result<Identifier, ReadFault>
    requires { map to_ascii_lowercase name.now ≡ name.now }
    ensures { Reads (readers.called name.now) tokens.old result tokens.new }
{
    let (pos, text) = tokens.identifier_called(alloc, name)?;
    Ok(Identifier {
        pos,
        text: Word::from_listed(text),
    })
}

/// mark | anon, where anon = `access` [`constant`] mark (Ada 2012, 3.2.2 and 3.10).
#[tactic(auto, unfolding(ada_grammar::specs::Items::indication))]
pub fn indication(alloc: Global, tokens: &mut Cursor<'_, '_>) -> Result<Indication, ReadFault>
    ensures { Reads readers.indication tokens.old result tokens.new }
{
    if tokens.sees_word(Reserved::KwAccess) {
        let pos = tokens.word(Side::Apart, Reserved::KwAccess)?;
        let constant = tokens.optional_word(Reserved::KwConstant)?;
        let designated = dotted(alloc, tokens, Side::Apart)?;
        return Ok(Indication::Anonymous {
            pos,
            constant,
            designated,
        });
    }
    let pos = tokens.position()?;
    let mark = dotted(alloc, tokens, Side::Apart)?;
    Ok(Indication::Mark { pos, mark })
}

/// usecl = `use` [`type`] dotted {`,` dotted} `;` (Ada 2012, 8.4).
#[tactic(auto, unfolding(ada_grammar::specs::Items::use_clause))]
pub fn use_clause(alloc: Global, tokens: &mut Cursor<'_, '_>) -> Result<UseClause, ReadFault>
    ensures { Reads readers.use_clause tokens.old result tokens.new }
{
    let pos = tokens.word(Side::Apart, Reserved::KwUse)?;
    let type_word = tokens.optional_word(Reserved::KwType)?;
    let first = dotted(alloc, tokens, Side::Apart)?;
    let rest = next_dotteds(alloc, tokens)?;
    let semicolon = tokens.symbol(Side::Apart, Symbol::Semicolon)?;
    Ok(UseClause {
        pos,
        type_word,
        first,
        rest,
        semicolon,
    })
}

/// `(` On `)` (Ada 2012, 2.8)
#[tactic(auto, unfolding(ada_grammar::specs::Items::pragma_on))]
fn pragma_on(alloc: Global, tokens: &mut Cursor<'_, '_>, depth: u32) -> Result<PragmaOn, ReadFault>
    ensures { Reads (readers.pragma_on depth) tokens.old result tokens.new }
{
    let pos = tokens.opens_symbol(Side::Apart, Symbol::LeftParenthesis, depth)?;
    let on = called(alloc, tokens, b"on")?;
    let right_paren = tokens.symbol(Side::Apart, Symbol::RightParenthesis)?;
    Ok(PragmaOn {
        pos,
        on,
        right_paren,
    })
}

/// [`(` On `)`]
fn optional_pragma_on(
    alloc: Global,
    tokens: &mut Cursor<'_, '_>,
    depth: u32,
) -> Result<Option<PragmaOn>, ReadFault>
    ensures { Reads (readers.optional_pragma_on depth) tokens.old result tokens.new }
{
    if tokens.sees_symbol(Symbol::LeftParenthesis) {
        return Ok(Some(pragma_on(alloc, tokens, depth)?));
    }
    Ok(None)
}

/// pragma = `pragma` SPARK_Mode [`(` On `)`] `;` (Ada 2012, 2.8).
#[tactic(auto, unfolding(ada_grammar::specs::Items::pragma))]
pub fn pragma(
    alloc: Global,
    tokens: &mut Cursor<'_, '_>,
    depth: u32,
) -> Result<PragmaClause, ReadFault>
    ensures { Reads (readers.pragma depth) tokens.old result tokens.new }
{
    let pos = tokens.word(Side::Apart, Reserved::KwPragma)?;
    let name = called(alloc, tokens, b"spark_mode")?;
    let argument = optional_pragma_on(alloc, tokens, depth)?;
    let semicolon = tokens.symbol(Side::Apart, Symbol::Semicolon)?;
    Ok(PragmaClause {
        pos,
        name,
        argument,
        semicolon,
    })
}
