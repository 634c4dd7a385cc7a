//! Units with their contexts, and the units of a file.
ghost use Rattle.std.specs.Prelude.{◌≡◌};
ghost use Rattle.token_reading.specs.Reading.{Reads, starts};
ghost use Rattle.ada_grammar.specs.Units as readers;

use crate::package::{package_behind, package_body_behind};
use crate::subprogram::subprogram_body;
use ada_lexer::{Reserved, Symbol};
use ada_tree::{Context, SourceUnit};
use expression_parser::{dotted, next_dotteds};
use spark_base::{Listed, Pos};
use statement_parser::{pragma, use_clause};
use std::alloc::Global;
use token_reading::{Cursor, Kind, ReadFault, Side};

/// context = `with` dotted {`,` dotted} `;` (Ada 2012, 10.1.2).
#[tactic(auto, unfolding(ada_grammar::specs::Units::with_clause))]
fn with_clause(alloc: Global, tokens: &mut Cursor<'_, '_>) -> Result<Context, ReadFault>
    ensures { Reads readers.with_clause tokens.old result tokens.new }
{
    let pos = tokens.word(Side::Apart, Reserved::KwWith)?;
    let first = dotted(alloc, tokens, Side::Apart)?;
    let rest = next_dotteds(alloc, tokens)?;
    let semicolon = tokens.symbol(Side::Apart, Symbol::Semicolon)?;
    Ok(Context::With {
        pos,
        first,
        rest,
        semicolon,
    })
}

/// context = `with` dotted {`,` dotted} `;` | usecl | pragma (Ada 2012, 10.1.2).
#[tactic(auto, unfolding(ada_grammar::specs::Units::context))]
fn context(alloc: Global, tokens: &mut Cursor<'_, '_>) -> Result<Context, ReadFault>
    ensures { Reads readers.context tokens.old result tokens.new }
{
    if tokens.sees_word(Reserved::KwWith) {
        return with_clause(alloc, tokens);
    }
    if tokens.sees_word(Reserved::KwUse) {
        let clause = use_clause(alloc, tokens)?;
        return Ok(Context::Use {
            pos: clause.pos,
            clause,
        });
    }
    let clause = pragma(alloc, tokens, 0)?;
    Ok(Context::Pragma {
        pos: clause.pos,
        clause,
    })
}

/// Whether a clause of a context begins here.
fn begins_context(tokens: &Cursor<'_, '_>) -> bool
    ensures { result ≡ starts readers.context_first tokens.now.tokens }
{
    tokens.sees_any(&[
        Kind::Word(Reserved::KwWith),
        Kind::Word(Reserved::KwUse),
        Kind::Word(Reserved::KwPragma),
    ])
}

/// {context} (Ada 2012, 10.1.1)
fn contexts(alloc: Global, tokens: &mut Cursor<'_, '_>) -> Result<Listed<Context>, ReadFault>
    ensures { Reads readers.contexts tokens.old result tokens.new }
{
    let mut all = Listed::new(alloc);
    'turns: while begins_context(tokens) {
        all.push(context(alloc, tokens)?)?;
    }
    Ok(all)
}

/// unit = {context} (package | packbody), after `package` (Ada 2012, 10.1.1).
#[tactic(auto, unfolding(ada_grammar::specs::Units::package_unit))]
fn package_unit(
    alloc: Global,
    tokens: &mut Cursor<'_, '_>,
    pos: Pos,
    context: Listed<Context>,
    at: Pos,
) -> Result<SourceUnit, ReadFault>
    ensures { Reads (readers.package_unit pos context at) tokens.old result tokens.new }
{
    if tokens.sees_word(Reserved::KwBody) {
        let body = package_body_behind(alloc, tokens, at)?;
        return Ok(SourceUnit::OfBody { pos, context, body });
    }
    let package = package_behind(alloc, tokens, at)?;
    Ok(SourceUnit::OfPackage {
        pos,
        context,
        package,
    })
}

/// unit = {context} (package | packbody | subbody), after the context (Ada 2012, 10.1.1).
#[tactic(auto, unfolding(ada_grammar::specs::Units::unit_behind))]
fn unit_behind(
    alloc: Global,
    tokens: &mut Cursor<'_, '_>,
    pos: Pos,
    context: Listed<Context>,
) -> Result<SourceUnit, ReadFault>
    ensures { Reads (readers.unit_behind pos context) tokens.old result tokens.new }
{
    if tokens.sees_word(Reserved::KwPackage) {
        let at = tokens.word(Side::Apart, Reserved::KwPackage)?;
        return package_unit(alloc, tokens, pos, context, at);
    }
    let body = subprogram_body(alloc, tokens)?;
    Ok(SourceUnit::OfSubprogram { pos, context, body })
}

/// unit = {context} (package | packbody | subbody) (Ada 2012, 10.1.1).
#[tactic(auto, unfolding(ada_grammar::specs::Units::unit))]
fn unit(alloc: Global, tokens: &mut Cursor<'_, '_>) -> Result<SourceUnit, ReadFault>
    ensures { Reads readers.unit tokens.old result tokens.new }
{
    let pos = tokens.position()?;
    let context = contexts(alloc, tokens)?;
    unit_behind(alloc, tokens, pos, context)
}

/// Whether a unit begins here.
fn begins_unit(tokens: &Cursor<'_, '_>) -> bool
    ensures { result ≡ starts readers.unit_first tokens.now.tokens }
{
    tokens.sees_any(&[
        Kind::Word(Reserved::KwWith),
        Kind::Word(Reserved::KwUse),
        Kind::Word(Reserved::KwPragma),
        Kind::Word(Reserved::KwPackage),
        Kind::Word(Reserved::KwProcedure),
        Kind::Word(Reserved::KwFunction),
    ])
}

/// unit {unit} (Ada 2012, 10.1.1)
pub fn units(alloc: Global, tokens: &mut Cursor<'_, '_>) -> Result<Listed<SourceUnit>, ReadFault>
    ensures { Reads readers.source tokens.old result tokens.new }
{
    let mut all = Listed::new(alloc);
    all.push(unit(alloc, tokens)?)?;
    'turns: while begins_unit(tokens) {
        all.push(unit(alloc, tokens)?)?;
    }
    Ok(all)
}
