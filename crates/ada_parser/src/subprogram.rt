//! Modes, fronts of subprograms and their bodies.
ghost use Rattle.std.specs.Prelude.{◌≤◌, Ok};
ghost use Rattle.spark_base.specs.declared.limits.TheConstants.{NESTING};
ghost use Rattle.token_reading.specs.Reading.{Reads};
ghost use Rattle.ada_grammar.specs.Units as readers;
ghost use Rattle.expression_parser.specs.Parts.{Passes, ReadsAs};
ghost use Rattle.ada_parser.specs.Parts.{closing_parts, subprogram_parts};

use crate::parts::{Body, Closing};
use ada_lexer::{Reserved, Symbol};
use ada_tree::{
    Formal, Formals, Identifier, ModeOn, NextFormal, SparkMode, SubprogramBody, Subspec,
};
use expression_parser::{boxed, dotted, identifier};
use spark_base::{Boxed, Listed, Pos};
use statement_parser::{called, indication, items, next_identifiers, stmts};
use std::alloc::Global;
use token_reading::{Cursor, ReadFault, Side};

/// `=>` On (Ada 2012, 13.1.1)
#[tactic(auto, unfolding(ada_grammar::specs::Units::mode_on))]
fn mode_on(alloc: Global, tokens: &mut Cursor<'_, '_>) -> Result<ModeOn, ReadFault>
    ensures { Reads readers.mode_on tokens.old result tokens.new }
{
    let pos = tokens.symbol(Side::Apart, Symbol::Arrow)?;
    let on = called(alloc, tokens, b"on")?;
    Ok(ModeOn { pos, on })
}

/// [`=>` On]
fn optional_mode_on(alloc: Global, tokens: &mut Cursor<'_, '_>) -> Result<Option<ModeOn>, ReadFault>
    ensures { Reads readers.optional_mode_on tokens.old result tokens.new }
{
    if tokens.sees_symbol(Symbol::Arrow) {
        return Ok(Some(mode_on(alloc, tokens)?));
    }
    Ok(None)
}

/// `with` SPARK_Mode [`=>` On] (Ada 2012, 13.1.1)
#[tactic(auto, unfolding(ada_grammar::specs::Units::spark_mode))]
pub fn spark_mode(alloc: Global, tokens: &mut Cursor<'_, '_>) -> Result<SparkMode, ReadFault>
    ensures { Reads readers.spark_mode tokens.old result tokens.new }
{
    let pos = tokens.word(Side::Apart, Reserved::KwWith)?;
    let name = called(alloc, tokens, b"spark_mode")?;
    let value = optional_mode_on(alloc, tokens)?;
    Ok(SparkMode { pos, name, value })
}

/// mode = [`with` SPARK_Mode [`=>` On]] (Ada 2012, 13.1.1).
#[tactic(auto, unfolding(ada_grammar::specs::Units::mode))]
pub fn mode(alloc: Global, tokens: &mut Cursor<'_, '_>) -> Result<Option<SparkMode>, ReadFault>
    ensures { Reads readers.mode tokens.old result tokens.new }
{
    if tokens.sees_word(Reserved::KwWith) {
        return Ok(Some(spark_mode(alloc, tokens)?));
    }
    Ok(None)
}

/// formal = id {`,` id} `:` ([`in`] [`out`] mark | `access` [`constant`] mark) (Ada 2012, 6.1).
#[tactic(auto, unfolding(ada_grammar::specs::Units::formal))]
fn formal(alloc: Global, tokens: &mut Cursor<'_, '_>) -> Result<Formal, ReadFault>
    ensures { Reads readers.formal tokens.old result tokens.new }
{
    let first = identifier(alloc, tokens, Side::Apart)?;
    let rest = next_identifiers(alloc, tokens)?;
    let colon = tokens.symbol(Side::Apart, Symbol::Colon)?;
    if tokens.sees_word(Reserved::KwAccess) {
        let access = tokens.word(Side::Apart, Reserved::KwAccess)?;
        let constant = tokens.optional_word(Reserved::KwConstant)?;
        let designated = dotted(alloc, tokens, Side::Apart)?;
        return Ok(Formal::Anonymous {
            pos: first.pos,
            first,
            rest,
            colon,
            access,
            constant,
            designated,
        });
    }
    let in_word = tokens.optional_word(Reserved::KwIn)?;
    let out_word = tokens.optional_word(Reserved::KwOut)?;
    let mark = dotted(alloc, tokens, Side::Apart)?;
    Ok(Formal::Moded {
        pos: first.pos,
        first,
        rest,
        colon,
        in_word,
        out_word,
        mark,
    })
}

/// `;` formal (Ada 2012, 6.1)
#[tactic(auto, unfolding(ada_grammar::specs::Units::next_formal))]
fn next_formal(alloc: Global, tokens: &mut Cursor<'_, '_>) -> Result<NextFormal, ReadFault>
    ensures { Reads readers.next_formal tokens.old result tokens.new }
{
    let pos = tokens.symbol(Side::Apart, Symbol::Semicolon)?;
    let formal = boxed(alloc, formal(alloc, tokens))?;
    Ok(NextFormal::Semicolon { pos, formal })
}

/// {`;` formal} (Ada 2012, 6.1)
fn next_formals(alloc: Global, tokens: &mut Cursor<'_, '_>) -> Result<Listed<NextFormal>, ReadFault>
    ensures { Reads readers.next_formals tokens.old result tokens.new }
{
    let mut all = Listed::new(alloc);
    'turns: while tokens.sees_symbol(Symbol::Semicolon) {
        all.push(next_formal(alloc, tokens)?)?;
    }
    Ok(all)
}

/// formals = `(` formal {`;` formal} `)` (Ada 2012, 6.1).
#[tactic(auto, unfolding(ada_grammar::specs::Units::formals))]
pub fn formals(alloc: Global, tokens: &mut Cursor<'_, '_>, depth: u32) -> Result<Formals, ReadFault>
    ensures { Reads (readers.formals depth) tokens.old result tokens.new }
{
    let pos = tokens.opens_symbol(Side::Apart, Symbol::LeftParenthesis, depth)?;
    let first = boxed(alloc, formal(alloc, tokens))?;
    let rest = next_formals(alloc, tokens)?;
    let right_paren = tokens.symbol(Side::Apart, Symbol::RightParenthesis)?;
    Ok(Formals {
        pos,
        first,
        rest,
        right_paren,
    })
}

/// [formals]
pub fn optional_formals(
    alloc: Global,
    tokens: &mut Cursor<'_, '_>,
    depth: u32,
) -> Result<Option<Boxed<Formals>>, ReadFault>
    ensures { Reads (readers.optional_formals depth) tokens.old result tokens.new }
{
    if tokens.sees_symbol(Symbol::LeftParenthesis) {
        let formals = boxed(alloc, formals(alloc, tokens, depth))?;
        return Ok(Some(formals));
    }
    Ok(None)
}

/// The front of a procedure, in a box.
pub fn procedure(
    alloc: Global,
    pos: Pos,
    name: Identifier,
    formals: Option<Boxed<Formals>>,
) -> Result<Boxed<Subspec>, ReadFault>
    ensures { Passes (Ok (Subspec.Procedure pos name formals)) result }
{
    boxed(alloc, Ok(Subspec::Procedure { pos, name, formals }))
}

/// subspec = `procedure` id [formals], after `procedure` (Ada 2012, 6.1); `depth` counts the
/// procedure.
#[tactic(auto, unfolding(ada_grammar::specs::Units::procedure_spec))]
pub fn procedure_spec(
    alloc: Global,
    tokens: &mut Cursor<'_, '_>,
    depth: u32,
    pos: Pos,
) -> Result<Boxed<Subspec>, ReadFault>
    ensures { Reads (readers.procedure_spec depth pos) tokens.old result tokens.new }
{
    let name = identifier(alloc, tokens, Side::Apart)?;
    let formals = optional_formals(alloc, tokens, depth)?;
    procedure(alloc, pos, name, formals)
}

/// subspec = `function` id [formals] `return` (mark | anon), after `function` (Ada 2012, 6.1);
/// `depth` counts the function.
#[tactic(auto, unfolding(ada_grammar::specs::Units::function_spec))]
pub fn function_spec(
    alloc: Global,
    tokens: &mut Cursor<'_, '_>,
    depth: u32,
    pos: Pos,
) -> Result<Boxed<Subspec>, ReadFault>
    ensures { Reads (readers.function_spec depth pos) tokens.old result tokens.new }
{
    let name = identifier(alloc, tokens, Side::Apart)?;
    let formals = optional_formals(alloc, tokens, depth)?;
    let return_word = tokens.word(Side::Apart, Reserved::KwReturn)?;
    let result = indication(alloc, tokens)?;
    let spec = Subspec::Function {
        pos,
        name,
        formals,
        return_word,
        result,
    };
    boxed(alloc, Ok(spec))
}

/// [id], after `end`
pub fn closing_name(
    alloc: Global,
    tokens: &mut Cursor<'_, '_>,
) -> Result<Option<Identifier>, ReadFault>
    ensures { Reads readers.closing_name tokens.old result tokens.new }
{
    if tokens.sees_identifier() {
        return Ok(Some(identifier(alloc, tokens, Side::Apart)?));
    }
    Ok(None)
}

/// `end` [id] `;`
pub fn closing(alloc: Global, tokens: &mut Cursor<'_, '_>) -> Result<Closing, ReadFault>
    ensures { ReadsAs closing_parts readers.closing tokens.old result tokens.new }
{
    let end = tokens.word(Side::Apart, Reserved::KwEnd)?;
    let name = closing_name(alloc, tokens)?;
    let semicolon = tokens.symbol(Side::Apart, Symbol::Semicolon)?;
    Ok(Closing {
        end,
        name,
        semicolon,
    })
}

/// {item} `begin` stmts `end` [id] `;` (Ada 2012, 6.3); `depth` counts the subprogram.
fn body(alloc: Global, tokens: &mut Cursor<'_, '_>, depth: u32) -> Result<Body, ReadFault>
    requires { depth ≤ NESTING }
    ensures { ReadsAs subprogram_parts (readers.subprogram_parts depth) tokens.old result tokens.new }
{
    let items = items(alloc, tokens, depth)?;
    let begin = tokens.word(Side::Apart, Reserved::KwBegin)?;
    let stmts = boxed(alloc, stmts(alloc, tokens, depth))?;
    let closing = closing(alloc, tokens)?;
    Ok(Body {
        items,
        begin,
        stmts,
        closing,
    })
}

/// subbody = subspec mode `is` {item} `begin` stmts `end` [id] `;`, after `is` (Ada 2012, 6.3);
/// `depth` counts the subprogram.
#[tactic(auto, unfolding(ada_grammar::specs::Units::body_behind))]
pub fn body_behind(
    alloc: Global,
    tokens: &mut Cursor<'_, '_>,
    depth: u32,
    pos: Pos,
    spec: Boxed<Subspec>,
    mode: Option<SparkMode>,
    is: Pos,
) -> Result<Boxed<SubprogramBody>, ReadFault>
    requires { depth ≤ NESTING }
    ensures { Reads (readers.body_behind depth pos spec mode is) tokens.old result tokens.new }
{
    let body = body(alloc, tokens, depth)?;
    let tree = SubprogramBody {
        pos,
        spec,
        mode,
        is,
        items: body.items,
        begin: body.begin,
        stmts: body.stmts,
        end: body.closing.end,
        closing: body.closing.name,
        semicolon: body.closing.semicolon,
    };
    boxed(alloc, Ok(tree))
}

/// The same, after the subspec, with no construct open around the subprogram.
#[tactic(auto, unfolding(ada_grammar::specs::Units::subprogram_behind))]
fn subprogram_behind(
    alloc: Global,
    tokens: &mut Cursor<'_, '_>,
    pos: Pos,
    spec: Boxed<Subspec>,
) -> Result<Boxed<SubprogramBody>, ReadFault>
    ensures { Reads (readers.subprogram_behind pos spec) tokens.old result tokens.new }
{
    let mode = mode(alloc, tokens)?;
    let is = tokens.word(Side::Apart, Reserved::KwIs)?;
    body_behind(alloc, tokens, 1, pos, spec, mode, is)
}

/// subbody = subspec mode `is` {item} `begin` stmts `end` [id] `;` (Ada 2012, 6.3), with no
/// construct open around it.
#[tactic(auto, unfolding(ada_grammar::specs::Units::subprogram_body))]
pub fn subprogram_body(
    alloc: Global,
    tokens: &mut Cursor<'_, '_>,
) -> Result<Boxed<SubprogramBody>, ReadFault>
    ensures { Reads readers.subprogram_body tokens.old result tokens.new }
{
    if tokens.sees_word(Reserved::KwProcedure) {
        let pos = tokens.word(Side::Apart, Reserved::KwProcedure)?;
        let spec = procedure_spec(alloc, tokens, 1, pos)?;
        return subprogram_behind(alloc, tokens, pos, spec);
    }
    let pos = tokens.word(Side::Apart, Reserved::KwFunction)?;
    let spec = function_spec(alloc, tokens, 1, pos)?;
    subprogram_behind(alloc, tokens, pos, spec)
}
