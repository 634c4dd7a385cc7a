//! Packages and their bodies, with what is declared in them.
ghost use Rattle.std.specs.Prelude.{◌≡◌};
ghost use Rattle.token_reading.specs.Reading.{Reads, starts};
ghost use Rattle.ada_grammar.specs.Units as readers;
ghost use Rattle.expression_parser.specs.Parts.{ReadsAs};
ghost use Rattle.ada_parser.specs.Parts.{body_end_parts, decl_parts};

use crate::parts::{BodyParts, Decls};
use crate::subprogram::{
    body_behind, closing, formals, function_spec, mode, optional_formals, procedure, spark_mode,
};
use ada_lexer::{Reserved, Symbol};
use ada_tree::{BodyPart, Decl, Identifier, Package, PackageBody, PrivatePart, SparkMode, Subspec};
use expression_parser::{boxed, identifier};
use spark_base::{Boxed, Listed, Pos};
use statement_parser::{instance_of, plain_item};
use std::alloc::Global;
use token_reading::{Cursor, Kind, ReadFault, Side};

/// decl = item, which is no instance (Ada 2012, 3.1).
#[tactic(auto, unfolding(ada_grammar::specs::Units::plain_decl))]
fn plain_decl(alloc: Global, tokens: &mut Cursor<'_, '_>) -> Result<Decl, ReadFault>
    ensures { Reads readers.plain_decl tokens.old result tokens.new }
{
    let pos = tokens.position()?;
    let item = boxed(alloc, plain_item(alloc, tokens, 1))?;
    Ok(Decl::OfItem { pos, item })
}

/// decl = subspec mode `;`, after the subspec (Ada 2012, 6.1).
#[tactic(auto, unfolding(ada_grammar::specs::Units::decl_behind))]
fn decl_behind(
    alloc: Global,
    tokens: &mut Cursor<'_, '_>,
    pos: Pos,
    spec: Boxed<Subspec>,
) -> Result<Decl, ReadFault>
    ensures { Reads (readers.decl_behind pos spec) tokens.old result tokens.new }
{
    let mode = mode(alloc, tokens)?;
    let semicolon = tokens.symbol(Side::Apart, Symbol::Semicolon)?;
    Ok(Decl::Subprogram {
        pos,
        spec,
        mode,
        semicolon,
    })
}

/// decl = instance, after `is` (Ada 2012, 12.3).
#[tactic(auto, unfolding(ada_grammar::specs::Units::instance_decl))]
fn instance_decl(
    alloc: Global,
    tokens: &mut Cursor<'_, '_>,
    pos: Pos,
    name: Identifier,
    is: Pos,
) -> Result<Decl, ReadFault>
    ensures { Reads (readers.instance_decl pos name is) tokens.old result tokens.new }
{
    let item = boxed(alloc, instance_of(alloc, tokens, 1, pos, name, is))?;
    Ok(Decl::OfItem { pos, item })
}

/// A decl that begins with `procedure`, after the identifier.
#[tactic(auto, unfolding(ada_grammar::specs::Units::named_decl))]
fn named_decl(
    alloc: Global,
    tokens: &mut Cursor<'_, '_>,
    pos: Pos,
    name: Identifier,
) -> Result<Decl, ReadFault>
    ensures { Reads (readers.named_decl pos name) tokens.old result tokens.new }
{
    if tokens.sees_word(Reserved::KwIs) {
        let is = tokens.word(Side::Apart, Reserved::KwIs)?;
        return instance_decl(alloc, tokens, pos, name, is);
    }
    let formals = optional_formals(alloc, tokens, 2)?;
    let spec = procedure(alloc, pos, name, formals)?;
    decl_behind(alloc, tokens, pos, spec)
}

/// decl = item | subspec mode `;` (Ada 2012, 3.1).
#[tactic(auto, unfolding(ada_grammar::specs::Units::decl))]
fn decl(alloc: Global, tokens: &mut Cursor<'_, '_>) -> Result<Decl, ReadFault>
    ensures { Reads readers.decl tokens.old result tokens.new }
{
    if tokens.sees_word(Reserved::KwProcedure) {
        let pos = tokens.word(Side::Apart, Reserved::KwProcedure)?;
        let name = identifier(alloc, tokens, Side::Apart)?;
        return named_decl(alloc, tokens, pos, name);
    }
    if tokens.sees_word(Reserved::KwFunction) {
        let pos = tokens.word(Side::Apart, Reserved::KwFunction)?;
        let spec = function_spec(alloc, tokens, 2, pos)?;
        return decl_behind(alloc, tokens, pos, spec);
    }
    plain_decl(alloc, tokens)
}

/// Whether a declaration begins here, or the body of a subprogram.
fn begins_decl(tokens: &Cursor<'_, '_>) -> bool
    ensures { result ≡ starts readers.decl_first tokens.now.tokens }
{
    tokens.sees_any(&[
        Kind::Word(Reserved::KwFunction),
        Kind::Word(Reserved::KwProcedure),
        Kind::Word(Reserved::KwType),
        Kind::Word(Reserved::KwSubtype),
        Kind::Word(Reserved::KwUse),
        Kind::Word(Reserved::KwPragma),
        Kind::Identifier,
    ])
}

/// {decl} (Ada 2012, 7.1)
fn decls(alloc: Global, tokens: &mut Cursor<'_, '_>) -> Result<Listed<Decl>, ReadFault>
    ensures { Reads readers.decls tokens.old result tokens.new }
{
    let mut all = Listed::new(alloc);
    'turns: while begins_decl(tokens) {
        all.push(decl(alloc, tokens)?)?;
    }
    Ok(all)
}

/// A part of a package body that is an item and no instance (Ada 2012, 3.11).
#[tactic(auto, unfolding(ada_grammar::specs::Units::plain_part))]
fn plain_part(alloc: Global, tokens: &mut Cursor<'_, '_>) -> Result<BodyPart, ReadFault>
    ensures { Reads readers.plain_part tokens.old result tokens.new }
{
    let pos = tokens.position()?;
    let item = boxed(alloc, plain_item(alloc, tokens, 1))?;
    let decl = Boxed::new(alloc, Decl::OfItem { pos, item })?;
    Ok(BodyPart::Declared { pos, decl })
}

/// A part of a package body that is a body, after `is` (Ada 2012, 6.3).
#[tactic(auto, unfolding(ada_grammar::specs::Units::completed_part))]
fn completed_part(
    alloc: Global,
    tokens: &mut Cursor<'_, '_>,
    pos: Pos,
    spec: Boxed<Subspec>,
    mode: Option<SparkMode>,
    is: Pos,
) -> Result<BodyPart, ReadFault>
    ensures { Reads (readers.completed_part pos spec mode is) tokens.old result tokens.new }
{
    let body = body_behind(alloc, tokens, 2, pos, spec, mode, is)?;
    Ok(BodyPart::Completed { pos, body })
}

/// decl = subspec mode `;` | subbody, after the mode (Ada 2012, 6.1 and 6.3).
#[tactic(auto, unfolding(ada_grammar::specs::Units::part_ending))]
fn part_ending(
    alloc: Global,
    tokens: &mut Cursor<'_, '_>,
    pos: Pos,
    spec: Boxed<Subspec>,
    mode: Option<SparkMode>,
) -> Result<BodyPart, ReadFault>
    ensures { Reads (readers.part_ending pos spec mode) tokens.old result tokens.new }
{
    if tokens.sees_word(Reserved::KwIs) {
        let is = tokens.word(Side::Apart, Reserved::KwIs)?;
        return completed_part(alloc, tokens, pos, spec, mode, is);
    }
    let semicolon = tokens.symbol(Side::Apart, Symbol::Semicolon)?;
    let decl = Boxed::new(
        alloc,
        Decl::Subprogram {
            pos,
            spec,
            mode,
            semicolon,
        },
    )?;
    Ok(BodyPart::Declared { pos, decl })
}

/// The same, after the subspec.
#[tactic(auto, unfolding(ada_grammar::specs::Units::part_behind))]
fn part_behind(
    alloc: Global,
    tokens: &mut Cursor<'_, '_>,
    pos: Pos,
    spec: Boxed<Subspec>,
) -> Result<BodyPart, ReadFault>
    ensures { Reads (readers.part_behind pos spec) tokens.old result tokens.new }
{
    let mode = mode(alloc, tokens)?;
    part_ending(alloc, tokens, pos, spec, mode)
}

/// A part of a package body that begins with `procedure` id `is`: an instance or a body, after
/// `is` (Ada 2012, 6.3 and 12.3).
#[tactic(auto, unfolding(ada_grammar::specs::Units::instance_or_body))]
fn instance_or_body(
    alloc: Global,
    tokens: &mut Cursor<'_, '_>,
    pos: Pos,
    name: Identifier,
    is: Pos,
) -> Result<BodyPart, ReadFault>
    ensures { Reads (readers.instance_or_body pos name is) tokens.old result tokens.new }
{
    if tokens.sees_word(Reserved::KwNew) {
        let decl = boxed(alloc, instance_decl(alloc, tokens, pos, name, is))?;
        return Ok(BodyPart::Declared { pos, decl });
    }
    let spec = procedure(alloc, pos, name, None)?;
    completed_part(alloc, tokens, pos, spec, None, is)
}

/// decl = subspec mode `;` | subbody, after `procedure` id, where no `is` follows (Ada 2012, 6.1
/// and 6.3).
#[tactic(auto, unfolding(ada_grammar::specs::Units::procedure_part))]
fn procedure_part(
    alloc: Global,
    tokens: &mut Cursor<'_, '_>,
    pos: Pos,
    name: Identifier,
) -> Result<BodyPart, ReadFault>
    ensures { Reads (readers.procedure_part pos name) tokens.old result tokens.new }
{
    if tokens.sees_symbol(Symbol::LeftParenthesis) {
        let formals = boxed(alloc, formals(alloc, tokens, 2))?;
        let spec = procedure(alloc, pos, name, Some(formals))?;
        return part_behind(alloc, tokens, pos, spec);
    }
    if tokens.sees_word(Reserved::KwWith) {
        let mode = spark_mode(alloc, tokens)?;
        let spec = procedure(alloc, pos, name, None)?;
        return part_ending(alloc, tokens, pos, spec, Some(mode));
    }
    let semicolon = tokens.symbol(Side::Apart, Symbol::Semicolon)?;
    let spec = procedure(alloc, pos, name, None)?;
    let decl = Boxed::new(
        alloc,
        Decl::Subprogram {
            pos,
            spec,
            mode: None,
            semicolon,
        },
    )?;
    Ok(BodyPart::Declared { pos, decl })
}

/// A part of a package body that begins with `procedure`, after the identifier.
#[tactic(auto, unfolding(ada_grammar::specs::Units::named_part))]
fn named_part(
    alloc: Global,
    tokens: &mut Cursor<'_, '_>,
    pos: Pos,
    name: Identifier,
) -> Result<BodyPart, ReadFault>
    ensures { Reads (readers.named_part pos name) tokens.old result tokens.new }
{
    if tokens.sees_word(Reserved::KwIs) {
        let is = tokens.word(Side::Apart, Reserved::KwIs)?;
        return instance_or_body(alloc, tokens, pos, name, is);
    }
    procedure_part(alloc, tokens, pos, name)
}

/// decl | subbody (Ada 2012, 3.11 and 7.2)
#[tactic(auto, unfolding(ada_grammar::specs::Units::body_part))]
fn body_part(alloc: Global, tokens: &mut Cursor<'_, '_>) -> Result<BodyPart, ReadFault>
    ensures { Reads readers.body_part tokens.old result tokens.new }
{
    if tokens.sees_word(Reserved::KwProcedure) {
        let pos = tokens.word(Side::Apart, Reserved::KwProcedure)?;
        let name = identifier(alloc, tokens, Side::Apart)?;
        return named_part(alloc, tokens, pos, name);
    }
    if tokens.sees_word(Reserved::KwFunction) {
        let pos = tokens.word(Side::Apart, Reserved::KwFunction)?;
        let spec = function_spec(alloc, tokens, 2, pos)?;
        return part_behind(alloc, tokens, pos, spec);
    }
    plain_part(alloc, tokens)
}

/// {decl | subbody} (Ada 2012, 7.2)
fn body_parts(alloc: Global, tokens: &mut Cursor<'_, '_>) -> Result<Listed<BodyPart>, ReadFault>
    ensures { Reads readers.body_parts tokens.old result tokens.new }
{
    let mut all = Listed::new(alloc);
    'turns: while begins_decl(tokens) {
        all.push(body_part(alloc, tokens)?)?;
    }
    Ok(all)
}

/// `private` {decl} (Ada 2012, 7.1)
#[tactic(auto, unfolding(ada_grammar::specs::Units::private_part))]
fn private_part(alloc: Global, tokens: &mut Cursor<'_, '_>) -> Result<PrivatePart, ReadFault>
    ensures { Reads readers.private_part tokens.old result tokens.new }
{
    let pos = tokens.word(Side::Apart, Reserved::KwPrivate)?;
    let decls = decls(alloc, tokens)?;
    Ok(PrivatePart { pos, decls })
}

/// [`private` {decl}]
fn optional_private(
    alloc: Global,
    tokens: &mut Cursor<'_, '_>,
) -> Result<Option<PrivatePart>, ReadFault>
    ensures { Reads readers.optional_private tokens.old result tokens.new }
{
    if tokens.sees_word(Reserved::KwPrivate) {
        return Ok(Some(private_part(alloc, tokens)?));
    }
    Ok(None)
}

/// {decl} [`private` {decl}] `end` [id] `;` (Ada 2012, 7.1)
fn package_decls(alloc: Global, tokens: &mut Cursor<'_, '_>) -> Result<Decls, ReadFault>
    ensures { ReadsAs decl_parts readers.decl_parts tokens.old result tokens.new }
{
    let visible = decls(alloc, tokens)?;
    let private = optional_private(alloc, tokens)?;
    let closing = closing(alloc, tokens)?;
    Ok(Decls {
        visible,
        private,
        closing,
    })
}

/// package = `package` id mode `is` {decl} [`private` {decl}] `end` [id] `;`, after `package` (Ada
/// 2012, 7.1).
#[tactic(auto, unfolding(ada_grammar::specs::Units::package_behind))]
pub fn package_behind(
    alloc: Global,
    tokens: &mut Cursor<'_, '_>,
    pos: Pos,
) -> Result<Boxed<Package>, ReadFault>
    ensures { Reads (readers.package_behind pos) tokens.old result tokens.new }
{
    let name = identifier(alloc, tokens, Side::Apart)?;
    let mode = mode(alloc, tokens)?;
    let is = tokens.word(Side::Apart, Reserved::KwIs)?;
    let decls = package_decls(alloc, tokens)?;
    let tree = Package {
        pos,
        name,
        mode,
        is,
        visible: decls.visible,
        private: decls.private,
        end: decls.closing.end,
        closing: decls.closing.name,
        semicolon: decls.closing.semicolon,
    };
    boxed(alloc, Ok(tree))
}

/// {decl | subbody} `end` [id] `;` (Ada 2012, 7.2)
fn package_body_end(alloc: Global, tokens: &mut Cursor<'_, '_>) -> Result<BodyParts, ReadFault>
    ensures { ReadsAs body_end_parts readers.package_body_end tokens.old result tokens.new }
{
    let parts = body_parts(alloc, tokens)?;
    let closing = closing(alloc, tokens)?;
    Ok(BodyParts { parts, closing })
}

/// packbody = `package` `body` id mode `is` {decl | subbody} `end` [id] `;`, after `package` (Ada
/// 2012, 7.2).
#[tactic(auto, unfolding(ada_grammar::specs::Units::package_body_behind))]
pub fn package_body_behind(
    alloc: Global,
    tokens: &mut Cursor<'_, '_>,
    pos: Pos,
) -> Result<Boxed<PackageBody>, ReadFault>
    ensures { Reads (readers.package_body_behind pos) tokens.old result tokens.new }
{
    let body = tokens.word(Side::Apart, Reserved::KwBody)?;
    let name = identifier(alloc, tokens, Side::Apart)?;
    let mode = mode(alloc, tokens)?;
    let is = tokens.word(Side::Apart, Reserved::KwIs)?;
    let end = package_body_end(alloc, tokens)?;
    let tree = PackageBody {
        pos,
        body,
        name,
        mode,
        is,
        parts: end.parts,
        end: end.closing.end,
        closing: end.closing.name,
        semicolon: end.closing.semicolon,
    };
    boxed(alloc, Ok(tree))
}
