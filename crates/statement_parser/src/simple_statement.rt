//! Statements that contain none, and the tokens that statements have in common.
ghost use Rattle.std.specs.Prelude.{◌<◌, ◌≤◌, IfOk};
ghost use Rattle.spark_base.specs.declared.limits.TheConstants.{NESTING};
ghost use Rattle.token_reading.specs.Reading as reading;
ghost use Rattle.token_reading.specs.Reading.{Reads};
ghost use Rattle.ada_grammar.specs.Statements as readers;
ghost use Rattle.expression_parser.specs.Parts.{ReadsAs};
ghost use Rattle.statement_parser.specs.Parts.{ending_parts};

use crate::parts::Ending;
use ada_lexer::{Reserved, Symbol};
use ada_tree::Stmt;
use expression_parser::{boxed, expr, name_at};
use spark_base::Pos;
use std::alloc::Global;
use token_reading::{Cursor, ReadFault, Side};

/// The reserved word that opens a construct where so many are open.
pub fn opens(tokens: &mut Cursor<'_, '_>, word: Reserved, depth: u32) -> Result<Pos, ReadFault>
    ensures reads { Reads (reading.opens_word word depth) tokens.old result tokens.new }
    ensures room { IfOk result (λ _. depth < NESTING) }
{
    let pos = tokens.opens_word(word, depth)?;
    Ok(pos)
}

/// `;`
pub fn semicolon(tokens: &mut Cursor<'_, '_>) -> Result<Pos, ReadFault>
    ensures { Reads readers.semicolon tokens.old result tokens.new }
{
    tokens.symbol(Side::Apart, Symbol::Semicolon)
}

/// `end`, the word that opened the construct, `;`
#[tactic(auto, unfolding(ada_grammar::specs::Statements::ending))]
pub fn ending(tokens: &mut Cursor<'_, '_>, word: Reserved) -> Result<Ending, ReadFault>
    ensures { ReadsAs ending_parts (readers.ending word) tokens.old result tokens.new }
{
    let end = tokens.word(Side::Apart, Reserved::KwEnd)?;
    let word = tokens.word(Side::Apart, word)?;
    let semicolon = semicolon(tokens)?;
    Ok(Ending {
        end,
        word,
        semicolon,
    })
}

/// `end` `;`
#[tactic(auto, unfolding(ada_grammar::specs::Statements::block_ending))]
pub fn block_ending(tokens: &mut Cursor<'_, '_>) -> Result<(Pos, Pos), ReadFault>
    ensures { Reads readers.block_ending tokens.old result tokens.new }
{
    let end = tokens.word(Side::Apart, Reserved::KwEnd)?;
    let semicolon = semicolon(tokens)?;
    Ok((end, semicolon))
}

/// stmt = `null` `;` (Ada 2012, 5.1)
#[tactic(auto, unfolding(ada_grammar::specs::Statements::null_stmt))]
pub fn null_stmt(tokens: &mut Cursor<'_, '_>) -> Result<Stmt, ReadFault>
    ensures { Reads readers.null_stmt tokens.old result tokens.new }
{
    let pos = tokens.word(Side::Apart, Reserved::KwNull)?;
    let semicolon = semicolon(tokens)?;
    Ok(Stmt::Null { pos, semicolon })
}

/// stmt = name `:=` expr `;` | name `;` (Ada 2012, 5.2, 6.4)
#[tactic(auto, unfolding(ada_grammar::specs::Statements::named_stmt, ada_grammar::specs::Statements::source))]
pub fn named_stmt(alloc: Global, tokens: &mut Cursor<'_, '_>, depth: u32) -> Result<Stmt, ReadFault>
    requires { depth ≤ NESTING }
    ensures { Reads (readers.named_stmt depth) tokens.old result tokens.new }
{
    let pos = tokens.position()?;
    let name = boxed(alloc, name_at(alloc, tokens, Side::Apart, depth))?;
    if tokens.sees_symbol(Symbol::Becomes) {
        let becomes = tokens.symbol(Side::Apart, Symbol::Becomes)?;
        let value = boxed(alloc, expr(alloc, tokens, depth))?;
        let semicolon = semicolon(tokens)?;
        return Ok(Stmt::Assign {
            pos,
            target: name,
            becomes,
            value,
            semicolon,
        });
    }
    let semicolon = semicolon(tokens)?;
    Ok(Stmt::Call {
        pos,
        name,
        semicolon,
    })
}

/// stmt = `exit` [`when` expr] `;` (Ada 2012, 5.7)
#[tactic(auto, unfolding(ada_grammar::specs::Statements::exit_stmt, ada_grammar::specs::Statements::exit_condition))]
pub fn exit_stmt(alloc: Global, tokens: &mut Cursor<'_, '_>, depth: u32) -> Result<Stmt, ReadFault>
    ensures { Reads (readers.exit_stmt depth) tokens.old result tokens.new }
{
    let pos = tokens.word(Side::Apart, Reserved::KwExit)?;
    if tokens.sees_word(Reserved::KwWhen) {
        let when = tokens.word(Side::Apart, Reserved::KwWhen)?;
        let condition = boxed(alloc, expr(alloc, tokens, depth))?;
        let semicolon = semicolon(tokens)?;
        return Ok(Stmt::ExitWhen {
            pos,
            when,
            condition,
            semicolon,
        });
    }
    let semicolon = semicolon(tokens)?;
    Ok(Stmt::Exit { pos, semicolon })
}

/// stmt = `return` [expr] `;` (Ada 2012, 6.5)
#[tactic(auto, unfolding(ada_grammar::specs::Statements::return_stmt))]
pub fn return_stmt(
    alloc: Global,
    tokens: &mut Cursor<'_, '_>,
    depth: u32,
) -> Result<Stmt, ReadFault>
    ensures { Reads (readers.return_stmt depth) tokens.old result tokens.new }
{
    let pos = tokens.word(Side::Apart, Reserved::KwReturn)?;
    if tokens.sees_symbol(Symbol::Semicolon) {
        let semicolon = semicolon(tokens)?;
        return Ok(Stmt::Return { pos, semicolon });
    }
    let value = boxed(alloc, expr(alloc, tokens, depth))?;
    let semicolon = semicolon(tokens)?;
    Ok(Stmt::ReturnValue {
        pos,
        value,
        semicolon,
    })
}
