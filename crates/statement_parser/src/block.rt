//! Loops and blocks.
ghost use Rattle.std.specs.Prelude.{◌<◌};
ghost use Rattle.spark_base.specs.declared.limits.TheConstants.{NESTING};
ghost use Rattle.token_reading.specs.Reading.{Reads};
ghost use Rattle.ada_grammar.specs.Statements as readers;
ghost use Rattle.expression_parser.specs.Parts.{ReadsAs};
ghost use Rattle.statement_parser.specs.InnerStatements.{ReadsInner};
ghost use Rattle.statement_parser.specs.Parts.{loop_parts};

use crate::item::items;
use crate::parser::StatementParser;
use crate::parts::LoopBody;
use crate::simple_statement::{block_ending, ending, opens};
use ada_lexer::Reserved;
use ada_tree::{Stmt, Stmts};
use expression_parser::{boxed, expr, identifier, range};
use std::alloc::Global;
use token_reading::{Cursor, ReadFault, Side};

impl<F: Fn(Global, &mut Cursor<'_, '_>, u32) -> Result<Stmts, ReadFault>> StatementParser<F> {
    /// stmt = `loop` stmts `end` `loop` `;` (Ada 2012, 5.5)
    #[tactic(auto, unfolding(ada_grammar::specs::Statements::loop_in))]
    pub fn loop_stmt(&self, tokens: &mut Cursor<'_, '_>) -> Result<Stmt, ReadFault>
        requires { ReadsInner self.now.depth (F.pre self.now.inner) (F.post self.now.inner) }
        ensures { Reads (readers.loop_in self.now.depth (readers.inner_stmts self.now.depth)) tokens.old result tokens.new }
    {
        let pos = opens(tokens, Reserved::KwLoop, self.depth)?;
        let stmts = boxed(self.alloc, self.inner_stmts(tokens))?;
        let ending = ending(tokens, Reserved::KwLoop)?;
        Ok(Stmt::Loop {
            pos,
            stmts,
            end: ending.end,
            end_loop: ending.word,
            semicolon: ending.semicolon,
        })
    }

    /// `loop` stmts `end` `loop` `;`, of a loop that opened before
    #[tactic(auto, unfolding(ada_grammar::specs::Statements::loop_body_in))]
    pub fn loop_body(&self, tokens: &mut Cursor<'_, '_>) -> Result<LoopBody, ReadFault>
        requires room { self.now.depth < NESTING }
        requires inner { ReadsInner self.now.depth (F.pre self.now.inner) (F.post self.now.inner) }
        ensures { ReadsAs loop_parts (readers.loop_body_in (readers.inner_stmts self.now.depth)) tokens.old result tokens.new }
    {
        let loop_word = tokens.word(Side::Apart, Reserved::KwLoop)?;
        let stmts = boxed(self.alloc, self.inner_stmts(tokens))?;
        let ending = ending(tokens, Reserved::KwLoop)?;
        Ok(LoopBody {
            loop_word,
            stmts,
            ending,
        })
    }

    /// stmt = `while` expr `loop` stmts `end` `loop` `;` (Ada 2012, 5.5)
    #[tactic(auto, unfolding(ada_grammar::specs::Statements::while_in))]
    pub fn while_stmt(&self, tokens: &mut Cursor<'_, '_>) -> Result<Stmt, ReadFault>
        requires { ReadsInner self.now.depth (F.pre self.now.inner) (F.post self.now.inner) }
        ensures { Reads (readers.while_in self.now.depth (readers.inner_stmts self.now.depth)) tokens.old result tokens.new }
    {
        let pos = opens(tokens, Reserved::KwWhile, self.depth)?;
        let condition = boxed(self.alloc, expr(self.alloc, tokens, self.inside()))?;
        let body = self.loop_body(tokens)?;
        Ok(Stmt::While {
            pos,
            condition,
            loop_word: body.loop_word,
            stmts: body.stmts,
            end: body.ending.end,
            end_loop: body.ending.word,
            semicolon: body.ending.semicolon,
        })
    }

    /// stmt = `for` id `in` [`reverse`] range `loop` stmts `end` `loop` `;` (Ada 2012, 5.5)
    #[tactic(auto, unfolding(ada_grammar::specs::Statements::for_in))]
    pub fn for_stmt(&self, tokens: &mut Cursor<'_, '_>) -> Result<Stmt, ReadFault>
        requires { ReadsInner self.now.depth (F.pre self.now.inner) (F.post self.now.inner) }
        ensures { Reads (readers.for_in self.now.depth (readers.inner_stmts self.now.depth)) tokens.old result tokens.new }
    {
        let pos = opens(tokens, Reserved::KwFor, self.depth)?;
        let parameter = identifier(self.alloc, tokens, Side::Apart)?;
        let in_word = tokens.word(Side::Apart, Reserved::KwIn)?;
        let reverse = tokens.optional_word(Reserved::KwReverse)?;
        let range = range(self.alloc, tokens, self.inside())?;
        let body = self.loop_body(tokens)?;
        Ok(Stmt::For {
            pos,
            parameter,
            in_word,
            reverse,
            range,
            loop_word: body.loop_word,
            stmts: body.stmts,
            end: body.ending.end,
            end_loop: body.ending.word,
            semicolon: body.ending.semicolon,
        })
    }

    /// stmt = `begin` stmts `end` `;` (Ada 2012, 5.6)
    #[tactic(auto, unfolding(ada_grammar::specs::Statements::block_in))]
    pub fn block(&self, tokens: &mut Cursor<'_, '_>) -> Result<Stmt, ReadFault>
        requires { ReadsInner self.now.depth (F.pre self.now.inner) (F.post self.now.inner) }
        ensures { Reads (readers.block_in self.now.depth (readers.inner_stmts self.now.depth)) tokens.old result tokens.new }
    {
        let pos = opens(tokens, Reserved::KwBegin, self.depth)?;
        let stmts = boxed(self.alloc, self.inner_stmts(tokens))?;
        let (end, semicolon) = block_ending(tokens)?;
        Ok(Stmt::Block {
            pos,
            stmts,
            end,
            semicolon,
        })
    }

    /// stmt = `declare` {item} `begin` stmts `end` `;` (Ada 2012, 5.6)
    #[tactic(auto, unfolding(ada_grammar::specs::Statements::declare_in))]
    pub fn declare_block(&self, tokens: &mut Cursor<'_, '_>) -> Result<Stmt, ReadFault>
        requires { ReadsInner self.now.depth (F.pre self.now.inner) (F.post self.now.inner) }
        ensures { Reads (readers.declare_in self.now.depth (readers.inner_stmts self.now.depth)) tokens.old result tokens.new }
    {
        let pos = opens(tokens, Reserved::KwDeclare, self.depth)?;
        let items = items(self.alloc, tokens, self.inside())?;
        let begin = tokens.word(Side::Apart, Reserved::KwBegin)?;
        let stmts = boxed(self.alloc, self.inner_stmts(tokens))?;
        let (end, semicolon) = block_ending(tokens)?;
        Ok(Stmt::DeclareBlock {
            pos,
            items,
            begin,
            stmts,
            end,
            semicolon,
        })
    }
}
