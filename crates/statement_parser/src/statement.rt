//! Statements, each and several in a row.
ghost use Rattle.std.specs.Prelude.{◌≡◌, ◌≤◌};
ghost use Rattle.spark_base.specs.declared.limits.TheConstants.{NESTING};
ghost use Rattle.token_reading.specs.Reading.{Reads, starts};
ghost use Rattle.ada_grammar.specs.Statements as readers;
ghost use Rattle.statement_parser.specs.InnerStatements.{ReadsInner};

use crate::parser::StatementParser;
use crate::simple_statement::{exit_stmt, named_stmt, null_stmt, return_stmt};
use ada_lexer::Reserved;
use ada_tree::{Stmt, Stmts};
use expression_parser::boxed;
use spark_base::Listed;
use std::alloc::Global;
use token_reading::{Cursor, Kind, ReadFault};

/// Whether a statement begins here.
fn begins_stmt(tokens: &Cursor<'_, '_>) -> bool
    ensures { result ≡ starts readers.stmt_first tokens.now.tokens }
{
    tokens.sees_any(&[
        Kind::Word(Reserved::KwNull),
        Kind::Word(Reserved::KwExit),
        Kind::Word(Reserved::KwReturn),
        Kind::Word(Reserved::KwIf),
        Kind::Word(Reserved::KwCase),
        Kind::Word(Reserved::KwLoop),
        Kind::Word(Reserved::KwWhile),
        Kind::Word(Reserved::KwFor),
        Kind::Word(Reserved::KwBegin),
        Kind::Word(Reserved::KwDeclare),
        Kind::Identifier,
    ])
}

impl<F: Fn(Global, &mut Cursor<'_, '_>, u32) -> Result<Stmts, ReadFault>> StatementParser<F> {
    /// A loop or a block, else a statement that begins with a name.
    #[tactic(auto, unfolding(ada_grammar::specs::Statements::block_or_named_in))]
    pub fn block_or_named(&self, tokens: &mut Cursor<'_, '_>) -> Result<Stmt, ReadFault>
        requires { ReadsInner self.now.depth (F.pre self.now.inner) (F.post self.now.inner) }
        ensures { Reads (readers.block_or_named_in self.now.depth (readers.inner_stmts self.now.depth)) tokens.old result tokens.new }
    {
        if tokens.sees_word(Reserved::KwLoop) {
            return self.loop_stmt(tokens);
        }
        if tokens.sees_word(Reserved::KwWhile) {
            return self.while_stmt(tokens);
        }
        if tokens.sees_word(Reserved::KwFor) {
            return self.for_stmt(tokens);
        }
        if tokens.sees_word(Reserved::KwBegin) {
            return self.block(tokens);
        }
        if tokens.sees_word(Reserved::KwDeclare) {
            return self.declare_block(tokens);
        }
        named_stmt(self.alloc, tokens, self.depth)
    }

    /// stmt (Ada 2012, 5.1)
    #[tactic(auto, unfolding(ada_grammar::specs::Statements::stmt_in))]
    pub fn stmt(&self, tokens: &mut Cursor<'_, '_>) -> Result<Stmt, ReadFault>
        requires { ReadsInner self.now.depth (F.pre self.now.inner) (F.post self.now.inner) }
        ensures { Reads (readers.stmt_in self.now.depth (readers.inner_stmts self.now.depth)) tokens.old result tokens.new }
    {
        if tokens.sees_word(Reserved::KwNull) {
            return null_stmt(tokens);
        }
        if tokens.sees_word(Reserved::KwExit) {
            return exit_stmt(self.alloc, tokens, self.depth);
        }
        if tokens.sees_word(Reserved::KwReturn) {
            return return_stmt(self.alloc, tokens, self.depth);
        }
        if tokens.sees_word(Reserved::KwIf) {
            return self.if_stmt(tokens);
        }
        if tokens.sees_word(Reserved::KwCase) {
            return self.case_stmt(tokens);
        }
        self.block_or_named(tokens)
    }

    /// {stmt}
    #[tactic(auto, unfolding(ada_grammar::specs::Statements::next_stmts_in))]
    pub fn next_stmts(&self, tokens: &mut Cursor<'_, '_>) -> Result<Listed<Stmt>, ReadFault>
        requires { ReadsInner self.now.depth (F.pre self.now.inner) (F.post self.now.inner) }
        ensures { Reads (readers.next_stmts_in self.now.depth (readers.inner_stmts self.now.depth)) tokens.old result tokens.new }
    {
        let mut all = Listed::new(self.alloc);
        'turns: while begins_stmt(tokens) {
            all.push(self.stmt(tokens)?)?;
        }
        Ok(all)
    }

    /// stmts = stmt {stmt} (Ada 2012, 5.1)
    #[tactic(auto, unfolding(ada_grammar::specs::Statements::stmts_in))]
    pub fn stmts(&self, tokens: &mut Cursor<'_, '_>) -> Result<Stmts, ReadFault>
        requires { ReadsInner self.now.depth (F.pre self.now.inner) (F.post self.now.inner) }
        ensures { Reads (readers.stmts_in self.now.depth (readers.inner_stmts self.now.depth)) tokens.old result tokens.new }
    {
        let pos = tokens.position()?;
        let first = boxed(self.alloc, self.stmt(tokens))?;
        let rest = self.next_stmts(tokens)?;
        Ok(Stmts::Sequence { pos, first, rest })
    }
}

/// stmts = stmt {stmt}, where so many constructs are open (Ada 2012, 5.1).
pub fn stmts(alloc: Global, tokens: &mut Cursor<'_, '_>, depth: u32) -> Result<Stmts, ReadFault>
    requires { depth ≤ NESTING }
    ensures { Reads (readers.stmts depth) tokens.old result tokens.new }
{
    StatementParser {
        alloc,
        depth,
        inner: stmts,
    }
    .stmts(tokens)
}
