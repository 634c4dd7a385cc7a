//! `if` and `case`.
ghost use Rattle.std.specs.Prelude.{suc, ◌<◌};
ghost use Rattle.spark_base.specs.declared.limits.TheConstants.{NESTING};
ghost use Rattle.token_reading.specs.Reading.{Reads};
ghost use Rattle.ada_grammar.specs.Statements as readers;
ghost use Rattle.statement_parser.specs.InnerStatements.{ReadsInner};

use crate::parser::StatementParser;
use crate::simple_statement::{ending, opens};
use ada_lexer::{Reserved, Symbol};
use ada_tree::{Elsif, Stmt, Stmts, When};
use expression_parser::{boxed, choice, expr, next_choices};
use spark_base::{Boxed, Listed, Pos};
use std::alloc::Global;
use token_reading::{Cursor, ReadFault, Side};

impl<F: Fn(Global, &mut Cursor<'_, '_>, u32) -> Result<Stmts, ReadFault>> StatementParser<F> {
    /// `elsif` expr `then` stmts (Ada 2012, 5.3)
    #[tactic(auto, unfolding(ada_grammar::specs::Statements::elsif_in))]
    pub fn elsif(&self, tokens: &mut Cursor<'_, '_>) -> Result<Elsif, ReadFault>
        requires room { self.now.depth < NESTING }
        requires inner { ReadsInner self.now.depth (F.pre self.now.inner) (F.post self.now.inner) }
        ensures { Reads (readers.elsif_in (suc self.now.depth) (readers.inner_stmts self.now.depth)) tokens.old result tokens.new }
    {
        let pos = tokens.word(Side::Apart, Reserved::KwElsif)?;
        let condition = boxed(self.alloc, expr(self.alloc, tokens, self.inside()))?;
        let then = tokens.word(Side::Apart, Reserved::KwThen)?;
        let stmts = boxed(self.alloc, self.inner_stmts(tokens))?;
        Ok(Elsif::Branch {
            pos,
            condition,
            then,
            stmts,
        })
    }

    /// {`elsif` expr `then` stmts}
    #[tactic(auto, unfolding(ada_grammar::specs::Statements::elsifs_in))]
    pub fn elsifs(&self, tokens: &mut Cursor<'_, '_>) -> Result<Listed<Elsif>, ReadFault>
        requires room { self.now.depth < NESTING }
        requires inner { ReadsInner self.now.depth (F.pre self.now.inner) (F.post self.now.inner) }
        ensures { Reads (readers.elsifs_in (suc self.now.depth) (readers.inner_stmts self.now.depth)) tokens.old result tokens.new }
    {
        let mut all = Listed::new(self.alloc);
        'turns: while tokens.sees_word(Reserved::KwElsif) {
            all.push(self.elsif(tokens)?)?;
        }
        Ok(all)
    }

    /// [`else` stmts]
    #[tactic(auto, unfolding(ada_grammar::specs::Statements::otherwise_in))]
    pub fn otherwise(
        &self,
        tokens: &mut Cursor<'_, '_>,
    ) -> Result<Option<(Pos, Boxed<Stmts>)>, ReadFault>
        requires room { self.now.depth < NESTING }
        requires inner { ReadsInner self.now.depth (F.pre self.now.inner) (F.post self.now.inner) }
        ensures { Reads (readers.otherwise_in (readers.inner_stmts self.now.depth)) tokens.old result tokens.new }
    {
        if tokens.sees_word(Reserved::KwElse) {
            let pos = tokens.word(Side::Apart, Reserved::KwElse)?;
            let stmts = boxed(self.alloc, self.inner_stmts(tokens))?;
            return Ok(Some((pos, stmts)));
        }
        Ok(None)
    }

    /// stmt = `if` expr `then` stmts {`elsif` expr `then` stmts} [`else` stmts] `end` `if` `;` (Ada
    /// 2012, 5.3)
    #[tactic(auto, unfolding(ada_grammar::specs::Statements::if_in))]
    pub fn if_stmt(&self, tokens: &mut Cursor<'_, '_>) -> Result<Stmt, ReadFault>
        requires { ReadsInner self.now.depth (F.pre self.now.inner) (F.post self.now.inner) }
        ensures { Reads (readers.if_in self.now.depth (readers.inner_stmts self.now.depth)) tokens.old result tokens.new }
    {
        let pos = opens(tokens, Reserved::KwIf, self.depth)?;
        let condition = boxed(self.alloc, expr(self.alloc, tokens, self.inside()))?;
        let then = tokens.word(Side::Apart, Reserved::KwThen)?;
        let stmts = boxed(self.alloc, self.inner_stmts(tokens))?;
        let elsifs = self.elsifs(tokens)?;
        let otherwise = self.otherwise(tokens)?;
        let ending = ending(tokens, Reserved::KwIf)?;
        let Some((otherwise, otherwise_stmts)) = otherwise else {
            return Ok(Stmt::If {
                pos,
                condition,
                then,
                stmts,
                elsifs,
                end: ending.end,
                end_if: ending.word,
                semicolon: ending.semicolon,
            });
        };
        Ok(Stmt::IfElse {
            pos,
            condition,
            then,
            stmts,
            elsifs,
            otherwise,
            otherwise_stmts,
            end: ending.end,
            end_if: ending.word,
            semicolon: ending.semicolon,
        })
    }

    /// when = `when` choice {`|` choice} `=>` stmts (Ada 2012, 5.4)
    #[tactic(auto, unfolding(ada_grammar::specs::Statements::when_in))]
    pub fn when(&self, tokens: &mut Cursor<'_, '_>) -> Result<When, ReadFault>
        requires room { self.now.depth < NESTING }
        requires inner { ReadsInner self.now.depth (F.pre self.now.inner) (F.post self.now.inner) }
        ensures { Reads (readers.when_in (suc self.now.depth) (readers.inner_stmts self.now.depth)) tokens.old result tokens.new }
    {
        let pos = tokens.word(Side::Apart, Reserved::KwWhen)?;
        let first = choice(self.alloc, tokens, self.inside())?;
        let rest = next_choices(self.alloc, tokens, self.inside())?;
        let arrow = tokens.symbol(Side::Apart, Symbol::Arrow)?;
        let stmts = boxed(self.alloc, self.inner_stmts(tokens))?;
        Ok(When::Alternative {
            pos,
            first,
            rest,
            arrow,
            stmts,
        })
    }

    /// {when}
    #[tactic(auto, unfolding(ada_grammar::specs::Statements::next_whens_in))]
    pub fn next_whens(&self, tokens: &mut Cursor<'_, '_>) -> Result<Listed<When>, ReadFault>
        requires room { self.now.depth < NESTING }
        requires inner { ReadsInner self.now.depth (F.pre self.now.inner) (F.post self.now.inner) }
        ensures { Reads (readers.next_whens_in (suc self.now.depth) (readers.inner_stmts self.now.depth)) tokens.old result tokens.new }
    {
        let mut all = Listed::new(self.alloc);
        'turns: while tokens.sees_word(Reserved::KwWhen) {
            all.push(self.when(tokens)?)?;
        }
        Ok(all)
    }

    /// stmt = `case` expr `is` when {when} `end` `case` `;` (Ada 2012, 5.4)
    #[tactic(auto, unfolding(ada_grammar::specs::Statements::case_in))]
    pub fn case_stmt(&self, tokens: &mut Cursor<'_, '_>) -> Result<Stmt, ReadFault>
        requires { ReadsInner self.now.depth (F.pre self.now.inner) (F.post self.now.inner) }
        ensures { Reads (readers.case_in self.now.depth (readers.inner_stmts self.now.depth)) tokens.old result tokens.new }
    {
        let pos = opens(tokens, Reserved::KwCase, self.depth)?;
        let selector = boxed(self.alloc, expr(self.alloc, tokens, self.inside()))?;
        let is = tokens.word(Side::Apart, Reserved::KwIs)?;
        let first = boxed(self.alloc, self.when(tokens))?;
        let rest = self.next_whens(tokens)?;
        let ending = ending(tokens, Reserved::KwCase)?;
        Ok(Stmt::Case {
            pos,
            selector,
            is,
            first,
            rest,
            end: ending.end,
            end_case: ending.word,
            semicolon: ending.semicolon,
        })
    }
}
