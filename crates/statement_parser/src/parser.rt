//! The parser whose methods are the productions of statements.
ghost use Rattle.std.specs.Prelude.{◌≡◌, suc, ◌<◌};
ghost use Rattle.spark_base.specs.declared.limits.TheConstants.{NESTING};
ghost use Rattle.token_reading.specs.Reading.{Reads};
ghost use Rattle.ada_grammar.specs.Statements as readers;
ghost use Rattle.statement_parser.specs.InnerStatements.{ReadsInner};

use ada_tree::Stmts;
use std::alloc::Global;
use token_reading::{Cursor, ReadFault};

/// Reads statements where so many constructs are open, over the parser of the statements within
/// them, so that each production is proved by itself.
#[derive(Drop)]
pub struct StatementParser<F> {
    /// Where memory is taken from.
    pub alloc: Global,
    /// How many constructs are open.
    pub depth: u32,
    /// The parser of the statements within a statement.
    pub inner: F,
}

impl<F: Fn(Global, &mut Cursor<'_, '_>, u32) -> Result<Stmts, ReadFault>> StatementParser<F> {
    /// How many constructs are open within a statement that opens one.
    pub fn inside(&self) -> u32
        requires { self.now.depth < NESTING }
        ensures { result ≡ suc self.now.depth }
    {
        self.depth + 1
    }

    /// The statements within a statement that has opened a construct.
    pub fn inner_stmts(&self, tokens: &mut Cursor<'_, '_>) -> Result<Stmts, ReadFault>
        requires room { self.now.depth < NESTING }
        requires inner { ReadsInner self.now.depth (F.pre self.now.inner) (F.post self.now.inner) }
        ensures { Reads (readers.inner_stmts self.now.depth) tokens.old result tokens.new }
    {
        (self.inner)(self.alloc, tokens, self.inside())
    }
}
