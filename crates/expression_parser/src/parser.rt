//! The parser whose methods are the productions of expressions and names.
ghost use Rattle.std.specs.Prelude.{◌≡◌, suc, ◌≤◌};
ghost use Rattle.spark_base.specs.declared.limits.TheConstants.{NESTING};
ghost use Rattle.token_reading.specs.Reading.{Reads};
ghost use Rattle.ada_grammar.specs.Expressions as readers;
ghost use Rattle.expression_parser.specs.InnerExpressions.{ReadsInner};

use ada_tree::Expr;
use std::alloc::Global;
use token_reading::{Cursor, ReadFault};

/// Reads expressions and names where so many constructs are open, over the parser of the
/// expressions within them, so that each production is proved by itself.
#[derive(Drop)]
pub struct ExpressionParser<F> {
    /// Where memory is taken from.
    pub alloc: Global,
    /// How many constructs are open.
    pub depth: u32,
    /// The parser of the expressions within parentheses.
    pub inner: F,
}

impl<F: Fn(Global, &mut Cursor<'_, '_>, u32) -> Result<Expr, ReadFault>> ExpressionParser<F> {
    /// How many constructs are open within parentheses.
    pub fn inside(&self) -> u32
        requires { self.now.depth ≤ NESTING }
        ensures { result ≡ suc self.now.depth }
    {
        self.depth + 1
    }

    /// An expression within parentheses that have opened.
    pub fn inner_expr(&self, tokens: &mut Cursor<'_, '_>) -> Result<Expr, ReadFault>
        requires { ReadsInner self.now.depth (F.pre self.now.inner) (F.post self.now.inner) }
        ensures { Reads (readers.expr (suc self.now.depth)) tokens.old result tokens.new }
    {
        (self.inner)(self.alloc, tokens, self.inside())
    }
}
