//! Expressions.
ghost use Rattle.std.specs.Prelude.{◌≡◌, ◌≤◌, suc};
ghost use Rattle.std.proofs.Common.{inl, inr};
ghost use Rattle.spark_base.specs.declared.limits.TheConstants.{NESTING};
ghost use Rattle.token_reading.specs.Reading.{Reads};
ghost use Rattle.ada_grammar.specs.Expressions as readers;
ghost use Rattle.expression_parser.specs.InnerExpressions.{ReadsInner};
ghost use Rattle.expression_parser.specs.Parts.{ReadsAs, chain_parts};

use crate::operator::{adding_operator, multiplying_operator, relational_operator, sign_operator};
use crate::parser::ExpressionParser;
use crate::parts::{Chain, boxed};
use ada_lexer::{Reserved, Symbol};
use ada_tree::{
    Arg, Expr, Factor, Name, NextArg, NextFactor, NextTerm, Operand, Rel, ShortOperand, Sum, Term,
};
use spark_base::{Boxed, Listed, NESTING, Pos};
use std::alloc::Global;
use token_reading::{Cursor, Kind, ReadFault, Side};

const MULTIPLYING_KINDS: [Kind; 4] = [
    Kind::Delimiter(Symbol::Star),
    Kind::Delimiter(Symbol::Slash),
    Kind::Word(Reserved::KwMod),
    Kind::Word(Reserved::KwRem),
];

const ADDING_KINDS: [Kind; 3] = [
    Kind::Delimiter(Symbol::Plus),
    Kind::Delimiter(Symbol::Minus),
    Kind::Delimiter(Symbol::Ampersand),
];

const SIGN_KINDS: [Kind; 2] = [
    Kind::Delimiter(Symbol::Plus),
    Kind::Delimiter(Symbol::Minus),
];

const RELATIONAL_KINDS: [Kind; 6] = [
    Kind::Delimiter(Symbol::Equal),
    Kind::Delimiter(Symbol::NotEqual),
    Kind::Delimiter(Symbol::Less),
    Kind::Delimiter(Symbol::LessEqual),
    Kind::Delimiter(Symbol::Greater),
    Kind::Delimiter(Symbol::GreaterEqual),
];

impl<F: Fn(Global, &mut Cursor<'_, '_>, u32) -> Result<Expr, ReadFault>> ExpressionParser<F> {
    /// factor = primary | `abs` primary | `not` primary (Ada 2012, 4.4).
    #[tactic(auto, unfolding(ada_grammar::specs::Expressions::factor_in))]
    fn factor(&self, tokens: &mut Cursor<'_, '_>) -> Result<Factor, ReadFault>
        requires { ReadsInner self.now.depth (F.pre self.now.inner) (F.post self.now.inner) }
        ensures { Reads (readers.factor_in self.now.depth (readers.expr (suc self.now.depth))) tokens.old result tokens.new }
    {
        if tokens.sees_word(Reserved::KwAbs) {
            let pos = tokens.operator_word(Reserved::KwAbs)?;
            let primary = self.primary(tokens)?;
            return Ok(Factor::Abs { pos, primary });
        }
        if tokens.sees_word(Reserved::KwNot) {
            let pos = tokens.operator_word(Reserved::KwNot)?;
            let primary = self.primary(tokens)?;
            return Ok(Factor::Not { pos, primary });
        }
        let pos = tokens.position()?;
        let primary = self.primary(tokens)?;
        Ok(Factor::LonePrimary { pos, primary })
    }

    /// (`*` | `/` | `mod` | `rem`) factor
    #[tactic(auto, unfolding(ada_grammar::specs::Expressions::next_factor_in))]
    fn next_factor(&self, tokens: &mut Cursor<'_, '_>) -> Result<NextFactor, ReadFault>
        requires { ReadsInner self.now.depth (F.pre self.now.inner) (F.post self.now.inner) }
        ensures { Reads (readers.next_factor_in self.now.depth (readers.expr (suc self.now.depth))) tokens.old result tokens.new }
    {
        let (operator, pos) = multiplying_operator(tokens)?;
        let factor = self.factor(tokens)?;
        Ok(NextFactor::FurtherFactor {
            pos,
            operator,
            factor,
        })
    }

    /// {(`*` | `/` | `mod` | `rem`) factor}
    fn next_factors(&self, tokens: &mut Cursor<'_, '_>) -> Result<Listed<NextFactor>, ReadFault>
        requires { ReadsInner self.now.depth (F.pre self.now.inner) (F.post self.now.inner) }
        ensures { Reads (readers.next_factors_in self.now.depth (readers.expr (suc self.now.depth))) tokens.old result tokens.new }
    {
        let mut all = Listed::new(self.alloc);
        'turns: while tokens.sees_any(&MULTIPLYING_KINDS) {
            all.push(self.next_factor(tokens)?)?;
        }
        Ok(all)
    }

    /// term = factor {(`*` | `/` | `mod` | `rem`) factor} (Ada 2012, 4.4).
    #[tactic(auto, unfolding(ada_grammar::specs::Expressions::term_in))]
    fn term(&self, tokens: &mut Cursor<'_, '_>) -> Result<Term, ReadFault>
        requires { ReadsInner self.now.depth (F.pre self.now.inner) (F.post self.now.inner) }
        ensures { Reads (readers.term_in self.now.depth (readers.expr (suc self.now.depth))) tokens.old result tokens.new }
    {
        let pos = tokens.position()?;
        let first = self.factor(tokens)?;
        let rest = self.next_factors(tokens)?;
        Ok(Term::Product { pos, first, rest })
    }

    /// (`+` | `-` | `&`) term
    #[tactic(auto, unfolding(ada_grammar::specs::Expressions::next_term_in))]
    fn next_term(&self, tokens: &mut Cursor<'_, '_>) -> Result<NextTerm, ReadFault>
        requires { ReadsInner self.now.depth (F.pre self.now.inner) (F.post self.now.inner) }
        ensures { Reads (readers.next_term_in self.now.depth (readers.expr (suc self.now.depth))) tokens.old result tokens.new }
    {
        let (operator, pos) = adding_operator(tokens)?;
        let term = self.term(tokens)?;
        Ok(NextTerm::FurtherTerm {
            pos,
            operator,
            term,
        })
    }

    /// {(`+` | `-` | `&`) term}
    fn next_terms(&self, tokens: &mut Cursor<'_, '_>) -> Result<Listed<NextTerm>, ReadFault>
        requires { ReadsInner self.now.depth (F.pre self.now.inner) (F.post self.now.inner) }
        ensures { Reads (readers.next_terms_in self.now.depth (readers.expr (suc self.now.depth))) tokens.old result tokens.new }
    {
        let mut all = Listed::new(self.alloc);
        'turns: while tokens.sees_any(&ADDING_KINDS) {
            all.push(self.next_term(tokens)?)?;
        }
        Ok(all)
    }

    /// sum = [`+` | `-`] term {(`+` | `-` | `&`) term} (Ada 2012, 4.4).
    #[tactic(auto, unfolding(ada_grammar::specs::Expressions::sum_in))]
    fn sum(&self, tokens: &mut Cursor<'_, '_>) -> Result<Sum, ReadFault>
        requires { ReadsInner self.now.depth (F.pre self.now.inner) (F.post self.now.inner) }
        ensures { Reads (readers.sum_in self.now.depth (readers.expr (suc self.now.depth))) tokens.old result tokens.new }
    {
        if tokens.sees_any(&SIGN_KINDS) {
            let (sign, pos) = sign_operator(tokens)?;
            let first = self.term(tokens)?;
            let rest = self.next_terms(tokens)?;
            return Ok(Sum::Signed {
                pos,
                sign,
                first,
                rest,
            });
        }
        let pos = tokens.position()?;
        let first = self.term(tokens)?;
        let rest = self.next_terms(tokens)?;
        Ok(Sum::Unsigned { pos, first, rest })
    }

    /// rel = sum [(`=` | `/=` | `<` | `<=` | `>` | `>=`) sum] (Ada 2012, 4.4).
    #[tactic(auto, unfolding(ada_grammar::specs::Expressions::rel_in))]
    fn rel(&self, tokens: &mut Cursor<'_, '_>) -> Result<Rel, ReadFault>
        requires { ReadsInner self.now.depth (F.pre self.now.inner) (F.post self.now.inner) }
        ensures { Reads (readers.rel_in self.now.depth (readers.expr (suc self.now.depth))) tokens.old result tokens.new }
    {
        let pos = tokens.position()?;
        let sum = self.sum(tokens)?;
        if tokens.sees_any(&RELATIONAL_KINDS) {
            let left = Boxed::new(self.alloc, sum)?;
            let (operator, operator_pos) = relational_operator(tokens)?;
            let right = boxed(self.alloc, self.sum(tokens))?;
            return Ok(Rel::Compared {
                pos,
                left,
                operator,
                operator_pos,
                right,
            });
        }
        Ok(Rel::LoneSum { pos, sum })
    }

    /// (`and` | `or` | `xor`) rel
    #[tactic(auto, unfolding(ada_grammar::specs::Expressions::next_operand_in))]
    fn next_operand(
        &self,
        tokens: &mut Cursor<'_, '_>,
        word: Reserved,
    ) -> Result<Operand, ReadFault>
        requires { ReadsInner self.now.depth (F.pre self.now.inner) (F.post self.now.inner) }
        ensures { Reads (readers.next_operand_in self.now.depth (readers.expr (suc self.now.depth)) word) tokens.old result tokens.new }
    {
        let pos = tokens.operator_word(word)?;
        let operand = boxed(self.alloc, self.rel(tokens))?;
        Ok(Operand::FurtherOperand { pos, operand })
    }

    /// {`and` rel} | {`or` rel} | {`xor` rel}
    fn next_operands(
        &self,
        tokens: &mut Cursor<'_, '_>,
        word: Reserved,
    ) -> Result<Listed<Operand>, ReadFault>
        requires { ReadsInner self.now.depth (F.pre self.now.inner) (F.post self.now.inner) }
        ensures { Reads (readers.next_operands_in self.now.depth (readers.expr (suc self.now.depth)) word) tokens.old result tokens.new }
    {
        let mut all = Listed::new(self.alloc);
        'turns: while tokens.sees_word(word) {
            all.push(self.next_operand(tokens, word)?)?;
        }
        Ok(all)
    }

    /// (`and` `then` | `or` `else`) rel
    #[tactic(auto, unfolding(ada_grammar::specs::Expressions::next_short_operand_in))]
    fn next_short_operand(
        &self,
        tokens: &mut Cursor<'_, '_>,
        word: Reserved,
        second: Reserved,
    ) -> Result<ShortOperand, ReadFault>
        requires { ReadsInner self.now.depth (F.pre self.now.inner) (F.post self.now.inner) }
        ensures { Reads (readers.next_short_operand_in self.now.depth (readers.expr (suc self.now.depth)) word second) tokens.old result tokens.new }
    {
        let pos = tokens.operator_word(word)?;
        let second_word = tokens.word(Side::Within, second)?;
        let operand = boxed(self.alloc, self.rel(tokens))?;
        Ok(ShortOperand::FurtherShortOperand {
            pos,
            second_word,
            operand,
        })
    }

    /// {`and` `then` rel} | {`or` `else` rel}
    fn next_short_operands(
        &self,
        tokens: &mut Cursor<'_, '_>,
        word: Reserved,
        second: Reserved,
    ) -> Result<Listed<ShortOperand>, ReadFault>
        requires { ReadsInner self.now.depth (F.pre self.now.inner) (F.post self.now.inner) }
        ensures { Reads (readers.next_short_operands_in self.now.depth (readers.expr (suc self.now.depth)) word second) tokens.old result tokens.new }
    {
        let mut all = Listed::new(self.alloc);
        'turns: while tokens.sees_word(word) {
            all.push(self.next_short_operand(tokens, word, second)?)?;
        }
        Ok(all)
    }

    /// What follows the first `and` or `or` of a chain; `second_word` is that of the short
    /// form.
    #[tactic(auto, unfolding(ada_grammar::specs::Expressions::chain_in))]
    fn chain(
        &self,
        tokens: &mut Cursor<'_, '_>,
        word: Reserved,
        second_word: Reserved,
    ) -> Result<Chain, ReadFault>
        requires { ReadsInner self.now.depth (F.pre self.now.inner) (F.post self.now.inner) }
        ensures { ReadsAs chain_parts (readers.chain_in self.now.depth (readers.expr (suc self.now.depth)) word second_word) tokens.old result tokens.new }
    {
        if tokens.sees_word(second_word) {
            let pos = tokens.word(Side::Within, second_word)?;
            let second = boxed(self.alloc, self.rel(tokens))?;
            let rest = self.next_short_operands(tokens, word, second_word)?;
            return Ok(Chain::Short {
                second_word: pos,
                second,
                rest,
            });
        }
        let second = boxed(self.alloc, self.rel(tokens))?;
        let rest = self.next_operands(tokens, word)?;
        Ok(Chain::Long { second, rest })
    }

    /// expr = rel {`and` rel} | rel {`or` rel} | rel {`xor` rel} | rel {`and` `then` rel} | rel
    /// {`or` `else` rel} (Ada 2012, 4.4).
    #[tactic(auto, unfolding(ada_grammar::specs::Expressions::expr_in))]
    pub fn expr(&self, tokens: &mut Cursor<'_, '_>) -> Result<Expr, ReadFault>
        requires { ReadsInner self.now.depth (F.pre self.now.inner) (F.post self.now.inner) }
        ensures { Reads (readers.expr_in self.now.depth (readers.expr (suc self.now.depth))) tokens.old result tokens.new }
    {
        let pos = tokens.position()?;
        let first = boxed(self.alloc, self.rel(tokens))?;
        if tokens.sees_word(Reserved::KwAnd) {
            let and = tokens.operator_word(Reserved::KwAnd)?;
            let chain = self.chain(tokens, Reserved::KwAnd, Reserved::KwThen)?;
            return Ok(and_chain(pos, first, and, chain));
        }
        if tokens.sees_word(Reserved::KwOr) {
            let or = tokens.operator_word(Reserved::KwOr)?;
            let chain = self.chain(tokens, Reserved::KwOr, Reserved::KwElse)?;
            return Ok(or_chain(pos, first, or, chain));
        }
        if tokens.sees_word(Reserved::KwXor) {
            let xor = tokens.operator_word(Reserved::KwXor)?;
            let second = boxed(self.alloc, self.rel(tokens))?;
            let rest = self.next_operands(tokens, Reserved::KwXor)?;
            return Ok(Expr::Xor {
                pos,
                first,
                xor,
                second,
                rest,
            });
        }
        Ok(Expr::LoneRelation {
            pos,
            relation: first,
        })
    }
}

/// rel {`and` rel} | rel {`and` `then` rel}, of its parts.
fn and_chain(pos: Pos, first: Boxed<Rel>, and: Pos, chain: Chain) -> Expr
    ensures { result ≡ readers.make_expr ((pos, first), inl (and, chain_parts chain)) }
{
    match chain {
        Chain::Short {
            second_word: then,
            second,
            rest,
        } => Expr::AndThen {
            pos,
            first,
            and,
            then,
            second,
            rest,
        },
        Chain::Long { second, rest } => Expr::And {
            pos,
            first,
            and,
            second,
            rest,
        },
    }
}

/// rel {`or` rel} | rel {`or` `else` rel}, of its parts.
fn or_chain(pos: Pos, first: Boxed<Rel>, or: Pos, chain: Chain) -> Expr
    ensures { result ≡ readers.make_expr ((pos, first), inr (inl (or, chain_parts chain))) }
{
    match chain {
        Chain::Short {
            second_word: otherwise,
            second,
            rest,
        } => Expr::OrElse {
            pos,
            first,
            or,
            otherwise,
            second,
            rest,
        },
        Chain::Long { second, rest } => Expr::Or {
            pos,
            first,
            or,
            second,
            rest,
        },
    }
}

/// expr, around which so many constructs are open (Ada 2012, 4.4). Where they are more than may be,
/// it exceeds the limit.
pub fn expr(alloc: Global, tokens: &mut Cursor<'_, '_>, depth: u32) -> Result<Expr, ReadFault>
    ensures { Reads (readers.expr depth) tokens.old result tokens.new }
{
    if depth > NESTING {
        return Err(ReadFault::OverLimit);
    }
    ExpressionParser {
        alloc,
        depth,
        inner: expr,
    }
    .expr(tokens)
}

/// name, around which so many constructs are open, on either side of an expression's border (Ada
/// 2012, 4.1).
#[tactic(auto, unfolding(ada_grammar::specs::Expressions::name_at))]
pub fn name_at(
    alloc: Global,
    tokens: &mut Cursor<'_, '_>,
    side: Side,
    depth: u32,
) -> Result<Name, ReadFault>
    requires { depth ≤ NESTING }
    ensures { Reads (readers.name_at side depth) tokens.old result tokens.new }
{
    ExpressionParser {
        alloc,
        depth,
        inner: expr,
    }
    .name(tokens, side)
}

/// arg in parentheses, around which so many constructs are open (Ada 2012, 6.4).
#[tactic(auto, unfolding(ada_grammar::specs::Expressions::arg_at))]
pub fn arg_at(
    alloc: Global,
    tokens: &mut Cursor<'_, '_>,
    side: Side,
    depth: u32,
) -> Result<Arg, ReadFault>
    requires { depth ≤ NESTING }
    ensures { Reads (readers.arg_at side (suc depth)) tokens.old result tokens.new }
{
    ExpressionParser {
        alloc,
        depth,
        inner: expr,
    }
    .arg(tokens, side)
}

/// {`,` arg} in parentheses, around which so many constructs are open (Ada 2012, 6.4).
#[tactic(auto, unfolding(ada_grammar::specs::Expressions::next_arg_at))]
pub fn next_args_at(
    alloc: Global,
    tokens: &mut Cursor<'_, '_>,
    side: Side,
    depth: u32,
) -> Result<Listed<NextArg>, ReadFault>
    requires { depth ≤ NESTING }
    ensures { Reads (readers.next_args_at side (suc depth)) tokens.old result tokens.new }
{
    ExpressionParser {
        alloc,
        depth,
        inner: expr,
    }
    .next_args(tokens, side)
}
