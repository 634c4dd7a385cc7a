//! Args, names and primaries.
ghost use Rattle.std.specs.Prelude.{◌≡◌, suc, Ok};
ghost use Rattle.std.proofs.Common.{inl, inr};
ghost use Rattle.token_reading.specs.Reading.{Reads};
ghost use Rattle.ada_grammar.specs.Expressions as readers;
ghost use Rattle.expression_parser.specs.InnerExpressions.{ReadsInner};
ghost use Rattle.expression_parser.specs.Parts.{Passes, ReadsAs, args_parts, others_parts};

use crate::name::{dotted, identifier};
use crate::parser::ExpressionParser;
use crate::parts::{Args, Others, boxed};
use ada_lexer::{Reserved, Symbol};
use ada_tree::{Aggregate, Arg, Dotted, Expr, Identifier, Name, NextArg, Primary, Suffix, Word};
use spark_base::{Boxed, Listed, Pos};
use std::alloc::Global;
use token_reading::{Cursor, Kind, ReadFault, Side};

const SUFFIX_KINDS: [Kind; 3] = [
    Kind::Delimiter(Symbol::Dot),
    Kind::Delimiter(Symbol::Apostrophe),
    Kind::Delimiter(Symbol::LeftParenthesis),
];

/// The identifier that an expression is, where it is one alone.
fn lone_identifier(value: Expr) -> Option<Identifier>
    ensures { result ≡ readers.lone_identifier value }
{
    value.into_name()?.into_identifier()
}

/// An aggregate as a primary.
fn aggregated(alloc: Global, pos: Pos, aggregate: Aggregate) -> Result<Primary, ReadFault>
    ensures { Passes (Ok (Primary.Aggregated pos aggregate)) result }
{
    let aggregate = Boxed::new(alloc, aggregate)?;
    Ok(Primary::Aggregated { pos, aggregate })
}

/// What one arg in parentheses is: an expression in them, or an aggregate of one component.
fn single(alloc: Global, pos: Pos, right_paren: Pos, arg: Arg) -> Result<Primary, ReadFault>
    ensures { Passes (Ok (readers.make_single pos right_paren arg)) result }
{
    match arg {
        Arg::Positional { value, .. } => Ok(Primary::Parenthesized {
            pos,
            expression: value,
            right_paren,
        }),
        Arg::Association {
            name,
            arrow,
            value,
            ..
        } => {
            let aggregate = Aggregate::Single {
                pos,
                name,
                arrow,
                value,
                right_paren,
            };
            aggregated(alloc, pos, aggregate)
        }
    }
}

/// An aggregate of several components: the first, and those after the comma.
fn several(
    alloc: Global,
    pos: Pos,
    first: Boxed<Arg>,
    comma: Pos,
    others: Args,
) -> Result<Primary, ReadFault>
    ensures { Passes (Ok (readers.make_parenthesized (pos, inr (first, inl (comma, args_parts others))))) result }
{
    let Args {
        first: second,
        rest,
        right_paren,
    } = others;
    let aggregate = Aggregate::Several {
        pos,
        first,
        comma,
        second,
        rest,
        right_paren,
    };
    aggregated(alloc, pos, aggregate)
}

/// An allocator with what stands in parentheses after its mark.
fn qualified(pos: Pos, mark: Dotted, apostrophe: Pos, operand: Primary) -> Primary
    ensures { result ≡ readers.make_qualified pos mark apostrophe operand }
{
    match operand {
        Primary::Parenthesized {
            pos: left_paren,
            expression: value,
            right_paren,
        } => Primary::AllocatedValue {
            pos,
            mark,
            apostrophe,
            left_paren,
            value,
            right_paren,
        },
        Primary::Aggregated { aggregate, .. } => Primary::AllocatedAggregate {
            pos,
            mark,
            apostrophe,
            aggregate,
        },
        other => other,
    }
}

impl<F: Fn(Global, &mut Cursor<'_, '_>, u32) -> Result<Expr, ReadFault>> ExpressionParser<F> {
    /// arg = [id `=>`] expr (Ada 2012, 4.3.1 and 6.4).
    #[tactic(auto, unfolding(ada_grammar::specs::Expressions::arg_in))]
    pub fn arg(&self, tokens: &mut Cursor<'_, '_>, side: Side) -> Result<Arg, ReadFault>
        requires { ReadsInner self.now.depth (F.pre self.now.inner) (F.post self.now.inner) }
        ensures { Reads (readers.arg_in side (readers.expr (suc self.now.depth))) tokens.old result tokens.new }
    {
        let pos = tokens.position()?;
        let value = self.inner_expr(tokens)?;
        if !tokens.sees_symbol(Symbol::Arrow) {
            let value = Boxed::new(self.alloc, value)?;
            return Ok(Arg::Positional { pos, value });
        }
        let Some(name) = lone_identifier(value) else {
            return Err(ReadFault::Refused);
        };
        let arrow = tokens.symbol(side, Symbol::Arrow)?;
        let value = boxed(self.alloc, self.inner_expr(tokens))?;
        Ok(Arg::Association {
            pos,
            name,
            arrow,
            value,
        })
    }

    /// `,` arg
    #[tactic(auto, unfolding(ada_grammar::specs::Expressions::next_arg_in))]
    fn next_arg(&self, tokens: &mut Cursor<'_, '_>, side: Side) -> Result<NextArg, ReadFault>
        requires { ReadsInner self.now.depth (F.pre self.now.inner) (F.post self.now.inner) }
        ensures { Reads (readers.next_arg_in side (readers.expr (suc self.now.depth))) tokens.old result tokens.new }
    {
        let pos = tokens.symbol(side, Symbol::Comma)?;
        let arg = boxed(self.alloc, self.arg(tokens, side))?;
        Ok(NextArg::FurtherArg { pos, arg })
    }

    /// {`,` arg}
    pub fn next_args(
        &self,
        tokens: &mut Cursor<'_, '_>,
        side: Side,
    ) -> Result<Listed<NextArg>, ReadFault>
        requires { ReadsInner self.now.depth (F.pre self.now.inner) (F.post self.now.inner) }
        ensures { Reads (readers.next_args_in side (readers.expr (suc self.now.depth))) tokens.old result tokens.new }
    {
        let mut all = Listed::new(self.alloc);
        'turns: while tokens.sees_symbol(Symbol::Comma) {
            all.push(self.next_arg(tokens, side)?)?;
        }
        Ok(all)
    }

    /// args `)`, after `(`
    fn args(&self, tokens: &mut Cursor<'_, '_>, side: Side) -> Result<Args, ReadFault>
        requires { ReadsInner self.now.depth (F.pre self.now.inner) (F.post self.now.inner) }
        ensures { ReadsAs args_parts (readers.args_in side (readers.expr (suc self.now.depth))) tokens.old result tokens.new }
    {
        let first = boxed(self.alloc, self.arg(tokens, side))?;
        let rest = self.next_args(tokens, side)?;
        let right_paren = tokens.symbol(side, Symbol::RightParenthesis)?;
        Ok(Args {
            first,
            rest,
            right_paren,
        })
    }

    /// `.` id | `.` `all` | `(` args `)` | `'` (id | `range`) (Ada 2012, 4.1).
    #[tactic(auto, unfolding(ada_grammar::specs::Expressions::suffix_in))]
    fn suffix(&self, tokens: &mut Cursor<'_, '_>, side: Side) -> Result<Suffix, ReadFault>
        requires { ReadsInner self.now.depth (F.pre self.now.inner) (F.post self.now.inner) }
        ensures { Reads (readers.suffix_in side self.now.depth (readers.expr (suc self.now.depth))) tokens.old result tokens.new }
    {
        if tokens.sees_symbol(Symbol::Dot) {
            let pos = tokens.symbol(side, Symbol::Dot)?;
            if tokens.sees_word(Reserved::KwAll) {
                let all = tokens.word(side, Reserved::KwAll)?;
                return Ok(Suffix::Dereferenced { pos, all });
            }
            let selector = identifier(self.alloc, tokens, side)?;
            return Ok(Suffix::Selected { pos, selector });
        }
        if tokens.sees_symbol(Symbol::Apostrophe) {
            let pos = tokens.symbol(side, Symbol::Apostrophe)?;
            if tokens.sees_word(Reserved::KwRange) {
                let range = tokens.word(side, Reserved::KwRange)?;
                return Ok(Suffix::RangeAttribute { pos, range });
            }
            let attribute = identifier(self.alloc, tokens, side)?;
            return Ok(Suffix::Attribute { pos, attribute });
        }
        let pos = tokens.opens_symbol(side, Symbol::LeftParenthesis, self.depth)?;
        let args = self.args(tokens, side)?;
        Ok(Suffix::Applied {
            pos,
            first: args.first,
            rest: args.rest,
            right_paren: args.right_paren,
        })
    }

    /// {`.` id | `.` `all` | `(` args `)` | `'` (id | `range`)}
    fn suffixes(&self, tokens: &mut Cursor<'_, '_>, side: Side) -> Result<Listed<Suffix>, ReadFault>
        requires { ReadsInner self.now.depth (F.pre self.now.inner) (F.post self.now.inner) }
        ensures { Reads (readers.suffixes_in side self.now.depth (readers.expr (suc self.now.depth))) tokens.old result tokens.new }
    {
        let mut all = Listed::new(self.alloc);
        'turns: while tokens.sees_any(&SUFFIX_KINDS) {
            all.push(self.suffix(tokens, side)?)?;
        }
        Ok(all)
    }

    /// name = id {`.` id | `.` `all` | `(` args `)` | `'` (id | `range`)} (Ada 2012, 4.1).
    #[tactic(auto, unfolding(ada_grammar::specs::Expressions::name_in))]
    pub fn name(&self, tokens: &mut Cursor<'_, '_>, side: Side) -> Result<Name, ReadFault>
        requires { ReadsInner self.now.depth (F.pre self.now.inner) (F.post self.now.inner) }
        ensures { Reads (readers.name_in side self.now.depth (readers.expr (suc self.now.depth))) tokens.old result tokens.new }
    {
        let first = identifier(self.alloc, tokens, side)?;
        let rest = self.suffixes(tokens, side)?;
        Ok(Name::Prefixed {
            pos: first.pos,
            first,
            rest,
        })
    }

    /// `others` `=>` expr `)`, after `(` (Ada 2012, 4.3.3).
    fn others(&self, tokens: &mut Cursor<'_, '_>) -> Result<Others, ReadFault>
        requires { ReadsInner self.now.depth (F.pre self.now.inner) (F.post self.now.inner) }
        ensures { ReadsAs others_parts (readers.others_in (readers.expr (suc self.now.depth))) tokens.old result tokens.new }
    {
        let others = tokens.word(Side::Within, Reserved::KwOthers)?;
        let arrow = tokens.symbol(Side::Within, Symbol::Arrow)?;
        let value = boxed(self.alloc, self.inner_expr(tokens))?;
        let right_paren = tokens.symbol(Side::Within, Symbol::RightParenthesis)?;
        Ok(Others {
            others,
            arrow,
            value,
            right_paren,
        })
    }

    /// `(` expr `)` | aggregate (Ada 2012, 4.3 and 4.4).
    #[tactic(auto, unfolding(ada_grammar::specs::Expressions::parenthesized_in))]
    fn parenthesized(&self, tokens: &mut Cursor<'_, '_>) -> Result<Primary, ReadFault>
        requires { ReadsInner self.now.depth (F.pre self.now.inner) (F.post self.now.inner) }
        ensures { Reads (readers.parenthesized_in self.now.depth (readers.expr (suc self.now.depth))) tokens.old result tokens.new }
    {
        let pos = tokens.opens_symbol(Side::Within, Symbol::LeftParenthesis, self.depth)?;
        if tokens.sees_word(Reserved::KwOthers) {
            let Others {
                others,
                arrow,
                value,
                right_paren,
            } = self.others(tokens)?;
            let aggregate = Aggregate::Others {
                pos,
                others,
                arrow,
                value,
                right_paren,
            };
            return aggregated(self.alloc, pos, aggregate);
        }
        let first = self.arg(tokens, Side::Within)?;
        if tokens.sees_symbol(Symbol::Comma) {
            let first = Boxed::new(self.alloc, first)?;
            let comma = tokens.symbol(Side::Within, Symbol::Comma)?;
            let others = self.args(tokens, Side::Within)?;
            return several(self.alloc, pos, first, comma, others);
        }
        let right_paren = tokens.symbol(Side::Within, Symbol::RightParenthesis)?;
        single(self.alloc, pos, right_paren, first)
    }

    /// `new` mark [`'` (aggregate | `(` expr `)`)] (Ada 2012, 4.8).
    #[tactic(auto, unfolding(ada_grammar::specs::Expressions::allocator_in))]
    fn allocator(&self, tokens: &mut Cursor<'_, '_>) -> Result<Primary, ReadFault>
        requires { ReadsInner self.now.depth (F.pre self.now.inner) (F.post self.now.inner) }
        ensures { Reads (readers.allocator_in self.now.depth (readers.expr (suc self.now.depth))) tokens.old result tokens.new }
    {
        let pos = tokens.word(Side::Within, Reserved::KwNew)?;
        let mark = dotted(self.alloc, tokens, Side::Within)?;
        if tokens.sees_symbol(Symbol::Apostrophe) {
            let apostrophe = tokens.symbol(Side::Within, Symbol::Apostrophe)?;
            let operand = self.parenthesized(tokens)?;
            return Ok(qualified(pos, mark, apostrophe, operand));
        }
        Ok(Primary::Allocated { pos, mark })
    }

    /// primary = number | string | `null` | name | `(` expr `)` | aggregate | `new` mark [`'`
    /// (aggregate | `(` expr `)`)] (Ada 2012, 4.4).
    #[tactic(auto, unfolding(ada_grammar::specs::Expressions::primary_in))]
    pub fn primary(&self, tokens: &mut Cursor<'_, '_>) -> Result<Primary, ReadFault>
        requires { ReadsInner self.now.depth (F.pre self.now.inner) (F.post self.now.inner) }
        ensures { Reads (readers.primary_in self.now.depth (readers.expr (suc self.now.depth))) tokens.old result tokens.new }
    {
        if tokens.sees_number() {
            let (pos, number) = tokens.number()?;
            return Ok(Primary::Number { pos, number });
        }
        if tokens.sees_string() {
            let (pos, text) = tokens.string(self.alloc)?;
            return Ok(Primary::Text {
                pos,
                text: Word::from_listed(text),
            });
        }
        if tokens.sees_word(Reserved::KwNull) {
            let pos = tokens.word(Side::Within, Reserved::KwNull)?;
            return Ok(Primary::Null { pos });
        }
        if tokens.sees_word(Reserved::KwNew) {
            return self.allocator(tokens);
        }
        if tokens.sees_symbol(Symbol::LeftParenthesis) {
            return self.parenthesized(tokens);
        }
        let pos = tokens.position()?;
        let name = boxed(self.alloc, self.name(tokens, Side::Within))?;
        Ok(Primary::Named { pos, name })
    }
}
