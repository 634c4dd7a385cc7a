//! The operators that a production gives a choice of.
ghost use Rattle.token_reading.specs.Reading.{Reads};
ghost use Rattle.ada_grammar.specs.Expressions as readers;

use ada_lexer::{Reserved, Symbol};
use ada_tree::{AddingOperator, MultiplyingOperator, RelationalOperator, Sign};
use spark_base::Pos;
use token_reading::{Cursor, ReadFault};

/// `*` | `/` | `mod` | `rem` (Ada 2012, 4.5.5), and its position.
#[tactic(auto, unfolding(ada_grammar::specs::Expressions::multiplying_operator))]
pub fn multiplying_operator(
    tokens: &mut Cursor<'_, '_>,
) -> Result<(MultiplyingOperator, Pos), ReadFault>
    ensures { Reads readers.multiplying_operator tokens.old result tokens.new }
{
    if tokens.sees_symbol(Symbol::Star) {
        let pos = tokens.operator_symbol(Symbol::Star)?;
        return Ok((MultiplyingOperator::Multiply, pos));
    }
    if tokens.sees_symbol(Symbol::Slash) {
        let pos = tokens.operator_symbol(Symbol::Slash)?;
        return Ok((MultiplyingOperator::Divide, pos));
    }
    if tokens.sees_word(Reserved::KwMod) {
        let pos = tokens.operator_word(Reserved::KwMod)?;
        return Ok((MultiplyingOperator::Modulo, pos));
    }
    let pos = tokens.operator_word(Reserved::KwRem)?;
    Ok((MultiplyingOperator::Remainder, pos))
}

/// `+` | `-` | `&` between terms (Ada 2012, 4.5.3), and its position.
#[tactic(auto, unfolding(ada_grammar::specs::Expressions::adding_operator))]
pub fn adding_operator(tokens: &mut Cursor<'_, '_>) -> Result<(AddingOperator, Pos), ReadFault>
    ensures { Reads readers.adding_operator tokens.old result tokens.new }
{
    if tokens.sees_symbol(Symbol::Plus) {
        let pos = tokens.operator_symbol(Symbol::Plus)?;
        return Ok((AddingOperator::Add, pos));
    }
    if tokens.sees_symbol(Symbol::Minus) {
        let pos = tokens.operator_symbol(Symbol::Minus)?;
        return Ok((AddingOperator::Subtract, pos));
    }
    let pos = tokens.operator_symbol(Symbol::Ampersand)?;
    Ok((AddingOperator::Concatenate, pos))
}

/// `+` | `-` before the first term (Ada 2012, 4.5.4), and its position.
#[tactic(auto, unfolding(ada_grammar::specs::Expressions::sign_operator))]
pub fn sign_operator(tokens: &mut Cursor<'_, '_>) -> Result<(Sign, Pos), ReadFault>
    ensures { Reads readers.sign_operator tokens.old result tokens.new }
{
    if tokens.sees_symbol(Symbol::Plus) {
        let pos = tokens.operator_symbol(Symbol::Plus)?;
        return Ok((Sign::Plus, pos));
    }
    let pos = tokens.operator_symbol(Symbol::Minus)?;
    Ok((Sign::Minus, pos))
}

/// `=` | `/=` | `<` | `<=` | `>` | `>=` (Ada 2012, 4.5.2), and its position.
#[tactic(auto, unfolding(ada_grammar::specs::Expressions::relational_operator))]
pub fn relational_operator(
    tokens: &mut Cursor<'_, '_>,
) -> Result<(RelationalOperator, Pos), ReadFault>
    ensures { Reads readers.relational_operator tokens.old result tokens.new }
{
    if tokens.sees_symbol(Symbol::Equal) {
        let pos = tokens.operator_symbol(Symbol::Equal)?;
        return Ok((RelationalOperator::Equal, pos));
    }
    if tokens.sees_symbol(Symbol::NotEqual) {
        let pos = tokens.operator_symbol(Symbol::NotEqual)?;
        return Ok((RelationalOperator::NotEqual, pos));
    }
    if tokens.sees_symbol(Symbol::Less) {
        let pos = tokens.operator_symbol(Symbol::Less)?;
        return Ok((RelationalOperator::Less, pos));
    }
    if tokens.sees_symbol(Symbol::LessEqual) {
        let pos = tokens.operator_symbol(Symbol::LessEqual)?;
        return Ok((RelationalOperator::LessEqual, pos));
    }
    if tokens.sees_symbol(Symbol::Greater) {
        let pos = tokens.operator_symbol(Symbol::Greater)?;
        return Ok((RelationalOperator::Greater, pos));
    }
    let pos = tokens.operator_symbol(Symbol::GreaterEqual)?;
    Ok((RelationalOperator::GreaterEqual, pos))
}
