//! Static expressions and their values (Ada 2012, 4.9).
ghost use Rattle.std.specs.Prelude.{◌≡◌, ◌<◌, length, nat_eq, if◌then◌else◌, int_div, int_rem, int_lt, pos, ◌&&◌, ◌||◌, true, ◌+ℤ◌, ◌-ℤ◌, ◌*ℤ◌};
ghost use Rattle.resolved_tree.specs.Nodes.{tree_at};
ghost use Rattle.type_definitions.specs.Types.{full, is_scalar};
ghost use Rattle.type_definitions.specs.Entries.{entry_of, integer, boolean};
ghost use Rattle.type_definitions.specs.Names.{reading_of};
ghost use Rattle.type_definitions.specs.Statics.{as_integer, static, ill_typed, truth, is_truth, nonzero, int_mod, operate, both, left_decides, two, one, one_sound, is_sound, value_as, is_alone, name_is_static, name_value, is_static, value};
ghost use Rattle.expression_types.specs.Here.{here};

use crate::look_up::{BOOLEAN, INTEGER};
use crate::operators::is_join;
use crate::reader::Reader;
use crate::views::is_scalar;
use resolved_tree::{Node, Operator, UnaryOperator};
use type_definitions::{Entry, Reading, Static};

impl<'p> Reader<'p> {
    /// Whether an expression is static: built of literals, static constants, First and Last of
    /// scalar subtypes, and operators.
    #[tactic(auto, unfolding(type_definitions::specs::Statics::is_static), using(crate::proofs::Statics::static_binary))]
    pub fn is_static(&self, e: usize) -> bool
        requires { e < length self.now.rows.now.0 }
        ensures { result ≡ is_static (here self.now) (tree_at self.now.rows.now e) }
    {
        match self.rows.node(e) {
            Node::Number { .. } => true,
            Node::Named { decl, rest, .. } => self.name_is_static(*decl, *rest),
            Node::Parens { inner, .. } => self.is_static(*inner),
            Node::Unary { operand, .. } => self.is_static(*operand),
            Node::Binary {
                operator,
                left,
                right,
                ..
            } => !is_join(*operator) && self.is_static(*left) && self.is_static(*right),
            _ => false,
        }
    }

    /// Whether a name is static: a literal, a static constant, or First or Last of a scalar
    /// subtype.
    fn name_is_static(&self, d: u32, rest: usize) -> bool
        requires { rest < length self.now.rows.now.0 }
        ensures { result ≡ name_is_static (is_scalar (full self.now.known.now.table d)) (entry_of self.now.known.now d) (tree_at self.now.rows.now rest) (reading_of (here self.now) d (tree_at self.now.rows.now rest)) }
    {
        match self.known.entries.as_slice().get(d as usize) {
            Some(Entry::Type) => is_scalar(self.full(d)) && self.is_bound(d, rest),
            Some(Entry::Literal { .. }) => self.is_end(rest),
            Some(Entry::Object { object }) => object.is_static && self.is_end(rest),
            _ => false,
        }
    }

    /// Whether an attribute alone follows a type, and gives a number.
    fn is_bound(&self, d: u32, rest: usize) -> bool
        requires { rest < length self.now.rows.now.0 }
        ensures { result ≡ name_is_static true Entry.Type (tree_at self.now.rows.now rest) (reading_of (here self.now) d (tree_at self.now.rows.now rest)) }
    {
        let reading = self.reading_of(d, rest);
        let Node::More { first, rest } = self.rows.node(rest) else {
            return false;
        };
        let is_last = self.is_end(*rest);
        match self.rows.node(*first) {
            Node::Attr { .. } if is_last => matches!(reading, Reading::Value { .. }),
            _ => false,
        }
    }

    /// The value of a static expression: none where it raises or leaves Integer on the way.
    #[tactic(auto, unfolding(type_definitions::specs::Statics::value))]
    pub fn value(&self, e: usize) -> Option<Static>
        requires { e < length self.now.rows.now.0 }
        ensures { result ≡ value (here self.now) (tree_at self.now.rows.now e) }
    {
        match self.rows.node(e) {
            Node::Number { value, .. } => stated(INTEGER, as_integer(i64::from(*value))),
            Node::Named { decl, rest, .. } => self.name_value(*decl, *rest),
            Node::Parens { inner, .. } => self.value(*inner),
            Node::Unary {
                operator,
                operand,
                ..
            } => {
                if self.is_alone(*operator, *operand) {
                    return stated(INTEGER, Some(i32::MIN));
                }
                match self.value(*operand) {
                    Some(a) => one(*operator, a),
                    None => None,
                }
            }
            Node::Binary {
                operator,
                left,
                right,
                ..
            } => {
                let a = self.value(*left);
                let b = self.value(*right);
                two(*operator, a, b)
            }
            _ => ill_typed(),
        }
    }

    /// The value of a static name.
    fn name_value(&self, d: u32, rest: usize) -> Option<Static>
        requires { rest < length self.now.rows.now.0 }
        ensures { result ≡ name_value (entry_of self.now.known.now d) (reading_of (here self.now) d (tree_at self.now.rows.now rest)) }
    {
        if let Some(Entry::Object { object }) = self.known.entries.as_slice().get(d as usize) {
            return object.value;
        }
        match self.reading_of(d, rest) {
            Reading::Value { of, value } => stated(of, as_integer(value)),
            _ => ill_typed(),
        }
    }

    /// Whether the operand of a minus is 2147483648, which has a value there alone.
    pub fn is_alone(&self, operator: UnaryOperator, e: usize) -> bool
        requires { e < length self.now.rows.now.0 }
        ensures { result ≡ is_alone operator (tree_at self.now.rows.now e) }
    {
        match (operator, self.rows.node(e)) {
            (UnaryOperator::Minus, Node::Number { value, .. }) => *value == 2_147_483_648,
            _ => false,
        }
    }
}

/// A number, where it is one of Integer.
fn as_integer(v: i64) -> Option<i32>
    ensures { result ≡ as_integer v }
{
    if -2_147_483_648 <= v && v <= 2_147_483_647 {
        Some(v as i32)
    } else {
        None
    }
}

/// A value of a type, where there is one.
fn stated(t: u32, v: Option<i32>) -> Option<Static>
    ensures { result ≡ static t v }
{
    match v {
        Some(value) => Some(Static {
            base: t,
            value,
            sound: true,
        }),
        None => None,
    }
}

/// The value of an expression that breaks another sentence: nothing is concluded from it.
pub fn ill_typed() -> Option<Static>
    ensures { result ≡ ill_typed }
{
    Some(Static {
        base: INTEGER,
        value: 0,
        sound: false,
    })
}

/// The position of a literal of Boolean.
fn truth(holds: bool) -> i32
    ensures { result ≡ truth holds }
{
    if holds { 1 } else { 0 }
}

/// Whether the literal of Boolean with this position is True.
fn is_truth(v: i32) -> bool
    ensures { result ≡ is_truth v }
{
    0 < v
}

/// A value of Boolean.
fn boolean(holds: bool) -> Option<Static>
    ensures { result ≡ static boolean (Some (truth holds)) }
{
    stated(BOOLEAN, Some(truth(holds)))
}

/// The sum of two numbers of Integer.
fn sum(a: i32, b: i32) -> Option<i32>
    ensures { result ≡ as_integer (a +ℤ b) }
{
    as_integer(i64::from(a) + i64::from(b))
}

/// Their difference.
fn difference(a: i32, b: i32) -> Option<i32>
    ensures { result ≡ as_integer (a -ℤ b) }
{
    as_integer(i64::from(a) - i64::from(b))
}

/// Their product.
fn product(a: i32, b: i32) -> Option<i32>
    ensures { result ≡ as_integer (a *ℤ b) }
{
    as_integer(i64::from(a) * i64::from(b))
}

/// Their quotient, toward zero.
fn quotient(a: i32, b: i32) -> Option<i32>
    ensures { result ≡ nonzero b (as_integer (int_div a b)) }
{
    if b == 0 {
        return None;
    }
    as_integer(i64::from(a) / i64::from(b))
}

/// The remainder with the sign of the dividend.
fn remainder(a: i32, b: i32) -> Option<i32>
    ensures { result ≡ nonzero b (as_integer (int_rem a b)) }
{
    if b == 0 {
        return None;
    }
    as_integer(i64::from(a) % i64::from(b))
}

/// The remainder with the sign of the divisor.
fn modulus(a: i32, b: i32) -> Option<i32>
    ensures { result ≡ nonzero b (as_integer (int_mod a b)) }
{
    if b == 0 {
        return None;
    }
    as_integer(with_sign_of(i64::from(a) % i64::from(b), i64::from(b)))
}

/// A remainder as it is, or one divisor further, where it hasn't the sign of the divisor.
fn with_sign_of(r: i64, b: i64) -> i64
    ensures { result ≡ (if int_lt r (pos 0) && int_lt (pos 0) b || int_lt (pos 0) r && int_lt b (pos 0) then r +ℤ b else r) }
{
    if (r < 0 && 0 < b) || (0 < r && b < 0) {
        r + b
    } else {
        r
    }
}

/// A value of Integer, where the operands are of Integer.
fn whole_value(whole: bool, v: Option<i32>) -> Option<Static>
    ensures { result ≡ (if whole then static integer v else ill_typed) }
{
    if whole {
        stated(INTEGER, v)
    } else {
        ill_typed()
    }
}

/// A value of Boolean, where the operands are of Boolean.
fn logical_value(logical: bool, holds: bool) -> Option<Static>
    ensures { result ≡ (if logical then static boolean (Some (truth holds)) else ill_typed) }
{
    if logical { boolean(holds) } else { ill_typed() }
}

/// The value of an operation on two numbers or positions of one type, where it doesn't raise.
fn operate(operator: Operator, t: u32, a: i32, b: i32) -> Option<Static>
    ensures { result ≡ operate (nat_eq t integer) (nat_eq t boolean) operator t a b }
{
    let whole = t == INTEGER;
    let logical = t == BOOLEAN;
    match operator {
        Operator::Equal => boolean(a == b),
        Operator::NotEqual => boolean(a != b),
        Operator::Less => boolean(a < b),
        Operator::LessEqual => boolean(a <= b),
        Operator::Greater => boolean(b < a),
        Operator::GreaterEqual => boolean(b <= a),
        Operator::Add => whole_value(whole, sum(a, b)),
        Operator::Subtract => whole_value(whole, difference(a, b)),
        Operator::Multiply => whole_value(whole, product(a, b)),
        Operator::Divide => whole_value(whole, quotient(a, b)),
        Operator::Modulo => whole_value(whole, modulus(a, b)),
        Operator::Remainder => whole_value(whole, remainder(a, b)),
        Operator::And | Operator::AndThen => logical_value(logical, is_truth(a) && is_truth(b)),
        Operator::Or | Operator::OrElse => logical_value(logical, is_truth(a) || is_truth(b)),
        Operator::Xor => logical_value(logical, is_truth(a) != is_truth(b)),
        Operator::Concatenate => ill_typed(),
    }
}

/// The value of an operation on two values.
fn both(operator: Operator, a: Static, b: Static) -> Option<Static>
    ensures { result ≡ both operator a b }
{
    if a.base == b.base {
        operate(operator, a.base, a.value, b.value)
    } else {
        ill_typed()
    }
}

/// Whether the left operand of a short circuit decides it.
fn left_decides(operator: Operator, a: Static) -> bool
    ensures { result ≡ left_decides operator a }
{
    match operator {
        Operator::AndThen => a.base == BOOLEAN && !is_truth(a.value),
        Operator::OrElse => a.base == BOOLEAN && is_truth(a.value),
        _ => false,
    }
}

/// The value of an operation with two operands: a short circuit may have one though its right
/// operand has none.
fn two(operator: Operator, a: Option<Static>, b: Option<Static>) -> Option<Static>
    ensures { result ≡ two operator a b }
{
    let a = a?;
    match b {
        None if left_decides(operator, a) => Some(a),
        None => None,
        Some(b) if !(a.sound && b.sound) => ill_typed(),
        Some(_) if left_decides(operator, a) => Some(a),
        Some(b) => both(operator, a, b),
    }
}

/// The value of an operation with one operand.
fn one(operator: UnaryOperator, a: Static) -> Option<Static>
    ensures { result ≡ one operator a }
{
    if a.sound {
        one_sound(operator, a)
    } else {
        ill_typed()
    }
}

/// The same, of a value from which something is concluded.
fn one_sound(operator: UnaryOperator, a: Static) -> Option<Static>
    ensures { result ≡ one_sound operator a }
{
    let whole = a.base == INTEGER;
    match operator {
        UnaryOperator::Not => logical_value(a.base == BOOLEAN, !is_truth(a.value)),
        UnaryOperator::Plus if whole => Some(a),
        UnaryOperator::Plus => ill_typed(),
        UnaryOperator::Minus => whole_value(whole, as_integer(-i64::from(a.value))),
        UnaryOperator::Abs => whole_value(whole, as_integer(i64::from(a.value).abs())),
    }
}

/// Whether it is a value of a type from which something is concluded.
pub fn is_sound(base: u32, value: Option<Static>) -> bool
    ensures { result ≡ is_sound base value }
{
    match value {
        Some(v) => v.sound && v.base == base,
        None => false,
    }
}

/// The value of what is declared of a type: none of another type is sound.
pub fn value_as(base: u32, value: Option<Static>) -> Option<Static>
    ensures { result ≡ value_as base value }
{
    match value {
        Some(v) if v.sound && v.base == base => value,
        Some(_) => ill_typed(),
        None => None,
    }
}
