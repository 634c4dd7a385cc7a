//! The operators of Integer (Ada 2012, 4.5.3 to 4.5.6). None takes memory.
ghost use Rattle.std.specs.Prelude.{◌≡◌, ◌<◌, ◌⊎◌, pos, unsigned_abs, MatchOption};
ghost use Rattle.run_values.specs.Arithmetic as spec;
ghost use Rattle.run_values.specs.Division.{IsQuotient, IsRemainder, IsModulus, IsOutside};

/// `A + B`, where it is a value of Integer (Ada 2012, 4.5.3).
pub fn add(a: i32, b: i32) -> Option<i32>
    ensures { result ≡ spec.sum a b }
{
    a.checked_add(b)
}

/// `A - B`, where it is a value of Integer (4.5.3).
pub fn sub(a: i32, b: i32) -> Option<i32>
    ensures { result ≡ spec.difference a b }
{
    a.checked_sub(b)
}

/// `A * B`, where it is a value of Integer (4.5.5).
pub fn mul(a: i32, b: i32) -> Option<i32>
    ensures { result ≡ spec.product a b }
{
    a.checked_mul(b)
}

/// `A / B`, toward zero (4.5.5). There is none by zero, and that of the first value of Integer by
/// -1 is no value of Integer.
pub fn div(a: i32, b: i32) -> Option<i32>
    ensures value { result ≡ spec.quotient a b }
    ensures law { MatchOption result ((b ≡ pos 0) ⊎ IsOutside (IsQuotient a b)) (IsQuotient a b) }
{
    a.checked_div(b)
}

/// `A mod B`, which is zero or has the sign of B (4.5.5). There is none by zero.
pub fn modulo(a: i32, b: i32) -> Option<i32>
    ensures value { result ≡ spec.modulus a b }
    ensures law { MatchOption result (b ≡ pos 0) (IsModulus a b) }
{
    if b == 0 {
        None
    } else {
        // by -1 too, where the quotient may be no value of Integer
        Some(with_sign_of(a.wrapping_rem(b), b))
    }
}

/// Whether one number is below zero and the other one above.
fn has_other_sign(rest: i32, b: i32) -> bool
    ensures { result ≡ spec.has_other_sign rest b }
{
    (rest < 0 && 0 < b) || (0 < rest && b < 0)
}

/// A remainder as it is, or one divisor further where it hasn't the sign of the divisor.
fn with_sign_of(rest: i32, b: i32) -> i32
    requires { unsigned_abs rest < unsigned_abs b }
    ensures { result ≡ spec.with_sign_of rest b }
{
    if has_other_sign(rest, b) {
        rest + b
    } else {
        rest
    }
}

/// `A rem B`, which is zero or has the sign of A (4.5.5). There is none by zero.
pub fn remainder(a: i32, b: i32) -> Option<i32>
    ensures value { result ≡ spec.remainder a b }
    ensures law { MatchOption result (b ≡ pos 0) (IsRemainder a b) }
{
    if b == 0 {
        None
    } else {
        // by -1 too, where the quotient may be no value of Integer
        Some(a.wrapping_rem(b))
    }
}

/// `-A`, where it is a value of Integer (4.5.4).
pub fn neg(a: i32) -> Option<i32>
    ensures { result ≡ spec.negation a }
{
    a.checked_neg()
}

/// `abs A`, where it is a value of Integer (4.5.6).
pub fn abs(a: i32) -> Option<i32>
    ensures { result ≡ spec.absolute a }
{
    a.checked_abs()
}
