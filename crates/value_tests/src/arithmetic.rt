//! The operators at the edges of Integer, by zero, and with each pair of signs.
use run_values::{abs, add, div, modulo, mul, neg, remainder, sub};
use std::test::Fail;

const FIRST: i32 = -2_147_483_648;

const LAST: i32 = 2_147_483_647;

/// Each row: two operands, and their sum, difference and product.
const SUMS: [(i32, i32, Option<i32>, Option<i32>, Option<i32>); 10] = [
    (7, -3, Some(4), Some(10), Some(-21)),
    (0, FIRST, Some(FIRST), None, Some(0)),
    (LAST, 1, None, Some(2_147_483_646), Some(LAST)),
    (FIRST, 1, Some(-2_147_483_647), None, Some(FIRST)),
    (FIRST, -1, None, Some(-2_147_483_647), None),
    (LAST, -1, Some(2_147_483_646), None, Some(-2_147_483_647)),
    (FIRST, LAST, Some(-1), None, None),
    (65_536, 32_768, Some(98_304), Some(32_768), None),
    (-65_536, 32_768, Some(-32_768), Some(-98_304), Some(FIRST)),
    (46_341, 46_341, Some(92_682), Some(0), None),
];

#[test]
fn sums(rt: HostRuntime) -> Result<(), Fail> {
    for row in &SUMS {
        let (a, b, sum, difference, product) = *row;
        assert!(rt; add(a, b) == sum, "{a} + {b}");
        assert!(rt; sub(a, b) == difference, "{a} - {b}");
        assert!(rt; mul(a, b) == product, "{a} * {b}");
    }
    Ok(())
}

/// Each row: two operands, and `/`, `rem` and `mod` of them.
const QUOTIENTS: [(i32, i32, Option<i32>, Option<i32>, Option<i32>); 17] = [
    (10, 5, Some(2), Some(0), Some(0)),
    (11, 5, Some(2), Some(1), Some(1)),
    (14, 5, Some(2), Some(4), Some(4)),
    (10, -5, Some(-2), Some(0), Some(0)),
    (11, -5, Some(-2), Some(1), Some(-4)),
    (14, -5, Some(-2), Some(4), Some(-1)),
    (-10, 5, Some(-2), Some(0), Some(0)),
    (-11, 5, Some(-2), Some(-1), Some(4)),
    (-14, 5, Some(-2), Some(-4), Some(1)),
    (-10, -5, Some(2), Some(0), Some(0)),
    (-11, -5, Some(2), Some(-1), Some(-1)),
    (-14, -5, Some(2), Some(-4), Some(-4)),
    (7, 0, None, None, None),
    (FIRST, 0, None, None, None),
    (FIRST, -1, None, Some(0), Some(0)),
    (FIRST, LAST, Some(-1), Some(-1), Some(2_147_483_646)),
    (LAST, FIRST, Some(0), Some(LAST), Some(-1)),
];

#[test]
fn quotients(rt: HostRuntime) -> Result<(), Fail> {
    for row in &QUOTIENTS {
        let (a, b, quotient, rest, modulus) = *row;
        assert!(rt; div(a, b) == quotient, "{a} / {b}");
        assert!(rt; remainder(a, b) == rest, "{a} rem {b}");
        assert!(rt; modulo(a, b) == modulus, "{a} mod {b}");
    }
    Ok(())
}

/// Each row: an operand, `-` and `abs` of it.
const SIGNS: [(i32, Option<i32>, Option<i32>); 5] = [
    (0, Some(0), Some(0)),
    (7, Some(-7), Some(7)),
    (-7, Some(7), Some(7)),
    (LAST, Some(-2_147_483_647), Some(LAST)),
    (FIRST, None, None),
];

#[test]
fn signs(rt: HostRuntime) -> Result<(), Fail> {
    for row in &SIGNS {
        let (a, minus, size) = *row;
        assert!(rt; neg(a) == minus, "- {a}");
        assert!(rt; abs(a) == size, "abs {a}");
    }
    Ok(())
}
