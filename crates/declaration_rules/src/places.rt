//! Where code stands that other code holds.
ghost use Rattle.std.specs.Prelude.{◌≡◌, ◌<◌, length};
ghost use Rattle.resolved_tree.specs.Nodes.{code_at};
ghost use Rattle.type_definitions.specs.Declarations.{in_body, in_loop, starting};
ghost use Rattle.type_definitions.specs.Gathered.{in_hidden, in_visible};
ghost use Rattle.expression_rules.specs.Around.{context};

use crate::same_profile::front_number;
use expression_rules::Checker;

/// Within a loop.
pub fn in_loop<'p>(checker: &Checker<'p>) -> Checker<'p>
    ensures context { context result ≡ in_loop (context checker.now) }
    ensures rows { result.rows.now ≡ checker.now.rows.now }
{
    Checker {
        in_loop: true,
        ..*checker
    }
}

/// Within the body with this front.
pub fn in_body<'p>(checker: &Checker<'p>, front: usize) -> Checker<'p>
    requires { front < length checker.now.rows.now.1 }
    ensures context { context result ≡ in_body (code_at checker.now.rows.now front) (context checker.now) }
    ensures rows { result.rows.now ≡ checker.now.rows.now }
{
    Checker {
        sub: Some(front_number(&checker.reader(), front)),
        in_loop: false,
        ..*checker
    }
}

/// Within the visible part of a package.
pub fn in_visible<'p>(checker: &Checker<'p>, number: u32) -> Checker<'p>
    ensures context { context result ≡ in_visible number (context checker.now) }
    ensures rows { result.rows.now ≡ checker.now.rows.now }
{
    Checker {
        home: Some(number),
        ..*checker
    }
}

/// Within the private part or the body of a package.
pub fn in_hidden<'p>(checker: &Checker<'p>, number: u32) -> Checker<'p>
    ensures context { context result ≡ in_hidden number (context checker.now) }
    ensures rows { result.rows.now ≡ checker.now.rows.now }
{
    Checker {
        home: Some(number),
        within: Some(number),
        ..*checker
    }
}

/// Within the initial value of an object or a number that is declared here.
pub fn starting<'p>(checker: &Checker<'p>) -> Checker<'p>
    ensures context { context result ≡ starting (context checker.now) }
    ensures rows { result.rows.now ≡ checker.now.rows.now }
{
    Checker {
        starts: checker.sub.is_none(),
        ..*checker
    }
}
