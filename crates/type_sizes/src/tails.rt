//! Access parts with a selector in front.
ghost use Rattle.std.specs.Prelude.{◌≡◌, ◌<◌, ◌∷◌, ◌++◌, length, map, IfOk, IsTrue};
ghost use Rattle.type_definitions.specs.Whole.{all_short};

use place_names::{PlaceTail, Sel};
use std::alloc::AllocError;

/// The steps with one in front.
fn with_front(sel: Sel, tail: &PlaceTail) -> PlaceTail
    requires { length tail.now < 16 }
    ensures { result ≡ sel ∷ tail.now }
{
    let mut made = PlaceTail::new();
    let _ = made.push(sel);
    'steps: for step in tail.sels() {
        let _ = made.push(*step);
    }
    made
}

/// Adds these with a selector in front of each.
pub fn add_fronts(
    made: &mut Vec<PlaceTail>,
    sel: Sel,
    tails: &[PlaceTail],
) -> Result<(), AllocError>
    requires { IsTrue (all_short (map (λ q. sel ∷ q) tails.now)) }
    ensures { IfOk result (λ _. made.new.items ≡ made.old.items ++ map (λ q. sel ∷ q) tails.now) }
{
    'tails: for tail in tails {
        made.push(with_front(sel, tail))?;
    }
    Ok(())
}
