//! The first fault so far.
ghost use Rattle.std.specs.Prelude.{◌≡◌, Bool, IsTrue};
ghost use Rattle.type_definitions.specs.Faults.{precedes, noted, demand};

use expression_types::is_before;
use spark_base::Pos;
use type_definitions::Fault;

/// Whether one fault goes before another.
fn precedes(f: Fault, g: Fault) -> bool
    ensures { result ≡ precedes f g }
{
    let before = is_before(f.pos, g.pos);
    let behind = is_before(g.pos, f.pos);
    before || (!behind && f.code < g.code)
}

/// The first fault, where the sentence with this number is broken at this position unless it holds.
pub fn demand(found: Option<Fault>, code: u32, pos: Pos, holds: bool) -> Option<Fault>
    ensures { result ≡ noted found (demand code pos holds) }
{
    if holds {
        return found;
    }
    let fault = Fault { pos, code };
    match found {
        Some(first) if !precedes(fault, first) => found,
        Some(_) | None => Some(fault),
    }
}

/// Whether an earlier or equal fault is known, so that this rule needn't be tested.
pub fn is_ahead(found: Option<Fault>, code: u32, pos: Pos) -> bool
    ensures { IsTrue result → (holds : Bool) → noted found (demand code pos holds) ≡ found }
{
    match found {
        Some(first) => !precedes(Fault { pos, code }, first),
        None => false,
    }
}
