//! Acts that are too deep.
ghost use Rattle.std.specs.Prelude.{◌≡◌, ◌++◌, List, length};
ghost use Rattle.std.specs.List.{list_any};
ghost use Rattle.place_names.specs.declared.selector.Sel.{Sel};
ghost use Rattle.place_names.specs.Names.{extend};
ghost use Rattle.flow_paths.specs.Limits.{is_deep};
ghost use Rattle.flow_acts.specs.Depths.{is_deep_act};

use crate::names::is_deep;
use place_names::{Act, PlaceName, PlaceTail};
use spark_base::SELECTORS;

/// Whether a part of what a name names is too deep.
fn is_deep_part(name: &PlaceName, part: &PlaceTail) -> bool
    ensures { result ≡ is_deep (extend name.now part.now) }
{
    name.sels().len() + part.sels().len() > SELECTORS
}

/// Whether some part is.
fn has_deep_part(name: &PlaceName, parts: &[PlaceTail]) -> bool
    ensures { result ≡ list_any (λ (q : List Sel). is_deep (extend name.now q)) parts.now }
{
    'parts: for part in parts {
        if is_deep_part(name, part) {
            return true;
        }
    }
    false
}

/// Whether the name of an act, or of a fact that it adds, is too deep.
#[tactic(auto, using(crate::proofs::Deep::deep_parts))]
pub(crate) fn is_deep_act(act: &Act) -> bool
    ensures { result ≡ is_deep_act act.now }
{
    match act {
        Act::Move { name, parts } => is_deep(name) || has_deep_part(name, parts.as_slice()),
        Act::Read { name }
        | Act::Look { name }
        | Act::Write { name }
        | Act::Borrow { name, .. }
        | Act::Observe { name, .. }
        | Act::Actual { name, .. }
        | Act::Free { name }
        | Act::Give { name, .. } => is_deep(name),
        Act::Reborrow { source, .. } => is_deep(source),
        Act::EndScope { .. } | Act::Return { .. } | Act::Global { .. } => false,
    }
}
