//! That access parts have few selectors.
ghost use Rattle.std.specs.Prelude.{◌≡◌, false};
ghost use Rattle.std.specs.List.{list_any};
ghost use Rattle.program_typing.specs.Typings.{typing};
ghost use Rattle.deep_names.specs.Found.{is_past};
ghost use Rattle.deep_names.specs.Shallow.{IsShallow};

use place_names::PlaceTail;
use program_typing::ProgramTyping;

/// The declaration of Integer, the type of what is no object of the program.
const INTEGER: u32 = 0;

/// Looks at some access parts: none has too many selectors.
fn look_at(parts: &[PlaceTail])
    ensures { list_any (is_past 0) parts.now ≡ false }
{
    'parts: for part in parts {
        let _few = part.sels();
    }
}

/// Looks at the access parts of each object once: none has too many selectors. So the ends of
/// scopes, where all of them are looked at for leaks, have no name that is too deep.
#[tactic(auto, using(crate::proofs::ObjectParts::all_shallow))]
pub(crate) fn look_at_all(known: &ProgramTyping<'_>)
    ensures { IsShallow (typing known.now) }
{
    look_at(known.access_parts(INTEGER));
    'objects: for object in known.objects {
        look_at(known.access_parts(object.of));
    }
}
