//! The first name of a program that has too many selectors.
ghost use Rattle.std.specs.Prelude.{◌≡◌};
ghost use Rattle.typed_tree.specs.Programs.{TypedProgram};
ghost use Rattle.flow_paths.specs.Laid.{flow_program};
ghost use Rattle.flow_paths.specs.Limits.{deep_name};
ghost use Rattle.program_typing.specs.Typings.{typing};
ghost use Rattle.deep_names.specs.Bodies.{IsProgram};
ghost use Rattle.deep_names.specs.Programs.{bodies_deep};
ghost use Rattle.deep_names.specs.Turns.{code, site};

use crate::found::earlier;
use crate::reader::NameReader;
use crate::rows::EndedRows;
use crate::shallow::look_at_all;
use program_typing::ProgramTyping;
use spark_base::Pos;
use typed_tree::TypedRows;

impl<'p> NameReader<'p> {
    /// The names of these bodies.
    fn bodies(&self, bodies: &[usize]) -> Option<Pos>
        ensures { result
            ≡ bodies_deep (site self.now) (code self.now) (site self.now).subs bodies.now }
    {
        let mut found = None;
        'bodies: for (i, body) in bodies.iter().enumerate() {
            let Some(signature) = self.typing.subs.get(i) else {
                return found;
            };
            found = earlier(found, self.code(signature.result(), *body));
        }
        found
    }
}

/// The first position, in the order of the text, of a name with more than `SELECTORS` selectors: of
/// a name of an act, of a fact that it adds, or of a leak check.
///
/// `bodies` has the code of each subprogram of `known`, in the same order.
pub fn deep_name(rows: &TypedRows, known: &ProgramTyping<'_>, bodies: &[usize]) -> Option<Pos>
    ensures { (program : TypedProgram) → IsProgram rows.now (typing known.now) bodies.now program
        → result ≡ deep_name (flow_program (typing known.now).table program) }
{
    look_at_all(known);
    let rows = EndedRows::new(rows);
    let reader = NameReader {
        rows: &rows,
        typing: *known,
    };
    reader.bodies(bodies)
}
