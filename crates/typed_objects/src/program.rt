//! The objects of a program.
ghost use Rattle.std.specs.Prelude.{◌≡◌, ◌<◌, ◌∷◌, All, IfOk, OnOk, None, length, map};
ghost use Rattle.resolved_tree.specs.Nodes.{code_at};
ghost use Rattle.typed_tree.specs.Programs.{objects_in, over_units, program_objects, text_io};
ghost use Rattle.typed_objects.specs.Walks.{home_of, units_of, Adds, IsReady};

use crate::declared_objects::{DeclaredObjects, text_io};
use crate::packages::packages;
use crate::walk::Walk;
use resolved_tree::Rows;
use spark_base::Listed;
use std::alloc::{AllocError, Global};
use type_definitions::Known;

impl<'p> Walk<'p> {
    /// Adds the objects of all units. Scope 0 is around them.
    fn all(&self, found: &mut DeclaredObjects) -> Result<(), AllocError>
        requires ready { IsReady self.now }
        requires units { All (λ u. u < length self.now.rows.now.1) self.now.units.now }
        ensures { OnOk result (Adds found.old (over_units (objects_in (units_of self.now) (home_of self.now None) 0) 1 (units_of self.now)) found.new) }
    {
        let mut next = 1;
        'units: for unit in self.units {
            next = self.within(&None, 0, next, *unit, found)?;
        }
        Ok(())
    }
}

/// The objects of a program, and the declarations that make them: object 0, Ada.Text_IO, has none.
/// `rows` has the code of the program, `known` is what its declarations are, and `units` are the
/// numbers of its units in the order of their text. The only error is out of memory.
pub fn objects(
    alloc: Global,
    rows: &Rows,
    known: &Known,
    units: &[usize],
) -> Result<DeclaredObjects, AllocError>
    requires { All (λ u. u < length rows.now.1) units.now }
    ensures objects { IfOk result (λ made. made.objects
        ≡ text_io ∷ map (λ o. o.object) (program_objects known.now (map (code_at rows.now) units.now))) }
    ensures numbers { IfOk result (λ made. made.numbers
        ≡ map (λ o. o.number) (program_objects known.now (map (code_at rows.now) units.now))) }
{
    let packages = packages(alloc, rows, units)?;
    let walk = Walk {
        alloc,
        rows,
        known,
        units,
        packages: &packages,
    };
    let mut found = DeclaredObjects {
        objects: Listed::new(alloc),
        numbers: Listed::new(alloc),
    };
    found.objects.push(text_io(alloc)?)?;
    walk.all(&mut found)?;
    Ok(found)
}
