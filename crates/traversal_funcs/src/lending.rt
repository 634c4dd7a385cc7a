//! The sources of the borrowers and observers of a subprogram.
ghost use Rattle.std.specs.Prelude.{◌≡◌, ◌++◌, OnOk, IfOk};
ghost use Rattle.traversal_funcs.specs.Lendings.{lending_of, lendings_at, lendings_of};

use flow_paths::Point;
use place_names::{Act, Placed};
use std::alloc::{AllocError, Global};

/// A source of a borrower or observer: the object that its name is rooted in, and the holder.
#[derive(Clone, Copy)]
pub(crate) struct Lending {
    pub source: u32,
    pub holder: u32,
}

/// Adds the source that an act gives to a holder, where it does.
fn add(act: &Act, to: &mut Vec<Lending>) -> Result<(), AllocError>
    ensures { OnOk result (to.new.items ≡ to.old.items ++ lending_of act.now) }
{
    match act {
        Act::Borrow { holder, name } | Act::Observe { holder, name, .. } => {
            to.push(Lending {
                source: name.root(),
                holder: *holder,
            })?;
            Ok(())
        }
        _ => Ok(()),
    }
}

/// Adds those of some acts, in order.
fn add_all(acts: &[Placed], to: &mut Vec<Lending>) -> Result<(), AllocError>
    ensures { OnOk result (to.new.items ≡ to.old.items ++ lendings_at acts.now) }
{
    'acts: for placed in acts {
        add(&placed.act, to)?;
    }
    Ok(())
}

/// The sources of all holders, in the order of the points.
pub(crate) fn lendings(alloc: Global, points: &[Point]) -> Result<Vec<Lending>, AllocError>
    ensures { IfOk result (λ made. made.items ≡ lendings_of points.now) }
{
    let mut made = Vec::new(alloc);
    'points: for point in points {
        add_all(point.acts.as_slice(), &mut made)?;
    }
    Ok(made)
}
