//! The objects that the end of a call looks at.
ghost use Rattle.std.specs.Prelude.{◌≡◌, [], ◌∷◌, IfOk, OnOk, map};
ghost use Rattle.place_names.specs.declared.act.Act.TheVariants as act;
ghost use Rattle.place_names.specs.Facts.{place};
ghost use Rattle.flow_paths.specs.Laid.{kept_roots};
ghost use Rattle.program_typing.specs.Typings.{typing};
ghost use Rattle.sub_summary.specs.FactLists.{is_kept, with_root};
ghost use Rattle.sub_summary.specs.Gathered.{rooted_point};

use flow_paths::{Instr, Point};
use place_names::{Act, Fact, Placed};
use program_typing::ProgramTyping;
use spark_base::{Listed, Pos};
use std::alloc::{AllocError, Global};
use std::collections::BTreeSet;

/// Whether an object is a formal or a package object.
fn is_kept(program: &ProgramTyping<'_>, x: u32) -> bool
    ensures { result ≡ is_kept (typing program.now) x }
{
    program.is_formal(x) || program.is_package_object(x)
}

/// The object that a fact is rooted in.
fn root_of(fact: &Fact) -> u32
    ensures { result ≡ (place fact.now).root }
{
    match fact {
        Fact::Moved(name) | Fact::Lent { name, .. } => name.root(),
    }
}

/// Adds the object that a fact is rooted in, where it is kept.
fn add_root(
    program: &ProgramTyping<'_>,
    roots: &mut BTreeSet<u32>,
    fact: &Fact,
) -> Result<(), AllocError>
    ensures { OnOk result (roots.new.keys ≡ with_root (typing program.now) roots.old.keys fact.now) }
{
    let root = root_of(fact);
    if is_kept(program, root) {
        roots.insert(root)?;
    }
    Ok(())
}

/// The numbers of a set, in order.
fn in_order(alloc: Global, roots: BTreeSet<u32>) -> Result<Vec<u32>, AllocError>
    ensures { IfOk result (λ made. made.items ≡ roots.keys) }
{
    roots.into_iter().collect(alloc)
}

/// The formals and the package objects in which some fact is rooted, in ascending order.
#[tactic(auto, using(crate::proofs::KeptRoots::roots_once))]
pub fn kept_roots(
    alloc: Global,
    program: &ProgramTyping<'_>,
    facts: &[Fact],
) -> Result<Listed<u32>, AllocError>
    ensures { IfOk result (λ roots. roots ≡ kept_roots (typing program.now) 0 (typing program.now).objects facts.now) }
{
    let mut roots = BTreeSet::new(alloc);
    'facts: for fact in facts {
        add_root(program, &mut roots, fact)?;
    }
    Ok(Listed::from_vec(in_order(alloc, roots)?))
}

/// The act of the end of a call.
fn return_acts(alloc: Global, pos: Pos, roots: &[u32]) -> Result<Listed<Placed>, AllocError>
    ensures { IfOk result (λ acts. acts
        ≡ (record { pos = pos; act = act.Return roots.now }) ∷ []) }
{
    let roots = Listed::from_vec(Vec::from_slice(alloc, roots)?);
    let mut acts = Listed::new(alloc);
    acts.push(Placed {
        pos,
        act: Act::Return { roots },
    })?;
    Ok(acts)
}

/// A point, where the end of a call looks at these objects.
fn rooted(alloc: Global, point: Point, roots: &[u32]) -> Result<Point, AllocError>
    ensures { IfOk result (λ made. made ≡ rooted_point roots.now point) }
{
    match point.instr {
        Instr::Finish => Ok(Point {
            acts: return_acts(alloc, point.pos, roots)?,
            ..point
        }),
        _ => Ok(point),
    }
}

/// The points, where the end of a call looks at these objects.
pub fn set_roots(
    alloc: Global,
    points: Vec<Point>,
    roots: &[u32],
) -> Result<Listed<Point>, AllocError>
    ensures { IfOk result (λ made. made ≡ map (rooted_point roots.now) points.items) }
{
    let mut made = Listed::new(alloc);
    'points: for point in points {
        let point = rooted(alloc, point, roots)?;
        made.push(point)?;
    }
    Ok(made)
}
