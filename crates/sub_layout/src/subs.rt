//! Subprograms with their points, facts and words.
ghost use Rattle.std.specs.Prelude.{◌≡◌, ◌<◌, ◌≤◌, ◌+◌, [], ℕ, Err, IfOk, IsTrue, false, length, true};
ghost use Rattle.spark_base.specs.declared.limits.TheConstants as limits;
ghost use Rattle.typed_tree.specs.Nodes.{typed_code_at};
ghost use Rattle.flow_paths.specs.Stands.{flow_sub_of};
ghost use Rattle.numbered_points.specs.Programs.{facts_in, sub_once};
ghost use Rattle.program_typing.specs.Typings.{typing};
ghost use Rattle.flow_acts.specs.Frames.{site};
ghost use Rattle.sub_summary.specs.Gathered.{points_shallow, words_of};
ghost use Rattle.sub_layout.specs.declared.fault.SubFault.TheVariants.{TooDeep as Deep, TooManyFacts as ManyFacts};
ghost use Rattle.sub_layout.specs.Dressed.{has_deep_point, points_in};
ghost use Rattle.sub_layout.specs.Words.{words_within, AreWords};
ghost use Rattle.sub_layout.specs.Subs.{package_laid, sub_in, sub_laid, ArePackagePoints, AreSubPoints};

use crate::dressed::dress;
use crate::fault::SubFault;
use crate::words::{at, plus};
use flow_acts::ActWriter;
use flow_paths::{LaidSub, Point};
use place_names::Fact;
use program_typing::ProgramTyping;
use spark_base::Listed;
use std::alloc::{AllocError, Global};
use sub_summary::{facts_of, filled_types, frame_words, kept_roots, set_roots};
use typed_statements::Subprogram;

/// A copy of some numbers.
fn copied(alloc: Global, numbers: &[u32]) -> Result<Listed<u32>, AllocError>
    ensures { IfOk result (λ copy. copy ≡ numbers.now) }
{
    Ok(Listed::from_vec(Vec::from_slice(alloc, numbers)?))
}

/// The words of a frame: `declared` are those of the objects that its text declares.
fn words_with(
    program: &ProgramTyping<'_>,
    formals: &[u32],
    declared: u64,
    types: &[u32],
) -> Result<u64, AllocError>
    ensures { IfOk result (λ made. made ≡ words_of (typing program.now) formals.now [] types.now + declared) }
{
    let without = frame_words(program, formals, &[], types)?;
    plus(without, declared)
}

/// The facts of a subprogram.
#[tactic(auto, using(crate::proofs::Gathered::facts_same))]
fn facts_within(writer: &ActWriter<'_>, points: &[Point]) -> Result<Listed<Fact>, SubFault>
    requires { points_shallow points.now ≡ true }
    ensures facts { IfOk result (λ facts. facts ≡ facts_in (points_in writer.now.rows.now points.now)) }
    ensures few { IfOk result (λ facts. length facts ≤ limits.FACTS) }
    ensures many { result ≡ Err ManyFacts → limits.FACTS < length (facts_in (points_in writer.now.rows.now points.now)) }
    ensures deep { result ≡ Err Deep → ⊥ }
{
    match facts_of(writer.alloc, points)? {
        Some(facts) => Ok(facts),
        None => Err(SubFault::TooManyFacts),
    }
}

/// A subprogram with these points, whose text declares objects of so many words.
fn gathered(
    writer: &ActWriter<'_>,
    sub: &Subprogram,
    declared: u64,
    types: &[u32],
    points: Vec<Point>,
) -> Result<LaidSub, SubFault>
    requires words { declared ≡ words_within (site writer.now) (typed_code_at writer.now.rows.now sub.now.body) }
    requires shallow { points_shallow points.items ≡ true }
    ensures sub { IfOk result (λ made. flow_sub_of writer.now.rows.now made
        ≡ (sub_once (site writer.now) (sub_in writer.now sub.now) types.now (points_in writer.now.rows.now points.items)).sub) }
    ensures few { IfOk result (λ made. length made.facts ≤ limits.FACTS) }
    ensures many { result ≡ Err ManyFacts → limits.FACTS < length (facts_in (points_in writer.now.rows.now points.items)) }
    ensures deep { result ≡ Err Deep → ⊥ }
{
    let facts = facts_within(writer, &points)?;
    let words = words_with(&writer.typing, sub.formals.as_slice(), declared, types)?;
    let formals = copied(writer.alloc, sub.formals.as_slice())?;
    let roots = kept_roots(writer.alloc, &writer.typing, facts.as_slice())?;
    let points = set_roots(writer.alloc, points, roots.as_slice())?;
    Ok(LaidSub {
        pos: sub.pos,
        object_words: words,
        formals,
        result: sub.result,
        points,
        facts,
    })
}

/// A subprogram with its points, and the types of its temporaries in the order of their numbers.
/// `words` are those of `declared_words`, and `bare` has its points without acts and leak checks.
/// `TooDeep` comes only where a name has more than 16 selectors, and `TooManyFacts` only where
/// there are more than 512 facts.
pub fn lay_sub(
    writer: &ActWriter<'_>,
    words: &[u64],
    sub: &Subprogram,
    bare: Vec<Point>,
) -> Result<(LaidSub, Vec<u32>), SubFault>
    requires words { AreWords (site writer.now) writer.now.rows.now (length writer.now.rows.now.1) words.now }
    requires body { sub.now.body < length writer.now.rows.now.1 }
    ensures sub { (t : ℕ) → AreSubPoints writer.now sub.now t bare.items
        → IfOk result (λ made. flow_sub_of writer.now.rows.now made.0 ≡ (sub_laid writer.now sub.now t).sub) }
    ensures types { (t : ℕ) → AreSubPoints writer.now sub.now t bare.items
        → IfOk result (λ made. made.1.items ≡ (sub_laid writer.now sub.now t).types) }
    ensures names { (t : ℕ) → AreSubPoints writer.now sub.now t bare.items
        → IfOk result (λ made. has_deep_point (sub_laid writer.now sub.now t).sub.points ≡ false) }
    ensures few { IfOk result (λ made. length made.0.facts ≤ limits.FACTS) }
    ensures deep { (t : ℕ) → AreSubPoints writer.now sub.now t bare.items
        → result ≡ Err Deep → IsTrue (has_deep_point (sub_laid writer.now sub.now t).sub.points) }
    ensures many { (t : ℕ) → AreSubPoints writer.now sub.now t bare.items
        → result ≡ Err ManyFacts → limits.FACTS < length (sub_laid writer.now sub.now t).sub.facts }
{
    let points = dress(writer, sub.result, bare)?;
    let types = filled_types(writer.alloc, &writer.typing, &points)?;
    let laid = gathered(writer, sub, at(words, sub.body), &types, points)?;
    Ok((laid, types))
}

/// What declares the package objects, with its points. It needs no temporaries. Faults are those of
/// other subprograms.
pub fn lay_package(
    writer: &ActWriter<'_>,
    words: &[u64],
    sub: &Subprogram,
    bare: Vec<Point>,
) -> Result<LaidSub, SubFault>
    requires words { AreWords (site writer.now) writer.now.rows.now (length writer.now.rows.now.1) words.now }
    requires body { sub.now.body < length writer.now.rows.now.1 }
    ensures sub { ArePackagePoints writer.now sub.now bare.items
        → IfOk result (λ made. flow_sub_of writer.now.rows.now made ≡ (package_laid writer.now sub.now).sub) }
    ensures names { ArePackagePoints writer.now sub.now bare.items
        → IfOk result (λ made. has_deep_point (package_laid writer.now sub.now).sub.points ≡ false) }
    ensures few { IfOk result (λ made. length made.facts ≤ limits.FACTS) }
    ensures deep { ArePackagePoints writer.now sub.now bare.items
        → result ≡ Err Deep → IsTrue (has_deep_point (package_laid writer.now sub.now).sub.points) }
    ensures many { ArePackagePoints writer.now sub.now bare.items
        → result ≡ Err ManyFacts → limits.FACTS < length (package_laid writer.now sub.now).sub.facts }
{
    let points = dress(writer, sub.result, bare)?;
    gathered(writer, sub, at(words, sub.body), &[], points)
}
