//! The parts of a typed program, by number.
ghost use Rattle.std.specs.Prelude.{◌≡◌, ℕ, map, IfOk};
ghost use Rattle.flow_paths.specs.Objects.{has_scope_end};
ghost use Rattle.bare_points.specs.Spans as spans;
ghost use Rattle.program_typing.specs.Typings.{typing};
ghost use Rattle.lay_out.specs.Known.{has_end, signature_of};

use bare_points::Ends;
use program_typing::{ProgramTyping, Signature, is_anonymous};
use spark_base::Listed;
use std::alloc::{AllocError, Global};
use typed_statements::Subprogram;

/// The declaration of Integer.
const INTEGER: u32 = 0;

/// The signature of a subprogram.
fn signature(alloc: Global, sub: &Subprogram) -> Result<Signature, AllocError>
    ensures { IfOk result (λ made. made ≡ signature_of sub.now) }
{
    let formals = Vec::from_slice(alloc, sub.formals.as_slice())?;
    Ok(Signature::new(Listed::from_vec(formals), sub.result))
}

/// The signatures of some subprograms, in order.
pub(crate) fn signatures(alloc: Global, subs: &[Subprogram]) -> Result<Vec<Signature>, AllocError>
    ensures { IfOk result (λ made. made.items ≡ map signature_of subs.now) }
{
    let mut made = Vec::new(alloc);
    'subs: for sub in subs {
        let signature = signature(alloc, sub)?;
        made.push(signature)?;
    }
    Ok(made)
}

/// The numbers of their bodies, in order.
pub(crate) fn bodies(alloc: Global, subs: &[Subprogram]) -> Result<Vec<usize>, AllocError>
    ensures { IfOk result (λ made. made.items ≡ map (λ b. b.body) subs.now) }
{
    let mut made = Vec::new(alloc);
    'subs: for sub in subs {
        made.push(sub.body)?;
    }
    Ok(made)
}

/// Whether the scope of an object of a type ends at a point of its own.
fn has_end(known: &ProgramTyping<'_>, of: u32) -> bool
    ensures { result ≡ has_end (typing known.now) of }
{
    known.is_owning(of) || is_anonymous(known.full(of))
}

/// For each object, in order, whether its scope ends at a point of its own.
fn ends_of(alloc: Global, known: &ProgramTyping<'_>) -> Result<Vec<bool>, AllocError>
    ensures { IfOk result (λ ends. ends.items ≡ map (λ x. has_end (typing known.now) x.of) (typing known.now).objects) }
{
    let mut ends = Vec::new(alloc);
    'objects: for object in known.objects {
        ends.push(has_end(known, object.of))?;
    }
    Ok(ends)
}

/// By the number of an object, whether its scope ends at a point of its own. Numbers that name no
/// object count as Integer objects.
pub(crate) fn scope_ends(alloc: Global, known: &ProgramTyping<'_>) -> Result<Ends, AllocError>
    ensures { IfOk result (λ ends. (x : ℕ) → spans.ends_of ends x ≡ has_scope_end (typing known.now) x) }
{
    let own = ends_of(alloc, known)?;
    let other = has_end(known, INTEGER);
    Ok(Ends { own, other })
}
