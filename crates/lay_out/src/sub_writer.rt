//! Subprograms, laid out one after the other.
ghost use Rattle.std.specs.Prelude.{◌≡◌, ◌<◌, ◌≤◌, ◌+◌, [], ◌∷◌, ◌++◌, length, IfOk, OnOk};
ghost use Rattle.std.specs.List.{All as Each};
ghost use Rattle.spark_base.specs.declared.limits.TheConstants as limits;
ghost use Rattle.flow_paths.specs.Limits.{beyond};
ghost use Rattle.flow_paths.specs.Stands.{flow_sub_of};
ghost use Rattle.numbered_points.specs.Programs.{all_numbered, numbered_subs};
ghost use Rattle.sub_layout.specs.Subs.{package_laid, sub_in, sub_laid, ArePackagePoints, AreSubPoints};
ghost use Rattle.lay_out.specs.Refusals.{Judges};
ghost use Rattle.lay_out.specs.Subs.{flow_subs, next_temporary, refusal_by, site, subs_in, subs_of, types_of, IsReady, Refuses};

use crate::laid_subs::LaidSubs;
use crate::refusal::LayRefusal;
use bare_points::{Layout, Sizes};
use flow_acts::ActWriter;
use flow_paths::{LaidSub, Point};
use spark_base::Pos;
use std::alloc::AllocError;
use sub_layout::{SubFault, lay_package, lay_sub};
use typed_statements::Subprogram;

/// What subprograms are laid out by.
#[derive(Clone, Copy)]
pub(crate) struct SubWriter<'p> {
    /// What acts are made by.
    pub(crate) acts: ActWriter<'p>,
    /// How many points there are.
    pub(crate) sizes: Sizes<'p>,
    /// By the number of a node of code, the words of the objects that it declares.
    pub(crate) words: &'p [u64],
}

/// Why a program isn't laid out whose subprogram with its identifier at this position isn't. A name
/// that is too deep was told before.
fn refusal_by(fault: SubFault, pos: Pos) -> LayRefusal
    ensures { result ≡ refusal_by fault pos }
{
    match fault {
        SubFault::Memory | SubFault::TooDeep => LayRefusal::Memory,
        SubFault::TooManyFacts => LayRefusal::TooManyFacts(pos),
    }
}

impl<'p> SubWriter<'p> {
    /// The points that declare the package objects, without their acts and leak checks.
    fn package_points(&self, sub: &Subprogram) -> Result<Vec<Point>, LayRefusal>
        requires ready { IsReady self.now }
        requires body { sub.now.body < length self.now.acts.rows.now.1 }
        ensures points { IfOk result (λ points. ArePackagePoints self.now.acts sub.now points.items) }
        ensures few { IfOk result (λ points. length (package_laid self.now.acts sub.now).sub.points ≤ limits.POINTS) }
        ensures many { Refuses result (beyond ((package_laid self.now.acts sub.now).sub ∷ [])) }
    {
        match Layout::new(self.sizes, false).package_points(sub.body)? {
            Some(points) => Ok(points.into_vec()),
            None => Err(LayRefusal::TooManyPoints(sub.pos)),
        }
    }

    /// What declares the package objects. Its temporaries have no numbers, and it needs none.
    fn package(&self, sub: &Subprogram) -> Result<LaidSub, LayRefusal>
        requires ready { IsReady self.now }
        requires body { sub.now.body < length self.now.acts.rows.now.1 }
        ensures sub { IfOk result (λ made. flow_sub_of self.now.acts.rows.now made ≡ (package_laid self.now.acts sub.now).sub) }
        ensures judges { Judges result (beyond ((package_laid self.now.acts sub.now).sub ∷ [])) }
    {
        let points = self.package_points(sub)?;
        match lay_package(&self.acts, self.words, sub, points) {
            Ok(laid) => Ok(laid),
            Err(fault) => Err(refusal_by(fault, sub.pos)),
        }
    }

    /// The points of a subprogram whose first temporary has the number `t`, without their acts and
    /// leak checks.
    fn sub_points(&self, sub: &Subprogram, t: u32) -> Result<Vec<Point>, LayRefusal>
        requires ready { IsReady self.now }
        requires body { sub.now.body < length self.now.acts.rows.now.1 }
        ensures points { IfOk result (λ points. AreSubPoints self.now.acts sub.now t points.items) }
        ensures few { IfOk result (λ points. length (sub_laid self.now.acts sub.now t).sub.points ≤ limits.POINTS) }
        ensures many { Refuses result (beyond ((sub_laid self.now.acts sub.now t).sub ∷ [])) }
    {
        let layout = Layout::new(self.sizes, true);
        match layout.sub_points(sub.body, sub.end, sub.result.is_some(), t)? {
            Some(points) => Ok(points.into_vec()),
            None => Err(LayRefusal::TooManyPoints(sub.pos)),
        }
    }

    /// A subprogram whose first temporary has the number `t`, and the types of its temporaries.
    fn sub(&self, sub: &Subprogram, t: u32) -> Result<(LaidSub, Vec<u32>), LayRefusal>
        requires ready { IsReady self.now }
        requires body { sub.now.body < length self.now.acts.rows.now.1 }
        ensures sub { IfOk result (λ made. flow_sub_of self.now.acts.rows.now made.0 ≡ (sub_laid self.now.acts sub.now t).sub) }
        ensures types { IfOk result (λ made. made.1.items ≡ (sub_laid self.now.acts sub.now t).types) }
        ensures judges { Judges result (beyond ((sub_laid self.now.acts sub.now t).sub ∷ [])) }
    {
        let points = self.sub_points(sub, t)?;
        match lay_sub(&self.acts, self.words, sub, points) {
            Ok(laid) => Ok(laid),
            Err(fault) => Err(refusal_by(fault, sub.pos)),
        }
    }

    /// The number of the next temporary, after those of these subprograms. More numbers than a
    /// `u32` has are out of memory.
    fn next_temporary(&self, made: &LaidSubs) -> Result<u32, AllocError>
        ensures { IfOk result (λ t. t ≡ next_temporary (site self.now) made.now.types.items) }
    {
        match self.acts.typing.objects.len().checked_add(made.types.len()) {
            Some(t) if t <= 4_294_967_295 => Ok(t as u32),
            _ => Err(AllocError),
        }
    }

    /// Lays out one more subprogram.
    fn add(&self, sub: &Subprogram, made: &mut LaidSubs) -> Result<(), LayRefusal>
        requires ready { IsReady self.now }
        requires body { sub.now.body < length self.now.acts.rows.now.1 }
        ensures subs { OnOk result (flow_subs self.now made.new ≡ flow_subs self.now made.old
            ++ (sub_laid self.now.acts sub.now (next_temporary (site self.now) made.old.types.items)).sub ∷ []) }
        ensures types { OnOk result (made.new.types.items ≡ made.old.types.items
            ++ (sub_laid self.now.acts sub.now (next_temporary (site self.now) made.old.types.items)).types) }
        ensures judges { Judges result (beyond
            ((sub_laid self.now.acts sub.now (next_temporary (site self.now) made.old.types.items)).sub ∷ [])) }
    {
        let t = self.next_temporary(made)?;
        let (laid, types) = self.sub(sub, t)?;
        made.subs.push(laid)?;
        made.types.extend_from_slice(&types)?;
        Ok(())
    }

    /// Lays out the subprograms after what declares the package objects.
    fn add_all(&self, subs: &[Subprogram], made: &mut LaidSubs) -> Result<(), LayRefusal>
        requires ready { IsReady self.now }
        requires bodies { Each (λ b. b.body < length self.now.acts.rows.now.1) subs.now }
        ensures subs { OnOk result (flow_subs self.now made.new ≡ flow_subs self.now made.old
            ++ subs_of (numbered_subs (site self.now) (next_temporary (site self.now) made.old.types.items) (subs_in self.now subs.now))) }
        ensures types { OnOk result (made.new.types.items ≡ made.old.types.items
            ++ types_of (numbered_subs (site self.now) (next_temporary (site self.now) made.old.types.items) (subs_in self.now subs.now))) }
        ensures judges { Judges result (beyond (subs_of
            (numbered_subs (site self.now) (next_temporary (site self.now) made.old.types.items) (subs_in self.now subs.now)))) }
    {
        'subs: for sub in subs {
            self.add(sub, made)?;
        }
        Ok(())
    }

    /// Lays out all subprograms, the first of which declares the package objects. The error is that
    /// of the first one with too many points or too many facts.
    pub(crate) fn all(&self, subs: &[Subprogram]) -> Result<LaidSubs, LayRefusal>
        requires ready { IsReady self.now }
        requires bodies { Each (λ b. b.body < length self.now.acts.rows.now.1) subs.now }
        ensures subs { IfOk result (λ made. flow_subs self.now made
            ≡ subs_of (all_numbered (site self.now) (subs_in self.now subs.now))) }
        ensures types { IfOk result (λ made. made.types.items
            ≡ types_of (all_numbered (site self.now) (subs_in self.now subs.now))) }
        ensures judges { Judges result (beyond (subs_of (all_numbered (site self.now) (subs_in self.now subs.now)))) }
    {
        let mut made = LaidSubs::new(self.acts.alloc);
        let Some((package, others)) = subs.split_first() else {
            return Ok(made);
        };
        made.subs.push(self.package(package)?)?;
        self.add_all(others, &mut made)?;
        Ok(made)
    }
}
