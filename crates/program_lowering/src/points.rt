//! The points of a subprogram.
ghost use Rattle.std.specs.Prelude.{◌≡◌, ◌∷◌, [], ◌++◌, IfSome, Some, map};
ghost use Rattle.flow_paths.specs.Stands.{flow_point_of, flow_sub_of};
ghost use Rattle.run_codes.specs.Lowered.{option_map};
ghost use Rattle.run_codes.specs.Programs as programs;
ghost use Rattle.run_codes.specs.Programs.{append_all};
ghost use Rattle.run_lowering.specs.Takes.{IsTakes};
ghost use Rattle.code_rows.specs.Points.{program_of, IsWhole};
ghost use Rattle.program_lowering.specs.Arounds.{around};
ghost use Rattle.program_lowering.specs.Bodies.{body, points_in};

use crate::around::Around;
use crate::body::Body;
use code_rows::{Codes, Does};
use flow_paths::{LaidSub, Point};
use run_lowering::{Site, Takes};

/// The most words of all frames. One that has more never runs.
const STACK_WORDS: u64 = 4_194_304;

impl<'p> Body<'p> {
    /// What a point is lowered by that takes values.
    fn around<'q>(&'q self, takes: &'q Takes) -> Around<'q>
        requires { IsTakes self.now.trees.typing.table.now takes.now }
        ensures around { around result ≡ programs.with_takes (body self.now) takes.now.types.items }
        ensures rows { result.site.rows.now ≡ self.now.trees.rows.now }
    {
        Around {
            site: Site {
                typing: self.trees.typing,
                alloc: self.trees.alloc,
                rows: self.trees.rows,
                own: self.frame.kept.as_slice(),
                package_objects: self.packages.kept.as_slice(),
                own_offsets: self.frame.offsets.as_slice(),
                package_offsets: self.packages.offsets.as_slice(),
                takes: takes.types.as_slice(),
                starts: takes.starts.as_slice(),
            },
            code: self.trees.code,
            result: self.result,
            first: self.first,
            count: self.count,
            is_first: self.is_first,
        }
    }

    /// Adds what a point does, with the types of the values that it takes.
    #[tactic(auto, using(crate::proofs::Programs::whole_more, crate::proofs::Programs::same_points, crate::proofs::Programs::same_subs))]
    fn point(&self, codes: &mut Codes, p: &Point) -> Option<()>
        requires { IsWhole codes.old }
        ensures point { IfSome result (λ _. option_map (λ q. (program_of codes.old).points ++ q ∷ []) (programs.point (body self.now) (flow_point_of self.now.trees.rows.now p.now)) ≡ Some (program_of codes.new).points) }
        ensures subs { IfSome result (λ _. (program_of codes.new).subs ≡ (program_of codes.old).subs) }
        ensures main { IfSome result (λ _. codes.new.main ≡ codes.old.main) }
        ensures whole { IfSome result (λ _. IsWhole codes.new) }
    {
        let takes = self.trees.point_takes(&p.instr)?;
        let does = self.around(&takes).does(&mut codes.rows, p)?;
        codes.push_point(&takes.types, does, p.pos)
    }

    /// Adds points.
    #[tactic(auto, using(crate::proofs::Lists::point_on))]
    fn points(&self, codes: &mut Codes, points: &[Point]) -> Option<()>
        requires { IsWhole codes.old }
        ensures points { IfSome result (λ _. append_all (Some (program_of codes.old).points) (programs.all_points (body self.now) (points_in self.now points.now)) ≡ Some (program_of codes.new).points) }
        ensures subs { IfSome result (λ _. (program_of codes.new).subs ≡ (program_of codes.old).subs) }
        ensures main { IfSome result (λ _. codes.new.main ≡ codes.old.main) }
        ensures whole { IfSome result (λ _. IsWhole codes.new) }
    {
        'points: for point in points {
            self.point(codes, point)?;
        }
        Some(())
    }

    /// Adds points that never run.
    fn fallen(&self, codes: &mut Codes, points: &[Point]) -> Option<()>
        requires { IsWhole codes.old }
        ensures points { IfSome result (λ _. (program_of codes.new).points ≡ (program_of codes.old).points ++ map programs.fallen (points_in self.now points.now)) }
        ensures subs { IfSome result (λ _. (program_of codes.new).subs ≡ (program_of codes.old).subs) }
        ensures main { IfSome result (λ _. codes.new.main ≡ codes.old.main) }
        ensures whole { IfSome result (λ _. IsWhole codes.new) }
    {
        'points: for point in points {
            codes.push_point(&[], Does::Fall, point.pos)?;
        }
        Some(())
    }

    /// Adds the points of the subprogram.
    pub(crate) fn sub_points(&self, codes: &mut Codes, sub: &LaidSub) -> Option<()>
        requires { IsWhole codes.old }
        ensures points { IfSome result (λ _. append_all (Some (program_of codes.old).points) (programs.sub_points (body self.now) (flow_sub_of self.now.trees.rows.now sub.now)) ≡ Some (program_of codes.new).points) }
        ensures subs { IfSome result (λ _. (program_of codes.new).subs ≡ (program_of codes.old).subs) }
        ensures main { IfSome result (λ _. codes.new.main ≡ codes.old.main) }
        ensures whole { IfSome result (λ _. IsWhole codes.new) }
    {
        if sub.object_words > STACK_WORDS {
            self.fallen(codes, sub.points.as_slice())
        } else {
            self.points(codes, sub.points.as_slice())
        }
    }
}
