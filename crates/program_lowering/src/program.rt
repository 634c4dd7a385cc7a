//! Whole programs.
ghost use Rattle.std.specs.Prelude.{◌≡◌, ◌+◌, ◌∷◌, [], ◌++◌, List, IfSome, IfOk, IsTrue, Some, false, get_or, length, map, true};
ghost use Rattle.typed_tree.specs.Nodes.{TypedNodes};
ghost use Rattle.flow_paths.specs.Laid.{FlowSub, flow_typing};
ghost use Rattle.flow_paths.specs.Stands.{flow_sub_of};
ghost use Rattle.laid_program.specs.Programs as laid_programs;
ghost use Rattle.machine.specs.States.{no_sub};
ghost use Rattle.program_typing.specs.Typings as typings;
ghost use Rattle.run_codes.specs.Programs.{append_all, around, lowered_program, objects_of, points_from, sub_points, sub_row, sub_rows};
ghost use Rattle.run_lowering.specs.Offsets.{kept_in};
ghost use Rattle.run_lowering.specs.Frames.{HasRooms, IsFrame};
ghost use Rattle.code_rows.specs.Points.{some, is_range, program_of, IsWhole};
ghost use Rattle.program_lowering.specs.Subs.{signature_of, kept_rooms, rooms_in};

use crate::body::Body;
use crate::ranges::since;
use crate::trees::Trees;
use code_rows::{Codes, Range, Room, Sub};
use flow_acts::CallRows;
use flow_paths::LaidSub;
use laid_program::Laid;
use program_typing::{ProgramTyping, Signature};
use run_lowering::{Frame, Kept};
use spark_base::Listed;
use std::alloc::{AllocError, Global};
use type_sorts::are_sorted;

/// Why a program isn't lowered.
#[derive(Clone, Copy, Debug, PartialEq, Eq)]
pub enum LowerFault {
    /// There is too little memory; or the program isn't typed, or has more points or larger numbers
    /// than rows have room for.
    Memory,
}

/// The signature of a subprogram.
fn signature(alloc: Global, sub: &LaidSub) -> Result<Signature, AllocError>
    ensures { IfOk result (λ made. made ≡ signature_of sub.now) }
{
    let formals = Vec::from_slice(alloc, sub.formals.as_slice())?;
    Ok(Signature::new(Listed::from_vec(formals), sub.result))
}

/// The signatures of some subprograms, in order.
fn signatures(alloc: Global, subs: &[LaidSub]) -> Result<Vec<Signature>, AllocError>
    ensures { IfOk result (λ made. made.items ≡ map signature_of subs.now) }
{
    let mut made = Vec::new(alloc);
    'subs: for sub in subs {
        let signature = signature(alloc, sub)?;
        made.push(signature)?;
    }
    Ok(made)
}

// ---- what stands in frames

/// Adds an object of a frame, and its loop where it is the parameter of one.
fn add_room(codes: &mut Codes, typing: &ProgramTyping<'_>, kept: Kept) -> Option<()>
    requires { IsWhole codes.old }
    ensures rooms { IfSome result (λ _. codes.new.rooms.items ≡ codes.old.rooms.items ++ kept_rooms (typings.typing typing.now) (kept_in kept)) }
    ensures same { IfSome result (λ _. program_of codes.new ≡ program_of codes.old) }
    ensures whole { IfSome result (λ _. IsWhole codes.new) }
{
    codes.push_room(Room::Object {
        of: typing.object_type(kept.object),
    })?;
    if kept.loops {
        codes.push_room(Room::Counter)?;
    }
    Some(())
}

/// Adds all objects of a frame.
#[tactic(auto, using(crate::proofs::Subs::rooms_range, crate::proofs::Lists::range_there))]
fn add_rooms(codes: &mut Codes, typing: &ProgramTyping<'_>, kept: &[Kept]) -> Option<Range>
    requires { IsWhole codes.old }
    ensures rooms { IfSome result (λ r. some codes.new.rooms.items r ≡ rooms_in (typings.typing typing.now) (map kept_in kept.now)) }
    ensures there { IfSome result (λ r. IsTrue (is_range codes.new.rooms.items r)) }
    ensures same { IfSome result (λ r. program_of codes.new ≡ program_of codes.old) }
    ensures whole { IfSome result (λ r. IsWhole codes.new) }
{
    let first = codes.rooms.len();
    'kept: for one in kept {
        add_room(codes, typing, *one)?;
    }
    since(first, codes.rooms.len())
}

/// Adds a subprogram, which has its first point and its frame.
#[tactic(auto, using(crate::proofs::Subs::sub_is))]
fn add_row(
    codes: &mut Codes,
    typing: &ProgramTyping<'_>,
    first: u32,
    frame: &Frame,
    sub: &LaidSub,
) -> Option<()>
    requires whole { IsWhole codes.old }
    requires kept { (rows : TypedNodes) → map kept_in frame.now.kept.items ≡ objects_of (flow_sub_of rows sub.now) }
    ensures sub { (rows : TypedNodes) → IfSome result (λ _. (program_of codes.new).subs ≡ (program_of codes.old).subs ++ sub_row (typings.typing typing.now) first (flow_sub_of rows sub.now) ∷ []) }
    ensures points { IfSome result (λ _. (program_of codes.new).points ≡ (program_of codes.old).points) }
    ensures main { IfSome result (λ _. codes.new.main ≡ codes.old.main) }
    ensures whole { IfSome result (λ _. IsWhole codes.new) }
{
    let rooms = add_rooms(codes, typing, frame.kept.as_slice())?;
    let formals = u32::try_from(sub.formals.len()).ok()?;
    codes.push_sub(Sub {
        first,
        words: sub.object_words,
        rooms,
        formals,
    })?;
    Some(())
}

// ---- subprograms

impl<'p> Trees<'p> {
    /// Adds the points of a subprogram.
    fn add_points(
        &self,
        codes: &mut Codes,
        packages: &Frame,
        frame: &Frame,
        sub: &LaidSub,
        is_first: bool,
    ) -> Option<()>
        requires whole { IsWhole codes.old }
        requires frame { IsFrame (typings.typing self.now.typing) frame.now }
        requires packages { IsFrame (typings.typing self.now.typing) packages.now }
        requires kept { map kept_in frame.now.kept.items ≡ objects_of (flow_sub_of self.now.rows.now sub.now) }
        ensures points { IfSome result (λ _. append_all (Some (program_of codes.old).points) (sub_points (around (typings.typing self.now.typing) (map kept_in packages.now.kept.items) (length (program_of codes.old).points) is_first (flow_sub_of self.now.rows.now sub.now)) (flow_sub_of self.now.rows.now sub.now)) ≡ Some (program_of codes.new).points) }
        ensures first { IfSome result (λ _. length (program_of codes.new).points ≡ length (program_of codes.old).points + length sub.now.points) }
        ensures subs { IfSome result (λ _. (program_of codes.new).subs ≡ (program_of codes.old).subs) }
        ensures main { IfSome result (λ _. codes.new.main ≡ codes.old.main) }
        ensures whole { IfSome result (λ _. IsWhole codes.new) }
    {
        let first = codes.points.len();
        let count = sub.points.len();
        let body = Body {
            trees: *self,
            frame,
            packages,
            result: sub.result,
            first: u32::try_from(first).ok()?,
            count,
            is_first,
        };
        body.sub_points(codes, sub)?;
        if codes.points.len().checked_sub(first) != Some(count) {
            return None;
        }
        Some(())
    }

    /// Adds a subprogram and its points. The frame is made new.
    #[tactic(auto, using(crate::proofs::Lists::all_on))]
    fn add_sub(
        &self,
        codes: &mut Codes,
        packages: &Frame,
        frame: &mut Frame,
        sub: &LaidSub,
        is_first: bool,
    ) -> Option<()>
        requires whole { IsWhole codes.old }
        requires frame { HasRooms frame.old }
        requires packages { IsFrame (typings.typing self.now.typing) packages.now }
        ensures points { (rest : List FlowSub) → IfSome result (λ _. append_all (Some (program_of codes.old).points) (points_from (typings.typing self.now.typing) (map kept_in packages.now.kept.items) (length (program_of codes.old).points) is_first (flow_sub_of self.now.rows.now sub.now ∷ rest))
            ≡ append_all (Some (program_of codes.new).points) (points_from (typings.typing self.now.typing) (map kept_in packages.now.kept.items) (length (program_of codes.new).points) false rest)) }
        ensures subs { (rest : List FlowSub) → IfSome result (λ _. (program_of codes.old).subs ++ sub_rows (typings.typing self.now.typing) (length (program_of codes.old).points) (flow_sub_of self.now.rows.now sub.now ∷ rest)
            ≡ (program_of codes.new).subs ++ sub_rows (typings.typing self.now.typing) (length (program_of codes.new).points) rest) }
        ensures main { IfSome result (λ _. codes.new.main ≡ codes.old.main) }
        ensures frame { IfSome result (λ _. HasRooms frame.new) }
        ensures whole { IfSome result (λ _. IsWhole codes.new) }
    {
        frame.clear();
        frame.declare_sub(&self.typing, sub)?;
        let first = u32::try_from(codes.points.len()).ok()?;
        self.add_points(codes, packages, frame, sub, is_first)?;
        add_row(codes, &self.typing, first, frame, sub)?;
        Some(())
    }

    /// Adds all subprograms and their points.
    fn add_subs(
        &self,
        codes: &mut Codes,
        packages: &Frame,
        frame: &mut Frame,
        subs: &[LaidSub],
    ) -> Option<()>
        requires whole { IsWhole codes.old }
        requires frame { HasRooms frame.old }
        requires packages { IsFrame (typings.typing self.now.typing) packages.now }
        requires points { (program_of codes.old).points ≡ [] }
        requires subs { (program_of codes.old).subs ≡ [] }
        ensures points { IfSome result (λ _. points_from (typings.typing self.now.typing) (map kept_in packages.now.kept.items) 0 true (map (flow_sub_of self.now.rows.now) subs.now) ≡ Some (program_of codes.new).points) }
        ensures subs { IfSome result (λ _. sub_rows (typings.typing self.now.typing) 0 (map (flow_sub_of self.now.rows.now) subs.now) ≡ (program_of codes.new).subs) }
        ensures main { IfSome result (λ _. codes.new.main ≡ codes.old.main) }
        ensures whole { IfSome result (λ _. IsWhole codes.new) }
    {
        let mut is_first = true;
        'subs: for sub in subs {
            self.add_sub(codes, packages, frame, sub, is_first)?;
            is_first = false;
        }
        Some(())
    }

    /// The frame of the package objects.
    fn package_frame(&self, subs: &[LaidSub]) -> Option<Frame>
        ensures frame { IfSome result (λ frame. IsFrame (typings.typing self.now.typing) frame) }
        ensures kept { IfSome result (λ frame. map kept_in frame.kept.items ≡ objects_of (get_or (map (flow_sub_of self.now.rows.now) subs.now) 0 no_sub)) }
    {
        let mut frame = Frame::new(self.alloc, self.typing.objects.len()).ok()?;
        if let Some(sub) = subs.first() {
            frame.declare_sub(&self.typing, sub)?;
        }
        Some(frame)
    }

    /// The program.
    fn whole(&self, laid: &Laid) -> Option<Codes>
        requires typing { typings.typing self.now.typing ≡ flow_typing (laid_programs.program_of laid.now) }
        requires rows { self.now.rows.now ≡ laid.now.rows }
        ensures program { IfSome result (λ codes. lowered_program (laid_programs.program_of laid.now) ≡ Some (program_of codes)) }
        ensures whole { IfSome result (λ codes. IsWhole codes) }
    {
        let subs = laid.subs.as_slice();
        let packages = self.package_frame(subs)?;
        let mut frame = Frame::new(self.alloc, self.typing.objects.len()).ok()?;
        let mut codes = Codes::new(self.alloc, laid.main);
        self.add_subs(&mut codes, &packages, &mut frame, subs)?;
        Some(codes)
    }
}

// ---- programs

/// A program as it is run, where it is typed and there is room for it.
#[tactic(auto, using(crate::proofs::Subs::typing_is))]
fn lowered(alloc: Global, laid: &Laid) -> Option<Codes>
    ensures program { IfSome result (λ codes. lowered_program (laid_programs.program_of laid.now) ≡ Some (program_of codes)) }
    ensures whole { IfSome result (λ codes. IsWhole codes) }
{
    if !are_sorted(alloc, laid.table.infos()).ok()? {
        return None;
    }
    let rows = CallRows::new(alloc, &laid.rows).ok()?;
    let subs = signatures(alloc, laid.subs.as_slice()).ok()?;
    let typing = ProgramTyping {
        table: &laid.table,
        objects: laid.objects.as_slice(),
        subs: &subs,
    };
    let trees = Trees {
        alloc,
        typing,
        rows: &rows,
        code: &laid.rows,
    };
    trees.whole(laid)
}

/// A program as it is run. There is none where there is too little memory, where the program isn't
/// typed, and where it has more points or larger numbers than rows have room for.
pub fn lower(alloc: Global, laid: &Laid) -> Result<Codes, LowerFault>
    ensures program { IfOk result (λ codes. lowered_program (laid_programs.program_of laid.now) ≡ Some (program_of codes)) }
    ensures whole { IfOk result (λ codes. IsWhole codes) }
{
    match lowered(alloc, laid) {
        Some(codes) => Ok(codes),
        None => Err(LowerFault::Memory),
    }
}
