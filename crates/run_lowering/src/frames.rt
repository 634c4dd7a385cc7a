//! What stands in the frame of a subprogram, and where.
ghost use Rattle.std.specs.Prelude.{◌≡◌, ◌++◌, ◌∷◌, [], IfOk, IfSome, None, false, map, set};
ghost use Rattle.typed_tree.specs.Nodes.{TypedNodes};
ghost use Rattle.flow_paths.specs.Stands.{flow_point_of, flow_sub_of};
ghost use Rattle.program_typing.specs.Typings as typings;
ghost use Rattle.run_codes.specs.Lowered.{kept_words};
ghost use Rattle.run_codes.specs.Programs.{has_room, objects_of, room_of, rooms_of, with_room};
ghost use Rattle.run_codes.specs.Programs as programs;
ghost use Rattle.run_lowering.specs.Offsets.{kept_in};
ghost use Rattle.run_lowering.specs.Frames.{HasRooms, IsClear, IsFrame};

use crate::site::Kept;
use flow_paths::{Instr, LaidSub, Point};
use program_typing::ProgramTyping;
use std::alloc::{AllocError, Global};

/// The words of a loop: its bounds, and whether its first turn is still to come.
const LOOP_WORDS: u32 = 3;

/// The objects of a frame, in the order of their offsets.
#[derive(Drop)]
pub struct Frame {
    /// The objects that have room.
    pub kept: Vec<Kept>,
    /// The offsets of the same objects, by the number of each.
    pub offsets: Vec<Option<u32>>,
    /// The words of all.
    pub words: u32,
}

/// The words of an object that has room, and of its loop.
fn kept_words(typing: &ProgramTyping<'_>, kept: Kept) -> Option<u32>
    ensures { IfSome result (λ n. n ≡ kept_words (typings.typing typing.now) (kept_in kept)) }
{
    let words = typing.words(typing.object_type(kept.object));
    if kept.loops {
        words.checked_add(LOOP_WORDS)
    } else {
        Some(words)
    }
}

impl Frame {
    /// The frame without an object, in a program with so many.
    #[tactic(auto, using(crate::proofs::Rooms::clear_first))]
    pub fn new(alloc: Global, objects: usize) -> Result<Frame, AllocError>
        ensures { IfOk result (λ frame. IsClear frame) }
    {
        Ok(Frame {
            kept: Vec::new(alloc),
            offsets: vec![in alloc; None; objects]?,
            words: 0,
        })
    }

    /// Takes all objects out, in time linear in their number.
    #[tactic(auto, using(crate::proofs::Rooms::kept_first, crate::proofs::Rooms::kept_next, crate::proofs::Rooms::kept_last))]
    pub fn clear(&mut self)
        requires { HasRooms self.old }
        ensures { IsClear self.new }
    {
        'kept: while let Some(kept) = self.kept.pop() {
            self.forget(kept.object);
        }
        self.words = 0;
    }

    /// An object has no offset any more.
    fn forget(&mut self, object: u32)
        ensures offsets { self.new.offsets.items ≡ set self.old.offsets.items object None }
        ensures kept { self.new.kept ≡ self.old.kept }
    {
        let object = object as usize;
        if object < self.offsets.len() {
            self.offsets[object] = None;
        }
    }

    /// Whether an object has room.
    fn has_room(&self, object: u32) -> bool
        requires { HasRooms self.now }
        ensures { result ≡ has_room object (map kept_in self.now.kept.items) }
    {
        match self.offsets.get(object as usize) {
            Some(at) => at.is_some(),
            None => false,
        }
    }

    /// Gives an object room after the others. It has none so far.
    #[tactic(auto, using(crate::proofs::Rooms::next_frame, crate::proofs::Rooms::map_end))]
    fn add(&mut self, typing: &ProgramTyping<'_>, kept: Kept) -> Option<()>
        requires { IsFrame (typings.typing typing.now) self.old }
        ensures frame { IfSome result (λ _. IsFrame (typings.typing typing.now) self.new) }
        ensures kept { IfSome result (λ _. map kept_in self.new.kept.items ≡ map kept_in self.old.kept.items ++ kept_in kept ∷ []) }
    {
        if self.has_room(kept.object) {
            return None;
        }
        let object = kept.object as usize;
        if object >= self.offsets.len() {
            return None;
        }
        let words = kept_words(typing, kept)?;
        let end = self.words.checked_add(words)?;
        self.kept.push(kept).ok()?;
        self.offsets[object] = Some(self.words);
        self.words = end;
        Some(())
    }

    /// Gives an object room where it has none.
    fn declare(&mut self, typing: &ProgramTyping<'_>, kept: Kept) -> Option<()>
        requires { IsFrame (typings.typing typing.now) self.old }
        ensures frame { IfSome result (λ _. IsFrame (typings.typing typing.now) self.new) }
        ensures kept { IfSome result (λ _. map kept_in self.new.kept.items ≡ with_room (kept_in kept) (map kept_in self.old.kept.items)) }
    {
        if self.has_room(kept.object) {
            return Some(());
        }
        self.add(typing, kept)
    }

    /// Gives what a point declares room.
    fn declare_at(&mut self, typing: &ProgramTyping<'_>, point: &Point) -> Option<()>
        requires { IsFrame (typings.typing typing.now) self.old }
        ensures frame { IfSome result (λ _. IsFrame (typings.typing typing.now) self.new) }
        ensures kept { IfSome result (λ _. (rows : TypedNodes) → map kept_in self.new.kept.items ≡ room_of (flow_point_of rows point.now).instr (map kept_in self.old.kept.items)) }
    {
        match &point.instr {
            Instr::Declare { object, .. } => self.declare(
                typing,
                Kept {
                    object: *object,
                    loops: false,
                },
            ),
            Instr::Start { parameter, .. } => self.declare(
                typing,
                Kept {
                    object: *parameter,
                    loops: true,
                },
            ),
            _ => Some(()),
        }
    }

    /// Gives the formals of a subprogram room.
    #[tactic(auto, using(crate::proofs::Rooms::clear_frame))]
    fn add_formals(&mut self, typing: &ProgramTyping<'_>, formals: &[u32]) -> Option<()>
        requires { IsClear self.old }
        ensures frame { IfSome result (λ _. IsFrame (typings.typing typing.now) self.new) }
        ensures kept { IfSome result (λ _. map kept_in self.new.kept.items ≡ map (λ x. programs.kept x false) formals.now) }
    {
        'formals: for formal in formals {
            let kept = Kept {
                object: *formal,
                loops: false,
            };
            self.add(typing, kept)?;
        }
        Some(())
    }

    /// Gives what points declare room.
    fn declare_all(&mut self, typing: &ProgramTyping<'_>, points: &[Point]) -> Option<()>
        requires { IsFrame (typings.typing typing.now) self.old }
        ensures frame { IfSome result (λ _. IsFrame (typings.typing typing.now) self.new) }
        ensures kept { IfSome result (λ _. (rows : TypedNodes) → map kept_in self.new.kept.items ≡ rooms_of (map (flow_point_of rows) points.now) (map kept_in self.old.kept.items)) }
    {
        'points: for point in points {
            self.declare_at(typing, point)?;
        }
        Some(())
    }

    /// Gives the objects of a subprogram room: its formals, and what its points declare in their
    /// order.
    pub fn declare_sub(&mut self, typing: &ProgramTyping<'_>, sub: &LaidSub) -> Option<()>
        requires { IsClear self.old }
        ensures frame { IfSome result (λ _. IsFrame (typings.typing typing.now) self.new) }
        ensures kept { IfSome result (λ _. (rows : TypedNodes) → map kept_in self.new.kept.items ≡ objects_of (flow_sub_of rows sub.now)) }
    {
        self.add_formals(typing, sub.formals.as_slice())?;
        self.declare_all(typing, sub.points.as_slice())
    }
}
