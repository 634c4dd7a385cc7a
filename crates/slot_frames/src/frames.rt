//! The frames of a run.
ghost use Rattle.std.specs.Prelude.{◌≡◌, ◌<◌, ◌++◌, ◌∷◌, [], ◌↔◌, length, take, slice_get, IsTrue, Some, OnOk, OnErr, IfSome};
ghost use Rattle.slot_frames.specs.Frames.{Leaves, AreLatest, word_at};

use crate::rows::{Frame, Return, Wait};
use slot_memory::Spot;
use std::alloc::{AllocError, Global};
use std::marker::Model;

/// The frame that runs and those that wait, the values that wait in all of them, and what is copied
/// back when their calls end.
pub struct Frames {
    frame: Frame,
    // the innermost one last
    outer: Vec<Frame>,
    // the latest ones last
    waits: Vec<Wait>,
    returns: Vec<Return>,
}

impl Model for Frames {
    ghost use Rattle.slot_frames.specs.Stacks.{Stacked};

    ghost Value = { Stacked };

    ghost view = { λ f. record { frame = f.frame; outer = f.outer.items; waits = f.waits.items; returns = f.returns.items } };
}

impl Drop for Frames {
    fn drop(self) {
        let Self {
            frame: _,
            outer: _,
            waits: _,
            returns: _,
        } = self;
    }
}

impl Frames {
    /// The first frame.
    pub fn new(alloc: Global, frame: Frame) -> Frames
        ensures { result ≡ record { frame = frame; outer = []; waits = []; returns = [] } }
    {
        Frames {
            frame,
            outer: Vec::new(alloc),
            waits: Vec::new(alloc),
            returns: Vec::new(alloc),
        }
    }

    /// The frame that runs.
    pub fn frame(&self) -> Frame
        ensures { result ≡ self.now.frame }
    {
        self.frame
    }

    /// Whether some frame waits.
    pub fn is_inner(&self) -> bool
        ensures { IsTrue result ↔ (0 < length self.now.outer) }
    {
        !self.outer.is_empty()
    }

    /// The frame that runs goes on at a point.
    pub fn go(&mut self, next: u32)
        ensures { self.new ≡ record self.old { frame = record self.old.frame { next = next } } }
    {
        self.frame.next = next;
    }

    // ---- values that wait

    /// How many values wait in all frames.
    pub fn waiting(&self) -> usize
        ensures { result ≡ length self.now.waits }
    {
        self.waits.len()
    }

    /// The value with this number, from the oldest one on.
    pub fn wait(&self, k: usize) -> Wait
        requires { k < length self.now.waits }
        ensures { slice_get self.now.waits k ≡ Some result }
    {
        self.waits[k]
    }

    /// One more value waits.
    pub fn push_wait(&mut self, wait: Wait) -> Result<(), AllocError>
        ensures pushed { OnOk result (self.new ≡ record self.old { waits = self.old.waits ++ wait ∷ [] }) }
        ensures unchanged { OnErr result (self.new ≡ self.old) }
    {
        self.waits.push(wait)?;
        Ok(())
    }

    /// So many values wait, the oldest ones.
    pub fn cut_waits(&mut self, count: usize)
        ensures { self.new ≡ record self.old { waits = take count self.old.waits } }
    {
        self.waits.truncate(count);
    }

    /// The values that wait are those of other frames.
    pub fn leave_waits(&mut self)
        ensures { self.new ≡ record self.old { frame = record self.old.frame { waits = length self.old.waits } } }
    {
        self.frame.waits = self.waits.len();
    }

    /// The number of the first of the latest values that have these types, the oldest of them first.
    /// None: the frame that runs has no such values.
    pub fn latest(&self, types: &[u32]) -> Option<usize>
        ensures { IfSome result (λ k. AreLatest self.now types.now k) }
    {
        let count = types.len();
        if self.waits.len() < count {
            return None;
        }
        let first = self.waits.len() - count;
        if first < self.frame.waits {
            return None;
        }
        'types: for i in 0..count {
            if self.waits[first + i].of != types[i] {
                return None;
            }
        }
        Some(first)
    }

    /// Where the words of the values from a number on begin, where so many words wait in all.
    pub fn first_word(&self, k: usize, words: usize) -> usize
        ensures { result ≡ word_at self.now.waits k words }
    {
        match self.waits.get(k) {
            Some(wait) => wait.first,
            None => words,
        }
    }

    // ---- what is copied back

    /// How many places there are that are copied back to.
    pub fn returning(&self) -> usize
        ensures { result ≡ length self.now.returns }
    {
        self.returns.len()
    }

    /// The place with this number, from the oldest one on.
    pub fn back(&self, k: usize) -> Return
        requires { k < length self.now.returns }
        ensures { slice_get self.now.returns k ≡ Some result }
    {
        self.returns[k]
    }

    /// One more place is copied back to.
    pub fn push_return(&mut self, at: u32, from: u32, to: Spot, of: u32) -> Result<(), AllocError>
        ensures pushed { OnOk result (self.new ≡ record self.old { returns = self.old.returns ++ record { at = at; from = from; to = to; of = of } ∷ [] }) }
        ensures unchanged { OnErr result (self.new ≡ self.old) }
    {
        self.returns.push(Return { at, from, to, of })?;
        Ok(())
    }

    // ---- frames

    /// Another frame runs, and the one that ran waits.
    pub fn enter(&mut self, frame: Frame) -> Result<(), AllocError>
        ensures entered { OnOk result (self.new ≡ record self.old { frame = frame; outer = self.old.outer ++ self.old.frame ∷ [] }) }
        ensures unchanged { OnErr result (self.new ≡ self.old) }
    {
        self.outer.push(self.frame)?;
        self.frame = frame;
        Ok(())
    }

    /// The frame that runs ends, with what waits in it and what it copies back. Whether some frame
    /// waited, which runs now.
    pub fn leave(&mut self) -> bool
        ensures { Leaves self.old result self.new }
    {
        let Some(frame) = self.outer.pop() else {
            return false;
        };
        self.waits.truncate(self.frame.waits);
        self.returns.truncate(self.frame.returns);
        self.frame = frame;
        true
    }
}
