//! Each type is visited, and after it what it is made of.
ghost use Rattle.std.specs.Prelude.{◌≡◌, ◌<◌, [], ◌∷◌, ◌++◌, false, true, length, Ok, IfOk, IsSome, OnOk};
ghost use Rattle.type_settled.specs.Measures.{marked};
ghost use Rattle.type_settled.specs.Orders.{IsOrdered};

use crate::order::{Order, begin, is_done, settle};
use std::alloc::{AllocError, Global};
use type_definitions::{Component, Info, Shape};

/// The types that are to be measured, the next one last.
#[derive(Drop)]
pub struct Visits {
    stack: Vec<usize>,
    // Whether a type's parts were put on the stack.
    seen: Vec<bool>,
}

impl Visits {
    /// No type of this table is to be measured.
    pub fn new(alloc: Global, table: &[Info]) -> Result<Visits, AllocError>
        ensures { IfOk result (λ visits. visits.stack.items ≡ []) }
    {
        Ok(Visits {
            stack: Vec::new(alloc),
            seen: vec![in alloc; false; table.len()]?,
        })
    }

    /// Puts a type on the stack.
    pub fn enter(&mut self, t: usize) -> Result<(), AllocError>
        ensures { OnOk result (self.new.stack.items ≡ self.old.stack.items ++ (t ∷ [])) }
    {
        self.stack.push(t)?;
        Ok(())
    }

    /// Takes the last type off the stack, where what it is made of was there.
    pub fn leave(&mut self) -> Option<usize>
        ensures { IsSome result → length self.new.stack.items < length self.old.stack.items }
    {
        let Some(t) = self.stack.last().copied() else {
            return None;
        };
        if !is_done(&self.seen, t) {
            return None;
        }
        self.stack.pop()
    }

    /// Puts a type on the stack, unless it is done.
    fn put(&mut self, done: &[bool], t: usize) -> Result<(), AllocError> {
        if is_done(done, t) {
            return Ok(());
        }
        self.enter(t)
    }

    /// Puts the types of components on the stack.
    fn put_components(
        &mut self,
        done: &[bool],
        components: &[Component],
    ) -> Result<(), AllocError> {
        'components: for component in components {
            self.put(done, component.of as usize)?;
        }
        Ok(())
    }

    /// Puts on the stack what a type is made of.
    fn put_parts(&mut self, done: &[bool], info: &Info) -> Result<(), AllocError> {
        if let Some(parent) = info.parent {
            self.put(done, parent as usize)?;
        }
        match &info.shape {
            Shape::Fields { components } => self.put_components(done, components.as_slice()),
            Shape::Elements { element, .. } => self.put(done, *element as usize),
            Shape::Same { of } => self.put(done, *of as usize),
            Shape::Whole { .. } | Shape::Listed { .. } | Shape::Access { .. } => Ok(()),
        }
    }

    /// Puts on the stack what the last type is made of, and says whether there was a type.
    pub fn open(&mut self, done: &[bool], table: &[Info]) -> Result<bool, AllocError>
        ensures none { result ≡ Ok false → self.old.stack.items ≡ [] }
        ensures some { result ≡ Ok true → 0 < length self.old.stack.items }
    {
        let Some(t) = self.stack.last().copied() else {
            return Ok(false);
        };
        if let Some(seen) = self.seen.get_mut(t) {
            *seen = true;
        }
        if let Some(info) = table.get(t) {
            self.put_parts(done, info)?;
        }
        Ok(true)
    }

    /// Measures the last types as long as their parts were on the stack.
    fn close(&mut self, order: &mut Order, table: &[Info], unsound: &[bool])
        requires { IsOrdered (marked unsound.now) table.now order.old }
        ensures { IsOrdered (marked unsound.now) table.now order.new }
    {
        'types: while let Some(t) = self.leave() {
            if t < table.len() {
                settle(order, table, unsound, t);
            }
        }
    }

    /// Measures a type and, before it, what it is made of.
    fn visit(
        &mut self,
        order: &mut Order,
        table: &[Info],
        unsound: &[bool],
        t: usize,
    ) -> Result<(), AllocError>
        requires { IsOrdered (marked unsound.now) table.now order.old }
        ensures { IsOrdered (marked unsound.now) table.now order.new }
    {
        self.enter(t)?;
        'opened: for _turn in 0..table.len() {
            self.close(order, table, unsound);
            if !self.open(&order.done, table)? {
                return Ok(());
            }
        }
        self.close(order, table, unsound);
        Ok(())
    }
}

/// Measures each type after what it is made of, in time linear in the table. Those that have
/// themselves in them are left out, and those that have such types in them.
pub fn measured_in_order(
    alloc: Global,
    table: &[Info],
    unsound: &[bool],
) -> Result<Order, AllocError>
    ensures { IfOk result (λ order. IsOrdered (marked unsound.now) table.now order) }
{
    let mut order = begin(alloc, table, unsound)?;
    let mut visits = Visits::new(alloc, table)?;
    'types: for t in 0..table.len() {
        visits.visit(&mut order, table, unsound, t)?;
    }
    Ok(order)
}
