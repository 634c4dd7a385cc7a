//! Walks along chains of types.

use crate::chains::Chains;
use std::alloc::{AllocError, Global};

/// A walk that enters each type once.
#[derive(Drop)]
pub struct Walk {
    chains: Chains,
    entered: Vec<bool>,
    // The types that were entered and not left, the last one last.
    stack: Vec<usize>,
}

impl Walk {
    /// A walk along these chains, where no type of so many was entered.
    pub(crate) fn new(alloc: Global, chains: Chains, types: usize) -> Result<Walk, AllocError> {
        Ok(Walk {
            chains,
            entered: vec![in alloc; false; types]?,
            stack: Vec::new(alloc),
        })
    }

    /// Enters a type, unless that was done before.
    fn enter(&mut self, t: usize) -> Result<(), AllocError> {
        let Some(entered) = self.entered.get_mut(t) else {
            return Ok(());
        };
        if *entered {
            return Ok(());
        }
        *entered = true;
        self.stack.push(t)?;
        Ok(())
    }

    /// Enters the next type of the last one's chain, or leaves the last one. Says whether there was
    /// one.
    fn step(&mut self, left: &mut Vec<usize>) -> Result<bool, AllocError> {
        let Some(last) = self.stack.last().copied() else {
            return Ok(false);
        };
        let Some(next) = self.chains.take(last) else {
            self.stack.pop();
            left.push(last)?;
            return Ok(true);
        };
        self.enter(next)?;
        Ok(true)
    }

    /// Enters a type and all that are reached from it and weren't entered before. They are added in
    /// the order in which they are left: each after those that only it leads to.
    pub(crate) fn walk(&mut self, t: usize, left: &mut Vec<usize>) -> Result<(), AllocError> {
        self.enter(t)?;
        'steps: for _step in 0..self.chains.steps() {
            if !self.step(left)? {
                break;
            }
        }
        Ok(())
    }
}
