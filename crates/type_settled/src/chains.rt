//! Of each type the types that are linked to it, as chains that are walked once.

use std::alloc::{AllocError, Global};

/// A link to a type, and the place of the next one in its chain.
#[derive(Clone, Copy)]
struct Link {
    to: usize,
    next: Option<usize>,
}

/// Of each type a chain of types. What was walked is gone.
#[derive(Drop)]
pub struct Chains {
    // Where the rest of each type's chain begins.
    first: Vec<Option<usize>>,
    links: Vec<Link>,
}

impl Chains {
    /// An empty chain for each of so many types.
    pub(crate) fn new(alloc: Global, types: usize) -> Result<Chains, AllocError> {
        Ok(Chains {
            first: vec![in alloc; None; types]?,
            links: Vec::new(alloc),
        })
    }

    /// Puts one type in front of the chain of another. Beyond the table no type has a chain.
    pub(crate) fn add(&mut self, from: usize, to: usize) -> Result<(), AllocError> {
        let place = self.links.len();
        let Some(first) = self.first.get_mut(from) else {
            return Ok(());
        };
        let next = first.replace(place);
        self.links.push(Link { to, next })?;
        Ok(())
    }

    /// Takes the first type off the chain of a type.
    pub(crate) fn take(&mut self, from: usize) -> Option<usize> {
        let first = self.first.get_mut(from)?;
        let link = *self.links.get((*first)?)?;
        *first = link.next;
        Some(link.to)
    }

    /// In how many steps all chains are walked, where each type is entered once.
    pub(crate) fn steps(&self) -> usize {
        self.links.len().saturating_add(self.first.len())
    }
}
