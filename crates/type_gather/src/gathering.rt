//! The declarations known so far, and where the next one stands.
ghost use Rattle.expression_types.specs.ComponentNames.{FindAllComponents};

use expression_types::WordIndex;
use std::alloc::Global;
use type_definitions::Known;

/// What is known of the declarations so far, and where the next one stands.
#[derive(Drop)]
pub struct Gathering {
    /// Where memory comes from.
    pub alloc: Global,
    /// What is known.
    pub known: Known,
    /// Of types the index of the names of their components, where they have one.
    pub components: Vec<Option<WordIndex>>,
    /// The package whose declarations these are, in any of its parts.
    pub home: Option<u32>,
    /// The package whose private part or body this is.
    pub within: Option<u32>,
    /// The subprogram whose body this is.
    pub sub: Option<u32>,
    ghost found: { FindAllComponents components.items known.table },
}
