//! What may hold of places.

use crate::place_name::PlaceName;
use crate::rule::Loan;

/// A sentence about a place (`docs/RULES.md`, "Facts").
#[derive(Drop)]
pub enum Fact {
    /// The value of the place was moved away.
    Moved(PlaceName),
    /// The object `holder` borrows or observes `name`.
    Lent {
        kind: Loan,
        holder: u32,
        name: PlaceName,
    },
}
