//! Whether words are within the bounds of a type.
ghost use Rattle.std.specs.Prelude.{◌≡◌};
ghost use Rattle.run_codes.specs.Points as points;
ghost use Rattle.type_bounds.specs.Bounds.{one_between};

use type_definitions::View;
use type_table::TypeTable;

/// Whether the word, where it is one alone, lies between two others.
fn is_between(words: &[i64], low: i64, high: i64) -> bool
    ensures { result ≡ one_between low high words.now }
{
    let [word] = words else {
        return true;
    };
    low <= *word && *word <= high
}

/// Whether words are within the bounds of a type with this view.
fn within_bounds(view: View, words: &[i64]) -> bool
    ensures { result ≡ points.within_bounds view words.now }
{
    match view {
        View::Whole { low, high } => is_between(words, low as i64, high as i64),
        View::Listed { low, high } => is_between(words, low as i64, high as i64),
        View::Hidden | View::Fields => true,
        View::Access {
            designated: _,
            constant: _,
            named: _,
        } => true,
        View::Elements {
            low: _,
            high: _,
            element: _,
        } => true,
    }
}

/// Whether words are within the bounds of a type.
pub fn fits(table: &TypeTable, of: u32, words: &[i64]) -> bool
    ensures { result ≡ points.fits table.now of words.now }
{
    within_bounds(table.view(of), words)
}
