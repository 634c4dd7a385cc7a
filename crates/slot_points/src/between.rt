//! Bounds of words.
ghost use Rattle.std.specs.Prelude.{◌≡◌};
ghost use Rattle.run_codes.specs.Flat as flat;

/// Whether a word is within bounds.
pub(crate) fn is_between(word: i64, low: i32, high: i32) -> bool
    ensures { result ≡ flat.is_between low high word }
{
    low as i64 <= word && word <= high as i64
}
