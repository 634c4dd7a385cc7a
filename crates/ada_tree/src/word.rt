//! The text of an identifier.
ghost use Rattle.std.specs.Prelude.{◌≡◌, IfOk, IfSome, map, refl, nat_eq};
ghost use Rattle.std.specs.Char.{to_ascii_lowercase};
ghost use Rattle.std.specs.Hash as fed;
ghost use Rattle.std.specs.Cmp.{partial_equiv_from_equiv};
ghost use Rattle.std.specs.Cmp.Rules.{hashing};
ghost use Rattle.std.specs.Cmp.Lexicographic.{pointwise, nat_list_eq_equiv};
ghost use Rattle.std.proofs.Common.{rules};

use spark_base::Listed;
use std::alloc::{AllocError, Global};
use std::hash::{Hash, Hasher};
use std::marker::Model;

/// How many bytes lie in a word itself.
const SHORT: usize = 23;

/// At most `SHORT` bytes. A type of its own and not an `ArrayVec`, since the proofs of the trees
/// grow with each type argument in what they hold.
#[derive(Drop)]
struct ShortBytes {
    cells: [u8; SHORT],
    len: u8,
}

impl Model for ShortBytes {
    ghost use Rattle.std.specs.Prelude.{◌≤◌, List, ℕ, take};
    ghost use Rattle.ada_tree.specs.declared.word.TheConstants.{SHORT};

    ghost Value = { List ℕ };

    ghost view = { λ short. take short.len short.cells };

    ghost invariant = { λ short. short.len ≤ SHORT };
}

impl ShortBytes {
    /// These bytes, where they are few enough.
    fn new(bytes: &[u8]) -> Option<ShortBytes>
        ensures { IfSome result (λ short. short ≡ bytes.now) }
    {
        if bytes.len() > SHORT {
            return None;
        }
        let mut cells = [0; SHORT];
        cells[..bytes.len()].copy_from_slice(bytes);
        Some(ShortBytes {
            cells,
            len: bytes.len() as u8,
        })
    }

    fn as_slice(&self) -> &[u8]
        ensures { result.now ≡ self.now }
    {
        &self.cells[..self.len as usize]
    }

    fn copied(&self) -> ShortBytes
        ensures { result ≡ self.now }
    {
        ShortBytes {
            cells: self.cells,
            len: self.len,
        }
    }

    fn folded(&self) -> ShortBytes
        ensures { result ≡ map to_ascii_lowercase self.now }
    {
        let mut folded = self.copied();
        folded.cells.make_ascii_lowercase();
        folded
    }
}

/// Where the bytes of a word lie.
#[derive(Drop)]
enum Bytes {
    Short(ShortBytes),
    Long(Vec<u8>),
}

/// The bytes of an identifier (Ada 2012, 2.3), which contracts see as a list. A short word takes no
/// memory.
pub struct Word {
    bytes: Bytes,
}

impl Model for Word {
    ghost use Rattle.std.specs.Prelude.{List, ℕ};
    ghost use Rattle.ada_tree.specs.WordBytes.{bytes_view};

    ghost Value = { List ℕ };

    ghost view = { λ word. bytes_view word.bytes };
}

impl Word {
    /// The word with these bytes, as they are written.
    pub fn new(alloc: Global, bytes: &[u8]) -> Result<Word, AllocError>
        ensures { IfOk result (λ word. word ≡ bytes.now) }
    {
        let bytes = match ShortBytes::new(bytes) {
            Some(short) => Bytes::Short(short),
            None => Bytes::Long(Vec::from_slice(alloc, bytes)?),
        };
        Ok(Word { bytes })
    }

    /// The word with these bytes, which takes no more memory.
    pub fn from_listed(bytes: Listed<u8>) -> Word
        ensures { result ≡ bytes }
    {
        let bytes = match ShortBytes::new(bytes.as_slice()) {
            Some(short) => Bytes::Short(short),
            None => Bytes::Long(bytes.into_vec()),
        };
        Word { bytes }
    }

    /// The word in lower case, by which identifiers are compared (Ada 2012, 2.3(5)).
    pub fn folded(&self, alloc: Global) -> Result<Word, AllocError>
        ensures { IfOk result (λ word. word ≡ map to_ascii_lowercase self.now) }
    {
        let bytes = match &self.bytes {
            Bytes::Short(short) => Bytes::Short(short.folded()),
            Bytes::Long(long) => Bytes::Long(lower_case(alloc, long.as_slice())?),
        };
        Ok(Word { bytes })
    }

    /// The bytes, borrowed.
    pub fn as_bytes(&self) -> &[u8]
        ensures { result.now ≡ self.now }
    {
        match &self.bytes {
            Bytes::Short(short) => short.as_slice(),
            Bytes::Long(long) => long.as_slice(),
        }
    }
}

fn lower_case(alloc: Global, bytes: &[u8]) -> Result<Vec<u8>, AllocError>
    ensures { IfOk result (λ lower. lower.items ≡ map to_ascii_lowercase bytes.now) }
{
    bytes.iter().map(|b| b.to_ascii_lowercase()).collect(alloc)
}

// By hand, so that who owns a word needn't know how it is dropped.
impl Drop for Word {
    fn drop(self) {
        let Self { bytes: _ } = self;
    }
}

impl Clone for Word {
    ghost is_clone = { λ word copy. copy ≡ word };

    fn clone(&self) -> Result<Self, AllocError> {
        let bytes = match &self.bytes {
            Bytes::Short(short) => Bytes::Short(short.copied()),
            Bytes::Long(long) => Bytes::Long(long.clone()?),
        };
        Ok(Word { bytes })
    }
}

impl PartialEq for Word {
    ghost eq = { pointwise nat_eq };

    ghost laws = { partial_equiv_from_equiv nat_list_eq_equiv };

    fn eq(&self, other: &Self) -> bool {
        self.as_bytes() == other.as_bytes()
    }
}

impl Eq for Word {
    ghost laws = { nat_list_eq_equiv };
}

impl Hash for Word {
    ghost hash_input = { fed.slice fed.u8 };

    ghost respects_eq = { Prim.search (hashing, rules) };

    fn hash<H: Hasher>(&self, state: &mut H) {
        self.as_bytes().hash(state);
    }
}
