//! A type table with what its types are laid out as.
ghost use Rattle.std.specs.Prelude.{◌≡◌, true, slice_get, IfOk, IfSome, IsSome};
ghost use Rattle.machine.specs.Words.{access_offsets};
ghost use Rattle.run_codes.specs.Flat as flat;
ghost use Rattle.run_codes.specs.Flat.{kinds as kinds_of};
ghost use Rattle.type_words.specs.Pointers as pointers;
ghost use Rattle.type_layouts.specs.Layouts.{IsLaid};

use run_values::Kind;
use std::alloc::{AllocError, Global};
use std::marker::Model;
use type_table::TypeTable;
use type_words::{is_pointer, push_access_offsets, push_kinds};

/// Of types with more words nothing is kept.
const MOST_WORDS: u32 = 64;

/// What is kept of a type.
pub(crate) struct Layout {
    // whether it is defined as a named access type
    pointer: bool,
    // whether the kinds of its words are kept, and at which of them its access parts stand
    kept: bool,
    kinds: Vec<Kind>,
    offsets: Vec<u32>,
}

impl Drop for Layout {
    fn drop(self) {
        let Self {
            pointer: _,
            kept: _,
            kinds: _,
            offsets: _,
        } = self;
    }
}

/// A type table, and what is kept of its types.
pub struct Layouts<'t> {
    table: &'t TypeTable,
    rows: Vec<Layout>,
}

impl<'t> Model for Layouts<'t> {
    ghost use Rattle.type_definitions.specs.Types.{Table};
    ghost use Rattle.type_layouts.specs.Layouts.{AreLaid};

    ghost Value = { Table };

    ghost view = { λ layouts. layouts.table.now };

    ghost invariant = { λ layouts. AreLaid layouts.table.now 0 layouts.rows.items };
}

impl Drop for Layouts<'_> {
    fn drop(self) {
        let Self { table: _, rows: _ } = self;
    }
}

/// Whether a word of some kinds is an access value.
fn is_access(kinds: &[Kind], offset: u32) -> bool
    ensures { result ≡ flat.is_pointer (slice_get kinds.now offset) }
{
    match kinds.get(offset as usize) {
        Some(Kind::Access) => true,
        _ => false,
    }
}

/// Whether access values stand at some offsets among words of some kinds.
fn are_pointers(kinds: &[Kind], offsets: &[u32]) -> bool
    ensures { result ≡ flat.are_pointers kinds.now offsets.now }
{
    'offsets: for offset in offsets {
        if !is_access(kinds, *offset) {
            return false;
        }
    }
    true
}

/// What is kept of a type. Where an offset isn't that of an access value, its words aren't kept.
fn laid(alloc: Global, table: &TypeTable, t: u32) -> Result<Layout, AllocError>
    ensures { IfOk result (λ layout. IsLaid table.now t layout) }
{
    let pointer = is_pointer(table, t);
    let mut kinds = Vec::new(alloc);
    let mut offsets = Vec::new(alloc);
    if table.words(t) > MOST_WORDS {
        return Ok(Layout {
            pointer,
            kept: false,
            kinds,
            offsets,
        });
    }
    push_kinds(table, t, &mut kinds)?;
    push_access_offsets(table, t, &mut offsets)?;
    Ok(Layout {
        pointer,
        kept: are_pointers(&kinds, &offsets),
        kinds,
        offsets,
    })
}

impl<'t> Layouts<'t> {
    /// The table, with what is kept of its types.
    pub fn new(alloc: Global, table: &'t TypeTable) -> Result<Layouts<'t>, AllocError>
        ensures { IfOk result (λ layouts. layouts ≡ table.now) }
    {
        let mut rows = Vec::new(alloc);
        'types: for i in 0..table.infos().len() {
            let Ok(t) = u32::try_from(i) else {
                return Err(AllocError);
            };
            rows.push(laid(alloc, table, t)?)?;
        }
        Ok(Layouts { table, rows })
    }

    /// The table.
    #[inline(always)]
    pub fn table(&self) -> &TypeTable
        ensures { result.now ≡ self.now }
    {
        self.table
    }

    /// Whether a type is defined as a named access type. Its only word is its access part.
    #[inline(always)]
    pub fn is_pointer(&self, t: u32) -> bool
        ensures { result ≡ pointers.is_pointer self.now t }
    {
        match self.rows.get(t as usize) {
            Some(row) => row.pointer,
            None => is_pointer(self.table, t),
        }
    }

    /// The kinds of the words of a type, if they are kept.
    #[inline(always)]
    pub fn kinds(&self, t: u32) -> Option<&[Kind]>
        ensures { IfSome result (λ kinds. kinds.now ≡ kinds_of self.now t) }
    {
        match self.rows.get(t as usize) {
            Some(row) => {
                if row.kept {
                    Some(row.kinds.as_slice())
                } else {
                    None
                }
            }
            None => None,
        }
    }

    /// At which words of a type its access parts stand, if that is kept: access values stand there.
    #[inline(always)]
    pub fn offsets(&self, t: u32) -> Option<&[u32]>
        ensures offsets { IfSome result (λ offsets. offsets.now ≡ access_offsets self.now t) }
        ensures pointers { IsSome result → flat.are_pointers (kinds_of self.now t) (access_offsets self.now t) ≡ true }
    {
        match self.rows.get(t as usize) {
            Some(row) => {
                if row.kept {
                    Some(row.offsets.as_slice())
                } else {
                    None
                }
            }
            None => None,
        }
    }
}
