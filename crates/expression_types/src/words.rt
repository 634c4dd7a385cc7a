//! Identifiers, compared in any case of letters.
ghost use Rattle.std.specs.Prelude.{◌≡◌};
ghost use Rattle.type_definitions.specs.Entries.{same_word};

/// Whether two identifiers are the same in any case of letters (Ada 2012, 2.3(5)).
#[tactic(auto, using(crate::proofs::SameWord::same_if))]
pub fn same_word(a: &[u8], b: &[u8]) -> bool
    ensures { result ≡ same_word a.now b.now }
{
    a.eq_ignore_ascii_case(b)
}
