//! Lines with the texts of their names.
ghost use Rattle.std.specs.Prelude.{◌≡◌, refl};
ghost use Rattle.std.specs.Ordering.{eq_by_cmp, as_partial_cmp, ordering_then, nat_cmp};
ghost use Rattle.std.specs.Cmp.Lexicographic.{slice_cmp};
ghost use Rattle.place_names.specs.Reports.{selector_cmp};
ghost use Rattle.std.specs.Cmp.{partial_order_from_total, partial_equiv_from_equiv};
ghost use Rattle.std.proofs.lemmas.Cmp.{eq_by_cmp_equiv};
ghost use Rattle.leak_checks.specs.PrintedLines.{printed_cmp};
ghost use Rattle.leak_checks.specs.Total.{printed_cmp_total};

use flow_paths::LeakLine;
use place_names::PlaceName;
use std::cmp::Ordering;
use std::marker::Model;

/// A line, and the text of its name. It is ordered as lines are, by this text.
#[derive(Drop)]
pub(crate) struct PrintedLine {
    /// The line.
    pub line: LeakLine,
    /// The text of its name.
    pub text: Vec<u8>,
}

impl Model for PrintedLine {
    ghost use Rattle.leak_checks.specs.PrintedLines.{Printed};

    ghost Value = { Printed };

    ghost view = { λ printed. record { line = printed.line; text = printed.text.items } };
}

impl PartialEq for PrintedLine {
    ghost eq = { eq_by_cmp printed_cmp };

    ghost laws = { partial_equiv_from_equiv (eq_by_cmp_equiv printed_cmp_total) };

    fn eq(&self, other: &PrintedLine) -> bool {
        self.cmp(other) == Ordering::Equal
    }
}

impl Eq for PrintedLine {
    ghost laws = { eq_by_cmp_equiv printed_cmp_total };
}

impl PartialOrd for PrintedLine {
    ghost partial_cmp = { as_partial_cmp printed_cmp };

    ghost laws = { partial_order_from_total printed_cmp_total };

    fn partial_cmp(&self, other: &PrintedLine) -> Option<Ordering> {
        Some(self.cmp(other))
    }
}

impl Ord for PrintedLine {
    ghost cmp = { printed_cmp };

    ghost total = { printed_cmp_total };

    ghost matches_partial_cmp = { λ x y. refl };

    ghost matches_eq = { λ x y. refl };

    fn cmp(&self, other: &PrintedLine) -> Ordering {
        let names = name_cmp(&self.line.name, &other.line.name);
        let texts = self.text.as_slice().cmp(other.text.as_slice()).then(names);
        self.line
            .pos
            .cmp(&other.line.pos)
            .then(texts)
            .then(self.line.excused.cmp(&other.line.excused))
    }
}

/// The order of names that are printed alike: the later object first, then by their selectors.
fn name_cmp(a: &PlaceName, b: &PlaceName) -> Ordering
    ensures { result ≡ ordering_then (nat_cmp b.now.root a.now.root) (slice_cmp selector_cmp a.now.sels b.now.sels) }
{
    b.root().cmp(&a.root()).then(a.sels().cmp(b.sels()))
}
