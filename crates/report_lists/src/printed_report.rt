//! Reports with the texts of their names.
ghost use Rattle.std.specs.Prelude.{◌≡◌, refl};
ghost use Rattle.std.specs.Ordering.{eq_by_cmp, as_partial_cmp, ordering_then, nat_cmp};
ghost use Rattle.std.specs.Cmp.Lexicographic.{slice_cmp};
ghost use Rattle.place_names.specs.Reports.{selector_cmp};
ghost use Rattle.std.specs.Cmp.{partial_order_from_total, partial_equiv_from_equiv};
ghost use Rattle.std.proofs.lemmas.Cmp.{eq_by_cmp_equiv};
ghost use Rattle.report_lists.specs.PrintedReports.{printed_cmp};
ghost use Rattle.report_lists.specs.Total.{printed_cmp_total};

use place_names::{PlaceName, Rule, State};
use spark_base::Pos;
use std::cmp::Ordering;
use std::marker::Model;

/// A report, and the text of its name. It is ordered as reports are, by this text.
#[derive(Drop)]
pub struct PrintedReport {
    /// Where it stands.
    pub pos: Pos,
    /// The rule.
    pub rule: Rule,
    /// The name.
    pub name: PlaceName,
    /// The word, if any.
    pub state: Option<State>,
    /// The text of the name.
    pub text: Vec<u8>,
}

impl Model for PrintedReport {
    ghost use Rattle.report_lists.specs.PrintedReports.{Printed};

    ghost Value = { Printed };

    ghost view = { λ printed. record {
      report = record { pos = printed.pos; rule = printed.rule; name = printed.name; word = printed.state };
      text = printed.text.items;
    } };
}

impl PartialEq for PrintedReport {
    ghost eq = { eq_by_cmp printed_cmp };

    ghost laws = { partial_equiv_from_equiv (eq_by_cmp_equiv printed_cmp_total) };

    fn eq(&self, other: &PrintedReport) -> bool {
        self.cmp(other) == Ordering::Equal
    }
}

impl Eq for PrintedReport {
    ghost laws = { eq_by_cmp_equiv printed_cmp_total };
}

impl PartialOrd for PrintedReport {
    ghost partial_cmp = { as_partial_cmp printed_cmp };

    ghost laws = { partial_order_from_total printed_cmp_total };

    fn partial_cmp(&self, other: &PrintedReport) -> Option<Ordering> {
        Some(self.cmp(other))
    }
}

impl Ord for PrintedReport {
    ghost cmp = { printed_cmp };

    ghost total = { printed_cmp_total };

    ghost matches_partial_cmp = { λ x y. refl };

    ghost matches_eq = { λ x y. refl };

    fn cmp(&self, other: &PrintedReport) -> Ordering {
        let places = name_cmp(&self.name, &other.name);
        let words = self.state.cmp(&other.state).then(places);
        let texts = self.text.as_slice().cmp(other.text.as_slice()).then(words);
        self.pos
            .cmp(&other.pos)
            .then(self.rule.cmp(&other.rule).then(texts))
    }
}

/// The order of names that are printed alike: the later object first, then by their selectors.
fn name_cmp(a: &PlaceName, b: &PlaceName) -> Ordering
    ensures { result ≡ ordering_then (nat_cmp b.now.root a.now.root) (slice_cmp selector_cmp a.now.sels b.now.sels) }
{
    b.root().cmp(&a.root()).then(a.sels().cmp(b.sels()))
}
