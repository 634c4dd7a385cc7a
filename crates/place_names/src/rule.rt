//! The rules of ownership by code, and the words that a report names a fact by.
ghost use Rattle.std.specs.Prelude.{◌≡◌};
ghost use Rattle.place_names.specs.Texts.{state_text, rule_text};

/// What a loan lends (`docs/RULES.md`, "Facts").
#[derive(Clone, Copy, Debug, PartialEq, Eq)]
pub enum Loan {
    /// To a borrower, for reading and writing.
    Borrowed,
    /// To an observer, for reading.
    Observed,
}

/// The word of a report: which kind of fact forbids the act. The variants stand in the order of
/// reports.
#[derive(Clone, Copy, Debug, PartialEq, Eq, PartialOrd, Ord)]
pub enum State {
    /// The place was moved.
    Moved,
    /// The place is borrowed.
    Borrowed,
    /// The place is observed.
    Observed,
}

impl State {
    /// The word as a report has it.
    pub fn text(self) -> &'static str
        ensures { result.now ≡ state_text self }
    {
        match self {
            State::Moved => "moved",
            State::Borrowed => "borrowed",
            State::Observed => "observed",
        }
    }
}

/// A rule that a report names, in the order of reports.
#[derive(Clone, Copy, Debug, PartialEq, Eq, PartialOrd, Ord)]
pub enum Rule {
    /// A read of a moved or borrowed place.
    O1,
    /// A comparison with `null` through a moved or borrowed place.
    O2,
    /// A write through a moved or borrowed place, or to a lent one.
    O3,
    /// A move of a moved or lent place.
    O4,
    /// A borrow of a moved or lent place.
    O5,
    /// An observation of a moved or borrowed place.
    O6,
    /// A reborrow by a borrower with a moved or lent part.
    O7,
    /// The end of a borrower with a moved part.
    O8,
    /// A return with a moved formal or package object.
    O9,
    /// An actual that is moved or lent.
    O10,
    /// A call whose callee uses a moved or lent package object.
    O11,
    /// A deallocation of a moved or lent place.
    O14,
    /// An actual that overlaps another actual.
    A1,
    /// An actual that overlaps a package object of the callee.
    A2,
    /// A write to, or a move out of, a constant view.
    V1,
    /// An observer whose source ends before it.
    V2,
    /// A traversal result that isn't rooted in the traversed parameter.
    V3,
    /// A borrower whose new source isn't rooted in it.
    V4,
}

impl Rule {
    /// The code as a report has it.
    pub fn text(self) -> &'static str
        ensures { result.now ≡ rule_text self }
    {
        match self {
            Rule::O1 => "O1",
            Rule::O2 => "O2",
            Rule::O3 => "O3",
            Rule::O4 => "O4",
            Rule::O5 => "O5",
            Rule::O6 => "O6",
            Rule::O7 => "O7",
            Rule::O8 => "O8",
            Rule::O9 => "O9",
            Rule::O10 => "O10",
            Rule::O11 => "O11",
            Rule::O14 => "O14",
            Rule::A1 => "A1",
            Rule::A2 => "A2",
            Rule::V1 => "V1",
            Rule::V2 => "V2",
            Rule::V3 => "V3",
            Rule::V4 => "V4",
        }
    }
}
