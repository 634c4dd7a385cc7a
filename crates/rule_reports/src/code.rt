//! The refusals by their codes.
ghost use Rattle.std.specs.Prelude.{◌≡◌};
ghost use Rattle.rule_reports.specs.Codes.{code_letters, code_text};

/// A refusal, by the code that its line shows (`docs/TOOL.md`, "Refusals").
#[derive(Clone, Copy, PartialEq, Eq)]
pub enum Code {
    /// The files have more than 4,194,304 bytes in all.
    S1,
    /// A byte begins no token, as `?`, or stands in a string and is no printable character.
    L1,
    /// An identifier has two adjacent underscores or a last one, as `A_` (Ada 2012, 2.3).
    L2,
    /// A number is out of form, as `1__0`, or above 2147483648 (Ada 2012, 2.4).
    L3,
    /// A line ends within a string, as in `"a` (Ada 2012, 2.6).
    L4,
    /// A token follows 1,000,000 others.
    L5,
    /// The tokens through it are no viable prefix, as at the end of an empty file.
    P1,
    /// A construct opens within 64 others, or an expression has more than 1,024 operators.
    P2,
    /// A word stands where no source of the subset has one, and begins a construct of Ada that is
    /// left out, as `raise`.
    P3,
    /// A name has no declaration, as in `X := 1;` without an `X`.
    N1,
    /// A name is declared a second time in one region, as in `X, X : Integer;`.
    N2,
    /// A declaration can't be seen from where it is named, as one of a package without a `with`
    /// clause.
    N3,
    /// A name stands before its declaration.
    N4,
    /// A declaration lacks its body or its full type, or a program lacks its main procedure.
    N5,
    /// The name after `end` isn't that of the unit.
    N6,
    /// A type has more than 65,536 words.
    Y1,
    /// A type has more than 64 access parts, or one with more than 16 selectors.
    Y2,
    /// An array has a low bound above its high bound, as `array (2 .. 1) of Integer`.
    Y3,
    /// An expression hasn't the type that is wanted where it stands, as in `N : Integer := True;`.
    K1,
    /// A value is written to what is no variable, as in `for I in 1 .. 2 loop I := 1; end loop;`.
    K2,
    /// A call, a body or an instance doesn't fit its profile, as a call without an actual.
    K3,
    /// A choice of a case, or a component of an aggregate, is missing or stands twice.
    K4,
    /// An owning expression stands where its value can't be moved to, as `(X)` in parentheses.
    K5,
    /// An anonymous access type, or a traversal call, stands where none may.
    K6,
    /// An expression isn't static where one has to be, as a variable in the bounds of an array
    /// type.
    K7,
    /// The initial value of a package object calls a function or names an object of an owning type.
    K8,
    /// A name has more than 16 selectors.
    M1,
    /// A subprogram has more than 16,384 points.
    G1,
    /// A subprogram has more than 512 facts.
    G2,
}

/// The letters and the text of each code, in the order of the codes.
const ROWS: [(&str, &str); 29] = [
    ("S1", "sources too large"),
    ("L1", "bad byte"),
    ("L2", "bad identifier"),
    ("L3", "bad number"),
    ("L4", "unclosed string"),
    ("L5", "too many tokens"),
    ("P1", "syntax"),
    ("P2", "nesting too deep"),
    ("P3", "construct left out"),
    ("N1", "unknown name"),
    ("N2", "declared twice"),
    ("N3", "not visible"),
    ("N4", "used before its declaration"),
    ("N5", "body missing"),
    ("N6", "closing name differs"),
    ("Y1", "type too large"),
    ("Y2", "too many access parts"),
    ("Y3", "array without elements"),
    ("K1", "wrong type"),
    ("K2", "not a variable"),
    ("K3", "wrong profile"),
    ("K4", "choice missing or doubled"),
    ("K5", "owning expression out of place"),
    ("K6", "anonymous access out of place"),
    ("K7", "not static"),
    ("K8", "package value"),
    ("M1", "name too deep"),
    ("G1", "too many points"),
    ("G2", "too many facts"),
];

impl Code {
    /// The code as its line shows it, in two characters.
    pub fn letters(self) -> &'static str
        ensures { result.now ≡ code_letters self }
    {
        self.row().0
    }

    /// What the code means, in a few words (`docs/TOOL.md`, "Refusals").
    pub fn text(self) -> &'static str
        ensures { result.now ≡ code_text self }
    {
        self.row().1
    }

    /// The row of the table of codes.
    fn row(self) -> &'static (&'static str, &'static str)
        ensures letters { result.now.0.now ≡ code_letters self }
        ensures text { result.now.1.now ≡ code_text self }
    {
        &ROWS[self as usize]
    }
}
