//! Questions about the roots of an object.
ghost use Rattle.std.specs.Prelude.{◌≡◌};
ghost use Rattle.flow_paths.specs.Views.{is_outer, holds_loans};
ghost use Rattle.program_typing.specs.Typings.{typing};
ghost use Rattle.traversal_funcs.specs.Questions.{asks, is_answer};

use program_typing::ProgramTyping;

/// What is asked of a root.
#[derive(Clone, Copy)]
pub(crate) enum Question {
    /// Whether it is a formal or a package object.
    IsOuter,
    /// Whether it is this object.
    Is { object: u32 },
    /// Whether it is another object than this.
    IsOther { object: u32 },
}

/// Whether an object is a formal or a package object.
pub(crate) fn is_outer(known: &ProgramTyping<'_>, x: u32) -> bool
    ensures { result ≡ is_outer (typing known.now) x }
{
    known.is_formal(x) || known.is_package_object(x)
}

/// Whether an object is a borrower or observer.
fn holds_loans(known: &ProgramTyping<'_>, x: u32) -> bool
    ensures { result ≡ holds_loans (typing known.now) x }
{
    known.is_borrower(x) || known.is_observer(x)
}

impl Question {
    /// Whether it asks for this root.
    fn asks(self, known: &ProgramTyping<'_>, root: u32) -> bool
        ensures { result ≡ asks (typing known.now) self root }
    {
        match self {
            Question::IsOuter => is_outer(known, root),
            Question::Is { object } => root == object,
            Question::IsOther { object } => root != object,
        }
    }

    /// Whether an object is its own root, and asked for.
    pub(crate) fn is_answer(self, known: &ProgramTyping<'_>, x: u32) -> bool
        ensures { result ≡ is_answer (typing known.now) self x }
    {
        !holds_loans(known, x) && self.asks(known, x)
    }
}
