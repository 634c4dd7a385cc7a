//! The names of statements.
ghost use Rattle.std.specs.Prelude.{◌≡◌, ◌<◌, ◌||◌, ℕ, IsTrue, Option};
ghost use Rattle.flow_paths.specs.Names.{first, source, whole, whole_object, written};
ghost use Rattle.flow_paths.specs.Objects.{is_borrower, is_observer};
ghost use Rattle.deep_names.specs.Found.{earlier_of};
ghost use Rattle.deep_names.specs.Trees.{depths_in};
ghost use Rattle.deep_names.specs.Statements.{assigned_deep, branch_deep, branches_deep, code_deep, declared_deep, first_source_deep, lent_deep, released_deep, returned_deep, source_deep, stored_deep, takes_loan, when_deep, whens_deep};
ghost use Rattle.deep_names.specs.Turns.{code, code_turn_deep, site, tree, IsCodeBelow};

use crate::found::earlier;
use crate::reader::NameReader;
use spark_base::Pos;
use typed_tree::{TypedCodeNode, TypedNode};

/// What the names of code are made of.
#[derive(Clone, Copy)]
pub(crate) enum CodeTurn {
    /// Its own.
    Ends { own: Option<Pos> },
    /// Its own, and those of the statements in it.
    Goes { own: Option<Pos>, stmts: usize },
    /// Those of two parts.
    Both { head: usize, rest: usize },
    /// Those of the branches of an `if`, and of the statements after `else`.
    Branches { branches: usize, otherwise: usize },
    /// Those of the expression of a `case`, and of its alternatives.
    Whens { own: Option<Pos>, whens: usize },
}

impl<'p> NameReader<'p> {
    /// The names of a tree as a value.
    fn value(&self, e: usize) -> Option<Pos>
        ensures { result ≡ (depths_in (site self.now) (tree self.now e)).all }
    {
        self.tree(e).all
    }

    /// A source that isn't read or moved.
    fn source_names(&self, e: usize) -> Option<Pos>
        ensures { result ≡ source_deep (site self.now) (tree self.now e) }
    {
        earlier(self.place(e).all, self.source(e))
    }

    /// Zero or one source.
    #[tactic(auto, unfolding(crate::specs::Trees::depths_in), using(crate::proofs::OtherNodes::first_other, crate::proofs::Sources::no_source))]
    fn first_source(&self, list: usize) -> Option<Pos>
        ensures { result ≡ first_source_deep (site self.now) (tree self.now list) }
    {
        match self.rows.node(list) {
            TypedNode::More { first, rest } => {
                let found = self.place(*first);
                let before = earlier(found.before, self.tree(*rest).before);
                earlier(before, earlier(found.all, self.source(*first)))
            }
            _ => self.tree(list).before,
        }
    }

    /// Whether an object is a borrower or an observer.
    fn holds_loans(&self, x: u32) -> bool
        ensures { result ≡ is_borrower (site self.now) x || is_observer (site self.now) x }
    {
        self.typing.is_borrower(x) || self.typing.is_observer(x)
    }

    /// The declaration of an object.
    fn declared(&self, x: u32, value: usize) -> Option<Pos>
        ensures { result ≡ declared_deep (site self.now) x (tree self.now value) }
    {
        if self.holds_loans(x) {
            return self.first_source(value);
        }
        self.value(value)
    }

    /// A return, of what gives this.
    fn returned(&self, given: Option<u32>, value: usize) -> Option<Pos>
        ensures { result ≡ returned_deep (site self.now) given (tree self.now value) }
    {
        if self.typing.traverses(given) {
            return self.first_source(value);
        }
        self.value(value)
    }

    /// The assignment of a value.
    fn stored(&self, target: usize, e: usize) -> Option<Pos>
        ensures { result ≡ stored_deep (site self.now) (tree self.now target) (tree self.now e) }
    {
        let over = earlier(self.place(target).all, self.written(target));
        earlier(self.value(e), over)
    }

    /// The assignment to a borrower or an observer.
    fn lent(&self, target: usize, e: usize) -> Option<Pos>
        ensures { result ≡ lent_deep (site self.now) (tree self.now target) (tree self.now e) }
    {
        earlier(self.source_names(e), self.tree(target).before)
    }

    /// The object that these steps from an object lead to as a whole.
    #[tactic(auto, using(crate::proofs::OtherNodes::object_other))]
    fn whole_object(&self, object: u32, steps: usize) -> Option<u32>
        ensures { result ≡ whole_object object (tree self.now steps) }
    {
        match self.rows.node(steps) {
            TypedNode::NoMore => Some(object),
            _ => None,
        }
    }

    /// The object that a name names as a whole.
    #[tactic(auto, using(crate::proofs::OtherNodes::whole_other))]
    fn whole(&self, e: usize) -> Option<u32>
        ensures { result ≡ whole (tree self.now e) }
    {
        match self.rows.node(e) {
            TypedNode::Name { object, steps, .. } => self.whole_object(*object, *steps),
            _ => None,
        }
    }

    /// Whether the target of an assignment is a borrower or an observer as a whole.
    fn takes_loan(&self, over: Option<u32>) -> bool
        ensures { result ≡ takes_loan (site self.now) over }
    {
        match over {
            Some(x) => self.holds_loans(x),
            None => false,
        }
    }

    /// An assignment.
    fn assigned(&self, target: usize, e: usize) -> Option<Pos>
        ensures { result ≡ assigned_deep (site self.now) (tree self.now target) (tree self.now e) }
    {
        let found = if self.takes_loan(self.whole(target)) {
            self.lent(target, e)
        } else {
            self.stored(target, e)
        };
        earlier(found, self.spots(target))
    }

    /// What is freed.
    fn released(&self, e: usize) -> Option<Pos>
        ensures { result ≡ released_deep (site self.now) (tree self.now e) }
    {
        earlier(self.source_names(e), self.freed(e))
    }

    /// The bounds of a loop.
    fn bounds(&self, low: usize, high: usize) -> Option<Pos>
        ensures { result ≡ earlier_of (depths_in (site self.now) (tree self.now low)).all
            (depths_in (site self.now) (tree self.now high)).all }
    {
        earlier(self.value(low), self.value(high))
    }

    /// Whether code declares an object by this value, of the same kind as this object: both are
    /// borrowers or observers, or neither is.
    fn declares(&self, c: usize, x: u32, value: usize) -> bool
        ensures { IsTrue result → (r : Option ℕ) → code_deep (site self.now) r (code self.now c)
            ≡ declared_deep (site self.now) x (tree self.now value) }
    {
        match self.rows.code(c) {
            TypedCodeNode::Declare {
                object,
                value: own,
                ..
            } => own == value && self.holds_loans(object) == self.holds_loans(x),
            _ => false,
        }
    }

    /// Whether a list begins with such a declaration. Then this one adds nothing to it.
    fn begins_alike(&self, list: usize, x: u32, value: usize) -> bool
        ensures { IsTrue result → (r : Option ℕ) →
            earlier_of (declared_deep (site self.now) x (tree self.now value)) (code_deep (site self.now) r (code self.now list))
            ≡ code_deep (site self.now) r (code self.now list) }
    {
        match self.rows.code(list) {
            TypedCodeNode::More { first, .. } => self.declares(first, x, value),
            _ => false,
        }
    }

    /// Whether the first of a list is a declaration that shares its value with the next one.
    fn is_shared(&self, first: usize, rest: usize) -> bool
        ensures { IsTrue result → (r : Option ℕ) →
            earlier_of (code_deep (site self.now) r (code self.now first)) (code_deep (site self.now) r (code self.now rest))
            ≡ code_deep (site self.now) r (code self.now rest) }
    {
        match self.rows.code(first) {
            TypedCodeNode::Declare { object, value, .. } => self.begins_alike(rest, object, value),
            _ => false,
        }
    }

    /// What the names of a list are made of. A value that declarations share is looked at with the
    /// last of them.
    fn listed(&self, first: usize, rest: usize) -> CodeTurn
        ensures deep { (r : Option ℕ) → earlier_of (code_deep (site self.now) r (code self.now first)) (code_deep (site self.now) r (code self.now rest))
            ≡ code_turn_deep self.now r result }
        ensures below { (c : ℕ) → first < c → rest < c → IsCodeBelow c result }
    {
        if self.is_shared(first, rest) {
            return CodeTurn::Goes {
                own: None,
                stmts: rest,
            };
        }
        CodeTurn::Both { head: first, rest }
    }

    /// What the names of code are made of, in a subprogram that gives this.
    #[tactic(auto, unfolding(crate::specs::Statements::code_deep))]
    fn code_turn(&self, given: Option<u32>, c: usize) -> CodeTurn
        ensures deep { code_deep (site self.now) given (code self.now c)
            ≡ code_turn_deep self.now given result }
        ensures below { IsCodeBelow c result }
    {
        match self.rows.code(c) {
            TypedCodeNode::Declare { object, value, .. } => CodeTurn::Ends {
                own: self.declared(object, value),
            },
            TypedCodeNode::Assign { target, value, .. } => CodeTurn::Ends {
                own: self.assigned(target, value),
            },
            TypedCodeNode::Call { sub, actuals, .. } => CodeTurn::Ends {
                own: self.call(sub, actuals),
            },
            TypedCodeNode::Output { text, .. } => CodeTurn::Ends {
                own: self.value(text),
            },
            TypedCodeNode::Input { target, .. } => CodeTurn::Ends {
                own: self.source_names(target),
            },
            TypedCodeNode::Release { name, .. } => CodeTurn::Ends {
                own: self.released(name),
            },
            TypedCodeNode::Exit { condition, .. } => CodeTurn::Ends {
                own: self.value(condition),
            },
            TypedCodeNode::Return { value, .. } => CodeTurn::Ends {
                own: self.returned(given, value),
            },
            TypedCodeNode::If {
                branches,
                otherwise,
            } => CodeTurn::Branches {
                branches,
                otherwise,
            },
            TypedCodeNode::Case {
                selector,
                alternatives,
                ..
            } => CodeTurn::Whens {
                own: self.value(selector),
                whens: alternatives,
            },
            TypedCodeNode::Loop { stmts } | TypedCodeNode::Block { stmts, .. } => {
                CodeTurn::Goes { own: None, stmts }
            }
            TypedCodeNode::While {
                condition,
                stmts,
                ..
            } => CodeTurn::Goes {
                own: self.value(condition),
                stmts,
            },
            TypedCodeNode::For {
                low,
                high,
                stmts,
                ..
            } => CodeTurn::Goes {
                own: self.bounds(low, high),
                stmts,
            },
            TypedCodeNode::More { first, rest } => self.listed(first, rest),
            TypedCodeNode::Skip { .. }
            | TypedCodeNode::Branch { .. }
            | TypedCodeNode::Interval { .. }
            | TypedCodeNode::Others
            | TypedCodeNode::When { .. }
            | TypedCodeNode::NoMore => CodeTurn::Ends { own: None },
        }
    }

    /// The names of code.
    #[cycle(statements)]
    #[tactic(auto, using(crate::proofs::Earlier::earlier_none, crate::proofs::Earlier::earlier_group))]
    pub(crate) fn code(&self, given: Option<u32>, c: usize) -> Option<Pos>
        ensures { result ≡ code_deep (site self.now) given (code self.now c) }
    {
        let mut found = None;
        let mut at = c;
        'parts: loop {
            match self.code_turn(given, at) {
                CodeTurn::Ends { own } => return earlier(found, own),
                CodeTurn::Goes { own, stmts } => {
                    found = earlier(found, own);
                    at = stmts;
                }
                CodeTurn::Both { head, rest } => {
                    found = earlier(found, self.code(given, head));
                    at = rest;
                }
                CodeTurn::Branches {
                    branches,
                    otherwise,
                } => {
                    found = earlier(found, self.branches(given, branches));
                    at = otherwise;
                }
                CodeTurn::Whens { own, whens } => {
                    return earlier(found, earlier(own, self.whens(given, whens)));
                }
            }
        }
    }

    /// The names of the branches of an `if`.
    #[cycle(statements)]
    #[tactic(auto, unfolding(crate::specs::Statements::branches_deep), using(crate::proofs::OtherCode::branches_other, crate::proofs::Earlier::earlier_none, crate::proofs::Earlier::earlier_group))]
    fn branches(&self, given: Option<u32>, c: usize) -> Option<Pos>
        ensures { result ≡ branches_deep (site self.now) given (code self.now c) }
    {
        let mut found = None;
        let mut at = c;
        'branches: loop {
            let TypedCodeNode::More { first, rest } = self.rows.code(at) else {
                return found;
            };
            found = earlier(found, self.branch(given, first));
            at = rest;
        }
    }

    /// The names of a branch of an `if`.
    #[cycle(statements)]
    #[tactic(auto, unfolding(crate::specs::Statements::branch_deep), using(crate::proofs::OtherCode::branch_other))]
    fn branch(&self, given: Option<u32>, c: usize) -> Option<Pos>
        ensures { result ≡ branch_deep (site self.now) given (code self.now c) }
    {
        match self.rows.code(c) {
            TypedCodeNode::Branch {
                condition,
                stmts,
                ..
            } => earlier(self.value(condition), self.code(given, stmts)),
            _ => None,
        }
    }

    /// The names of the alternatives of a `case`.
    #[cycle(statements)]
    #[tactic(auto, unfolding(crate::specs::Statements::whens_deep), using(crate::proofs::OtherCode::whens_other, crate::proofs::Earlier::earlier_none, crate::proofs::Earlier::earlier_group))]
    fn whens(&self, given: Option<u32>, c: usize) -> Option<Pos>
        ensures { result ≡ whens_deep (site self.now) given (code self.now c) }
    {
        let mut found = None;
        let mut at = c;
        'whens: loop {
            let TypedCodeNode::More { first, rest } = self.rows.code(at) else {
                return found;
            };
            found = earlier(found, self.when(given, first));
            at = rest;
        }
    }

    /// The names of an alternative of a `case`.
    #[cycle(statements)]
    #[tactic(auto, unfolding(crate::specs::Statements::when_deep), using(crate::proofs::OtherCode::when_other))]
    fn when(&self, given: Option<u32>, c: usize) -> Option<Pos>
        ensures { result ≡ when_deep (site self.now) given (code self.now c) }
    {
        match self.rows.code(c) {
            TypedCodeNode::When { stmts, .. } => self.code(given, stmts),
            _ => None,
        }
    }
}
