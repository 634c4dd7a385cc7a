//! The sentences on all choices of a `case` (Ada 2012, 5.4): each value is covered, and none twice.
ghost use Rattle.std.specs.Prelude.{◌≡◌, ◌<◌, ◌++◌, ◌&&◌, ◌||◌, [], ◌∷◌, length, not, true, false, IfOk, OnOk, if◌then◌else◌};
ghost use Rattle.resolved_tree.specs.Nodes.{code_at, tree_at};
ghost use Rattle.resolved_tree.specs.Trees.{code_items};
ghost use Rattle.type_definitions.specs.Types.{full, is_nil};
ghost use Rattle.type_definitions.specs.Faults.{noted};
ghost use Rattle.type_definitions.specs.Expressions.{is_demanding, is_unknown, scalar_own};
ghost use Rattle.type_definitions.specs.Statements.{bounds_of, choice_expression, choice_faults, chosen_type, cover_of, coverage, has_gap, has_subtype, is_others};
ghost use Rattle.type_definitions.specs.Declarations.{alternative_choices, choices_of};
ghost use Rattle.expression_types.specs.Here.{here};
ghost use Rattle.expression_rules.specs.Around.{context};
ghost use Rattle.statement_rules.specs.Taken.{Takes, cover_between, is_passed, taken_faults};

use crate::choice::{choice_ends, choice_expression, type_or_integer};
use crate::cover::{bounds_of, doubled, has_gap};
use crate::nothing::is_nothing;
use crate::range::static_value;
use expression_rules::Checker;
use expression_types::Reader;
use resolved_tree::{CodeNode, Node};
use spark_base::Pos;
use std::alloc::{AllocError, Global};
use type_definitions::{Cover, Fault, Own, Reading};
use type_settled::demand;

/// The values from one static expression to another.
fn cover(reader: &Reader<'_>, low: usize, high: usize) -> Cover
    requires low { low < length reader.now.rows.now.0 }
    requires high { high < length reader.now.rows.now.0 }
    ensures { result ≡ cover_between (here reader.now) (tree_at reader.now.rows.now low) (tree_at reader.now.rows.now high) }
{
    Cover {
        at: reader.position(low),
        low: static_value(reader, low),
        high: static_value(reader, high),
    }
}

/// Whether a value of a choice breaks no sentence.
#[tactic(auto, using(crate::proofs::Steps::none_noted))]
fn is_sound(checker: &Checker<'_>, of: u32, e: usize) -> bool
    requires { e < length checker.now.rows.now.0 }
    ensures { result ≡ is_nil (choice_expression (context checker.now) of (tree_at checker.now.rows.now e)) }
{
    is_nothing(choice_expression(checker, None, of, e))
}

/// Whether the ends of a choice break none.
#[tactic(auto, using(crate::proofs::Steps::none_noted))]
fn are_sound(checker: &Checker<'_>, of: u32, low: usize, high: usize) -> bool
    requires low { low < length checker.now.rows.now.0 }
    requires high { high < length checker.now.rows.now.0 }
    ensures { result ≡ is_nil (choice_expression (context checker.now) of (tree_at checker.now.rows.now low)
        ++ choice_expression (context checker.now) of (tree_at checker.now.rows.now high)) }
{
    is_nothing(choice_ends(checker, None, of, low, high))
}

/// What is known of the choices of a `case` so far.
#[derive(Drop)]
struct Choices {
    /// The values of those that break no sentence by themselves.
    covers: Vec<Cover>,
    /// Whether `others` is one of them.
    has_others: bool,
    /// Whether none breaks a sentence by itself.
    are_sound: bool,
}

impl Choices {
    /// No choices.
    fn new(alloc: Global) -> Choices
        ensures covers { result.covers.items ≡ [] }
        ensures others { result.has_others ≡ false }
        ensures sound { result.are_sound ≡ true }
    {
        Choices {
            covers: Vec::new(alloc),
            has_others: false,
            are_sound: true,
        }
    }

    /// Adds the values of a choice, if it is sound.
    fn add_values(&mut self, is_sound: bool, cover: Cover) -> Result<(), AllocError>
        ensures covers { OnOk result (self.new.covers.items ≡ self.old.covers.items ++ (if is_sound then cover ∷ [] else [])) }
        ensures others { OnOk result (self.new.has_others ≡ self.old.has_others) }
        ensures sound { OnOk result (self.new.are_sound ≡ (self.old.are_sound && is_sound)) }
    {
        if is_sound {
            self.covers.push(cover)?;
        } else {
            self.are_sound = false;
        }
        Ok(())
    }

    /// Adds a choice.
    fn add(&mut self, checker: &Checker<'_>, of: u32, choice: usize) -> Result<(), AllocError>
        requires { choice < length checker.now.rows.now.1 }
        ensures covers { OnOk result (self.new.covers.items ≡ self.old.covers.items ++ cover_of (context checker.now) of (code_at checker.now.rows.now choice)) }
        ensures others { OnOk result (self.new.has_others ≡ (self.old.has_others || is_others (code_at checker.now.rows.now choice))) }
        ensures sound { OnOk result (self.new.are_sound ≡ (self.old.are_sound && is_nil (choice_faults (context checker.now) of true (code_at checker.now.rows.now choice)))) }
    {
        match checker.rows.code(choice) {
            CodeNode::Value { value } => {
                let is_sound = is_sound(checker, of, *value);
                let cover = cover(&checker.reader(), *value, *value);
                self.add_values(is_sound, cover)
            }
            CodeNode::Interval { low, high } => {
                let is_sound = are_sound(checker, of, *low, *high);
                let cover = cover(&checker.reader(), *low, *high);
                self.add_values(is_sound, cover)
            }
            CodeNode::OthersChoice { .. } => {
                self.has_others = true;
                Ok(())
            }
            _ => Ok(()),
        }
    }

    /// Adds the choices of a list.
    fn add_list(&mut self, checker: &Checker<'_>, of: u32, list: usize) -> Result<(), AllocError>
        requires { list < length checker.now.rows.now.1 }
        ensures { OnOk result (Takes (context checker.now) of (code_items (code_at checker.now.rows.now list)) self.old self.new) }
    {
        let mut i = list;
        'choices: while let CodeNode::More { first, rest } = checker.rows.code(i) {
            self.add(checker, of, *first)?;
            i = *rest;
        }
        Ok(())
    }

    /// Adds the choices of an alternative.
    fn add_alternative(
        &mut self,
        checker: &Checker<'_>,
        of: u32,
        alternative: usize,
    ) -> Result<(), AllocError>
        requires { alternative < length checker.now.rows.now.1 }
        ensures { OnOk result (Takes (context checker.now) of (alternative_choices (code_at checker.now.rows.now alternative)) self.old self.new) }
    {
        match checker.rows.code(alternative) {
            CodeNode::When { choices, .. } => self.add_list(checker, of, *choices),
            _ => Ok(()),
        }
    }

    /// Adds the choices of a list of alternatives.
    fn add_alternatives(
        &mut self,
        checker: &Checker<'_>,
        of: u32,
        list: usize,
    ) -> Result<(), AllocError>
        requires { list < length checker.now.rows.now.1 }
        ensures { OnOk result (Takes (context checker.now) of (choices_of (code_at checker.now.rows.now list)) self.old self.new) }
    {
        let mut i = list;
        'alternatives: while let CodeNode::More { first, rest } = checker.rows.code(i) {
            self.add_alternative(checker, of, *first)?;
            i = *rest;
        }
        Ok(())
    }
}

/// Whether an expression is a name of an object or a call, so that the values of its subtype are
/// those to cover.
fn has_subtype(reader: &Reader<'_>, e: usize) -> bool
    requires { e < length reader.now.rows.now.0 }
    ensures { result ≡ has_subtype (here reader.now) (tree_at reader.now.rows.now e) }
{
    match reader.rows.node(e) {
        Node::Named { decl, rest, .. } => matches!(
            reader.reading_of(*decl, *rest),
            Reading::Place { .. } | Reading::Call { .. } | Reading::EndOfFile
        ),
        _ => false,
    }
}

/// The type whose values the choices have to cover.
fn chosen_type(reader: &Reader<'_>, e: usize) -> u32
    requires { e < length reader.now.rows.now.0 }
    ensures { result ≡ chosen_type (here reader.now) (tree_at reader.now.rows.now e) }
{
    let of = type_or_integer(reader.own_type(e));
    if has_subtype(reader, e) {
        of
    } else {
        reader.base(of)
    }
}

/// Whether these leave out a value that the choices have to cover.
fn leaves_gap(
    alloc: Global,
    reader: &Reader<'_>,
    e: usize,
    covers: &[Cover],
) -> Result<bool, AllocError>
    requires { e < length reader.now.rows.now.0 }
    ensures { let bounds = bounds_of (full (here reader.now).known.table (chosen_type (here reader.now) (tree_at reader.now.rows.now e)))
        in IfOk result (λ gap. gap ≡ has_gap bounds.0 bounds.1 covers.now) }
{
    let (low, high) = bounds_of(reader.full(chosen_type(reader, e)));
    has_gap(alloc, low, high, covers)
}

/// Whether what an expression is by itself is known to be scalar.
fn is_scalar_own(reader: &Reader<'_>, own: Own) -> bool
    ensures { result ≡ not (is_unknown (here reader.now).known own || is_demanding own || not (scalar_own (here reader.now) own)) }
{
    match own {
        Own::Of { of } => !reader.is_untyped(of) && reader.scalar_own(own),
        _ => false,
    }
}

/// Whether choices may be compared with the values of an expression.
fn is_chosen(checker: &Checker<'_>, e: usize) -> bool
    requires { e < length checker.now.rows.now.0 }
    ensures { result ≡ not (is_passed (context checker.now) (tree_at checker.now.rows.now e)) }
{
    let reader = checker.reader();
    is_scalar_own(&reader, reader.own_type(e))
}

/// With the faults of choices that are all taken.
#[tactic(auto, using(expression_rules::proofs::Noted::noted_append))]
fn taken_faults(
    alloc: Global,
    checker: &Checker<'_>,
    found: Option<Fault>,
    pos: Pos,
    selector: usize,
    choices: &Choices,
) -> Result<Option<Fault>, AllocError>
    requires { selector < length checker.now.rows.now.0 }
    ensures { IfOk result (λ first. first ≡ noted found (taken_faults (context checker.now) pos (tree_at checker.now.rows.now selector) choices.now)) }
{
    let covers = choices.covers.as_slice();
    let found = doubled(alloc, found, covers)?;
    let is_covered = !leaves_gap(alloc, &checker.reader(), selector, covers)?;
    let holds = choices.has_others || !choices.are_sound || is_covered;
    Ok(demand(found, 4, pos, holds))
}

/// With the faults of the choices of a `case` as a whole: none covers a value of one before it, and
/// each value is covered. Out of memory, nothing is known.
#[tactic(auto, using(crate::proofs::Whole::passed_faults))]
pub fn coverage(
    alloc: Global,
    checker: &Checker<'_>,
    found: Option<Fault>,
    pos: Pos,
    selector: usize,
    alternatives: usize,
) -> Result<Option<Fault>, AllocError>
    requires selector { selector < length checker.now.rows.now.0 }
    requires alternatives { alternatives < length checker.now.rows.now.1 }
    ensures { IfOk result (λ first. first ≡ noted found (coverage (context checker.now) pos
        (tree_at checker.now.rows.now selector) (choices_of (code_at checker.now.rows.now alternatives)))) }
{
    if !is_chosen(checker, selector) {
        return Ok(found);
    }
    let of = type_or_integer(checker.reader().own_type(selector));
    let mut choices = Choices::new(alloc);
    choices.add_alternatives(checker, of, alternatives)?;
    Ok(taken_faults(alloc, checker, found, pos, selector, &choices)?)
}
