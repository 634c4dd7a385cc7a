//! What ranges and choices do with names.
#![tactic(auto, using(std::proofs::lemmas::Grind::common_steps), unfolding(crate::specs::ExpressionOutline::range_events, crate::specs::ExpressionOutline::choice_events, crate::specs::ExpressionOutline::next_choice_events))]

ghost use Rattle.std.specs.Prelude.{◌≡◌, ◌∷◌, [], ◌++◌};
ghost use Rattle.std.specs.List.{flat_map};
ghost use Rattle.name_events.specs.Collected.{Adds};
ghost use Rattle.name_events.specs.ExpressionOutline.{choice_events, next_choice_events, range_events};

use crate::event::Clause;
use crate::event_list::EventList;
use crate::expression::{expr, name};
use ada_tree::{Choice, NextChoice, Range};

/// range
pub fn range(events: &mut EventList, tree: &Range)
    ensures { Adds events.old events.new (range_events tree.now) }
{
    match tree {
        Range::Bounds { low, high, .. } => {
            expr(events, low.get());
            expr(events, high.get());
        }
        Range::Marked { mark, .. } => {
            events.mention(Clause::Elsewhere, mark);
        }
        Range::Constrained {
            mark,
            low,
            high,
            ..
        } => {
            events.mention(Clause::Elsewhere, mark);
            expr(events, low.get());
            expr(events, high.get());
        }
        Range::RangeOf { name: prefix, .. } => {
            name(events, prefix.get());
        }
    }
}

/// choice
pub fn choice(events: &mut EventList, tree: &Choice)
    ensures { Adds events.old events.new (choice_events tree.now) }
{
    match tree {
        Choice::Value { value, .. } => {
            expr(events, value.get());
        }
        Choice::Interval { low, high, .. } => {
            expr(events, low.get());
            expr(events, high.get());
        }
        Choice::Others { .. } => {}
    }
}

/// {`|` choice}
pub fn next_choices(events: &mut EventList, trees: &[NextChoice])
    ensures { Adds events.old events.new (flat_map next_choice_events trees.now) }
{
    'turns: for tree in trees {
        let NextChoice::Bar { choice: part, .. } = tree;
        choice(events, part);
    }
}
