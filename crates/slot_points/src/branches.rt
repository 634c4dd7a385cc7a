//! Points that lead to one of several others.
ghost use Rattle.std.specs.Prelude.{◌≡◌, ◌<◌, map, length, IsTrue};
ghost use Rattle.code_rows.specs.Rows.{code_at};
ghost use Rattle.code_rows.specs.Points.{choice_of, choices_of, is_node, is_range};
ghost use Rattle.run_codes.specs.Points as points;
ghost use Rattle.slot_points.specs.Changing.{Whole, Found};
ghost use Rattle.slot_points.specs.Steps.{led_to, tested, chosen_by, decided_by};

use crate::between::is_between;
use code_rows::{Choice, Exception, Nodes, Range, Rows, Stop};
use slot_heap::Store;
use slot_memory::Memory;
use slot_words::{evaluate, evaluate_condition};

/// Where the word of a condition leads.
fn led(word: i64, holds: u32, fails: u32) -> u32
    ensures { result ≡ led_to word holds fails }
{
    if word == 0 { fails } else { holds }
}

/// Where a condition leads.
#[inline(always)]
pub fn test<R: Store>(
    nodes: &Nodes,
    memory: &Memory<R>,
    condition: u32,
    holds: u32,
    fails: u32,
) -> Result<u32, Stop>
    requires there { condition < length nodes.now }
    requires whole { Whole R.Means memory.now (tested (code_at nodes.now condition) holds fails) }
    ensures { Found R.Means memory.now (tested (code_at nodes.now condition) holds fails) result }
{
    let word = evaluate_condition(nodes, memory, condition)?;
    Ok(led(word, holds, fails))
}

/// Where the first choice leads that has the value.
#[tactic(auto, using(crate::proofs::Choices::picked, crate::proofs::Choices::passed))]
fn chosen(choices: &[Choice], word: i64) -> Option<u32>
    ensures { result ≡ points.chosen word (map choice_of choices.now) }
{
    'choices: for choice in choices {
        if is_between(word, choice.low, choice.high) {
            return Some(choice.next);
        }
    }
    None
}

/// Where the first choice leads that has the value of an expression. Constraint_Error: there is none.
#[tactic(auto, using(crate::proofs::Choices::range_is))]
pub fn choose<R: Store>(
    rows: &Rows,
    memory: &Memory<R>,
    selector: u32,
    choices: Range,
) -> Result<u32, Stop>
    requires there { IsTrue (is_node rows.now selector) }
    requires range { IsTrue (is_range rows.now.choices.items choices) }
    requires whole { Whole R.Means memory.now (chosen_by (code_at rows.now.nodes selector) (choices_of rows.now choices)) }
    ensures { Found R.Means memory.now (chosen_by (code_at rows.now.nodes selector) (choices_of rows.now choices)) result }
{
    let word = evaluate(&rows.nodes, memory, selector)?;
    let first = choices.first as usize;
    match chosen(&rows.choices[first..first + choices.count as usize], word) {
        Some(next) => Ok(next),
        None => Err(Stop::Raises(Exception::ConstraintError)),
    }
}

/// Where the value of the left operand of a short circuit leads.
pub fn decided(word: i64, or_else: bool, next: u32, decided: u32) -> u32
    ensures { result ≡ decided_by word or_else next decided }
{
    if (word != 0) == or_else {
        decided
    } else {
        next
    }
}
