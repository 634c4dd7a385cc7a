//! From words to commands.
ghost use Rattle.std.specs.Prelude.{◌≡◌, ◌≤◌, [], ◌∷◌, length, None, Some, map, string_bytes, IfSome, IfOk, IsTrue};
ghost use Rattle.std.specs.List.{list_all, list_any};
ghost use Rattle.std.specs.Option.{option_map};
ghost use Rattle.command_words.specs.Words as spec;
ghost use Rattle.command_words.specs.Words.{are_file_names, asked, budget_of, count_of, plain_files, run_of, steps_of, Fits, IsReadAs};
ghost use Rattle.spark_base.specs.Words.{operands};

use crate::command::{Command, WordFault};
use crate::number::number;
use crate::operand::{operands, options};
use spark_base::FILES;
use std::alloc::Global;

/// How many steps a run may take at most.
const MOST_STEPS: u64 = 4_294_967_296;

/// Whether a name isn't empty.
fn is_named(name: &String) -> bool
    ensures { result ≡ spec.is_named (string_bytes name.now) }
{
    !name.as_bytes().is_empty()
}

/// Whether no name is empty.
fn all_are_named(names: &[String]) -> bool
    ensures { result ≡ list_all (λ name. spec.is_named (string_bytes name)) names.now }
{
    names.iter().all(|name| is_named(name))
}

/// Whether words are from 1 to 64 file names.
fn are_file_names(names: &[String]) -> bool
    ensures are { result ≡ are_file_names (map string_bytes names.now) }
    ensures few { IsTrue result → length (map string_bytes names.now) ≤ FILES }
{
    !names.is_empty() && names.len() <= FILES && all_are_named(names)
}

/// The budget that an option gives.
fn steps(word: &String) -> Option<u64>
    ensures steps { result ≡ steps_of (string_bytes word.now) }
    ensures within { IfSome result (λ steps. steps ≤ spec.most_steps) }
{
    let digits = word.as_str().strip_prefix("--steps=")?;
    number(digits, 10, 0, MOST_STEPS)
}

/// Whether an option asks for the counts of a run.
fn is_stats(word: &String) -> bool
    ensures { result ≡ spec.is_stats (string_bytes word.now) }
{
    word.as_str() == "--stats"
}

/// Whether some option does.
fn ask_for_counts(options: &[String]) -> bool
    ensures { result ≡ list_any (λ word. spec.is_stats (string_bytes word)) options.now }
{
    options.iter().any(|option| is_stats(option))
}

/// The same, of the options as texts.
fn stats(options: &[String]) -> bool
    ensures { result ≡ list_any spec.is_stats (map string_bytes options.now) }
{
    ask_for_counts(options)
}

/// The budget that one option leaves.
fn budget_of_one(word: &String) -> Option<u64>
    ensures budget { result ≡ budget_of (string_bytes word.now ∷ []) }
    ensures within { IfSome result (λ steps. steps ≤ spec.most_steps) }
{
    if is_stats(word) {
        Some(MOST_STEPS)
    } else {
        steps(word)
    }
}

/// The budget that two options give, of which one asks for the counts.
fn budget_of_two(word: &String, other: &String) -> Option<u64>
    ensures budget { result ≡ budget_of (string_bytes word.now ∷ string_bytes other.now ∷ []) }
    ensures within { IfSome result (λ steps. steps ≤ spec.most_steps) }
{
    if is_stats(word) {
        steps(other)
    } else if is_stats(other) {
        steps(word)
    } else {
        None
    }
}

/// The budget that the options of a run give.
#[tactic(auto, using(crate::proofs::Texts::no_budget))]
fn budget(options: &[String]) -> Option<u64>
    ensures budget { result ≡ budget_of (map string_bytes options.now) }
    ensures within { IfSome result (λ steps. steps ≤ spec.most_steps) }
{
    if options.len() > 2 {
        return None;
    }
    match options.len() {
        0 => Some(MOST_STEPS),
        1 => budget_of_one(&options[0]),
        _ => budget_of_two(&options[0], &options[1]),
    }
}

/// Files and no option.
fn plain_files(options: &[String], operands: Vec<String>) -> Option<Vec<String>>
    ensures files { option_map (λ names. map string_bytes names.items) result
        ≡ plain_files (map string_bytes options.now) (map string_bytes operands.items) }
    ensures are { IfSome result (λ names. map string_bytes names.items ≡ map string_bytes operands.items) }
    ensures few { IfSome result (λ names. length (map string_bytes names.items) ≤ FILES) }
{
    if options.is_empty() && are_file_names(&operands) {
        Some(operands)
    } else {
        None
    }
}

/// Files, a budget, and whether counts are asked for.
fn run(options: &[String], operands: Vec<String>) -> Option<Command>
    ensures command { option_map spec.command_in result ≡ run_of (budget_of (map string_bytes options.now)) (list_any spec.is_stats (map string_bytes options.now)) (map string_bytes operands.items) }
    ensures fits { IfSome result (λ command. Fits (map string_bytes operands.items) (spec.command_in command)) }
{
    let steps = budget(options)?;
    if !are_file_names(&operands) {
        return None;
    }
    Some(Command::Run {
        files: operands,
        steps,
        stats: stats(options),
    })
}

/// One number from 1 to 10,000, and no option.
fn count(options: &[String], operands: &[String]) -> Option<u32>
    ensures { result ≡ count_of (map string_bytes options.now) (map string_bytes operands.now) }
{
    if !options.is_empty() || operands.len() != 1 {
        return None;
    }
    let n = number(operands[0].as_str(), 5, 1, 10_000)?;
    Some(n as u32)
}

/// What a command's word asks for, with options and operands.
fn asked(word: &str, options: &[String], operands: Vec<String>) -> Option<Command>
    ensures command { option_map spec.command_in result ≡ asked word.now (map string_bytes options.now) (map string_bytes operands.items) }
    ensures fits { IfSome result (λ command. Fits (map string_bytes operands.items) (spec.command_in command)) }
{
    match word {
        "check" => Some(Command::Check(plain_files(options, operands)?)),
        "run" => run(options, operands),
        "leaks" => Some(Command::Leaks(plain_files(options, operands)?)),
        "make" => Some(Command::Make(count(options, &operands)?)),
        "selftest" => Some(Command::Selftest(count(options, &operands)?)),
        _ => None,
    }
}

/// What the words after the program's name ask for. The files of a command are operands of the
/// words, so that a store opens them.
pub fn read_words(alloc: Global, words: &[String]) -> Result<Command, WordFault>
    ensures read { IsReadAs (map string_bytes words.now) result }
    ensures fits { IfOk result (λ command. Fits (operands (map string_bytes words.now)) (spec.command_in command)) }
{
    match words.split_first() {
        Some((word, rest)) => {
            let options = options(alloc, rest)?;
            let operands = operands(alloc, rest)?;
            match asked(word.as_str(), &options, operands) {
                Some(command) => Ok(command),
                None => Err(WordFault::Usage),
            }
        }
        None => Err(WordFault::Usage),
    }
}
