//! What a command writes and answers.
ghost use Rattle.std.specs.Prelude.{◌≡◌, IfOk, [], map, string_bytes};
ghost use Rattle.ada_lexer.specs.Positions.{first_position};
ghost use Rattle.answered_runs.specs.tool_answers.Product as spec;
ghost use Rattle.spark_tool.specs.Answers.{answer_of};

use prog_maker::make_program;
use rule_reports::{Code, accepted_line, refusal_line, usage_line};
use spark_base::Pos;
use std::alloc::{AllocError, Global};

/// One of the two outputs.
#[derive(Clone, Copy, PartialEq, Eq)]
pub(crate) enum Stream {
    /// What standard output is for.
    Out,
    /// What standard error is for.
    Err,
}

/// The bytes that a command writes, all to one output, and the status.
#[derive(Drop)]
pub(crate) struct Answer {
    /// Where the bytes go.
    pub(crate) stream: Stream,
    /// The bytes.
    pub(crate) text: Vec<u8>,
    /// The status of the program.
    pub(crate) status: u8,
}

/// The words give no command.
pub(crate) fn usage_answer(alloc: Global) -> Result<Answer, AllocError>
    ensures { IfOk result (λ answer. answer_of answer ≡ spec.misused) }
{
    Ok(Answer {
        stream: Stream::Err,
        text: Vec::from_slice(alloc, usage_line().as_bytes())?,
        status: 6,
    })
}

/// The lines of leak checks.
pub(crate) fn listed_answer(lines: Vec<u8>) -> Answer
    ensures { answer_of result ≡ spec.listed lines.items }
{
    Answer {
        stream: Stream::Out,
        text: lines,
        status: 0,
    }
}

/// The program that is made for a number.
pub(crate) fn made_answer(alloc: Global, n: u32) -> Result<Answer, AllocError>
    ensures { IfOk result (λ answer. answer_of answer ≡ spec.made n) }
{
    Ok(Answer {
        stream: Stream::Out,
        text: make_program(alloc, n)?,
        status: 0,
    })
}

/// The line of a self test.
pub(crate) fn tested_answer(line: Vec<u8>) -> Answer
    ensures { answer_of result ≡ spec.tested line.items }
{
    Answer {
        stream: Stream::Out,
        text: line,
        status: 0,
    }
}

/// One refusal line.
pub(crate) fn refusal_answer(
    alloc: Global,
    names: &[String],
    pos: Pos,
    code: Code,
) -> Result<Answer, AllocError>
    ensures { IfOk result (λ answer. answer_of answer ≡ spec.refused (map string_bytes names.now) pos code) }
{
    Ok(Answer {
        stream: Stream::Err,
        text: refusal_line(alloc, names, pos, code)?,
        status: 2,
    })
}

/// A refusal at the first position of a file.
pub(crate) fn file_refusal_answer(
    alloc: Global,
    names: &[String],
    file: u16,
    code: Code,
) -> Result<Answer, AllocError>
    ensures { IfOk result (λ answer. answer_of answer ≡ spec.refused (map string_bytes names.now) (first_position file) code) }
{
    let pos = Pos {
        file,
        line: 1,
        column: 1,
    };
    refusal_answer(alloc, names, pos, code)
}

/// No report.
pub(crate) fn accepted_answer(alloc: Global) -> Result<Answer, AllocError>
    ensures { IfOk result (λ answer. answer_of answer ≡ spec.accepted) }
{
    Ok(Answer {
        stream: Stream::Out,
        text: Vec::from_slice(alloc, accepted_line().as_bytes())?,
        status: 0,
    })
}

/// The lines of reports.
pub(crate) fn rejected_answer(lines: Vec<u8>) -> Answer
    ensures { answer_of result ≡ spec.rejected lines.items }
{
    Answer {
        stream: Stream::Err,
        text: lines,
        status: 1,
    }
}
