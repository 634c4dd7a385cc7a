//! Reads the texts of all files: cuts them into tokens, and reads these by the grammar.
ghost use Rattle.std.specs.Prelude.{◌≡◌, ◌≤◌, IfOk, IfErr, All, length};
ghost use Rattle.ada_lexer.specs.Tokens.{EndsOnce, kinds_of};
ghost use Rattle.name_resolve.specs.Inputs.{trees_of};
ghost use Rattle.spark_tool.specs.Lexing.{cuts_of, texts_of};
ghost use Rattle.source_trees.specs.Trees.{AreTreesOf, AreRead};
ghost use Rattle.spark_tool.specs.Refusals.{IsFirstRefusal, RefusesTexts};
ghost use Rattle.spark_tool.specs.declared.parsing.SourceRefusal.TheVariants as refused;

use crate::lexing::lex_all;
use ada_lexer::{LexRefusal, Token};
use ada_parser::{ParseRefusal, parse};
use ada_tree::Trees;
use spark_base::{FILES, SOURCE_BYTES};
use std::alloc::Global;

/// Why texts have no trees.
#[derive(Clone, Copy)]
pub(crate) enum SourceRefusal {
    /// The first lexical fault of all files.
    Lexical(LexRefusal),
    /// What the grammar refuses, where there is no lexical fault.
    Syntactic(ParseRefusal),
}

impl From<LexRefusal> for SourceRefusal {
    ghost from_gives = { λ fault made. made ≡ refused.Lexical fault };

    fn from(fault: LexRefusal) -> Self {
        SourceRefusal::Lexical(fault)
    }
}

impl From<ParseRefusal> for SourceRefusal {
    ghost from_gives = { λ refusal made. made ≡ refused.Syntactic refusal };

    fn from(refusal: ParseRefusal) -> Self {
        SourceRefusal::Syntactic(refusal)
    }
}

/// The trees of each file in order, or the refusal of the first file that isn't that of a source.
fn parse_all(alloc: Global, files: &[Vec<Token<'_>>]) -> Result<Vec<Trees>, ParseRefusal>
    requires { All (λ file. EndsOnce (kinds_of file.items)) files.now }
    ensures parsed { IfOk result (λ trees. AreTreesOf (cuts_of files.now) (trees_of trees.items)) }
    ensures refused { IfErr result (IsFirstRefusal (cuts_of files.now)) }
{
    let mut trees = Vec::new(alloc);
    'files: for file in files {
        let found = parse(alloc, file.as_slice())?;
        trees.push(found)?;
    }
    Ok(trees)
}

/// The trees of each file in order, or the first lexical fault of all files, or else the refusal of
/// the first file that isn't that of a source. Nothing of the texts and of their tokens is kept.
pub(crate) fn read_trees(alloc: Global, texts: Vec<Vec<u8>>) -> Result<Vec<Trees>, SourceRefusal>
    requires small { All (λ text. length text.items ≤ SOURCE_BYTES) texts.items }
    requires few { length texts.items ≤ FILES }
    ensures read { IfOk result (λ trees. AreRead (texts_of texts.items) (trees_of trees.items)) }
    ensures refused { IfErr result (RefusesTexts (texts_of texts.items)) }
{
    let files = lex_all(alloc, &texts)?;
    Ok(parse_all(alloc, &files)?)
}
