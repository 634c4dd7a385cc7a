//! The limits of the tool (`docs/TOOL.md`, "Limits").

/// The files of one command.
pub const FILES: usize = 64;
/// The bytes of all source files together.
pub const SOURCE_BYTES: usize = 4_194_304;
/// The tokens of all source files together, without the ends of files.
pub const TOKENS: u32 = 1_000_000;
/// Constructs that are open at one position.
pub const NESTING: u32 = 64;
/// Operators in one outermost expression.
pub const OPERATORS: u32 = 1_024;
/// The words of a type.
pub const TYPE_WORDS: u32 = 65_536;
/// The access parts of a type.
pub const ACCESS_PARTS: usize = 64;
/// The selectors of an access part of a type, of a name and of a fact's name.
pub const SELECTORS: usize = 16;
/// The points of a subprogram.
pub const POINTS: usize = 16_384;
/// The facts of a subprogram.
pub const FACTS: usize = 512;
/// The bytes of the input of a run.
pub const INPUT_BYTES: usize = 16_777_216;
/// The words of the live cells.
pub const HEAP_WORDS: u64 = 16_777_216;
/// The words of all frames.
pub const FRAME_WORDS: u64 = 4_194_304;
/// The steps of a run.
pub const STEPS: u64 = 4_294_967_296;
