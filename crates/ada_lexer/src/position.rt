//! Lines and columns.

ghost use Rattle.std.specs.Prelude.{◌≡◌, ◌<◌, ◌≤◌, ◌+◌, ◌^◌, length};
ghost use Rattle.ada_lexer.specs.Positions as spec;

use spark_base::Pos;

/// The position of the first byte of a file.
pub fn first_position(file: u16) -> Pos
    ensures { result ≡ spec.first_position file }
{
    Pos {
        file,
        line: 1,
        column: 1,
    }
}

/// The position after bytes that begin at `pos`.
#[tactic(auto, unfolding(crate::specs::Positions::behind))]
pub fn behind(mut pos: Pos, bytes: &[u8]) -> Pos
    requires line { pos.line + length bytes.now < 2 ^ 32 }
    requires column { pos.column + length bytes.now < 2 ^ 32 }
    ensures value { result ≡ spec.behind pos bytes.now }
    ensures line { result.line ≤ pos.line + length bytes.now }
    ensures column { result.column ≤ pos.column + length bytes.now }
{
    'bytes: for b in bytes {
        if *b == b'\n' {
            pos.line += 1;
            pos.column = 1;
        } else {
            pos.column += 1;
        }
    }
    pos
}
