//! Reads the files that the words name.
ghost use Rattle.std.specs.Prelude.{◌≡◌, ◌≢◌, ◌⊎◌, ◌≤◌, ◌<◌, ◌^◌, Ok, Err, IsTrue, IfOk, IfSome, IsSomeAnd, All, length, map, string_bytes};
ghost use Rattle.spark_base.specs.Lists.{Has};
ghost use Rattle.spark_base.specs.Outside.{Rose, Lacks};
ghost use Rattle.spark_base.specs.Words.{operands};
ghost use Rattle.answered_runs.specs.tool_answers.Reading.{sources, Missing};
ghost use Rattle.spark_tool.specs.Reading.{IsWithin, ReadsFile, IsWhole, sources_of};

use crate::stop::Stop;
use spark_base::{FILES, FileStore, SOURCE_BYTES};
use std::alloc::Global;

/// The files of a command.
#[derive(Drop)]
pub(crate) enum Gathered {
    /// The texts of all files, in order.
    All(Vec<Vec<u8>>),
    /// The file with this number has the first byte past the limit of all files together.
    TooLarge(u16),
}

/// How many bytes are asked for at once.
const PIECE: usize = 4096;

/// The bytes of the open file, or nothing where it has more than there is room for. At most one
/// byte past the room is taken.
fn read_open_file<F: FileStore>(
    alloc: Global,
    files: &mut F,
    room: usize,
) -> Result<Option<Vec<u8>>, Stop>
    requires open { IsTrue (F.is_open files.old) }
    requires room { room < 2 ^ 62 }
    ensures bytes { IfOk result (λ found. IfSome (F.left files.old) (λ bytes. IsWithin bytes room found)) }
    ensures within { IfOk result (λ found. IfSome found (λ text. length text.items ≤ room)) }
    ensures fault { result ≡ Err Stop.Read → Rose (F.faults files.old) (F.faults files.new) }
    ensures no_fault { result ≢ Err Stop.Read → F.faults files.new ≡ F.faults files.old }
    ensures nothing_written { result ≢ Err Stop.Write }
    ensures words { F.words files.new ≡ F.words files.old }
    ensures stored { F.stored files.new ≡ F.stored files.old }
{
    let mut text = Vec::new(alloc);
    let mut chunk = [0u8; PIECE];
    'pieces: while text.len() <= room {
        let wanted = PIECE.min(room + 1 - text.len());
        let piece = &mut chunk[..wanted];
        let Ok(count) = files.next(piece) else {
            return Err(Stop::Read);
        };
        if count == 0 {
            return Ok(Some(text));
        }
        text.extend_from_slice(&piece[..count])?;
    }
    Ok(None)
}

/// The bytes of a file, or nothing where it has more than there is room for.
fn read_file<F: FileStore>(
    alloc: Global,
    files: &mut F,
    name: &str,
    room: usize,
) -> Result<Option<Vec<u8>>, Stop>
    requires operand { Has (operands (F.words files.old)) name.now }
    requires room { room < 2 ^ 62 }
    ensures bytes { IfOk result (λ found. IfSome (F.stored files.old) (λ stored. ReadsFile stored name.now room found)) }
    ensures within { IfOk result (λ found. IfSome found (λ text. length text.items ≤ room)) }
    ensures fault { result ≡ Err Stop.Read → Rose (F.faults files.old) (F.faults files.new) ⊎ Lacks (F.stored files.old) name.now }
    ensures no_fault { result ≢ Err Stop.Read → F.faults files.new ≡ F.faults files.old }
    ensures nothing_written { result ≢ Err Stop.Write }
    ensures words { F.words files.new ≡ F.words files.old }
    ensures stored { F.stored files.new ≡ F.stored files.old }
{
    if files.open_file(name).is_err() {
        return Err(Stop::Read);
    }
    read_open_file(alloc, files, room)
}

/// The texts of the named files, read in order up to the first byte past the limit.
pub(crate) fn read_files<F: FileStore>(
    alloc: Global,
    files: &mut F,
    names: &[String],
) -> Result<Gathered, Stop>
    requires operands { All (Has (operands (F.words files.old))) (map string_bytes names.now) }
    requires few { length names.now ≤ FILES }
    ensures found { IfOk result (λ found. IfSome (F.stored files.old)
        (λ stored. sources stored 0 SOURCE_BYTES (map string_bytes names.now) ≡ sources_of found)) }
    ensures whole { IfOk result (IsWhole (length names.now)) }
    ensures fault { result ≡ Err Stop.Read → Rose (F.faults files.old) (F.faults files.new)
        ⊎ IsSomeAnd (F.stored files.old) (λ stored. sources stored 0 SOURCE_BYTES (map string_bytes names.now) ≡ Missing) }
    ensures no_fault { result ≢ Err Stop.Read → F.faults files.new ≡ F.faults files.old }
    ensures nothing_written { result ≢ Err Stop.Write }
{
    let mut texts = Vec::new(alloc);
    let mut room = SOURCE_BYTES;
    let mut file = 0u16;
    'files: for name in names {
        let Some(text) = read_file(alloc, files, name.as_str(), room)? else {
            return Ok(Gathered::TooLarge(file));
        };
        room -= text.len();
        texts.push(text)?;
        file += 1;
    }
    Ok(Gathered::All(texts))
}
