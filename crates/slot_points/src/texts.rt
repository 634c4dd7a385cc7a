//! Strings that are written.
ghost use Rattle.std.specs.Prelude.{◌≡◌, ◌<◌, ◌++◌, map, length, [], IfOk, IsTrue, OnErr};
ghost use Rattle.std.specs.List.{list_all};
ghost use Rattle.std.specs.Char.{to_ascii_uppercase};
ghost use Rattle.run_values.specs.Images as images;
ghost use Rattle.type_definitions.specs.Types.{shape_of};
ghost use Rattle.machine.specs.Evaluate as machine;
ghost use Rattle.code_rows.specs.Rows.{code_at};
ghost use Rattle.code_rows.specs.Points.{text_of, texts_of, is_text_there, is_range, some, AreSound};
ghost use Rattle.run_codes.specs.Flat.{Given};
ghost use Rattle.slot_points.specs.Changing.{Whole, Adds, Added};
ghost use Rattle.slot_points.specs.Steps.{word_written, literal_written, line_end, piece_of, text_in, written};

use ada_tree::Word;
use code_rows::{Nodes, Range, Rows, Stop, Text};
use slot_heap::Store;
use slot_memory::Memory;
use slot_words::word;
use std::alloc::{AllocError, Global};
use type_definitions::Shape;
use type_table::TypeTable;

/// The image of a word: its decimal literal, after a blank or a minus sign.
fn image(alloc: Global, word: i64) -> Result<Vec<u8>, AllocError>
    ensures { IfOk result (λ text. text.items ≡ images.image word) }
{
    let text = if word < 0 {
        word.to_string(alloc)?
    } else {
        format!(in alloc; " {word}")?
    };
    Ok(text.into_bytes())
}

/// The literals of a type.
#[tactic(auto, using(crate::proofs::Strings::literals_past, crate::proofs::Strings::literals_settled))]
fn literals(table: &TypeTable, of: u32) -> &[Word]
    ensures { result.now ≡ machine.literals (shape_of table.now of) }
{
    if table.infos().len() <= of as usize {
        return &[];
    }
    match table.shape(of) {
        Shape::Listed { literals, .. } => literals.as_slice(),
        _ => &[],
    }
}

/// Appends bytes in upper case.
fn push_upper(bytes: &[u8], out: &mut Vec<u8>) -> Result<(), Stop>
    ensures { Adds (Given (map to_ascii_uppercase bytes.now)) result out.old.items out.new.items }
{
    'bytes: for byte in bytes {
        out.push(byte.to_ascii_uppercase())?;
    }
    Ok(())
}

/// Appends the literal of a type at a position, in upper case.
fn push_literal(table: &TypeTable, of: u32, position: i64, out: &mut Vec<u8>) -> Result<(), Stop>
    ensures { Adds (Given (literal_written table.now of position)) result out.old.items out.new.items }
{
    match literals(table, of).get(position.unsigned_abs() as usize) {
        Some(name) => push_upper(name.as_bytes(), out),
        None => Ok(()),
    }
}

/// Appends the image of a number.
fn push_image(alloc: Global, number: i64, out: &mut Vec<u8>) -> Result<(), Stop>
    ensures { Adds (Given (images.image number)) result out.old.items out.new.items }
{
    out.extend_from_slice(&image(alloc, number)?)?;
    Ok(())
}

/// Appends bytes of the program.
#[tactic(auto, using(crate::proofs::Choices::range_is))]
fn push_bytes(rows: &Rows, bytes: Range, out: &mut Vec<u8>) -> Result<(), Stop>
    requires { IsTrue (is_range rows.now.bytes.items bytes) }
    ensures { Adds (Given (some rows.now.bytes.items bytes)) result out.old.items out.new.items }
{
    let first = bytes.first as usize;
    out.extend_from_slice(&rows.bytes[first..first + bytes.count as usize])?;
    Ok(())
}

/// Appends the number of an expression.
fn push_number<R: Store>(
    alloc: Global,
    nodes: &Nodes,
    memory: &Memory<R>,
    value: u32,
    out: &mut Vec<u8>,
) -> Result<(), Stop>
    requires there { value < length nodes.now }
    requires whole { Whole R.Means memory.now (word_written (code_at nodes.now value) images.image) }
    ensures { Added R.Means memory.now (word_written (code_at nodes.now value) images.image) result out.old.items out.new.items }
{
    let word = word(nodes, memory, value)?;
    push_image(alloc, word, out)
}

/// Appends the literal that an expression gives.
fn push_position<R: Store>(
    nodes: &Nodes,
    table: &TypeTable,
    memory: &Memory<R>,
    value: u32,
    of: u32,
    out: &mut Vec<u8>,
) -> Result<(), Stop>
    requires there { value < length nodes.now }
    requires whole { Whole R.Means memory.now (word_written (code_at nodes.now value) (literal_written table.now of)) }
    ensures { Added R.Means memory.now (word_written (code_at nodes.now value) (literal_written table.now of)) result out.old.items out.new.items }
{
    let word = word(nodes, memory, value)?;
    push_literal(table, of, word, out)
}

/// Appends a piece of a string.
#[tactic(auto, using(crate::proofs::Strings::bytes_added))]
fn push_text<R: Store>(
    alloc: Global,
    rows: &Rows,
    table: &TypeTable,
    memory: &Memory<R>,
    text: Text,
    out: &mut Vec<u8>,
) -> Result<(), Stop>
    requires there { IsTrue (is_text_there rows.now text) }
    requires whole { Whole R.Means memory.now (piece_of table.now (text_of rows.now text)) }
    ensures { Added R.Means memory.now (piece_of table.now (text_of rows.now text)) result out.old.items out.new.items }
{
    match text {
        Text::Bytes { bytes } => push_bytes(rows, bytes, out),
        Text::Number { value } => push_number(alloc, &rows.nodes, memory, value, out),
        Text::Literal { value, of } => push_position(&rows.nodes, table, memory, value, of, out),
    }
}

/// Appends pieces of a string.
fn push_texts<R: Store>(
    alloc: Global,
    rows: &Rows,
    table: &TypeTable,
    memory: &Memory<R>,
    texts: &[Text],
    out: &mut Vec<u8>,
) -> Result<(), Stop>
    requires there { IsTrue (list_all (is_text_there rows.now) texts.now) }
    requires whole { Whole R.Means memory.now (text_in table.now (map (text_of rows.now) texts.now)) }
    ensures { Added R.Means memory.now (text_in table.now (map (text_of rows.now) texts.now)) result out.old.items out.new.items }
{
    'texts: for text in texts {
        push_text(alloc, rows, table, memory, *text, out)?;
    }
    Ok(())
}

/// Appends the end of a line, where there is to be one.
fn push_end(line: bool, out: &mut Vec<u8>) -> Result<(), Stop>
    ensures { Adds (Given (line_end line)) result out.old.items out.new.items }
{
    if line {
        out.push(b'\n')?;
    }
    Ok(())
}

/// Writes pieces of a string, and maybe the end of a line. What stops writes nothing.
pub fn output<R: Store>(
    alloc: Global,
    rows: &Rows,
    table: &TypeTable,
    memory: &Memory<R>,
    texts: Range,
    line: bool,
    out: &mut Vec<u8>,
) -> Result<(), Stop>
    requires sound { AreSound rows.now }
    requires range { IsTrue (is_range rows.now.texts.items texts) }
    requires whole { Whole R.Means memory.now (text_in table.now (texts_of rows.now texts)) }
    ensures written { Added R.Means memory.now (written table.now (texts_of rows.now texts) line) result out.old.items out.new.items }
    ensures unchanged { OnErr result (out.new.items ≡ out.old.items) }
{
    let first = texts.first as usize;
    let texts = &rows.texts[first..first + texts.count as usize];
    let mut bytes = Vec::new(alloc);
    push_texts(alloc, rows, table, memory, texts, &mut bytes)?;
    push_end(line, &mut bytes)?;
    out.extend_from_slice(&bytes)?;
    Ok(())
}
