//! Where code stands that other code holds.
ghost use Rattle.std.specs.Prelude.{◌≡◌, ◌<◌, length};
ghost use Rattle.resolved_tree.specs.Nodes.{code_at};
ghost use Rattle.type_definitions.specs.Gathered.{in_hidden, in_subprogram, in_visible};
ghost use Rattle.expression_types.specs.Here.{here};
ghost use Rattle.typed_tree.specs.Programs.{placed};
ghost use Rattle.typed_expressions.specs.Sites.{site};

use crate::declared::front_number;
use expression_types::Reader;
use typed_expressions::Writer;

/// A reader of the same trees, in this package, this private part or body, and this subprogram.
fn reader_in<'p>(
    reader: &Reader<'p>,
    home: Option<u32>,
    within: Option<u32>,
    sub: Option<u32>,
) -> Reader<'p>
    ensures here { here result ≡ record {
      known = reader.now.known.now;
      home = home;
      within = within;
      sub = sub;
      in_loop = reader.now.in_loop;
      starts = reader.now.starts;
    } }
    ensures rows { result.rows.now ≡ reader.now.rows.now }
{
    Reader {
        alloc: reader.alloc,
        rows: reader.rows,
        known: reader.known,
        components: reader.components,
        formals: reader.formals,
        home,
        within,
        sub,
        in_loop: reader.in_loop,
        starts: reader.starts,
    }
}

/// Within the visible part of a package.
pub fn in_visible<'p>(writer: &Writer<'p>, number: u32) -> Writer<'p>
    ensures site { site result ≡ placed (in_visible number) (site writer.now) }
    ensures rows { result.reader.rows.now ≡ writer.now.reader.rows.now }
{
    Writer {
        reader: reader_in(
            &writer.reader,
            Some(number),
            writer.reader.within,
            writer.reader.sub,
        ),
        ..*writer
    }
}

/// Within the private part or the body of a package.
pub fn in_hidden<'p>(writer: &Writer<'p>, number: u32) -> Writer<'p>
    ensures site { site result ≡ placed (in_hidden number) (site writer.now) }
    ensures rows { result.reader.rows.now ≡ writer.now.reader.rows.now }
{
    Writer {
        reader: reader_in(
            &writer.reader,
            Some(number),
            Some(number),
            writer.reader.sub,
        ),
        ..*writer
    }
}

/// Within the body with this front.
pub fn in_subprogram<'p>(writer: &Writer<'p>, front: usize) -> Writer<'p>
    requires { front < length writer.now.reader.rows.now.1 }
    ensures site { site result ≡ placed (in_subprogram (code_at writer.now.reader.rows.now front)) (site writer.now) }
    ensures rows { result.reader.rows.now ≡ writer.now.reader.rows.now }
{
    Writer {
        reader: reader_in(
            &writer.reader,
            writer.reader.home,
            writer.reader.within,
            Some(front_number(writer.reader.rows, front)),
        ),
        ..*writer
    }
}
