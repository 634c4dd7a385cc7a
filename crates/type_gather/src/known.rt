//! How what is known of the declarations so far is asked and added to.
ghost use Rattle.std.specs.Prelude.{◌≡◌, ◌<◌, List, Option, length, set};
ghost use Rattle.resolved_tree.specs.Nodes.{code_at};
ghost use Rattle.type_definitions.specs.Types.{info};
ghost use Rattle.type_definitions.specs.Entries.{entry_of, marked};
ghost use Rattle.type_definitions.specs.Gathered.{awaited_info, with_entry, with_info, with_type, own_info, indicated, with_indication, is_subprogram};
ghost use Rattle.expression_types.specs.Here.{here};
ghost use Rattle.expression_types.specs.ComponentNames.{FindAllComponents};
ghost use Rattle.expression_types.specs.Occurrences.{Entries};
ghost use Rattle.type_gather.specs.Gathering.{context};

use crate::gathering::Gathering;
use expression_types::{INTEGER, Reader, WordIndex, index_type};
use resolved_tree::{CodeNode, Mark, Rows};
use spark_base::{Listed, Pos};
use std::alloc::Global;
use std::mem;
use type_definitions::{Entry, Info, Shape};

/// A list with another element at an index, where there is one.
fn with_element<T: Drop>(list: Listed<T>, index: usize, element: T) -> Listed<T>
    ensures { result ≡ set list index element }
{
    let mut elements = list.into_vec();
    if index < elements.len() {
        elements[index] = element;
    }
    Listed::from_vec(elements)
}

/// A table with another type at an index, where there is one, whose components are found too.
fn indexed_with(
    alloc: Global,
    table: Listed<Info>,
    indexes: &mut Vec<Option<WordIndex>>,
    t: usize,
    info: Info,
) -> Listed<Info>
    ensures table { result ≡ set table t info }
    ensures found { FindAllComponents indexes.old.items table → FindAllComponents indexes.new.items result }
{
    if t < table.len() {
        index_type(alloc, indexes, t, &info.shape);
    }
    with_element(table, t, info)
}

/// Says that a type waits for its full type, with the shape that it has already.
fn await_full(info: &mut Info, number: u32, seen_in: Option<u32>, completed: Option<Pos>)
    ensures { info.new ≡ record (own_info info.old.shape number) { seen_in = seen_in; completed = completed } }
{
    info.base = number;
    info.parent = None;
    info.seen_in = seen_in;
    info.completed = completed;
    info.bounded = true;
}

/// A table where the type with this number, if it is there, waits for its full type.
fn with_awaited(
    table: Listed<Info>,
    number: u32,
    seen_in: Option<u32>,
    completed: Option<Pos>,
) -> Listed<Info>
    ensures table { result ≡ set table number (record (own_info (info table number).shape number) { seen_in = seen_in; completed = completed }) }
    ensures found { (indexes : List (Option Entries)) → FindAllComponents indexes table → FindAllComponents indexes result }
{
    let mut types = table.into_vec();
    let t = number as usize;
    if t < types.len() {
        await_full(&mut types[t], number, seen_in, completed);
    }
    Listed::from_vec(types)
}

/// What is known of a type that is no subtype.
pub fn own_info(shape: Shape, number: u32) -> Info
    ensures { result ≡ own_info shape number }
{
    Info {
        shape,
        base: number,
        parent: None,
        seen_in: None,
        completed: None,
        bounded: true,
    }
}

impl Gathering {
    /// A reader of what is known here, with no index of formals: nothing here looks for these.
    pub fn reader<'p>(&'p self, rows: &'p Rows) -> Reader<'p>
        ensures here { here result ≡ context self.now }
        ensures rows { result.rows.now ≡ rows.now }
    {
        Reader {
            alloc: self.alloc,
            rows,
            known: &self.known,
            components: self.components.as_slice(),
            formals: &[],
            home: self.home,
            within: self.within,
            sub: self.sub,
            in_loop: false,
            starts: false,
        }
    }

    /// Says what a declaration is.
    pub fn with_entry(&mut self, number: u32, entry: Entry)
        ensures { context self.new ≡ with_entry number entry (context self.old) }
    {
        let entries = mem::replace(&mut self.known.entries, Listed::new(self.alloc));
        self.known.entries = with_element(entries, number as usize, entry);
    }

    /// Says what the type with the number of a declaration is.
    pub fn with_info(&mut self, number: u32, info: Info)
        ensures { context self.new ≡ with_info number info (context self.old) }
    {
        let table = mem::replace(&mut self.known.table, Listed::new(self.alloc));
        self.known.table = indexed_with(
            self.alloc,
            table,
            &mut self.components,
            number as usize,
            info,
        );
    }

    /// Says that a declaration is a type, and which one.
    pub fn with_type(&mut self, number: u32, info: Info)
        ensures { context self.new ≡ with_type number info (context self.old) }
    {
        self.with_info(number, info);
        self.with_entry(number, Entry::Type);
    }

    /// Says that a declaration is a type whose full type is declared later.
    pub fn with_awaited(&mut self, number: u32, seen_in: Option<u32>, completed: Option<Pos>)
        ensures { let awaited = record (awaited_info (context self.old) number) { seen_in = seen_in; completed = completed } in
            context self.new ≡ with_type number awaited (context self.old) }
    {
        let table = mem::replace(&mut self.known.table, Listed::new(self.alloc));
        self.known.table = with_awaited(table, number, seen_in, completed);
        self.with_entry(number, Entry::Type);
    }

    /// Whether a declaration is a subprogram.
    pub fn is_subprogram(&self, number: u32) -> bool
        ensures { result ≡ is_subprogram (entry_of self.now.known number) }
    {
        match self.known.entries.as_slice().get(number as usize) {
            Some(Entry::Subprogram { .. }) => true,
            _ => false,
        }
    }

    /// The package in whose private part and body alone a type is seen.
    pub fn seen_in(&self, number: u32) -> Option<u32>
        ensures { result ≡ (info self.now.known.table number).seen_in }
    {
        match self.known.table.as_slice().get(number as usize) {
            Some(info) => info.seen_in,
            None => None,
        }
    }

    /// Where a type that was declared as an incomplete one is complete.
    pub fn completed(&self, number: u32) -> Option<Pos>
        ensures { result ≡ (info self.now.known.table number).completed }
    {
        match self.known.table.as_slice().get(number as usize) {
            Some(info) => info.completed,
            None => None,
        }
    }

    /// The type that a mark denotes.
    pub fn marked(&self, rows: &Rows, mark: Mark) -> u32
        ensures { result ≡ marked self.now.known mark }
    {
        self.reader(rows).marked(mark)
    }

    /// The type of an object, a formal or a result: that of its mark, or the anonymous one of its
    /// own declaration.
    pub fn indicated(&self, rows: &Rows, number: u32, indication: usize) -> u32
        requires { indication < length rows.now.1 }
        ensures { result ≡ indicated self.now.known number (code_at rows.now indication) }
    {
        match rows.code(indication) {
            CodeNode::Plain { mark } => self.marked(rows, *mark),
            CodeNode::Anonymous { .. } => number,
            _ => INTEGER,
        }
    }

    /// Adds the anonymous access type of a declaration, where it has one.
    pub fn with_indication(&mut self, rows: &Rows, number: u32, indication: usize)
        requires { indication < length rows.now.1 }
        ensures { context self.new ≡ with_indication number (code_at rows.now indication) (context self.old) }
    {
        if let CodeNode::Anonymous { constant, mark, .. } = rows.code(indication) {
            let shape = Shape::Access {
                designated: self.marked(rows, *mark),
                constant: *constant,
                named: false,
            };
            self.with_info(number, own_info(shape, number));
        }
    }
}
