//! Strings that are written.
ghost use Rattle.std.specs.Prelude.{◌≡◌, ◌+◌, ◌<◌, ◌∷◌, [], IfSome, IsTrue, Some, length};
ghost use Rattle.typed_tree.specs.Trees.{Image};
ghost use Rattle.flow_paths.specs.Names.{waiting};
ghost use Rattle.run_codes.specs.Codes.{Bytes};
ghost use Rattle.run_codes.specs.Programs.{append_all, image_piece, pieces, text_pieces};
ghost use Rattle.run_lowering.specs.Sites.{site};
ghost use Rattle.run_lowering.specs.Found.{lowered_in};
ghost use Rattle.code_rows.specs.Points.{is_range, texts_of, text_of, is_text_there, AreSound, RowsGrew};
ghost use Rattle.program_lowering.specs.Arounds.{around, known, tree, texts_in};
ghost use Rattle.code_rows.specs.declared.rows.Rows.{Rows};
ghost use Rattle.type_definitions.specs.Types.{base};

use crate::around::Around;
use crate::ranges::since;
use code_rows::{Range, Rows, Text};
use run_lowering::{Sort, Typed};
use type_table::TypeTable;
use typed_tree::TypedNode;

/// The type that a type is a subtype of.
fn base(table: &TypeTable, t: u32) -> u32
    ensures { result ≡ base table.now t }
{
    match table.infos().get(t as usize) {
        Some(info) => info.base,
        None => 0,
    }
}

/// The image of a value of a type.
fn image_piece(table: &TypeTable, of: u32, word: Typed) -> Option<Text>
    ensures piece { IfSome result (λ x. (rows : Rows) → image_piece table.now of (lowered_in rows.nodes word) ≡ Some (text_of rows x ∷ [])) }
    ensures there { IfSome result (λ x. (rows : Rows) → word.node < length rows.nodes → IsTrue (is_text_there rows x)) }
{
    let value = word.node;
    match word.sort {
        Sort::Whole => Some(Text::Number { value }),
        Sort::Position => Some(Text::Literal {
            value,
            of: base(table, of),
        }),
        Sort::Pointer { .. } => None,
    }
}

/// Adds the characters of a string literal.
#[tactic(auto, using(code_rows::proofs::Kept::rows_on, crate::proofs::Rows::texts_same))]
fn literal(rows: &mut Rows, bytes: &[u8]) -> Option<()>
    requires { AreSound rows.old }
    ensures texts { IfSome result (λ _. append_all (Some (texts_in rows.old)) (Some (Bytes bytes.now ∷ [])) ≡ Some (texts_in rows.new)) }
    ensures grew { IfSome result (λ _. RowsGrew rows.old rows.new) }
    ensures sound { IfSome result (λ _. AreSound rows.new) }
{
    let bytes = rows.push_bytes(bytes)?;
    rows.push_text(Text::Bytes { bytes })?;
    Some(())
}

impl<'p> Around<'p> {
    /// Adds the image of a value of a type, and tells how many values are taken before what follows.
    #[tactic(auto, using(code_rows::proofs::Kept::rows_on), unfolding(run_codes::specs::Programs::pieces, flow_paths::specs::Names::waiting))]
    fn image(&self, rows: &mut Rows, k: usize, of: u32, n: usize) -> Option<usize>
        requires { AreSound rows.old }
        ensures texts { IfSome result (λ j. append_all (Some (texts_in rows.old)) (pieces (site self.now.site) k (Image of (tree self.now n))) ≡ Some (texts_in rows.new)) }
        ensures taken { IfSome result (λ j. j ≡ k + waiting (tree self.now n)) }
        ensures grew { IfSome result (λ j. RowsGrew rows.old rows.new) }
        ensures sound { IfSome result (λ j. AreSound rows.new) }
    {
        let word = self.word(rows, k, n)?;
        rows.push_text(image_piece(self.site.typing.table, of, word)?)?;
        Some(word.taken)
    }

    /// Adds the pieces of a string in order, and tells how many values are taken before what
    /// follows.
    #[cycle(text)]
    #[tactic(auto, using(code_rows::proofs::Kept::rows_none), unfolding(run_codes::specs::Programs::pieces, flow_paths::specs::Names::waiting))]
    fn text(&self, rows: &mut Rows, k: usize, n: usize) -> Option<usize>
        requires { AreSound rows.old }
        ensures texts { IfSome result (λ j. append_all (Some (texts_in rows.old)) (pieces (site self.now.site) k (tree self.now n)) ≡ Some (texts_in rows.new)) }
        ensures taken { IfSome result (λ j. j ≡ k + waiting (tree self.now n)) }
        ensures grew { IfSome result (λ j. RowsGrew rows.old rows.new) }
        ensures sound { IfSome result (λ j. AreSound rows.new) }
    {
        match self.site.rows.node(n) {
            TypedNode::Text { text } => {
                literal(rows, text.as_bytes())?;
                Some(k)
            }
            TypedNode::Image { of, value } => self.image(rows, k, *of, *value),
            TypedNode::Parens { inner } => self.text(rows, k, *inner),
            TypedNode::Binary { left, right, .. } => self.joined(rows, k, *left, *right),
            _ => None,
        }
    }

    /// Adds the pieces of two strings.
    #[cycle(text)]
    #[tactic(auto, using(code_rows::proofs::Kept::rows_on, crate::proofs::Lists::all_on), unfolding(run_codes::specs::Programs::pieces, flow_paths::specs::Names::waiting))]
    fn joined(&self, rows: &mut Rows, k: usize, left: usize, right: usize) -> Option<usize>
        requires { AreSound rows.old }
        ensures texts { IfSome result (λ j. append_all (Some (texts_in rows.old)) (append_all (pieces (site self.now.site) k (tree self.now left)) (pieces (site self.now.site) (k + waiting (tree self.now left)) (tree self.now right))) ≡ Some (texts_in rows.new)) }
        ensures taken { IfSome result (λ j. j ≡ k + (waiting (tree self.now left) + waiting (tree self.now right))) }
        ensures grew { IfSome result (λ j. RowsGrew rows.old rows.new) }
        ensures sound { IfSome result (λ j. AreSound rows.new) }
    {
        let taken = self.text(rows, k, left)?;
        self.text(rows, taken, right)
    }

    /// Adds the pieces of a list of no string or one.
    #[tactic(auto, using(code_rows::proofs::Kept::rows_none))]
    fn listed(&self, rows: &mut Rows, list: usize) -> Option<()>
        requires { AreSound rows.old }
        ensures texts { IfSome result (λ _. append_all (Some (texts_in rows.old)) (text_pieces (site self.now.site) (tree self.now list)) ≡ Some (texts_in rows.new)) }
        ensures grew { IfSome result (λ _. RowsGrew rows.old rows.new) }
        ensures sound { IfSome result (λ _. AreSound rows.new) }
    {
        match self.site.rows.node(list) {
            TypedNode::More { first, .. } => {
                self.text(rows, 0, *first)?;
                Some(())
            }
            TypedNode::NoMore => Some(()),
            _ => None,
        }
    }

    /// The pieces of a list of no string or one.
    #[tactic(auto, using(crate::proofs::Lists::range_there))]
    pub(crate) fn texts(&self, rows: &mut Rows, list: usize) -> Option<Range>
        requires { AreSound rows.old }
        ensures texts { IfSome result (λ r. text_pieces (site self.now.site) (tree self.now list) ≡ Some (texts_of rows.new r)) }
        ensures there { IfSome result (λ r. IsTrue (is_range rows.new.texts.items r)) }
        ensures grew { IfSome result (λ r. RowsGrew rows.old rows.new) }
        ensures sound { IfSome result (λ r. AreSound rows.new) }
    {
        let first = rows.texts.len();
        self.listed(rows, list)?;
        since(first, rows.texts.len())
    }
}
