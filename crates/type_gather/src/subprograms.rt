//! Subprograms and their formals (Ada 2012, 6.1).
ghost use Rattle.std.specs.Prelude.{◌≡◌, ◌<◌, ◌++◌, length, IfOk, OnOk};
ghost use Rattle.resolved_tree.specs.Nodes.{code_at};
ghost use Rattle.type_definitions.specs.Gathered.{anonymous_result, declared_number, declared_text, each, formal_group, formal_groups, formal_infos, front_number, indicated, indicates_type, is_anonymous_indication, plain_object, profile_from, result_indicated, with_body_front, with_formal, with_formal_group, with_formals, with_front, with_profile, with_result};
ghost use Rattle.type_gather.specs.Gathering.{context};

use crate::declared::{declared_number, declared_text};
use crate::gathering::Gathering;
use place_names::Mode;
use resolved_tree::{CodeNode, Rows};
use spark_base::Listed;
use std::alloc::AllocError;
use type_definitions::{Entry, FormalInfo, Kind, ObjectInfo, Profile};

/// What an object is that is no static constant, and that is no object of a package.
pub fn plain_object(of: u32, kind: Kind) -> ObjectInfo
    ensures { result ≡ plain_object of kind }
{
    ObjectInfo {
        of,
        kind,
        in_package: false,
        is_static: false,
        value: None,
    }
}

/// The number of the declaration that a front makes or completes.
pub fn front_number(rows: &Rows, front: usize) -> u32
    requires { front < length rows.now.1 }
    ensures { result ≡ front_number (code_at rows.now front) }
{
    match rows.code(front) {
        CodeNode::Front { name, .. } => declared_number(rows, *name),
        _ => 0,
    }
}

/// Whether something is of an anonymous access type.
fn is_anonymous_indication(rows: &Rows, indication: usize) -> bool
    requires { indication < length rows.now.1 }
    ensures { result ≡ is_anonymous_indication (code_at rows.now indication) }
{
    matches!(rows.code(indication), CodeNode::Anonymous { .. })
}

/// Whether a result is of an anonymous access type, so that the function is a traversal function.
fn anonymous_result(rows: &Rows, returned: usize) -> bool
    requires { returned < length rows.now.1 }
    ensures { result ≡ anonymous_result (code_at rows.now returned) }
{
    match rows.code(returned) {
        CodeNode::More { first, .. } => is_anonymous_indication(rows, *first),
        _ => false,
    }
}

impl Gathering {
    /// Whether what a mark denotes is a type.
    fn indicates_type(&self, rows: &Rows, indication: usize) -> bool
        requires { indication < length rows.now.1 }
        ensures { result ≡ indicates_type self.now.known (code_at rows.now indication) }
    {
        match rows.code(indication) {
            CodeNode::Plain { mark } => self.reader(rows).denotes_type(mark.decl),
            CodeNode::Anonymous { mark, .. } => self.reader(rows).denotes_type(mark.decl),
            _ => true,
        }
    }

    /// A formal of a profile.
    fn formal_info(
        &self,
        rows: &Rows,
        traversed: bool,
        mode: Mode,
        of: usize,
        name: usize,
    ) -> Result<FormalInfo, AllocError>
        requires of { of < length rows.now.1 }
        requires name { name < length rows.now.1 }
        ensures { IfOk result (λ formal. formal ≡ record {
          name = declared_text (code_at rows.now name);
          mode = mode;
          of = indicated self.now.known (declared_number (code_at rows.now name)) (code_at rows.now of);
          typed = indicates_type self.now.known (code_at rows.now of);
          traversed = traversed;
        }) }
    {
        let name_text = declared_text(self.alloc, rows, name)?;
        let number = declared_number(rows, name);
        Ok(FormalInfo {
            name: name_text,
            mode,
            of: self.indicated(rows, number, of),
            typed: self.indicates_type(rows, of),
            traversed,
        })
    }

    /// Adds the formals of a list of identifiers, of which the first may be traversed.
    fn formal_group(
        &self,
        rows: &Rows,
        first: bool,
        mode: Mode,
        of: usize,
        names: usize,
        found: &mut Listed<FormalInfo>,
    ) -> Result<(), AllocError>
        requires of { of < length rows.now.1 }
        requires names { names < length rows.now.1 }
        ensures { OnOk result (found.new ≡ found.old ++ formal_group self.now.known first mode (code_at rows.now of) (code_at rows.now names)) }
    {
        let mut traversed = first;
        let mut i = names;
        'names: while let CodeNode::More { first: name, rest } = rows.code(i) {
            found.push(self.formal_info(rows, traversed, mode, of, *name)?)?;
            traversed = false;
            i = *rest;
        }
        Ok(())
    }

    /// Adds the formals of a declaration of formals.
    fn formal_groups(
        &self,
        rows: &Rows,
        first: bool,
        group: usize,
        found: &mut Listed<FormalInfo>,
    ) -> Result<(), AllocError>
        requires { group < length rows.now.1 }
        ensures { OnOk result (found.new ≡ found.old ++ formal_groups self.now.known first (code_at rows.now group)) }
    {
        match rows.code(group) {
            CodeNode::Formals { names, mode, of } => {
                self.formal_group(rows, first, *mode, *of, *names, found)
            }
            _ => Ok(()),
        }
    }

    /// The formals of a subprogram, in order. The first one of a traversal function is traversed.
    fn formal_infos(
        &self,
        rows: &Rows,
        first: bool,
        formals: usize,
    ) -> Result<Listed<FormalInfo>, AllocError>
        requires { formals < length rows.now.1 }
        ensures { IfOk result (λ found. found ≡ formal_infos self.now.known first (code_at rows.now formals)) }
    {
        let mut found = Listed::new(self.alloc);
        let mut traversed = first;
        let mut i = formals;
        'groups: while let CodeNode::More { first: group, rest } = rows.code(i) {
            self.formal_groups(rows, traversed, *group, &mut found)?;
            traversed = false;
            i = *rest;
        }
        Ok(found)
    }

    /// The type of a result, where there is one.
    fn result_indicated(&self, rows: &Rows, number: u32, returned: usize) -> Option<u32>
        requires { returned < length rows.now.1 }
        ensures { result ≡ result_indicated self.now.known number (code_at rows.now returned) }
    {
        match rows.code(returned) {
            CodeNode::More { first, .. } => Some(self.indicated(rows, number, *first)),
            _ => None,
        }
    }

    /// The profile of a subprogram.
    fn profile_from(
        &self,
        rows: &Rows,
        number: u32,
        formals: usize,
        returned: usize,
    ) -> Result<Profile, AllocError>
        requires formals { formals < length rows.now.1 }
        requires returned { returned < length rows.now.1 }
        ensures { IfOk result (λ made. made ≡ profile_from self.now.known number (code_at rows.now formals) (code_at rows.now returned)) }
    {
        let traverses = anonymous_result(rows, returned);
        let formals = self.formal_infos(rows, traverses, formals)?;
        Ok(Profile {
            formals,
            result: self.result_indicated(rows, number, returned),
        })
    }

    /// A formal as an object.
    fn with_formal(&mut self, rows: &Rows, of: usize, name: usize)
        requires of { of < length rows.now.1 }
        requires name { name < length rows.now.1 }
        ensures { context self.new ≡ with_formal (code_at rows.now of) (code_at rows.now name) (context self.old) }
    {
        let number = declared_number(rows, name);
        let object = plain_object(self.indicated(rows, number, of), Kind::Formal);
        self.with_indication(rows, number, of);
        self.with_entry(number, Entry::Object { object });
    }

    /// The formals of a list of identifiers.
    fn with_formal_names(&mut self, rows: &Rows, of: usize, names: usize)
        requires of { of < length rows.now.1 }
        requires names { names < length rows.now.1 }
        ensures { context self.new ≡ each (with_formal (code_at rows.now of)) (code_at rows.now names) (context self.old) }
    {
        let mut i = names;
        'names: while let CodeNode::More { first, rest } = rows.code(i) {
            self.with_formal(rows, of, *first);
            i = *rest;
        }
    }

    /// The formals of a declaration of formals.
    fn with_formal_group(&mut self, rows: &Rows, group: usize)
        requires { group < length rows.now.1 }
        ensures { context self.new ≡ with_formal_group (code_at rows.now group) (context self.old) }
    {
        if let CodeNode::Formals { names, of, .. } = rows.code(group) {
            self.with_formal_names(rows, *of, *names);
        }
    }

    /// The formals of a list of declarations of formals.
    fn with_formal_list(&mut self, rows: &Rows, formals: usize)
        requires { formals < length rows.now.1 }
        ensures { context self.new ≡ each with_formal_group (code_at rows.now formals) (context self.old) }
    {
        let mut i = formals;
        'groups: while let CodeNode::More { first, rest } = rows.code(i) {
            self.with_formal_group(rows, *first);
            i = *rest;
        }
    }

    /// The formals of a body whose declaration stands apart.
    fn with_formals(&mut self, rows: &Rows, front: usize)
        requires { front < length rows.now.1 }
        ensures { context self.new ≡ with_formals (code_at rows.now front) (context self.old) }
    {
        if let CodeNode::Front { formals, .. } = rows.code(front) {
            self.with_formal_list(rows, *formals);
        }
    }

    /// The anonymous access type of a result, where it has one.
    fn with_result(&mut self, rows: &Rows, number: u32, returned: usize)
        requires { returned < length rows.now.1 }
        ensures { context self.new ≡ with_result number (code_at rows.now returned) (context self.old) }
    {
        if let CodeNode::More { first, .. } = rows.code(returned) {
            self.with_indication(rows, number, *first);
        }
    }

    /// A subprogram and its formals.
    pub fn with_front(&mut self, rows: &Rows, front: usize) -> Result<(), AllocError>
        requires { front < length rows.now.1 }
        ensures { OnOk result (context self.new ≡ with_front (code_at rows.now front) (context self.old)) }
    {
        let CodeNode::Front {
            name,
            formals,
            result: returned,
        } = rows.code(front)
        else {
            return Ok(());
        };
        let number = declared_number(rows, *name);
        self.with_result(rows, number, *returned);
        self.with_formal_list(rows, *formals);
        let profile = self.profile_from(rows, number, *formals, *returned)?;
        self.with_entry(number, Entry::Subprogram { profile });
        Ok(())
    }

    /// The front of a body. One whose declaration stands apart has formals of its own.
    pub fn with_body_front(&mut self, rows: &Rows, front: usize) -> Result<(), AllocError>
        requires { front < length rows.now.1 }
        ensures { OnOk result (context self.new ≡ with_body_front (code_at rows.now front) (context self.old)) }
    {
        if self.is_subprogram(front_number(rows, front)) {
            self.with_formals(rows, front);
            Ok(())
        } else {
            self.with_front(rows, front)
        }
    }
}
