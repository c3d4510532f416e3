//! The table of the fields that are known by name: the kind of each one's values, and which of them
//! a kind of document requires.

ghost use Rattle.std.specs.Prelude.{◌≡◌, ◌<◌, ◌≤◌, ◌==◌, ℕ, List, [], true, map, length, get_or, slice_index, is_some, nat_le, nat_lt, if◌then◌else◌, IfSome, IsTrue};
ghost use Rattle.std.specs.Int.{trailing_zeros, w64};
ghost use Rattle.deb_base.specs.Kinds.{in_source, kind_at, kind_of, known_fields, known_row, required, row_count};
ghost use Rattle.deb_base.specs.KnownFields.{begins_with_known, begins_with_row, front_number, is_likely_table, row_for, row_in, row_of, IsAtFront};
ghost use Rattle.deb_base.specs.Names.{canonical_name};

use crate::doc::Doc;
use crate::kind::{Kind, Relationship};
use crate::names::same_name;
use std::simd::prelude::*;

const DEPENDENCY: Kind = Kind::Relation(Relationship::Depends);

const CONFLICT: Kind = Kind::Relation(Relationship::Conflicts);

const PROVISION: Kind = Kind::Relation(Relationship::Provides);

/// A field that is known by name.
#[derive(Clone, Copy)]
struct Row {
    /// The name as it is usually spelled, with its colon, filled up with hyphens.
    filled: [u8; LANES],
    /// The canonical spelling of the name, which is as long.
    canonical: &'static [u8],
    kind: Kind,
}

/// How many bytes are compared in one step.
const LANES: usize = 32;

/// Makes the table: each row is a name as it is usually spelled, with its colon and filled up with
/// hyphens, its canonical spelling, and the kind of its values.
macro_rules! field_rows {
    ($($filled:literal $canonical:literal $kind:expr;)*) => {
        [$(Row { filled: *$filled, canonical: $canonical, kind: $kind }),*]
    };
}

/// The fields that are known by name, in ascending order of the canonical spellings (Debian Policy
/// 5.6 and 7).
static FIELDS: [Row; KNOWN_FIELDS] = field_rows! {
    b"Architecture:-------------------" b"Architecture" Kind::Architecture;
    b"Binary:-------------------------" b"Binary" Kind::Folded;
    b"Breaks:-------------------------" b"Breaks" CONFLICT;
    b"Bugs:---------------------------" b"Bugs" Kind::Text;
    b"Build-Conflicts:----------------" b"Build-Conflicts" CONFLICT;
    b"Build-Conflicts-Arch:-----------" b"Build-Conflicts-Arch" CONFLICT;
    b"Build-Conflicts-Indep:----------" b"Build-Conflicts-Indep" CONFLICT;
    b"Build-Depends:------------------" b"Build-Depends" DEPENDENCY;
    b"Build-Depends-Arch:-------------" b"Build-Depends-Arch" DEPENDENCY;
    b"Build-Depends-Indep:------------" b"Build-Depends-Indep" DEPENDENCY;
    b"Build-Ids:----------------------" b"Build-Ids" Kind::Text;
    b"Built-Using:--------------------" b"Built-Using" CONFLICT;
    b"Checksums-Sha1:-----------------" b"Checksums-Sha1" Kind::Text;
    b"Checksums-Sha256:---------------" b"Checksums-Sha256" Kind::Text;
    b"Conflicts:----------------------" b"Conflicts" CONFLICT;
    b"Depends:------------------------" b"Depends" DEPENDENCY;
    b"Description:--------------------" b"Description" Kind::Text;
    b"Description-md5:----------------" b"Description-Md5" Kind::Text;
    b"Dgit:---------------------------" b"Dgit" Kind::Text;
    b"Directory:----------------------" b"Directory" Kind::Text;
    b"Enhances:-----------------------" b"Enhances" DEPENDENCY;
    b"Essential:----------------------" b"Essential" Kind::Flag;
    b"Filename:-----------------------" b"Filename" Kind::Line;
    b"Files:--------------------------" b"Files" Kind::Text;
    b"Format:-------------------------" b"Format" Kind::Line;
    b"Homepage:-----------------------" b"Homepage" Kind::Line;
    b"Installed-Size:-----------------" b"Installed-Size" Kind::Number;
    b"Maintainer:---------------------" b"Maintainer" Kind::Line;
    b"MD5sum:-------------------------" b"Md5sum" Kind::Text;
    b"Multi-Arch:---------------------" b"Multi-Arch" Kind::MultiArch;
    b"Origin:-------------------------" b"Origin" Kind::Text;
    b"Package:------------------------" b"Package" Kind::Name;
    b"Package-List:-------------------" b"Package-List" Kind::Text;
    b"Pre-Depends:--------------------" b"Pre-Depends" DEPENDENCY;
    b"Priority:-----------------------" b"Priority" Kind::Line;
    b"Provides:-----------------------" b"Provides" PROVISION;
    b"Python-Version:-----------------" b"Python-Version" Kind::Text;
    b"Recommends:---------------------" b"Recommends" DEPENDENCY;
    b"Replaces:-----------------------" b"Replaces" CONFLICT;
    b"Ruby-Versions:------------------" b"Ruby-Versions" Kind::Text;
    b"Section:------------------------" b"Section" Kind::Line;
    b"SHA1:---------------------------" b"Sha1" Kind::Text;
    b"SHA256:-------------------------" b"Sha256" Kind::Text;
    b"Size:---------------------------" b"Size" Kind::Number;
    b"Source:-------------------------" b"Source" Kind::Source;
    b"Standards-Version:--------------" b"Standards-Version" Kind::Line;
    b"Status:-------------------------" b"Status" Kind::Text;
    b"Suggests:-----------------------" b"Suggests" DEPENDENCY;
    b"Tag:----------------------------" b"Tag" Kind::Text;
    b"Task:---------------------------" b"Task" Kind::Text;
    b"Testsuite:----------------------" b"Testsuite" Kind::Text;
    b"Uploaders:----------------------" b"Uploaders" Kind::Folded;
    b"Vcs-Browser:--------------------" b"Vcs-Browser" Kind::Text;
    b"Vcs-Git:------------------------" b"Vcs-Git" Kind::Text;
    b"Version:------------------------" b"Version" Kind::Version;
};

/// For each number that `front_number` returns: the first of the rows whose names have it.
static FIRST_LIKELY: [u8; 128] = [
    25, 0, 45, 0, 0, 0, 0, 0, 0, 0, 0, 0, 3, 2, 40, 0, 0, 42, 0, 0, 0, 0, 51, 0, 31, 0, 47, 0, 0,
    15, 0, 33, 0, 0, 0, 0, 0, 0, 52, 28, 50, 26, 20, 0, 0, 30, 0, 0, 19, 0, 0, 49, 14, 0, 0, 0, 0,
    0, 21, 0, 0, 0, 37, 38, 0, 36, 0, 0, 0, 0, 0, 0, 18, 0, 0, 0, 0, 48, 0, 27, 0, 0, 0, 0, 39, 35,
    0, 0, 0, 0, 0, 0, 0, 0, 0, 0, 12, 0, 0, 0, 1, 29, 0, 16, 41, 44, 0, 0, 0, 0, 0, 0, 0, 0, 0, 0,
    0, 54, 22, 0, 0, 34, 0, 46, 4, 24, 43, 0,
];

/// For each such number the first row after these.
static END_LIKELY: [u8; 128] = [
    26, 0, 46, 0, 0, 0, 0, 0, 0, 0, 0, 0, 4, 3, 41, 0, 0, 43, 0, 0, 0, 0, 52, 0, 33, 0, 48, 0, 1,
    16, 0, 34, 0, 0, 0, 0, 0, 0, 54, 29, 51, 27, 21, 0, 0, 31, 0, 0, 20, 0, 0, 50, 15, 0, 0, 0, 0,
    0, 22, 0, 0, 0, 38, 39, 0, 37, 0, 0, 0, 0, 0, 0, 19, 0, 0, 0, 0, 49, 0, 28, 0, 0, 0, 0, 40, 36,
    0, 0, 0, 0, 0, 0, 0, 0, 0, 0, 14, 0, 0, 0, 2, 30, 0, 18, 42, 45, 0, 0, 0, 0, 0, 0, 0, 0, 0, 0,
    0, 55, 24, 0, 0, 35, 0, 47, 12, 25, 44, 0,
];

/// How many fields the table has.
pub const KNOWN_FIELDS: usize = 55;

/// The rows of the fields that a crate asks for by name. `laws::rows_are_of_their_names` says that
/// they are right.
pub mod rows {
    pub const ARCHITECTURE: usize = 0;

    pub const BREAKS: usize = 2;

    pub const BUILD_DEPENDS: usize = 7;

    pub const BUILD_DEPENDS_ARCH: usize = 8;

    pub const BUILD_DEPENDS_INDEP: usize = 9;

    pub const CONFLICTS: usize = 14;

    pub const DEPENDS: usize = 15;

    pub const FORMAT: usize = 24;

    pub const MULTI_ARCH: usize = 29;

    pub const PACKAGE: usize = 31;

    pub const PRE_DEPENDS: usize = 33;

    pub const PROVIDES: usize = 35;

    pub const RECOMMENDS: usize = 37;

    pub const SOURCE: usize = 44;

    pub const STATUS: usize = 46;

    pub const VERSION: usize = 54;
}

/// A field of the table, or any other field.
#[derive(Clone, Copy, Debug, PartialEq, Eq)]
pub struct FieldId(u8);

/// A name of the table at the start of a line.
#[derive(Clone, Copy, Debug)]
pub struct NameAtFront {
    /// The field of this name.
    pub id: FieldId,
    /// The length of the name in bytes.
    pub len: usize,
}

impl FieldId {
    /// Returns the field of the table with this name, without ASCII case (Debian Policy 5.1), or
    /// the id that all other names have.
    pub fn of(name: &[u8]) -> FieldId
        ensures { row_of result ≡ known_row name.now }
    {
        let mut row: u8 = 0;
        while usize::from(row) < fields().len()
            && !same_name(fields()[usize::from(row)].canonical, name)
        {
            row += 1;
        }
        FieldId(row)
    }

    /// Returns the field of the table whose name, as the table spells it, begins the line with a
    /// colon after it.
    ///
    /// `None` means that no name of the table does. The line can still begin with such a name in
    /// another case: `of` finds the field by the whole name.
    // In line it takes registers from its caller, for which `near_front` mostly finds the name.
    #[inline(never)]
    pub fn at_front(line: &[u8]) -> Option<NameAtFront>
        ensures some { IfSome result (IsAtFront line.now) }
        ensures some_iff_known { is_some result ≡ begins_with_known line.now }
    {
        let rows = likely_rows(line);
        let mut row = rows.0;
        while row < rows.1 {
            if let Some(front) = row_at_front(row, line) {
                return Some(front);
            }
            row += 1;
        }
        None
    }

    /// Returns the field of the table whose name, as the table spells it, begins the text with a
    /// colon after it.
    ///
    /// `None` says nothing: the text may have fewer than 32 bytes. It is faster than `at_front`.
    pub fn near_front(text: &[u8]) -> Option<NameAtFront>
        ensures { IfSome result (IsAtFront text.now) }
    {
        if text.len() < LANES {
            return None;
        }
        let rows = likely_rows(text);
        let mut row = rows.0;
        while row < rows.1 {
            if let Some(front) = row_near_front(row, text) {
                return Some(front);
            }
            row += 1;
        }
        None
    }

    /// Returns the number of the field's row in the table, counted from 0, or a number after the
    /// last row's.
    pub fn row(self) -> usize
        ensures { result ≡ row_of self }
    {
        usize::from(self.0)
    }

    /// Returns the canonical spelling of the field's name, or `None` for any field that the table
    /// doesn't have.
    pub fn canonical_name(self) -> Option<&'static [u8]>
        ensures spelled { IfSome result (λ found. (name : List ℕ) → known_row name ≡ row_of self
            → found.now ≡ canonical_name name) }
        ensures some_iff_known { is_some result ≡ nat_lt (row_of self) row_count }
    {
        let row = usize::from(self.0);
        if row < fields().len() {
            Some(fields()[row].canonical)
        } else {
            None
        }
    }

    /// Returns whether the table has the field.
    pub fn is_known(self) -> bool
        ensures { result ≡ nat_lt (row_of self) row_count }
    {
        usize::from(self.0) < KNOWN_FIELDS
    }

    /// Returns the kind of value of a field with this id (Debian Policy 5.6 and 7). A field that
    /// the table doesn't have is text.
    pub fn kind(self, doc: Doc) -> Kind
        ensures { (name : List ℕ) → known_row name ≡ row_of self → result ≡ kind_of doc name }
    {
        let kind = self.usual_kind();
        match doc {
            Doc::Binary | Doc::Packages | Doc::Status => kind,
            Doc::Source | Doc::Sources => in_source(kind),
            Doc::Any => Kind::Text,
        }
    }

    /// The kind in the row of the table; of no row: text.
    fn usual_kind(self) -> Kind
        ensures { result ≡ kind_at (row_of self) }
    {
        let row = usize::from(self.0);
        if row < fields().len() {
            fields()[row].kind
        } else {
            Kind::Text
        }
    }
}

/// Returns a reference to the table.
fn fields() -> &'static [Row]
    ensures { map row_in result.now ≡ map row_for known_fields }
{
    &FIELDS
}

/// Returns the first of the rows whose names a text may begin with, by its first four bytes, and
/// the first row after them.
#[inline(always)]
fn likely_rows(text: &[u8]) -> (u8, u8)
    ensures { (row : ℕ) → row < row_count
        → begins_with_row text.now (get_or known_fields row ([], Kind.Text)) ≡ true
        → (result.0 ≤ row) × (row < result.1) }
{
    let [a, b, c, d, ..] = text else {
        return (0, 0);
    };
    let number = front_number([*a, *b, *c, *d]);
    (first_likely()[number], end_likely()[number])
}

/// A number for the first four bytes of a name and its colon.
#[inline(always)]
fn front_number(front: [u8; 4]) -> usize
    ensures number { result ≡ front_number front }
    ensures within { result < 128 }
{
    // With this factor few names have one number, and those that do are neighbours in the table.
    (u32::from_le_bytes(front).wrapping_mul(4947) >> 25) as usize
}

/// Returns a reference to `FIRST_LIKELY`.
fn first_likely() -> &'static [u8; 128]
    ensures { is_likely_table (λ row likely. nat_le likely row) result.now ≡ true }
{
    &FIRST_LIKELY
}

/// Returns a reference to `END_LIKELY`.
fn end_likely() -> &'static [u8; 128]
    ensures { is_likely_table nat_lt result.now ≡ true }
{
    &END_LIKELY
}

/// The name in a row, if the text begins with it and a colon.
fn row_near_front(row: u8, text: &[u8]) -> Option<NameAtFront>
    requires { LANES ≤ length text.now }
    ensures { IfSome result (IsAtFront text.now) }
{
    let index = usize::from(row);
    if index >= fields().len() {
        return None;
    }
    let known = &fields()[index];
    let len = known.canonical.len();
    if same_len(text, &known.filled) <= len {
        return None;
    }
    Some(NameAtFront {
        id: FieldId(row),
        len,
    })
}

/// How many of the first `LANES` bytes are the same, up to the first that differs.
#[inline(always)]
fn same_len(text: &[u8], other: &[u8; LANES]) -> usize
    requires { LANES ≤ length text.now }
    ensures most { result ≤ LANES }
    ensures same { (k : ℕ) → k < result → slice_index text.now k ≡ slice_index other.now k }
{
    let differ = u8x32::from_slice(text)
        .simd_ne(u8x32::from_array(*other))
        .to_bitmask();
    first_set(differ)
}

/// The number of the lowest bit that is set, or `LANES`.
#[inline(always)]
fn first_set(mask: u64) -> usize
    ensures { result ≡ (if mask == 0 then LANES else trailing_zeros w64 mask) }
{
    if mask == 0 {
        LANES
    } else {
        mask.trailing_zeros() as usize
    }
}

/// The name in a row, if the line begins with it and a colon.
fn row_at_front(row: u8, line: &[u8]) -> Option<NameAtFront>
    ensures some { IfSome result (IsAtFront line.now) }
    ensures known { IsTrue (is_some result) → row < row_count }
    ensures some_iff_begins { row < row_count →
        is_some result ≡ begins_with_row line.now (get_or known_fields row ([], Kind.Text)) }
{
    let index = usize::from(row);
    if index >= fields().len() {
        return None;
    }
    let known = &fields()[index];
    let len = known.canonical.len();
    if len < line.len() && known.filled.starts_with(&line[..len + 1]) {
        return Some(NameAtFront {
            id: FieldId(row),
            len,
        });
    }
    None
}

/// What a field of the kind holds in the description of a source package.
fn in_source(kind: Kind) -> Kind
    ensures { result ≡ in_source kind }
{
    match kind {
        Kind::Architecture => Kind::ArchitectureWords,
        other => other,
    }
}

/// Returns the kind of value of the field with this name (Debian Policy 5.6 and 7). Names are found
/// without ASCII case (5.1). A field that the table doesn't have is text.
pub fn kind_of(doc: Doc, name: &[u8]) -> Kind
    ensures { result ≡ kind_of doc name.now }
{
    FieldId::of(name).kind(doc)
}

/// Returns the names of the fields that each paragraph of a document of this kind must have (Debian
/// Policy 5.3 and 5.4; for a status file dpkg(1)).
pub fn required(doc: Doc) -> &'static [&'static [u8]]
    ensures { map (λ name. name.now) result.now ≡ required doc }
{
    match doc {
        Doc::Binary | Doc::Packages => &[b"Package", b"Version", b"Architecture"],
        Doc::Source => &[b"Format", b"Source", b"Version"],
        Doc::Sources => &[b"Package", b"Version"],
        Doc::Status => &[b"Package", b"Status"],
        Doc::Any => &[],
    }
}

const ARCHITECTURE: FieldId = FieldId(rows::ARCHITECTURE as u8);

const FORMAT: FieldId = FieldId(rows::FORMAT as u8);

const PACKAGE: FieldId = FieldId(rows::PACKAGE as u8);

const SOURCE: FieldId = FieldId(rows::SOURCE as u8);

const STATUS: FieldId = FieldId(rows::STATUS as u8);

const VERSION: FieldId = FieldId(rows::VERSION as u8);

/// Returns the fields of the table that `required` names, in the same order.
pub fn required_fields(doc: Doc) -> &'static [FieldId]
    ensures { map row_of result.now ≡ map known_row (required doc) }
{
    match doc {
        Doc::Binary | Doc::Packages => &[PACKAGE, VERSION, ARCHITECTURE],
        Doc::Source => &[FORMAT, SOURCE, VERSION],
        Doc::Sources => &[PACKAGE, VERSION],
        Doc::Status => &[PACKAGE, STATUS],
        Doc::Any => &[],
    }
}
