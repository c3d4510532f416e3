//! The kinds of rows, and how the line of each is spelled.

ghost use Rattle.std.specs.Prelude.{◌≡◌, ◌≤◌, length, map};
ghost use Rattle.deb_rows.specs.Kinds.{front_of, piece_in, pieces_of};

use crate::cell::Class;

/// What a line says.
#[derive(Clone, Copy, Debug, PartialEq, Eq)]
pub enum RowKind {
    /// A group that is met.
    Met = 0,
    /// A group that is unmet.
    Unmet = 1,
    /// A group that is ignored.
    Ignored = 2,
    /// A package that meets the group above it: number, name, version, architecture.
    Package = 3,
    /// Why an alternative isn't met: the alternative, the reason.
    Reason = 4,
    /// Why a package doesn't meet an alternative: the alternative, number, name, version and
    /// architecture of the package, the reason.
    PackageReason = 5,
    /// A group of a paragraph that is unmet: number, package, version, architecture, field, group.
    UnmetGroup = 6,
    /// A group of which that is unsure, likewise.
    UnsureGroup = 7,
    /// A paragraph that was removed: number, package, version, architecture.
    Removed = 8,
    /// One that was changed: number, package, version, architecture, fields.
    Changed = 9,
    /// One that was upgraded: number, package, old version, new version, architecture, fields.
    Upgraded = 10,
    /// One that was added: number, package, version, architecture.
    Added = 11,
    /// A line of the old canonical text.
    OldLine = 12,
    /// A line of the new canonical text.
    NewLine = 13,
    /// A line `key: value`.
    Key = 14,
    /// The empty line after an explanation.
    End = 15,
    /// A file is accepted: the number of its paragraphs.
    Count = 16,
    /// All errors were explained: the numbers of paragraphs that pass and of errors.
    Summary = 17,
    /// A relation or a version is accepted.
    Valid = 18,
    /// A paragraph that was downgraded: number, package, old version, new version, architecture,
    /// fields.
    Downgraded = 19,
    /// A group that nothing in a set meets: number, package, version, architecture, field, group.
    UnmetNeed = 20,
    /// A group of which that is unsure, likewise.
    UnsureNeed = 21,
    /// A group that excludes a package of the set: number, package, version, architecture, field,
    /// group; number, name, version and architecture of the excluded package.
    Conflict = 22,
    /// A group of which that is unsure, likewise.
    UnsureConflict = 23,
    /// A package of the same name that can't be installed together with an earlier one: number,
    /// package, version, architecture of the earlier one; number, version, architecture.
    Duplicate = 24,
    /// A package of a status file that is neither in the set nor removed: number, package, version,
    /// architecture, status.
    State = 25,
    /// A package that can't be installed: number, package, version, architecture.
    Uninstallable = 26,
    /// A package of which that is unsure, likewise.
    Unsure = 27,
    /// A package of which the search didn't find that out, likewise.
    Undecided = 28,
    /// What a package needs: number, package, version, architecture, group, candidates. These are
    /// the numbers of the packages that meet the group, or `none`. The group is `NAME (Essential)`
    /// if every package needs one of this name.
    Need = 29,
    /// A package excludes another one: number, package, version, architecture of both.
    Exclusion = 30,
    /// A package is left out of every set: number, package, version, architecture.
    LeftOut = 31,
    /// A package of an index of several files that meets the group above it: number, name,
    /// version, architecture, the place of its file, from 1.
    PackageOfFile = 32,
    /// Why a package of an index of several files doesn't meet an alternative: the alternative,
    /// number, name, version and architecture of the package, the reason, the place of its file.
    PackageReasonOfFile = 33,
}

/// The text before the first cell of a line of this kind.
pub(crate) fn front_of(kind: RowKind) -> &'static [u8]
    ensures { result.now ≡ front_of kind }
{
    match kind {
        RowKind::Met => b"met ",
        RowKind::Unmet | RowKind::UnmetGroup | RowKind::UnmetNeed => b"unmet ",
        RowKind::Ignored => b"ignored ",
        RowKind::Package
        | RowKind::Reason
        | RowKind::PackageReason
        | RowKind::Need
        | RowKind::Exclusion
        | RowKind::LeftOut
        | RowKind::PackageOfFile
        | RowKind::PackageReasonOfFile => b" ",
        RowKind::UnsureGroup | RowKind::UnsureNeed | RowKind::UnsureConflict | RowKind::Unsure =>
            b"unsure ",
        RowKind::Conflict => b"conflict ",
        RowKind::Duplicate => b"duplicate ",
        RowKind::State => b"state ",
        RowKind::Uninstallable => b"uninstallable ",
        RowKind::Undecided => b"undecided ",
        RowKind::Removed => b"removed ",
        RowKind::Changed => b"changed ",
        RowKind::Upgraded => b"upgraded ",
        RowKind::Downgraded => b"downgraded ",
        RowKind::Added => b"added ",
        RowKind::OldLine => b" -",
        RowKind::NewLine => b" +",
        RowKind::Key => b"",
        RowKind::End => b"\n",
        RowKind::Count | RowKind::Summary => b"ok ",
        RowKind::Valid => b"ok\n",
    }
}

/// Cells of a line, each with the text after it.
type Pieces = &'static [(Class, &'static [u8])];

const ANY_TEXT: Pieces = &[(Class::Line, b"\n")];

/// A number, a name, a version and an architecture.
const PACKAGE_LAST: Pieces = &[
    (Class::Number, b" "),
    (Class::Word, b" "),
    (Class::Word, b" "),
    (Class::Word, b"\n"),
];

const REASON: Pieces = &[(Class::Alternative, b": "), (Class::Reason, b"\n")];

const PACKAGE_REASON: Pieces = &[
    (Class::Alternative, b": "),
    (Class::Number, b" "),
    (Class::Word, b" "),
    (Class::Word, b" "),
    (Class::Word, b" "),
    (Class::Phrase, b"\n"),
];

const PACKAGE_REASON_OF_FILE: Pieces = &[
    (Class::Alternative, b": "),
    (Class::Number, b" "),
    (Class::Word, b" "),
    (Class::Word, b" "),
    (Class::Word, b" "),
    (Class::Phrase, b" @"),
    (Class::Place, b"\n"),
];

const PACKAGE_OF_FILE: Pieces = &[
    (Class::Number, b" "),
    (Class::Word, b" "),
    (Class::Word, b" "),
    (Class::Word, b" @"),
    (Class::Place, b"\n"),
];

const PACKAGE_AND_TEXT: Pieces = &[
    (Class::Number, b" "),
    (Class::Word, b" "),
    (Class::Word, b" "),
    (Class::Word, b" "),
    (Class::Line, b"\n"),
];

const PACKAGE_WORD_AND_TEXT: Pieces = &[
    (Class::Number, b" "),
    (Class::Word, b" "),
    (Class::Word, b" "),
    (Class::Word, b" "),
    (Class::Word, b" "),
    (Class::Line, b"\n"),
];

const PACKAGE_FIELD_AND_GROUP: Pieces = &[
    (Class::Number, b" "),
    (Class::Word, b" "),
    (Class::Word, b" "),
    (Class::Word, b" "),
    (Class::Word, b" "),
    (Class::Group, b"\n"),
];

const PACKAGE_FIELD_AND_EXCLUDED: Pieces = &[
    (Class::Number, b" "),
    (Class::Word, b" "),
    (Class::Word, b" "),
    (Class::Word, b" "),
    (Class::Word, b" "),
    (Class::Group, b" by "),
    (Class::Number, b" "),
    (Class::Word, b" "),
    (Class::Word, b" "),
    (Class::Word, b"\n"),
];

/// Two packages of one name.
const PACKAGE_TWICE: Pieces = &[
    (Class::Number, b" "),
    (Class::Word, b" "),
    (Class::Word, b" "),
    (Class::Word, b" with "),
    (Class::Number, b" "),
    (Class::Word, b" "),
    (Class::Word, b"\n"),
];

const PACKAGE_NEEDS: Pieces = &[
    (Class::Number, b" "),
    (Class::Word, b" "),
    (Class::Word, b" "),
    (Class::Word, b" needs "),
    (Class::Alternative, b": "),
    (Class::Line, b"\n"),
];

const PACKAGE_EXCLUDES: Pieces = &[
    (Class::Number, b" "),
    (Class::Word, b" "),
    (Class::Word, b" "),
    (Class::Word, b" excludes "),
    (Class::Number, b" "),
    (Class::Word, b" "),
    (Class::Word, b" "),
    (Class::Word, b"\n"),
];

const PACKAGE_LEFT_OUT: Pieces = &[
    (Class::Number, b" "),
    (Class::Word, b" "),
    (Class::Word, b" "),
    (Class::Word, b" is left out\n"),
];

/// The cells of a line of this kind.
pub(crate) fn pieces_of(kind: RowKind) -> Pieces
    ensures pieces { map piece_in result.now ≡ pieces_of kind }
    ensures few { length result.now ≤ 10 }
{
    match kind {
        RowKind::Met | RowKind::Unmet | RowKind::Ignored | RowKind::OldLine | RowKind::NewLine => {
            ANY_TEXT
        }
        RowKind::Package
        | RowKind::Removed
        | RowKind::Added
        | RowKind::Uninstallable
        | RowKind::Unsure
        | RowKind::Undecided => PACKAGE_LAST,
        RowKind::Reason => REASON,
        RowKind::PackageReason => PACKAGE_REASON,
        RowKind::Changed | RowKind::State => PACKAGE_AND_TEXT,
        RowKind::UnmetGroup | RowKind::UnsureGroup | RowKind::Upgraded | RowKind::Downgraded => {
            PACKAGE_WORD_AND_TEXT
        }
        RowKind::UnmetNeed | RowKind::UnsureNeed => PACKAGE_FIELD_AND_GROUP,
        RowKind::Conflict | RowKind::UnsureConflict => PACKAGE_FIELD_AND_EXCLUDED,
        RowKind::Duplicate => PACKAGE_TWICE,
        RowKind::Need => PACKAGE_NEEDS,
        RowKind::Exclusion => PACKAGE_EXCLUDES,
        RowKind::LeftOut => PACKAGE_LEFT_OUT,
        RowKind::PackageOfFile => PACKAGE_OF_FILE,
        RowKind::PackageReasonOfFile => PACKAGE_REASON_OF_FILE,
        RowKind::Key => &[(Class::Key, b": "), (Class::Line, b"\n")],
        RowKind::Count => &[(Class::Number, b"\n")],
        RowKind::Summary => &[(Class::Number, b", "), (Class::Number, b" refused\n")],
        RowKind::End | RowKind::Valid => &[],
    }
}
