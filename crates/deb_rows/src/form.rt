//! The texts that this library writes in lines.

ghost use Rattle.std.specs.Prelude.{◌≡◌};
ghost use Rattle.deb_rows.specs.Kinds.{kinds_of};

use crate::kind::RowKind;

/// The form of a text: which kinds its lines may have.
#[derive(Clone, Copy, Debug, PartialEq, Eq)]
pub enum Form {
    /// A report on a relation, with or without reasons.
    Report,
    /// The unmet groups of a file.
    UnmetLines,
    /// What changed between two files, with or without values.
    DiffLines,
    /// Why a file, a relation or a version is refused.
    Explanation,
    /// Why a set of packages isn't healthy.
    HealthLines,
    /// Which packages can't be installed, with or without reasons.
    InstallableLines,
}

/// The kinds of the lines of a text.
pub(crate) fn kinds_of(form: Form) -> &'static [RowKind]
    ensures { result.now ≡ kinds_of form }
{
    match form {
        Form::Report => &[
            RowKind::Met,
            RowKind::Unmet,
            RowKind::Ignored,
            RowKind::Package,
            RowKind::Reason,
            RowKind::PackageReason,
            RowKind::PackageOfFile,
            RowKind::PackageReasonOfFile,
        ],
        Form::UnmetLines => &[RowKind::UnmetGroup, RowKind::UnsureGroup],
        Form::DiffLines => &[
            RowKind::Removed,
            RowKind::Changed,
            RowKind::Upgraded,
            RowKind::Added,
            RowKind::OldLine,
            RowKind::NewLine,
            RowKind::Downgraded,
        ],
        Form::Explanation => &[
            RowKind::Key,
            RowKind::End,
            RowKind::Count,
            RowKind::Summary,
            RowKind::Valid,
        ],
        Form::HealthLines => &[
            RowKind::UnmetNeed,
            RowKind::UnsureNeed,
            RowKind::Conflict,
            RowKind::UnsureConflict,
            RowKind::Duplicate,
            RowKind::State,
        ],
        Form::InstallableLines => &[
            RowKind::Uninstallable,
            RowKind::Unsure,
            RowKind::Undecided,
            RowKind::Need,
            RowKind::Exclusion,
            RowKind::LeftOut,
        ],
    }
}
