//! A second line on standard error, which says more to a person: which file couldn't be opened and
//! why, which argument is refused, or which command explains a refusal.
//!
//! The first line is the report of the job, and is the same with a hint and without.

use crate::reader::SystemFiles;
use crate::unopened::Unopened;
use deb_base::{Doc, Fault, Sink, put_all, put_pieces};
use deb_explain::write_path;
use deb_version::{BadVersion, Version};
use debctl_args::{Call, DiffKind, Job, Members, SourceKind};
use itoa::Buffer;
use std::env;
use std::io::IsTerminal;

/// Whether hints are wanted: by the environment variable `DEBCTL_HINTS`, which is `1` for them, or
/// if standard error is a terminal and the variable isn't there.
pub(crate) fn wants_hints(rt: &HostRuntime) -> bool {
    match env::var(rt, "DEBCTL_HINTS") {
        Ok(value) => value.as_str() == "1",
        Err(_) => rt.stderr().is_terminal(),
    }
}

/// What the reported line is about.
#[derive(Clone, Copy)]
pub(crate) enum About {
    /// A refused version.
    Version,
    /// A refused relation.
    Relation,
    /// A relation with a wildcard in an architecture list.
    Wildcard,
    /// A refused architecture or profile.
    Environment,
    /// The refused file of a job that reads one.
    File,
    /// The refused file of a job that reads an index and another file, or two files.
    First,
    Second,
    /// The refused old index of `unmet`.
    Old,
    /// One of several refused indexes or files, by its place: 1 is the first.
    Numbered(u64),
    /// Anything else.
    Other,
}

/// Returns what a reported line is about.
pub(crate) fn subject_of(line: &[u8]) -> About {
    if line.starts_with(b"line 0: 18 ") {
        About::Version
    } else if line.starts_with(b"line 0: 19 ") {
        About::Relation
    } else if line.starts_with(b"line 0: 22 ") {
        About::Wildcard
    } else if line.starts_with(b"line 0: 23 ") {
        About::Environment
    } else if line.starts_with(b"line 0: ") {
        About::Other
    } else if line.starts_with(b"line ") {
        About::File
    } else if line.starts_with(b"first: ") {
        About::First
    } else if line.starts_with(b"second: ") {
        About::Second
    } else if line.starts_with(b"old: ") {
        About::Old
    } else {
        match line.strip_prefix(b"index ") {
            Some(rest) => About::Numbered(number_before(rest)),
            None => About::Other,
        }
    }
}

/// Returns the number with which a text begins.
fn number_before(text: &[u8]) -> u64 {
    let mut number = 0u64;
    for byte in text {
        if !byte.is_ascii_digit() {
            return number;
        }
        let digit = u64::from(byte.saturating_sub(b'0'));
        number = number.saturating_mul(10).saturating_add(digit);
    }
    number
}

/// Writes the hint for a call, if there is one: about the file that couldn't be opened, or about
/// what the reported line is about.
pub(crate) fn put_hint<E: Sink>(
    call: &Call,
    files: &SystemFiles<'_>,
    about: About,
    err: &mut E,
) -> Result<(), Fault> {
    if let Some(why) = files.unopened() {
        let path = if files.tried() == 1 {
            &call.first
        } else {
            &call.second
        };
        return put_unopened(path_or_input(path), why, err);
    }
    match refused_file(call, about) {
        Some((path, doc)) => put_explain(path.as_bytes(), doc, err),
        None => match about {
            About::Version => put_refused_version(&call.job, err),
            _ => put_argument(about, err),
        },
    }
}

/// Writes which file couldn't be opened, and why.
pub(crate) fn put_unopened<E: Sink>(path: &str, why: Unopened, err: &mut E) -> Result<(), Fault> {
    put_all(err, b"debctl: ")?;
    write_path(path.as_bytes(), err)?;
    why.write_behind(b": ", err)
}

/// Returns the path of a file, or that of standard input.
fn path_or_input(path: &Option<String>) -> &str {
    match path {
        Some(path) => path.as_str(),
        None => "-",
    }
}

/// Returns the path and the kind of the file that is refused, if `explain` can say why.
fn refused_file(call: &Call, about: About) -> Option<(&str, Doc)> {
    let path = match about {
        About::File => match &call.job {
            Job::QueryFrom { .. } => path_or_input(&call.second),
            _ => path_or_input(&call.first),
        },
        About::First => path_or_input(&call.first),
        About::Second => path_or_input(&call.second),
        _ => return None,
    };
    Some((path, kind_of_file(&call.job, about)?))
}

/// Returns the kind of a file of a job, if it is a document.
fn kind_of_file(job: &Job, about: About) -> Option<Doc> {
    match job {
        Job::Diff { kind, .. } => Some(match kind {
            DiffKind::Packages => Doc::Packages,
            DiffKind::Binary => Doc::Binary,
            DiffKind::Sources => Doc::Sources,
            DiffKind::Source => Doc::Source,
            DiffKind::Status => Doc::Status,
        }),
        Job::Query { members, .. } | Job::QueryFrom { members, .. } => Some(kind_of_index(
            *members,
        )),
        Job::Buildable {
            members,
            sources,
            ..
        } => Some(match (about, sources) {
            (About::Second, SourceKind::Sources) => Doc::Sources,
            (About::Second, SourceKind::Source) => Doc::Source,
            _ => kind_of_index(*members),
        }),
        _ => job.document(),
    }
}

/// Returns the kind of the file of an index.
pub(crate) fn kind_of_index(members: Members) -> Doc {
    match members {
        Members::All => Doc::Packages,
        Members::Installed => Doc::Status,
    }
}

/// Writes which command explains the refusal of a file.
pub(crate) fn put_explain<E: Sink>(path: &[u8], doc: Doc, err: &mut E) -> Result<(), Fault> {
    put_all(err, b"debctl: ")?;
    write_path(path, err)?;
    put_pieces(
        err,
        &[
            b": to see why: debctl explain --kind ",
            doc.word().as_bytes(),
            b" ",
        ],
    )?;
    write_path(path, err)?;
    put_all(err, b"\n")
}

/// Writes which argument of a job is refused, if one that isn't a version is.
pub(crate) fn put_argument<E: Sink>(about: About, err: &mut E) -> Result<(), Fault> {
    match about {
        About::Relation => put_all(
            err,
            b"debctl: to see why the relation is refused: debctl explain --relation RELATION\n",
        ),
        About::Wildcard => put_all(
            err,
            b"debctl: the relation has a wildcard: debctl explain --code Wildcard\n",
        ),
        About::Environment => put_all(
            err,
            b"debctl: --arch or --profiles is refused: debctl explain --code BadEnvironment\n",
        ),
        _ => Ok(()),
    }
}

/// Writes which version among the arguments of a job is refused.
fn put_refused_version<E: Sink>(job: &Job, err: &mut E) -> Result<(), Fault> {
    match job {
        Job::Compare(left, _, right) => match Version::parse(left.as_bytes()) {
            Ok(_) => put_version(2, 2, right.as_str(), err),
            Err(_) => put_version(1, 2, left.as_str(), err),
        },
        Job::CanonVersion(version) => put_version(1, 1, version.as_str(), err),
        Job::VersionKey(versions) => put_first_version(versions, err),
        _ => Ok(()),
    }
}

/// Writes which of some versions is refused, the first one of those that are.
fn put_first_version<E: Sink>(versions: &[String], err: &mut E) -> Result<(), Fault> {
    let mut number = 0u64;
    for version in versions {
        number = number.saturating_add(1);
        if Version::parse(version.as_bytes()).is_err() {
            return put_version(number, versions.len() as u64, version.as_str(), err);
        }
    }
    Ok(())
}

/// Writes what is wrong in a version, which is one of several arguments.
pub(crate) fn put_version<E: Sink>(
    number: u64,
    count: u64,
    text: &str,
    err: &mut E,
) -> Result<(), Fault> {
    let Err(fault) = Version::parse(text.as_bytes()) else {
        return Ok(());
    };
    put_pieces(
        err,
        &[
            b"debctl: version ",
            Buffer::new().format(number).as_bytes(),
            b" of ",
            Buffer::new().format(count).as_bytes(),
            b": ",
        ],
    )?;
    write_path(text.as_bytes(), err)?;
    put_version_fault(fault, err)
}

/// Writes a fault of a version, and its offset in the version.
fn put_version_fault<E: Sink>(fault: BadVersion, err: &mut E) -> Result<(), Fault> {
    put_pieces(
        err,
        &[
            b": ",
            name_of_fault(fault),
            b" at ",
            Buffer::new().format(offset_of_fault(fault)).as_bytes(),
            b"\n",
        ],
    )
}

/// Returns the name of a fault of a version.
fn name_of_fault(fault: BadVersion) -> &'static [u8] {
    match fault {
        BadVersion::Empty => b"Empty",
        BadVersion::EpochEmpty => b"EpochEmpty",
        BadVersion::EpochNotNumber => b"EpochNotNumber",
        BadVersion::EpochTooBig => b"EpochTooBig",
        BadVersion::RevisionEmpty => b"RevisionEmpty",
        BadVersion::UpstreamEmpty => b"UpstreamEmpty",
        BadVersion::UpstreamByte { .. } => b"UpstreamByte",
        BadVersion::RevisionByte { .. } => b"RevisionByte",
    }
}

/// Returns the offset of a fault in a version: 0 if the whole version is wrong.
fn offset_of_fault(fault: BadVersion) -> u64 {
    match fault {
        BadVersion::UpstreamByte { at } => at as u64,
        BadVersion::RevisionByte { at } => at as u64,
        _ => 0,
    }
}
