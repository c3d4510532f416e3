//! The second line on standard error for jobs over files that they open by their paths, as
//! `hints.rt` has it for others.

use crate::hints::{About, kind_of_index, put_argument, put_explain, put_unopened, put_version};
use crate::reader::SystemFiles;
use deb_base::{Doc, Fault, Sink, put_all};
use debctl_args::{Dependents, LatestKind, LatestOf, QueryOver, RelationArgument, SelectOf, Unmet};

/// Writes the hint for a `query` over several indexes, if there is one.
pub(crate) fn put_query_hint<E: Sink>(
    query: &QueryOver,
    files: &SystemFiles<'_>,
    about: About,
    err: &mut E,
) -> Result<(), Fault> {
    let before = match &query.relation {
        RelationArgument::Text(_) => None,
        RelationArgument::From(path) => Some(path),
    };
    if let Some(why) = files.unopened() {
        return match path_tried(before, &query.indexes, None, files.tried()) {
            Some(path) => put_unopened(path.as_str(), why, err),
            None => Ok(()),
        };
    }
    match path_among(&query.indexes, about) {
        Some(path) => put_explain(path.as_bytes(), kind_of_index(query.members), err),
        None => put_argument(about, err),
    }
}

/// Writes the hint for an `unmet`, if there is one.
pub(crate) fn put_unmet_hint<E: Sink>(
    asked: &Unmet,
    files: &SystemFiles<'_>,
    about: About,
    err: &mut E,
) -> Result<(), Fault> {
    let paths = &asked.files;
    if let Some(why) = files.unopened() {
        let (old, last) = (paths.unless.as_ref(), paths.path.as_ref());
        return match path_tried(old, &paths.indexes, last, files.tried()) {
            Some(path) => put_unopened(path.as_str(), why, err),
            None => Ok(()),
        };
    }
    let refused = match about {
        About::Old => paths.unless.as_ref(),
        About::Second => paths.path.as_ref(),
        _ => path_among(&paths.indexes, about),
    };
    match (refused, about) {
        (Some(path), _) => put_explain(path.as_bytes(), kind_refused(asked, about), err),
        (None, About::Environment) if asked.all_for.is_some() => put_all(
            err,
            b"debctl: --arch, --all-for or --profiles is refused: \
              debctl explain --code BadEnvironment\n",
        ),
        (None, _) => put_argument(about, err),
    }
}

/// Returns the kind of the refused file of an `unmet`.
fn kind_refused(asked: &Unmet, about: About) -> Doc {
    match (about, asked.dependents) {
        (About::Second, Dependents::Binary(_)) => Doc::Binary,
        (About::Second, Dependents::Sources(_)) => Doc::Sources,
        (About::Second, Dependents::Source(_)) => Doc::Source,
        (About::Second, _) => Doc::Packages,
        _ => kind_of_index(asked.members),
    }
}

/// Writes the hint for a `latest`, if there is one.
pub(crate) fn put_latest_hint<E: Sink>(
    latest: &LatestOf,
    files: &SystemFiles<'_>,
    about: About,
    err: &mut E,
) -> Result<(), Fault> {
    if let Some(why) = files.unopened() {
        // The files are opened twice.
        let count = latest.paths.len() as u64;
        let tried = files.tried();
        let tried = if tried > count { tried - count } else { tried };
        return match path_tried(None, &latest.paths, None, tried) {
            Some(path) => put_unopened(path.as_str(), why, err),
            None => Ok(()),
        };
    }
    match (path_among(&latest.paths, about), about, &latest.before) {
        (Some(path), _, _) => put_explain(path.as_bytes(), kind_of_latest(latest.kind), err),
        (None, About::Version, Some(version)) => put_version(1, 1, version.as_str(), err),
        _ => Ok(()),
    }
}

/// Returns the kind of the files of a `latest`.
fn kind_of_latest(kind: LatestKind) -> Doc {
    match kind {
        LatestKind::Packages => Doc::Packages,
        LatestKind::Sources => Doc::Sources,
    }
}

/// Writes the hint for a `select`, if there is one.
pub(crate) fn put_select_hint<E: Sink>(
    select: &SelectOf,
    files: &SystemFiles<'_>,
    about: About,
    err: &mut E,
) -> Result<(), Fault> {
    if let Some(why) = files.unopened() {
        let path = match path_tried(None, &select.paths, None, files.tried()) {
            Some(path) => path.as_str(),
            None => "-",
        };
        return put_unopened(path, why, err);
    }
    match (path_among(&select.paths, about), about) {
        (Some(path), _) => put_explain(path.as_bytes(), select.kind, err),
        (None, About::File) => put_explain(b"-", select.kind, err),
        _ => Ok(()),
    }
}

/// Returns the path that was opened as the one with this number, of one that may come first,
/// several, and one that may come last.
fn path_tried<'a>(
    first: Option<&'a String>,
    paths: &'a [String],
    last: Option<&'a String>,
    tried: u64,
) -> Option<&'a String> {
    let mut left = tried;
    if first.is_some() {
        if left == 1 {
            return first;
        }
        left = left.saturating_sub(1);
    }
    for path in paths {
        if left == 1 {
            return Some(path);
        }
        left = left.saturating_sub(1);
    }
    last
}

/// Returns the path among several of the file that is refused, if one of them is.
fn path_among(paths: &[String], about: About) -> Option<&String> {
    match about {
        About::File | About::First => paths.first(),
        About::Numbered(place) => paths.get(place.saturating_sub(1) as usize),
        _ => None,
    }
}
