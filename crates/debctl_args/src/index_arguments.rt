//! The tasks of `query`, `unmet` and `latest`, each of which may read many files.

ghost use Rattle.std.specs.List.{list_any};
ghost use Rattle.std.specs.Prelude.{◌≡◌, IfOk, codes, map, option_copied};
ghost use Rattle.clap.specs.Words.{all_of, found_of, rows_of};
ghost use Rattle.debctl_args.specs.Asked.{is_standard_input, latest_asked, latest_by, latest_of_files, query_asked, query_from_index, query_from_indexes, query_of_file, query_of_index, query_of_indexes, query_of_word, query_over, unmet_asked, unmet_files_in, unmet_in, unmet_of_binary, unmet_of_files, unmet_of_packages, unmet_of_path, unmet_of_sources};
ghost use Rattle.debctl_args.specs.AskedWords.{texts_asked};
ghost use Rattle.debctl_args.specs.Fitting.{Answers};
ghost use Rattle.debctl_args.specs.Requests.{query_of, relation_of, unmet_files_of, unmet_of};

use crate::arguments::{INPUT_TWICE, UsageFault, usage};
use crate::found_arguments::{
    all_given, by_in, detail_in, flag_in, given, has_standard_input, indexes_beside, indexes_in,
    is_standard_input_twice, is_standard_input_twice_with, kind_in, members_in, owned_text,
    owned_texts, packages_in, path_in, paths_in, pieces_in, strength_in, text_in, texts_in,
    tried_in, version_text_in, word_in,
};
use crate::jobs::{
    Call, Dependents, Job, LatestBy, LatestKind, LatestOf, QueryOver, RelationArgument, Task,
    Unmet, UnmetFiles,
};
use clap::ArgMatches;
use deb_base::Doc;
use std::alloc::{AllocError, Global};

/// The text for a query with neither a relation nor its file.
const RELATION_OR_FILE: &str = "usage: query takes a relation, or --relation-from";

/// The text for an `unmet` of files whose relations have no meaning.
const NO_RELATIONS: &str = "usage: unmet takes no --kind any";

/// The text for an `unmet` of a status file.
const NO_STATUS: &str = "usage: unmet takes no --kind status";

/// The text for Recommends of source packages.
const NO_RECOMMENDS: &str = "usage: unmet takes --recommends only for binary packages";

/// The text for all of the binary packages, which are always tried.
const ALL_SOURCES_OF_PACKAGES: &str = "usage: unmet takes --all-sources only for source packages";

/// The text for another target of source packages.
const ALL_FOR_OF_SOURCES: &str = "usage: unmet takes --all-for only for binary packages";

/// The text for an `unmet` of another kind of file without that file.
const KIND_OF_PATH: &str = "usage: unmet takes another --kind only with a second path";

/// The text for a `latest` of files that aren't indexes.
const OTHER_LATEST_KIND: &str = "usage: latest takes --kind packages or sources";

/// The text for another word for what one package is.
const OTHER_BY: &str = "usage: latest takes --by name or name,arch";

/// The text for standard input, which can't be read twice.
const READS_TWICE: &str = "usage: latest reads its files twice, so it can't read standard input";

pub(crate) fn query_task(alloc: Global, found: &ArgMatches<'_>) -> Result<Task, UsageFault>
    ensures { Answers (query_asked (rows_of (found_of found.now))) result }
{
    if let Some(path) = given(found, "relation-from") {
        return query_of_file(alloc, found, path);
    }
    match given(found, "relation") {
        Some(relation) => query_of_word(alloc, found, relation),
        None => Err(usage(alloc, RELATION_OR_FILE)),
    }
}

/// `query` with a relation.
fn query_of_word(alloc: Global, found: &ArgMatches<'_>, relation: &str) -> Result<Task, UsageFault>
    ensures { Answers (query_of_word (rows_of (found_of found.now)) relation.now) result }
{
    match all_given(found, "index") {
        Some(indexes) if is_standard_input_twice(indexes) => Err(usage(alloc, INPUT_TWICE)),
        Some(indexes) => query_of_indexes(alloc, found, relation, indexes),
        None => query_of_index(alloc, found, relation, None),
    }
}

/// `query` with a relation, over all of these indexes.
fn query_of_indexes(
    alloc: Global,
    found: &ArgMatches<'_>,
    relation: &str,
    indexes: &[&str],
) -> Result<Task, UsageFault>
    ensures { Answers (query_of_indexes (rows_of (found_of found.now)) relation.now
        (map (λ index. index.now) indexes.now)) result }
{
    match indexes {
        [] => query_of_index(alloc, found, relation, None),
        [index] => query_of_index(alloc, found, relation, Some(*index)),
        _ => {
            let relation = RelationArgument::Text(String::from_str(alloc, relation)?);
            Ok(Task::Query(query_over(alloc, found, relation, indexes)?))
        }
    }
}

/// `query` over one index, which is standard input without a path.
fn query_of_index(
    alloc: Global,
    found: &ArgMatches<'_>,
    relation: &str,
    index: Option<&str>,
) -> Result<Task, UsageFault>
    ensures { Answers (query_of_index (rows_of (found_of found.now)) relation.now
        (option_copied index.entry)) result }
{
    let arch = String::from_str(alloc, word_in(found, "arch"))?;
    let profiles = pieces_in(alloc, found, "profiles")?;
    let relation = String::from_str(alloc, relation)?;
    Ok(Task::Run(Call {
        job: Job::Query {
            arch,
            profiles,
            relation,
            members: members_in(found),
            detail: detail_in(found),
            versions: version_text_in(found),
        },
        first: owned_text(alloc, index)?,
        second: None,
    }))
}

/// `query --relation-from`, with the path of the relation.
fn query_of_file(alloc: Global, found: &ArgMatches<'_>, path: &str) -> Result<Task, UsageFault>
    ensures { Answers (query_of_file (rows_of (found_of found.now)) path.now) result }
{
    let indexes = indexes_beside(alloc, found)?;
    if is_standard_input_twice_with(path, &indexes) {
        return Err(usage(alloc, INPUT_TWICE));
    }
    query_from_indexes(alloc, found, path, &indexes)
}

/// `query` with the relation of a file, over all of these indexes. There is at least one.
fn query_from_indexes(
    alloc: Global,
    found: &ArgMatches<'_>,
    path: &str,
    indexes: &[&str],
) -> Result<Task, UsageFault>
    ensures { Answers (query_from_indexes (rows_of (found_of found.now)) path.now
        (map (λ index. index.now) indexes.now)) result }
{
    if let [index] = indexes {
        return query_from_index(alloc, found, path, index);
    }
    let relation = RelationArgument::From(String::from_str(alloc, path)?);
    Ok(Task::Query(query_over(alloc, found, relation, indexes)?))
}

/// `query` with the relation of a file, over one index.
fn query_from_index(
    alloc: Global,
    found: &ArgMatches<'_>,
    path: &str,
    index: &str,
) -> Result<Task, UsageFault>
    ensures { Answers (query_from_index (rows_of (found_of found.now)) path.now index.now) result }
{
    let arch = String::from_str(alloc, word_in(found, "arch"))?;
    let profiles = pieces_in(alloc, found, "profiles")?;
    let first = String::from_str(alloc, path)?;
    let second = String::from_str(alloc, index)?;
    Ok(Task::Run(Call {
        job: Job::QueryFrom {
            arch,
            profiles,
            members: members_in(found),
            detail: detail_in(found),
            versions: version_text_in(found),
        },
        first: Some(first),
        second: Some(second),
    }))
}

/// What `query` over these indexes is asked.
fn query_over(
    alloc: Global,
    found: &ArgMatches<'_>,
    relation: RelationArgument,
    indexes: &[&str],
) -> Result<QueryOver, AllocError>
    ensures { IfOk result (λ query. query_of query
        ≡ query_over (rows_of (found_of found.now)) (relation_of relation)
        (map (λ index. index.now) indexes.now)) }
{
    let arch = String::from_str(alloc, word_in(found, "arch"))?;
    let profiles = pieces_in(alloc, found, "profiles")?;
    let indexes = owned_texts(alloc, indexes)?;
    Ok(QueryOver {
        arch,
        profiles,
        relation,
        members: members_in(found),
        detail: detail_in(found),
        versions: version_text_in(found),
        indexes,
    })
}

pub(crate) fn unmet_task(alloc: Global, found: &ArgMatches<'_>) -> Result<Task, UsageFault>
    ensures { Answers (unmet_asked (rows_of (found_of found.now))) result }
{
    match kind_in(alloc, found)? {
        Doc::Packages => unmet_of_packages(alloc, found),
        Doc::Binary => unmet_of_binary(alloc, found),
        Doc::Sources => unmet_of_sources(alloc, found, Dependents::Sources(tried_in(found))),
        Doc::Source => unmet_of_sources(alloc, found, Dependents::Source(tried_in(found))),
        Doc::Status => Err(usage(alloc, NO_STATUS)),
        Doc::Any => Err(usage(alloc, NO_RELATIONS)),
    }
}

/// `unmet` of packages, all of which are tried.
fn unmet_of_packages(alloc: Global, found: &ArgMatches<'_>) -> Result<Task, UsageFault>
    ensures { Answers (unmet_of_packages (rows_of (found_of found.now))) result }
{
    if flag_in(found, "all-sources") {
        return Err(usage(alloc, ALL_SOURCES_OF_PACKAGES));
    }
    unmet_of_files(alloc, found, packages_in(found))
}

/// `unmet` of the control file of a package, which is tried.
fn unmet_of_binary(alloc: Global, found: &ArgMatches<'_>) -> Result<Task, UsageFault>
    ensures { Answers (unmet_of_binary (rows_of (found_of found.now))) result }
{
    if flag_in(found, "all-sources") {
        return Err(usage(alloc, ALL_SOURCES_OF_PACKAGES));
    }
    unmet_of_path(alloc, found, Dependents::Binary(strength_in(found)))
}

/// `unmet` of source packages, which have no Recommends and always the same target.
fn unmet_of_sources(
    alloc: Global,
    found: &ArgMatches<'_>,
    dependents: Dependents,
) -> Result<Task, UsageFault>
    ensures { Answers (unmet_of_sources (rows_of (found_of found.now)) dependents) result }
{
    if flag_in(found, "recommends") {
        return Err(usage(alloc, NO_RECOMMENDS));
    }
    if given(found, "all-for").is_some() {
        return Err(usage(alloc, ALL_FOR_OF_SOURCES));
    }
    unmet_of_path(alloc, found, dependents)
}

/// `unmet` of a file that isn't an index.
fn unmet_of_path(
    alloc: Global,
    found: &ArgMatches<'_>,
    dependents: Dependents,
) -> Result<Task, UsageFault>
    ensures { Answers (unmet_of_path (rows_of (found_of found.now)) dependents) result }
{
    if given(found, "path").is_none() {
        return Err(usage(alloc, KIND_OF_PATH));
    }
    unmet_of_files(alloc, found, dependents)
}

/// `unmet`, at most one of whose files is standard input.
fn unmet_of_files(
    alloc: Global,
    found: &ArgMatches<'_>,
    dependents: Dependents,
) -> Result<Task, UsageFault>
    ensures { Answers (unmet_of_files (rows_of (found_of found.now)) dependents) result }
{
    let paths = paths_in(alloc, found)?;
    if is_standard_input_twice(&paths) {
        return Err(usage(alloc, INPUT_TWICE));
    }
    let files = unmet_files_in(alloc, found)?;
    Ok(Task::Unmet(unmet_in(alloc, found, dependents, files)?))
}

/// The files of `unmet`.
fn unmet_files_in(alloc: Global, found: &ArgMatches<'_>) -> Result<UnmetFiles, AllocError>
    ensures { IfOk result
        (λ files. unmet_files_of files ≡ unmet_files_in (rows_of (found_of found.now))) }
{
    Ok(UnmetFiles {
        unless: text_in(alloc, found, "unless-in")?,
        indexes: indexes_in(alloc, found)?,
        path: path_in(alloc, found)?,
    })
}

/// What `unmet` of these dependents is asked, with its files.
fn unmet_in(
    alloc: Global,
    found: &ArgMatches<'_>,
    dependents: Dependents,
    files: UnmetFiles,
) -> Result<Unmet, AllocError>
    ensures { IfOk result (λ unmet. unmet_of unmet
        ≡ unmet_in (rows_of (found_of found.now)) dependents (unmet_files_of files)) }
{
    Ok(Unmet {
        arch: String::from_str(alloc, word_in(found, "arch"))?,
        profiles: pieces_in(alloc, found, "profiles")?,
        all_for: text_in(alloc, found, "all-for")?,
        members: members_in(found),
        dependents,
        versions: version_text_in(found),
        without: pieces_in(alloc, found, "without")?,
        files,
    })
}

pub(crate) fn latest_task(alloc: Global, found: &ArgMatches<'_>) -> Result<Task, UsageFault>
    ensures { Answers (latest_asked (rows_of (found_of found.now))) result }
{
    match kind_in(alloc, found)? {
        Doc::Packages => latest_of_files(alloc, found, LatestKind::Packages),
        Doc::Sources => latest_of_files(alloc, found, LatestKind::Sources),
        Doc::Binary | Doc::Source | Doc::Status | Doc::Any => Err(usage(alloc, OTHER_LATEST_KIND)),
    }
}

/// `latest` of files of this kind.
fn latest_of_files(
    alloc: Global,
    found: &ArgMatches<'_>,
    kind: LatestKind,
) -> Result<Task, UsageFault>
    ensures { Answers (latest_of_files (rows_of (found_of found.now)) kind) result }
{
    match by_in(found) {
        Some(by) => latest_by(alloc, found, kind, by),
        None => Err(usage(alloc, OTHER_BY)),
    }
}

/// `latest` by these packages, of files none of which is standard input.
fn latest_by(
    alloc: Global,
    found: &ArgMatches<'_>,
    kind: LatestKind,
    by: LatestBy,
) -> Result<Task, UsageFault>
    ensures { Answers (latest_by (rows_of (found_of found.now)) kind by) result }
{
    if reads_standard_input(found) {
        return Err(usage(alloc, READS_TWICE));
    }
    Ok(Task::Latest(LatestOf {
        kind,
        by,
        before: text_in(alloc, found, "before")?,
        paths: texts_in(alloc, found, "path")?,
    }))
}

/// Whether one of the paths is standard input.
fn reads_standard_input(found: &ArgMatches<'_>) -> bool
    ensures { result ≡ list_any is_standard_input
        (texts_asked (all_of (codes "path") (rows_of (found_of found.now)))) }
{
    match all_given(found, "path") {
        Some(paths) => has_standard_input(paths),
        None => false,
    }
}
