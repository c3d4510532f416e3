//! The tasks of `healthy` and `installable`.

ghost use Rattle.std.specs.Prelude.{◌≡◌, IfOk};
ghost use Rattle.clap.specs.Words.{found_of, rows_of};
ghost use Rattle.debctl_args.specs.Asked.{buildable_of_files, buildable_of_kind, healthy_asked, installable_asked, installable_of_packages, packages_to_install, packages_wanted, sources_wanted};
ghost use Rattle.debctl_args.specs.Fitting.{Answers};
ghost use Rattle.debctl_args.specs.Requests.{wanted_of};

use crate::arguments::{INPUT_TWICE, UsageFault, usage};
use crate::found_arguments::{
    budget_in, comma_pieces, flag_in, given, has_input_beside, kind_in, members_in, path_in,
    pieces_in, strength_in, terms_in, word_in,
};
use crate::jobs::{Call, Job, SourceKind, Task};
use clap::ArgMatches;
use deb_base::Doc;
use std::alloc::{AllocError, Global};

/// The text for an `installable` of other files than packages and source packages.
const OTHER_KIND: &str = "usage: installable takes --kind packages, sources or source";

/// The texts for an index and for profiles with packages, which are asked of their own file.
const INDEX_OF_PACKAGES: &str = "usage: installable takes --index only for source packages";

const PROFILES_OF_PACKAGES: &str = "usage: installable takes --profiles only for source packages";

/// The text for lines of packages and a healthy set at once.
const ONLY_OR_WITNESS: &str = "usage: installable takes --only or --witness";

/// The text for names of source packages.
const NAMES_OF_SOURCES: &str =
    "usage: installable takes --only and --witness only for binary packages";

/// The text for an `installable --recommends` of source packages.
const SOURCES_RECOMMEND: &str = "usage: installable takes --recommends only for binary packages";

/// The text for source packages without an index or a path.
const INDEX_AND_PATH: &str = "usage: installable takes source packages only with --index and PATH";

pub(crate) fn healthy_task(alloc: Global, found: &ArgMatches<'_>) -> Result<Task, UsageFault>
    ensures { Answers (healthy_asked (rows_of (found_of found.now))) result }
{
    let arch = String::from_str(alloc, word_in(found, "arch"))?;
    let first = path_in(alloc, found)?;
    Ok(Task::Run(Call {
        job: Job::Healthy {
            arch,
            members: members_in(found),
            strength: strength_in(found),
        },
        first,
        second: None,
    }))
}

pub(crate) fn installable_task(alloc: Global, found: &ArgMatches<'_>) -> Result<Task, UsageFault>
    ensures { Answers (installable_asked (rows_of (found_of found.now))) result }
{
    match kind_in(alloc, found)? {
        Doc::Packages => installable_of_packages(alloc, found),
        Doc::Sources => buildable_of_kind(alloc, found, SourceKind::Sources),
        Doc::Source => buildable_of_kind(alloc, found, SourceKind::Source),
        Doc::Binary | Doc::Status | Doc::Any => Err(usage(alloc, OTHER_KIND)),
    }
}

/// `installable` of packages, which takes neither an index nor profiles, and one list of names.
fn installable_of_packages(alloc: Global, found: &ArgMatches<'_>) -> Result<Task, UsageFault>
    ensures { Answers (installable_of_packages (rows_of (found_of found.now))) result }
{
    if given(found, "index").is_some() {
        return Err(usage(alloc, INDEX_OF_PACKAGES));
    }
    if given(found, "profiles").is_some() {
        return Err(usage(alloc, PROFILES_OF_PACKAGES));
    }
    if given(found, "only").is_some() && given(found, "witness").is_some() {
        return Err(usage(alloc, ONLY_OR_WITNESS));
    }
    packages_to_install(alloc, found)
}

/// `installable` of packages, without arguments that don't go together.
fn packages_to_install(alloc: Global, found: &ArgMatches<'_>) -> Result<Task, UsageFault>
    ensures { Answers (packages_to_install (rows_of (found_of found.now))) result }
{
    let budget = budget_in(alloc, found)?;
    let job = job_on_packages(alloc, found, budget)?;
    Ok(Task::Run(Call {
        job,
        first: path_in(alloc, found)?,
        second: None,
    }))
}

/// The job of `installable` of packages: with `--witness` it finds a set, and otherwise the lines.
fn job_on_packages(alloc: Global, found: &ArgMatches<'_>, budget: u32) -> Result<Job, AllocError>
    ensures { IfOk result
        (λ job. wanted_of job ≡ packages_wanted (rows_of (found_of found.now)) budget) }
{
    let arch = String::from_str(alloc, word_in(found, "arch"))?;
    let terms = terms_in(alloc, found)?;
    let members = members_in(found);
    let strength = strength_in(found);
    let reasons = flag_in(found, "why");
    if let Some(names) = given(found, "witness") {
        return Ok(Job::Witness {
            arch,
            members,
            strength,
            terms,
            names: comma_pieces(alloc, names)?,
            budget,
            reasons,
        });
    }
    Ok(Job::Installable {
        arch,
        members,
        strength,
        terms,
        names: pieces_in(alloc, found, "only")?,
        budget,
        reasons,
    })
}

/// `installable` of source packages, which have no Recommends and aren't in the index. It takes no
/// names.
fn buildable_of_kind(
    alloc: Global,
    found: &ArgMatches<'_>,
    sources: SourceKind,
) -> Result<Task, UsageFault>
    ensures { Answers (buildable_of_kind (rows_of (found_of found.now)) sources) result }
{
    if flag_in(found, "recommends") {
        return Err(usage(alloc, SOURCES_RECOMMEND));
    }
    if given(found, "only").is_some() || given(found, "witness").is_some() {
        return Err(usage(alloc, NAMES_OF_SOURCES));
    }
    if given(found, "index").is_none() || given(found, "path").is_none() {
        return Err(usage(alloc, INDEX_AND_PATH));
    }
    buildable_of_files(alloc, found, sources)
}

/// `installable` of the source packages of a file.
fn buildable_of_files(
    alloc: Global,
    found: &ArgMatches<'_>,
    sources: SourceKind,
) -> Result<Task, UsageFault>
    ensures { Answers (buildable_of_files (rows_of (found_of found.now)) sources) result }
{
    let index = word_in(found, "index");
    if index == "-" && has_input_beside(found) {
        return Err(usage(alloc, INPUT_TWICE));
    }
    let budget = budget_in(alloc, found)?;
    let job = job_on_sources(alloc, found, sources, budget)?;
    let first = String::from_str(alloc, index)?;
    let second = path_in(alloc, found)?;
    Ok(Task::Run(Call {
        job,
        first: Some(first),
        second,
    }))
}

/// The job of `installable` of source packages.
fn job_on_sources(
    alloc: Global,
    found: &ArgMatches<'_>,
    sources: SourceKind,
    budget: u32,
) -> Result<Job, AllocError>
    ensures { IfOk result
        (λ job. wanted_of job ≡ sources_wanted (rows_of (found_of found.now)) sources budget) }
{
    let arch = String::from_str(alloc, word_in(found, "arch"))?;
    let profiles = pieces_in(alloc, found, "profiles")?;
    let terms = terms_in(alloc, found)?;
    Ok(Job::Buildable {
        arch,
        profiles,
        members: members_in(found),
        sources,
        terms,
        budget,
        reasons: flag_in(found, "why"),
    })
}
