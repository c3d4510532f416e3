//! The tasks of `compare`, `canon-version`, `version-key` and `sort`.

ghost use Rattle.clap.specs.Words.{found_of, rows_of};
ghost use Rattle.debctl_args.specs.Asked.{canon_version_asked, compare_asked, sort_asked, version_key_asked};
ghost use Rattle.debctl_args.specs.Fitting.{Answers};

use crate::arguments::{UsageFault, usage};
use crate::found_arguments::{flag_in, path_in, texts_in, word_in};
use crate::jobs::{Call, Job, Task};
use crate::operator_argument::operator_named;
use clap::ArgMatches;
use std::alloc::Global;

pub(crate) fn compare_task(alloc: Global, found: &ArgMatches<'_>) -> Result<Task, UsageFault>
    ensures { Answers (compare_asked (rows_of (found_of found.now))) result }
{
    let Some(operator) = operator_named(word_in(found, "operator")) else {
        return Err(usage(alloc, "usage: unknown operator"));
    };
    let left = String::from_str(alloc, word_in(found, "left"))?;
    let right = String::from_str(alloc, word_in(found, "right"))?;
    Ok(Task::Run(Call {
        job: Job::Compare(left, operator, right),
        first: None,
        second: None,
    }))
}

pub(crate) fn canon_version_task(alloc: Global, found: &ArgMatches<'_>) -> Result<Task, UsageFault>
    ensures { Answers (canon_version_asked (rows_of (found_of found.now))) result }
{
    let version = String::from_str(alloc, word_in(found, "version"))?;
    Ok(Task::Run(Call {
        job: Job::CanonVersion(version),
        first: None,
        second: None,
    }))
}

pub(crate) fn version_key_task(alloc: Global, found: &ArgMatches<'_>) -> Result<Task, UsageFault>
    ensures { Answers (version_key_asked (rows_of (found_of found.now))) result }
{
    let versions = texts_in(alloc, found, "version")?;
    Ok(Task::Run(Call {
        job: Job::VersionKey(versions),
        first: None,
        second: None,
    }))
}

pub(crate) fn sort_task(alloc: Global, found: &ArgMatches<'_>) -> Result<Task, UsageFault>
    ensures { Answers (sort_asked (rows_of (found_of found.now))) result }
{
    let reverse = flag_in(found, "reverse");
    Ok(Task::Run(Call {
        job: Job::Sort { reverse },
        first: path_in(alloc, found)?,
        second: None,
    }))
}
