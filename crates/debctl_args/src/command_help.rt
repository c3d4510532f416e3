//! What the help of each command prints after its options.

use crate::file_help::{
    AUDIT_HELP, CANON_VERSION_HELP, CHECK_HELP, COMPARE_HELP, DIFF_HELP, EXPLAIN_HELP,
    NORMALISE_HELP, SAME_HELP, SELECT_HELP, SORT_HELP, VERSION_KEY_HELP,
};
use crate::package_help::{HEALTHY_HELP, INSTALLABLE_HELP, LATEST_HELP, QUERY_HELP, UNMET_HELP};

/// Returns what the help of a command prints after its options.
pub(crate) fn help_after(name: &str) -> Option<&'static str> {
    match name {
        "check" => Some(CHECK_HELP),
        "explain" => Some(EXPLAIN_HELP),
        "audit" => Some(AUDIT_HELP),
        "normalise" => Some(NORMALISE_HELP),
        "same" => Some(SAME_HELP),
        "diff" => Some(DIFF_HELP),
        "select" => Some(SELECT_HELP),
        "compare" => Some(COMPARE_HELP),
        "canon-version" => Some(CANON_VERSION_HELP),
        "version-key" => Some(VERSION_KEY_HELP),
        "sort" => Some(SORT_HELP),
        "query" => Some(QUERY_HELP),
        "unmet" => Some(UNMET_HELP),
        "healthy" => Some(HEALTHY_HELP),
        "installable" => Some(INSTALLABLE_HELP),
        "latest" => Some(LATEST_HELP),
        _ => None,
    }
}
