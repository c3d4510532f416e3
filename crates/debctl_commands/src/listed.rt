//! Reads the paths in a list for `audit`.

ghost use Rattle.std.specs.Prelude.{◌≡◌, map, IfOk};
ghost use Rattle.debctl_commands.specs.ListedPaths.{paths_of};

use std::alloc::{AllocError, Global};

/// Returns the paths of a list. A byte 0 follows each; it may be missing after the last one.
pub(crate) fn listed_paths<'a>(alloc: Global, list: &'a [u8]) -> Result<Vec<&'a [u8]>, AllocError>
    ensures { IfOk result (λ paths. map (λ path. path.now) paths.items ≡ paths_of list.now) }
{
    let mut paths: Vec<&'a [u8]> = list.split(|byte| *byte == 0).collect(alloc)?;
    let count = paths.len();
    if count > 0 && paths[count - 1].is_empty() {
        paths.truncate(count - 1);
    }
    Ok(paths)
}
