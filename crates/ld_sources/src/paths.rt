//! Which part of a recorded path a file below a folder may have.

/// How many bytes a path has at most: Linux opens no longer one.
pub(crate) const LONGEST_PATH: usize = 4096;

/// What a path has behind a folder that it begins with; `None` if it begins otherwise, or leads out of the folder.
pub(crate) fn rest_below<'p>(path: &'p str, folder: &str) -> Option<&'p str> {
    let behind = path.strip_prefix(folder)?;
    let rest = if folder.ends_with('/') {
        behind
    } else {
        behind.strip_prefix('/')?
    };
    if behind_ups(rest).len() == rest.len() {
        Some(rest)
    } else {
        None
    }
}

/// What a path has behind its last part `..`, or all of it. Joined to a folder this stays below it.
pub(crate) fn behind_ups(path: &str) -> &str {
    let mut behind = path;
    let mut left = path;
    // Each part but the last one has a `/`.
    for _ in 0..path.len() {
        let Some((part, rest)) = left.split_once('/') else {
            break;
        };
        if part == ".." {
            behind = rest;
        }
        left = rest;
    }
    if left == ".." { "" } else { behind }
}

/// A path without its first part; `None` if it has one alone.
pub(crate) fn shorter(path: &str) -> Option<&str> {
    match path.split_once('/') {
        Some((_, rest)) => Some(rest),
        None => None,
    }
}
