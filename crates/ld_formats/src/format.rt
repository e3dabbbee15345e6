//! Which format is asked for.

use crate::files::Stripped;
use crate::github::github_text;
use crate::html::html_text;
use crate::junit::junit_text;
use crate::ktap::ktap_text;
use crate::sarif::sarif_text;
use ld_rows::Rows;
use ld_sources::Sources;
use std::alloc::{AllocError, Global};

/// A format. Paths to sources and traces lose their beginning.
#[derive(Clone, Copy, Debug)]
pub enum Format<'p> {
    /// SARIF 2.1.0, of a tool of this version.
    Sarif {
        version: &'p str,
        stripped: Stripped<'p>,
    },
    /// Workflow commands of GitHub.
    Github(Stripped<'p>),
    /// JUnit's XML.
    Junit(Stripped<'p>),
    /// KTAP of version 1, which readers of TAP take, too.
    Ktap,
    /// One page of HTML, of a program of this version. It needs all classes and dependencies.
    Html {
        version: &'p str,
    },
}

/// What a report says, in a format. All that comes from a stream, a map, a source or the command line is escaped. A page
/// shows the lines of these sources.
///
/// # Errors
///
/// `AllocError` if a growth of memory was refused.
pub fn format_text(
    alloc: Global,
    rows: &Rows<'_>,
    sources: &Sources<'_>,
    format: &Format<'_>,
) -> Result<Vec<u8>, AllocError> {
    match format {
        Format::Sarif { version, stripped } => sarif_text(alloc, rows, version, stripped),
        Format::Github(stripped) => github_text(alloc, rows, stripped),
        Format::Junit(stripped) => junit_text(alloc, rows, stripped),
        Format::Ktap => ktap_text(alloc, rows),
        Format::Html { version } => html_text(alloc, rows, sources, version),
    }
}
