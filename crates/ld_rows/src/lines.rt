//! Lines of traces, and where they come from.

/// Where a line of a trace stands.
#[derive(Clone, Copy, Debug, PartialEq, Eq)]
pub struct At<'a> {
    /// The label of the trace.
    pub label: &'a [u8],
    /// The line, counted from 1 over all files as one stream.
    pub line: u64,
    /// The name of its file as it was given, `-` for standard input; or of the file that its trace says it comes from, as
    /// the trace spells it.
    pub file: &'a str,
    /// The path of this file, which other programs open. It may be any bytes, not UTF-8 either.
    pub path: &'a [u8],
    /// The line, counted from 1 in its file.
    pub file_line: u64,
}

/// A line of a trace, what it says, and what a map says of it.
#[derive(Drop)]
pub struct Line<'a> {
    pub at: At<'a>,
    /// What it says, without the end of the line. It may be any bytes but LF.
    pub text: &'a [u8],
    /// Where it comes from, if a map says so.
    pub place: Option<Place>,
}

/// Where a line of a trace comes from, by the map of its file.
#[derive(Drop)]
pub enum Place {
    /// The calls that led to what the line says, the innermost first: one at least.
    Called(Vec<Frame>),
    /// This line of the recording, counted from 1.
    Recorded(u64),
}

/// A call, by where it stands in the source. Texts are as they were before a recorder encoded them: any bytes.
#[derive(Drop)]
pub struct Frame {
    /// The function; `?` if it is unknown.
    pub function: Vec<u8>,
    /// The source file; `FILE+OFFSET` of a binary without debug information.
    pub file: Vec<u8>,
    /// The line of the source file, `None` without debug information.
    pub line: Option<u64>,
}
