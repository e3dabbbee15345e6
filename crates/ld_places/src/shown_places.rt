//! Where a line of a stream is shown: where its trace says that it comes from, or else where it stands in the files.
ghost use Rattle.std.specs.Prelude.{◌≡◌, ◌<◌, ◌≤◌, ◌-◌, ◌^◌, MatchOption, Some, false, true, length, map, option_map};
ghost use Rattle.std.specs.Char.{is_ascii_digit, is_ascii_graphic};
ghost use Rattle.std.specs.List.{list_all, list_any};
ghost use Rattle.std.specs.Str.Parse.{digits_value};
ghost use Rattle.ld_trace.specs.Lines.{is_empty};
ghost use Rattle.ld_trace.specs.Sources.{plain};
ghost use Rattle.ld_origin.specs.Origin.{plain_origin};
ghost use Rattle.ld_places.specs.Places.{IsPlace, PlainPlace, plain_place};
ghost use Rattle.ld_places.specs.ShownPlaces.{IsSaid, IsSaidOf, IsShownAt, below, has_origin, place_from, said_place, source_at};

use crate::places::{Place, Places};
use ld_origin::{Origin, origin_of};
use ld_trace::Source;

/// Where the lines of some files, which are one stream, are shown. A trace may say where it comes from, as
/// `lockgraph reduce --from` writes it: then its lines are shown there.
#[derive(Clone, Copy)]
pub struct ShownPlaces<'a> {
    /// Where the lines stand in the files.
    pub files: &'a Places<'a>,
    /// The traces of the stream, in their order.
    pub sources: &'a [Source<'a>],
}

impl<'a> ShownPlaces<'a> {
    /// Where this line is shown, counted from 1 over all files, or `None` where no file has it. Takes no memory.
    pub fn place(&self, line: u64) -> Option<Place<'a>>
        ensures { MatchOption result ((place : PlainPlace) → ¬ IsPlace self.now.files.now line place)
            (λ place. IsShownAt self.now.files.now (map plain self.now.sources.now) line (plain_place place)) }
    {
        let own = self.files.place(line)?;
        match self.origin(line) {
            Some(said) => Some(said),
            None => Some(own),
        }
    }

    /// Where the trace of this line says that the line comes from. Takes no memory.
    pub fn origin(&self, line: u64) -> Option<Place<'a>>
        ensures { IsSaidOf (map plain self.now.sources.now) line (option_map plain_place result) }
    {
        let begun = begun(self.sources, line);
        if begun == 0 {
            return None;
        }
        said_place(&self.sources[begun - 1], line)
    }

    /// Whether some trace says where it comes from. Takes no memory.
    pub fn has_origins(&self) -> bool
        ensures { result ≡ list_any (λ source. has_origin (plain source)) self.now.sources.now }
    {
        self.sources.iter().any(|source| has_origin(source))
    }
}

/// Whether a trace says where it comes from.
fn has_origin(source: &Source<'_>) -> bool
    ensures { result ≡ has_origin (plain source.now) }
{
    origin_of(source.bytes).is_some()
}

/// How many traces have begun at this line: their headers stand there or before. (It's a search of its own, since
/// `partition_point` would have each caller know that the traces are in order.)
fn begun(sources: &[Source<'_>], line: u64) -> usize
    ensures within { result ≤ length sources.now }
    ensures behind { 0 < result → (source_at (map plain sources.now) (result - 1)).first_line - 1 ≤ line }
    ensures before { result < length sources.now → line < (source_at (map plain sources.now) result).first_line - 1 }
{
    let mut low = 0;
    let mut high = sources.len();
    while low < high {
        let middle = low + (high - low) / 2;
        let header = sources[middle].first_line.saturating_sub(1);
        if header <= line {
            low = middle + 1;
        } else {
            high = middle;
        }
    }
    low
}

/// Where a trace says that this line of it comes from.
fn said_place<'a>(source: &Source<'a>, line: u64) -> Option<Place<'a>>
    ensures { option_map plain_place result ≡ said_place (plain source.now) line }
{
    match origin_of(source.bytes) {
        Some(origin) => place_from(origin, source.first_line, line),
        None => None,
    }
}

/// Where a line comes from by what the line behind its trace's header says, which is this first one.
fn place_from<'a>(origin: Origin<'a>, first_line: u64, line: u64) -> Option<Place<'a>>
    requires { IsSaid (plain_origin origin) }
    ensures { option_map plain_place result
        ≡ place_from (Some (plain_origin origin.entry)) first_line line }
{
    // It stands in no file, since it was added.
    if line == first_line {
        return None;
    }
    let header = number_of(origin.line)?;
    let own = header.checked_add(line.saturating_sub(first_line))?;
    Some(Place {
        file: text_of(origin.file),
        line: own,
    })
}

/// The number that these digits write, if it is below 2^64.
fn number_of(digits: &[u8]) -> Option<u64>
    requires some { is_empty digits.now ≡ false }
    requires all { list_all is_ascii_digit digits.now ≡ true }
    ensures { result ≡ below (2 ^ 64) (digits_value 10 digits.now) }
{
    match text_of(digits).parse::<u64>() {
        Ok(number) => Some(number),
        Err(_) => None,
    }
}

/// These graphic bytes as a text.
fn text_of(bytes: &[u8]) -> &str
    requires { list_all is_ascii_graphic bytes.now ≡ true }
    ensures { result.now ≡ bytes.now }
{
    match str::from_utf8(bytes) {
        Ok(text) => text,
        Err(_) => "",
    }
}
