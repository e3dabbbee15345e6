//! Lines of traces, and where they come from.
ghost use Rattle.std.specs.Prelude.{◌≡◌, IfOk};

use crate::known::known_at;
use crate::rows::origins::place_of;
use crate::rows::paths::FilePaths;
use crate::sightings::Texts;
use ld_overview::Witness;
use ld_places::ShownPlaces;
use ld_rows::{At, Line};
use ld_source_map::Maps;
use ld_trace::Source;
use std::alloc::{AllocError, Global};

/// Where the lines of traces stand.
#[derive(Clone, Copy)]
pub struct Placing<'t, 'a> {
    /// The traces, each at the place of its number.
    pub sources: &'t [Source<'a>],
    /// Where their lines are shown.
    pub places: &'t ShownPlaces<'a>,
    /// The paths of the files that they say they come from.
    pub paths: &'a FilePaths<'a>,
}

impl<'t, 'a> Placing<'t, 'a> {
    /// Where this line stands. The line of no file stands in a file without a name.
    pub fn at(&self, at: Witness) -> At<'a>
        ensures { result.line ≡ at.line }
    {
        let label = self.label(at.number);
        let line = at.line;
        match self.places.place(line) {
            Some(place) => At {
                label,
                line,
                file: place.file,
                path: self.path(at, place.file),
                file_line: place.line,
            },
            None => At {
                label,
                line,
                file: "",
                path: &[],
                file_line: line,
            },
        }
    }

    /// The path of the file at which a line is shown.
    fn path(&self, at: Witness, file: &'a str) -> &'a [u8] {
        if self.places.origin(at.line).is_some() {
            self.paths.path(file)
        } else {
            file.as_bytes()
        }
    }

    /// The label of a trace.
    fn label(&self, number: u64) -> &'a [u8] {
        match self.sources.get(number as usize) {
            Some(source) => source.name,
            None => &[],
        }
    }
}

/// What lines of traces say, and where they come from.
#[derive(Clone, Copy)]
pub struct Lines<'t, 'a> {
    pub alloc: Global,
    pub placing: Placing<'t, 'a>,
    pub maps: &'t Maps<'t>,
    pub texts: &'t Texts<'a>,
}

impl<'t, 'a> Lines<'t, 'a> {
    /// This line.
    pub fn line(&self, at: Witness) -> Result<Line<'a>, AllocError>
        ensures { IfOk result (λ line. line.at.line ≡ at.line) }
    {
        let text = self.texts.at(at);
        let at = self.placing.at(at);
        let place = match known_at(self.placing.places, self.maps, at.line) {
            Some(known) => Some(place_of(self.alloc, known)?),
            None => None,
        };
        Ok(Line { at, text, place })
    }
}
