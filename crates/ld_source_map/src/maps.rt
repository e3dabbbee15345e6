//! What is known of the lines and of the classes of some files.

use crate::classes::{Origin, next_class};
use crate::map::{At, Map, Taken};
use indexmap::IndexMap;
use std::alloc::{AllocError, Global};

/// What recorders say of some files.
#[derive(Drop)]
pub struct Maps<'m> {
    maps: Vec<Map<'m>>,
    /// Which of the maps is that of a file, by the file's name.
    numbers: IndexMap<&'m [u8], usize>,
    /// By the names of the classes.
    origins: IndexMap<&'m [u8], Origin<'m>>,
}

impl<'m> Maps<'m> {
    /// These maps, of the files of these names in turn, which are this stream together: what its comments say of its
    /// classes is read where there is a map. Where a file is named twice, its last map counts.
    ///
    /// # Errors
    ///
    /// `AllocError` where a growth of memory was refused.
    pub fn of(
        alloc: Global,
        files: &[&'m str],
        given: Vec<Map<'m>>,
        stream: &'m [u8],
    ) -> Result<Maps<'m>, AllocError> {
        let mut maps = Maps {
            maps: given,
            numbers: IndexMap::new(alloc),
            origins: IndexMap::new(alloc),
        };
        match maps.read(files, stream) {
            Ok(()) => Ok(maps),
            Err(refusal) => {
                drop(maps);
                Err(refusal)
            }
        }
    }

    /// Whether there is none.
    pub fn is_empty(&self) -> bool {
        self.maps.is_empty()
    }

    /// Reads which map is that of each file, and what the stream's comments say of its classes.
    fn read(&mut self, files: &[&'m str], stream: &'m [u8]) -> Result<(), AllocError> {
        for (number, file) in files.iter().enumerate() {
            self.numbers.insert(file.as_bytes(), number)?;
        }
        if self.is_empty() {
            return Ok(());
        }
        self.read_classes(stream)
    }

    /// Reads what the comments of a stream say of its classes.
    fn read_classes(&mut self, stream: &'m [u8]) -> Result<(), AllocError> {
        let mut left = stream;
        // Each line has a byte.
        for _ in 0..stream.len() {
            let Some((found, rest)) = next_class(left) else {
                break;
            };
            if let Some((class, origin)) = found {
                self.note(class, origin)?;
            }
            left = rest;
        }
        Ok(())
    }

    /// Notes what the locks of a class are. What was noted first of a class stays.
    fn note(&mut self, class: &'m [u8], origin: Origin<'m>) -> Result<(), AllocError> {
        if self.origins.get(&class).is_none() {
            self.origins.insert(class, origin)?;
        }
        Ok(())
    }

    /// What is known of a line of the file of this name.
    pub fn line(&self, file: &str, line: u64) -> Option<At<'m>> {
        let number = self.numbers.get(&file.as_bytes())?;
        self.maps.get(*number)?.line(line)
    }

    /// What the locks of a class are, whatever its subclass.
    pub fn origin(&self, class: &[u8]) -> Option<Origin<'m>> {
        self.origins.get(&class).copied()
    }

    /// Where locks of a class were acquired most often in one file.
    pub fn taken(&self, class: &[u8]) -> Option<Taken<'m>> {
        let mut most = None;
        for number in self.numbers.values() {
            most = more_often(most, self.taken_in(*number, class));
        }
        most
    }

    /// The same by the map of this number.
    fn taken_in(&self, number: usize, class: &[u8]) -> Option<Taken<'m>> {
        self.maps.get(number)?.taken(class)
    }
}

/// The one of two places where more locks were acquired, the first where neither has more.
fn more_often<'m>(first: Option<Taken<'m>>, second: Option<Taken<'m>>) -> Option<Taken<'m>> {
    match (first, second) {
        (Some(one), Some(other)) if one.count < other.count => second,
        (None, _) => second,
        _ => first,
    }
}
