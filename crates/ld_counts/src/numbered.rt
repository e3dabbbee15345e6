//! Finds the number of a class by its name.

use crate::hints::{Hints, key_of};
use ld_class::{ClassName, Classes};
use std::alloc::{AllocError, Global};

/// Finds the numbers of classes by their names; of those that are met again and again mostly without a search
/// of all.
#[derive(Drop)]
pub(crate) struct Numbered<'c, 'a> {
    classes: &'c Classes<'a>,
    hints: Hints,
}

impl<'c, 'a> Numbered<'c, 'a> {
    pub(crate) fn new(
        alloc: Global,
        classes: &'c Classes<'a>,
    ) -> Result<Numbered<'c, 'a>, AllocError> {
        let hints = Hints::new(alloc)?;
        Ok(Numbered { classes, hints })
    }

    /// The classes whose numbers are found.
    pub(crate) fn classes(&self) -> &'c Classes<'a> {
        self.classes
    }

    /// The number of a class.
    pub(crate) fn find(&mut self, class: ClassName<'_>) -> Option<u32> {
        let key = key_of(class.name).wrapping_add((class.sub as u64) << 52);
        if let Ok(hint) = u32::try_from(self.hints.of(key)) {
            if self.classes.is_at(hint, class) {
                return Some(hint);
            }
        }
        let found = self.classes.find(class)?;
        self.hints.note(key, found as u64);
        Some(found)
    }
}
