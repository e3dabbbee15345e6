//! `Walk`, the names of a walk by their numbers.
ghost use Rattle.std.specs.Prelude.{◌≡◌, ◌<◌, All, length, map, slice_index_or};
ghost use Rattle.ld_class.specs.Names.{no_class, plain_class};

use ld_class::{ClassName, Classes};
use std::marker::Model;

/// The classes of a walk, seen as the list of their names. It keeps their numbers alone, so that many long walks take
/// little memory.
#[derive(Drop)]
pub struct Walk<'u, 'a> {
    classes: &'u Classes<'a>,
    numbers: Vec<u32>,
}

impl<'u, 'a> Model for Walk<'u, 'a> {
    ghost use Rattle.std.specs.Prelude.{◌<◌, All, List, length, map, slice_index_or};
    ghost use Rattle.ld_class.specs.Names.{PlainClass, no_class};

    ghost Value = { List PlainClass };

    ghost view = { λ w. map (λ n. slice_index_or w.classes.now n no_class) w.numbers.items };

    ghost invariant = { λ w. All (λ c. c < length w.classes.now) w.numbers.items };
}

impl<'u, 'a> Walk<'u, 'a> {
    /// The walk over the classes with these numbers.
    pub(crate) fn new(classes: &'u Classes<'a>, numbers: Vec<u32>) -> Walk<'u, 'a>
        requires { All (λ c. c < length classes.now) numbers.items }
        ensures { result ≡ map (λ n. slice_index_or classes.now n no_class) numbers.items }
    {
        Walk { classes, numbers }
    }

    /// The names of its classes. Takes no memory.
    pub fn names(&self) -> WalkNames<'_, 'a>
        ensures { result ≡ self.now }
    {
        WalkNames::new(self.classes, &self.numbers)
    }
}

/// The names of the classes of a walk that something else keeps, seen as the list of them.
#[derive(Drop)]
pub struct WalkNames<'w, 'a> {
    classes: &'w Classes<'a>,
    numbers: &'w [u32],
}

impl<'w, 'a> Model for WalkNames<'w, 'a> {
    ghost use Rattle.std.specs.Prelude.{◌<◌, All, List, length, map, slice_index_or};
    ghost use Rattle.ld_class.specs.Names.{PlainClass, no_class};

    ghost Value = { List PlainClass };

    ghost view = { λ w. map (λ n. slice_index_or w.classes.now n no_class) w.numbers.now };

    ghost invariant = { λ w. All (λ c. c < length w.classes.now) w.numbers.now };
}

impl<'w, 'a> WalkNames<'w, 'a> {
    /// The names of the classes with these numbers.
    pub(crate) fn new(classes: &'w Classes<'a>, numbers: &'w [u32]) -> WalkNames<'w, 'a>
        requires { All (λ c. c < length classes.now) numbers.now }
        ensures { result ≡ map (λ n. slice_index_or classes.now n no_class) numbers.now }
    {
        WalkNames { classes, numbers }
    }

    /// How many classes the walk goes over.
    pub fn len(&self) -> usize
        ensures { result ≡ length self.now }
    {
        self.numbers.len()
    }

    /// The name of the class at this place.
    pub fn name(&self, place: usize) -> ClassName<'a>
        requires { place < length self.now }
        ensures { plain_class result ≡ slice_index_or self.now place no_class }
    {
        self.classes.name(self.numbers[place])
    }
}
