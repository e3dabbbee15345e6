//! Adds the names of one list to another, and finds them there, with hints of where they were before.
ghost use Rattle.std.specs.Prelude.{◌≡◌, ◌+◌, ◌-◌, ◌<◌, ◌≤◌, OnErr, OnOk, drop, length, slice_index_or, take};
ghost use Rattle.ld_class.specs.Names.{IsNameAt, no_class, plain_class, with_name};
ghost use Rattle.ld_class.specs.declared.names.TheConstants.{MOST_NAMES};
ghost use Rattle.ld_batch.specs.Inner.Names.{AreThere, IsLonger, with_names};

use ld_class::{ClassList, ClassName, Classes};
use std::alloc::{AllocError, Global};

/// Interns those of `more` from the place `first` on; the ones in front are names already. Each is looked for where the
/// hints say first, which know the names by `numbers`; the hints then have their places, as far as there is memory
/// for them.
///
/// # Errors
///
/// `AllocError` where a growth of memory was refused. The names are then as before.
pub fn intern_all<'a>(
    names: &mut Classes<'a>,
    more: &ClassList<'a>,
    first: usize,
    numbers: &[u32],
    hints: &mut Hints,
) -> Result<(), AllocError>
    requires room { length names.old + length more.now ≤ MOST_NAMES }
    requires within { first ≤ length more.now }
    requires there { AreThere names.old (take first more.now) }
    ensures names { OnOk result (names.new ≡ with_names names.old (drop first more.now)) }
    ensures longer { OnOk result (IsLonger names.old names.new (length more.now - first)) }
    ensures there { OnOk result (AreThere names.new more.now) }
    ensures refused { OnErr result (names.new ≡ names.old) }
{
    let count = names.len();
    let new = more.len() - first;
    for id in 0..new {
        let place = first + id;
        let number = number_at(numbers, place);
        let name = more.name(place as u32);
        let Ok(here) = intern_hinted(names, name, hints.class(number)) else {
            names.cut(count);
            return Err(AllocError);
        };
        hints.keep_class(number, here);
    }
    Ok(())
}

/// The place among the names of the class at this place of the list, which is one of them. It is looked for where the
/// hints say first, by its number. Takes no memory but for a hint.
pub fn place_in(
    names: &Classes<'_>,
    list: &ClassList<'_>,
    place: u32,
    number: u32,
    hints: &mut Hints,
) -> u32
    requires within { place < length list.now }
    requires there { AreThere names.now list.now }
    ensures { IsNameAt names.now result (slice_index_or list.now place no_class) }
{
    let name = list.name(place);
    let hint = hints.class(number);
    if names.is_at(hint, name) {
        return hint;
    }
    let Some(here) = names.find(name) else {
        unreachable!()
    };
    hints.keep_class(number, here);
    here
}

/// The number at a place, or 0: no clause says that there are as many as names, and for a hint any will do.
pub(crate) fn number_at(numbers: &[u32], place: usize) -> u32 {
    match numbers.get(place) {
        Some(number) => *number,
        None => 0,
    }
}

/// The place of a name, which is put last where it is new, and looked for at the hint first.
///
/// `AllocError` where it is new and the memory for it was refused.
fn intern_hinted<'a>(
    names: &mut Classes<'a>,
    class: ClassName<'a>,
    hint: u32,
) -> Result<u32, AllocError>
    requires { length names.old < MOST_NAMES }
    ensures names { OnOk result (names.new ≡ with_name names.old (plain_class class.entry)) }
    ensures refused { OnErr result (names.new ≡ names.old) }
{
    if names.is_at(hint, class) {
        return Ok(hint);
    }
    names.intern(class)
}

/// Where a union may have the classes of a batch, by the numbers that the batch's scan has for them. It had each there
/// when an earlier batch of this worker was added. One comparison confirms a hint; else the class is looked up.
///
/// It has no meaning: no clause says what is in it. Where memory for a hint is refused there is none.
#[derive(Drop)]
pub struct Hints {
    classes: Vec<u32>,
}

/// How many hints are kept at most: numbers that differ by a multiple of it have one in common.
const MOST_HINTS: usize = 1 << 20;

impl Hints {
    /// No hint. Takes no memory.
    pub fn new(alloc: Global) -> Hints {
        Hints {
            classes: Vec::new(alloc),
        }
    }

    /// Where the class of this number may be.
    pub fn class(&self, number: u32) -> u32 {
        match self.classes.get(number as usize % MOST_HINTS) {
            Some(place) => *place,
            None => 0,
        }
    }

    /// The class of this number is there. It is kept where there is memory for it.
    pub fn keep_class(&mut self, number: u32, place: u32) {
        let index = number as usize % MOST_HINTS;
        if self.classes.len() <= index && self.classes.resize(index + 1, 0).is_err() {
            return;
        }
        self.classes[index] = place;
    }
}
