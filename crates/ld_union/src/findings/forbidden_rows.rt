//! `ForbiddenRows`, the forbidden walks of one state, and `WalkList`, many walks by the numbers of their classes.
ghost use Rattle.std.specs.Prelude.{◌≡◌, ◌<◌, ◌^◌, [], ◌∷◌, ◌++◌, All, OnOk, length, map, slice_index_or};
ghost use Rattle.ld_union.specs.Findings.{plain_forbidden_row};
ghost use Rattle.ld_union.specs.Forbidden.{PlainForbiddenRow};
ghost use Rattle.ld_union.specs.Inner.Walks.{IsWithin, NumberedWalk, walk_row};

use crate::alarms::{in_bit, on_bit};
use crate::findings::used::used_class;
use crate::union::Union;
use crate::walk::WalkNames;
use ld_class::ClassName;
use ld_rules::Witness;
use ld_trace::State;
use std::alloc::{AllocError, Global};
use std::marker::Model;

/// A walk from a class that handlers of the state acquire to one that is held where they can
/// interrupt.
#[derive(Drop)]
pub struct ForbiddenRow<'r, 'a> {
    /// The state that the usage bits are of.
    pub state: State,
    /// The class with the IN bit, where the walk begins.
    pub from: ClassName<'a>,
    /// The usage characters of `from`.
    pub from_marks: [u8; 4],
    /// Where the IN bit of `from` was first seen: a handler acquired it, and not by a trylock.
    pub safe_at: Witness,
    /// The class with the ON bit, where the walk ends.
    pub to: ClassName<'a>,
    /// The usage characters of `to`.
    pub to_marks: [u8; 4],
    /// Where the ON bit of `to` was first seen: it was held while a handler could interrupt.
    pub unsafe_at: Witness,
    /// The shown walk from `from` to `to`.
    pub via: WalkNames<'r, 'a>,
}

/// The forbidden walks of a state, seen as the list of their rows. It keeps the numbers of their classes alone, and
/// makes a row as it is asked for, so that a million rows take little memory.
#[derive(Drop)]
pub struct ForbiddenRows<'u, 'a> {
    union: &'u Union<'a>,
    state: State,
    walks: WalkList,
}

impl<'u, 'a> Model for ForbiddenRows<'u, 'a> {
    ghost use Rattle.std.specs.Prelude.{List, map, length, All};
    ghost use Rattle.ld_union.specs.Forbidden.{PlainForbiddenRow};
    ghost use Rattle.ld_union.specs.Inner.Walks.{IsWithin, walk_row};

    ghost Value = { List PlainForbiddenRow };

    ghost view = { λ r. map (walk_row r.union.now r.state) r.walks };

    ghost invariant = { λ r. All (IsWithin (length r.union.now.classes)) r.walks };
}

impl<'u, 'a> ForbiddenRows<'u, 'a> {
    /// The rows of these walks, from a class that handlers of the state acquire to one that is held where they can
    /// interrupt.
    pub(crate) fn new(union: &'u Union<'a>, state: State, walks: WalkList) -> ForbiddenRows<'u, 'a>
        requires { All (IsWithin (length union.now.classes)) walks }
        ensures { result ≡ map (walk_row union.now state) walks }
    {
        ForbiddenRows {
            union,
            state,
            walks,
        }
    }

    /// No row.
    pub(crate) fn none(alloc: Global, union: &'u Union<'a>, state: State) -> ForbiddenRows<'u, 'a>
        ensures { result ≡ [] }
    {
        ForbiddenRows::new(union, state, WalkList::new(alloc))
    }

    /// How many rows there are. Takes no memory.
    pub fn len(&self) -> usize
        ensures len { result ≡ length self.now }
        ensures few { length self.now < 2 ^ 59 }
    {
        self.walks.len()
    }

    /// The row at this place. Takes no memory.
    pub fn row(&self, place: usize) -> ForbiddenRow<'_, 'a>
        requires { place < length self.now }
        ensures { (other : PlainForbiddenRow) → plain_forbidden_row result ≡ slice_index_or self.now place other }
    {
        let walk = self.walks.walk(place);
        let acquired = used_class(self.union, walk.from, in_bit(self.state));
        let held = used_class(self.union, walk.to, on_bit(self.state));
        ForbiddenRow {
            state: self.state,
            from: acquired.name,
            from_marks: acquired.marks,
            safe_at: acquired.at,
            to: held.name,
            to_marks: held.marks,
            unsafe_at: held.at,
            via: WalkNames::new(self.union.classes(), walk.via),
        }
    }
}

/// The ends of a walk, and where its numbers stand.
#[derive(Clone, Copy)]
pub struct Part {
    from: u32,
    to: u32,
    start: usize,
    len: usize,
}

/// A walk by the numbers of its classes, with its ends.
#[derive(Clone, Copy)]
pub(crate) struct Numbered<'w> {
    pub(crate) from: u32,
    pub(crate) to: u32,
    pub(crate) via: &'w [u32],
}

/// Walks between classes, seen as the list of them. It keeps all numbers in one list, so that many short walks take
/// little memory.
#[derive(Drop)]
pub(crate) struct WalkList {
    numbers: Vec<u32>,
    parts: Vec<Part>,
}

impl Model for WalkList {
    ghost use Rattle.std.specs.Prelude.{List, map, length, All};
    ghost use Rattle.ld_union.specs.Inner.Walks.{NumberedWalk};
    ghost use Rattle.ld_union.specs.Inner.Parts.{IsPartOf, part_of};

    ghost Value = { List NumberedWalk };

    ghost view = { λ w. map (part_of w.numbers.items) w.parts.items };

    ghost invariant = { λ w. All (IsPartOf (length w.numbers.items)) w.parts.items };
}

impl WalkList {
    /// No walk. Takes no memory.
    pub(crate) fn new(alloc: Global) -> WalkList
        ensures { result ≡ [] }
    {
        WalkList {
            numbers: Vec::new(alloc),
            parts: Vec::new(alloc),
        }
    }

    /// How many walks there are.
    pub(crate) fn len(&self) -> usize
        ensures len { result ≡ length self.now }
        ensures few { length self.now < 2 ^ 59 }
    {
        self.parts.as_slice().len()
    }

    /// Puts a walk between these classes behind the others.
    pub(crate) fn push(&mut self, from: u32, to: u32, via: &[u32]) -> Result<(), AllocError>
        ensures { OnOk result (self.new ≡ self.old ++ record { from = from; to = to; via = via.now } ∷ []) }
    {
        let start = self.numbers.len();
        self.numbers.extend_from_slice(via)?;
        self.parts.push(Part {
            from,
            to,
            start,
            len: via.len(),
        })?;
        Ok(())
    }

    /// The walk at this place.
    pub(crate) fn walk(&self, place: usize) -> Numbered<'_>
        requires { place < length self.now }
        ensures { (other : NumberedWalk) → record { from = result.from; to = result.to; via = result.via.now } ≡ slice_index_or self.now place other }
    {
        let part = self.parts[place];
        Numbered {
            from: part.from,
            to: part.to,
            via: &self.numbers[part.start..part.start + part.len],
        }
    }
}
