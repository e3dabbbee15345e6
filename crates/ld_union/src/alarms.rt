//! A violation of each kind, as they are found by the numbers of the classes.
ghost use Rattle.std.specs.Prelude.{◌≡◌, ◌↔◌, ℕ, ◌<◌, true, length, All, IsTrue, MatchOption};
ghost use Rattle.std.specs.Prelude.{[], List, IfSome, option_map, slice_index_or};
ghost use Rattle.ld_class.specs.Names.{PlainClass, no_class, plain_class};
ghost use Rattle.ld_class.specs.Usage.{has_bit, no_bits};
ghost use Rattle.ld_rules.specs.Usage.{usage_of};
ghost use Rattle.ld_rules.specs.Usage.Bit.{In, On};
ghost use Rattle.ld_union.specs.Alarms.{IsExact, plain_alarms};
ghost use Rattle.ld_union.specs.Inner.Numbers.{AreFound, AreWithin, IsConflictAt, IsForbiddenAt};
ghost use Rattle.ld_union.specs.Inner.Numbers.{IsNothing, IsTold, named_alarms, named_pair};
ghost use Rattle.ld_union.specs.Inner.Delta.{Tells, TellsBits};
ghost use Rattle.ld_union.specs.Inner.Union.{PlainUnion, edges_of};
ghost use Rattle.ld_union.specs.Usage.{bits_of};

use crate::delta::{Delta, NewBit};
use crate::reaches::PerState;
use crate::union::Union;
use crate::usage::UsageRow;
use bitflags::Flags;
use ld_class::{ClassName, Classes, Usage};
use ld_graph::Edge;
use ld_trace::State;

/// For each kind of violation one that the traces show, or none where they show none of the kind.
/// Where there are two states, the hard one comes first.
#[derive(Clone, Copy, Debug, PartialEq, Eq)]
pub struct Alarms<'a> {
    /// The two classes of a dependency on a cycle. They are equal where a class is acquired under
    /// itself.
    pub cycle: Option<(ClassName<'a>, ClassName<'a>)>,
    /// A class that handlers of the state acquire, and that is held where they can interrupt.
    pub conflict: [Option<ClassName<'a>>; 2],
    /// A class that handlers of the state acquire, and one that is held where they can interrupt and
    /// to which a walk leads.
    pub forbidden: [Option<(ClassName<'a>, ClassName<'a>)>; 2],
}

/// The same, by the numbers of the classes.
#[derive(Clone, Copy, Debug, PartialEq, Eq)]
pub struct Found {
    /// An edge on a cycle.
    pub cycle: Option<Edge>,
    /// A class with both bits of the state.
    pub conflict: PerState<Option<u32>>,
    /// A forbidden walk of the state.
    pub forbidden: PerState<Option<Forbidden>>,
}

/// A walk that may not be, by the numbers of its ends.
#[derive(Clone, Copy, Debug, PartialEq, Eq)]
pub struct Forbidden {
    /// A class that handlers acquire.
    pub from: u32,
    /// One that is held where they can interrupt.
    pub to: u32,
}

impl Found {
    /// Nothing.
    pub fn new() -> Found
        ensures { AreFound [] [] result }
    {
        Found {
            cycle: None,
            conflict: PerState {
                hard: None,
                soft: None,
            },
            forbidden: PerState {
                hard: None,
                soft: None,
            },
        }
    }

    /// Whether nothing of any kind was found.
    pub(crate) fn is_nothing(&self) -> bool
        ensures { result ≡ true → IsNothing self.now }
    {
        self.cycle.is_none()
            && self.conflict.hard.is_none()
            && self.conflict.soft.is_none()
            && self.forbidden.hard.is_none()
            && self.forbidden.soft.is_none()
    }

    /// Looks for each kind of which nothing was found yet, where what `delta` tells could have made one:
    /// for a conflict at the new bits, and for a forbidden walk at the classes that were reached since and
    /// at the new bits. The union knows whether there is a cycle. What was found stays: nothing that traces
    /// show is taken back. Takes no memory.
    pub fn note(&mut self, union: &Union<'_>, delta: &Delta)
        requires { IsTold union.now delta.now }
        ensures { (old : PlainUnion) → Tells old union.now delta.now
            → AreFound (edges_of old.dependencies) (bits_of old.usage) self.old
            → AreFound (edges_of union.now.dependencies) (bits_of union.now.usage) self.new }
    {
        let bits = delta.bits();
        self.cycle = union.closing();
        self.conflict = PerState {
            hard: conflict_then(self.conflict.hard, union.usage(), bits, State::Hard),
            soft: conflict_then(self.conflict.soft, union.usage(), bits, State::Soft),
        };
        self.forbidden = PerState {
            hard: forbidden_then(self.forbidden.hard, union, delta, State::Hard),
            soft: forbidden_then(self.forbidden.soft, union, delta, State::Soft),
        };
    }

    /// The alarms with the names of the classes.
    pub fn named<'a>(&self, classes: &Classes<'a>) -> Alarms<'a>
        requires { AreWithin (length classes.now) self.now }
        ensures { plain_alarms result ≡ named_alarms classes.now self.now }
    {
        Alarms {
            cycle: edge_names(classes, self.cycle),
            conflict: [
                class_name(classes, self.conflict.hard),
                class_name(classes, self.conflict.soft),
            ],
            forbidden: [
                end_names(classes, self.forbidden.hard),
                end_names(classes, self.forbidden.soft),
            ],
        }
    }
}

/// The class with both bits of the state that was found before, or else one that has them since these
/// bits came.
fn conflict_then(
    found: Option<u32>,
    rows: &[UsageRow],
    bits: &[NewBit],
    state: State,
) -> Option<u32>
    requires { All (λ told. told.class < length rows.now) bits.now }
    ensures { (usage : List Usage) → TellsBits usage (bits_of rows.now) bits.now
        → IsExact (IsConflictAt usage state) found
        → IsExact (IsConflictAt (bits_of rows.now) state) result }
{
    if found.is_some() {
        return found;
    }
    conflict_among(rows, bits, state)
}

/// The forbidden walk of the state that was found before, or else one that is there since what is told
/// came: to a class that was reached since, or to one that has the other bit since.
fn forbidden_then(
    found: Option<Forbidden>,
    union: &Union<'_>,
    delta: &Delta,
    state: State,
) -> Option<Forbidden>
    requires { IsTold union.now delta.now }
    ensures { (old : PlainUnion) → Tells old union.now delta.now
        → IsExact (λ w. IsForbiddenAt (edges_of old.dependencies) (bits_of old.usage)
        state w.from w.to) found
        → IsExact (λ w. IsForbiddenAt (edges_of union.now.dependencies) (bits_of union.now.usage)
        state w.from w.to) result }
{
    if found.is_some() {
        return found;
    }
    let reached = &union.reached(state)[delta.first_reached(state)..];
    if let Some(walk) = walk_to_reached(union, reached, state) {
        return Some(walk);
    }
    walk_to_held(union, delta.bits(), state)
}

/// The names of the edge's classes, if there is one.
fn edge_names<'a>(
    classes: &Classes<'a>,
    edge: Option<Edge>,
) -> Option<(ClassName<'a>, ClassName<'a>)>
    requires { IfSome edge (λ e. (e.from < length classes.now) × (e.to < length classes.now)) }
    ensures { option_map {U = PlainClass × PlainClass} (λ p. (plain_class p.0, plain_class p.1)) result
        ≡ option_map (λ e. named_pair classes.now e.from e.to) edge }
{
    let edge = edge?;
    Some((classes.name(edge.from), classes.name(edge.to)))
}

/// The name of the class, if there is one.
fn class_name<'a>(classes: &Classes<'a>, class: Option<u32>) -> Option<ClassName<'a>>
    requires { IfSome class (λ c. c < length classes.now) }
    ensures { option_map plain_class result
        ≡ option_map (λ c. slice_index_or classes.now c no_class) class }
{
    Some(classes.name(class?))
}

/// The names of the ends of the walk, if there is one.
fn end_names<'a>(
    classes: &Classes<'a>,
    walk: Option<Forbidden>,
) -> Option<(ClassName<'a>, ClassName<'a>)>
    requires { IfSome walk (λ w. (w.from < length classes.now) × (w.to < length classes.now)) }
    ensures { option_map {U = PlainClass × PlainClass} (λ p. (plain_class p.0, plain_class p.1)) result
        ≡ option_map (λ w. named_pair classes.now w.from w.to) walk }
{
    let walk = walk?;
    Some((classes.name(walk.from), classes.name(walk.to)))
}

/// A class with one of these bits that has both bits of the state, or `None` where none has.
fn conflict_among(rows: &[UsageRow], bits: &[NewBit], state: State) -> Option<u32>
    requires { All (λ told. told.class < length rows.now) bits.now }
    ensures { MatchOption result
        (All (λ told. ¬ IsConflictAt (bits_of rows.now) state told.class) bits.now)
        (IsConflictAt (bits_of rows.now) state) }
{
    for told in bits {
        if conflict_at(rows, told.class as usize, state) {
            return Some(told.class);
        }
    }
    None
}

/// Whether the class has both bits of the state.
fn conflict_at(rows: &[UsageRow], class: usize, state: State) -> bool
    requires { class < length rows.now }
    ensures { IsTrue result ↔ IsConflictAt (bits_of rows.now) state class }
{
    has(rows, class, in_bit(state)) && has(rows, class, on_bit(state))
}

/// A forbidden walk of the state to one of these classes, or `None` where there is none.
fn walk_to_reached(union: &Union<'_>, classes: &[u32], state: State) -> Option<Forbidden>
    requires { All (λ class. class < length union.now.classes) classes.now }
    ensures { MatchOption result
        (All (λ class. (from : ℕ) → ¬ IsForbiddenAt (edges_of union.now.dependencies)
        (bits_of union.now.usage) state from class) classes.now)
        (λ w. IsForbiddenAt (edges_of union.now.dependencies) (bits_of union.now.usage)
        state w.from w.to) }
{
    for &class in classes {
        if let Some(walk) = walk_to(union, class, state) {
            return Some(walk);
        }
    }
    None
}

/// A forbidden walk of the state to a class that has with these bits the one of a class that is held where
/// handlers of the state can interrupt, or `None` where there is none.
fn walk_to_held(union: &Union<'_>, bits: &[NewBit], state: State) -> Option<Forbidden>
    requires { All (λ told. told.class < length union.now.classes) bits.now }
    ensures { MatchOption result
        (All (λ told. told.bit ≡ usage_of (On state) → (from : ℕ) →
        ¬ IsForbiddenAt (edges_of union.now.dependencies) (bits_of union.now.usage)
        state from told.class) bits.now)
        (λ w. IsForbiddenAt (edges_of union.now.dependencies) (bits_of union.now.usage)
        state w.from w.to) }
{
    for told in bits {
        if told.bit == on_bit(state) {
            if let Some(walk) = walk_to(union, told.class, state) {
                return Some(walk);
            }
        }
    }
    None
}

/// A forbidden walk of the state to the class, or `None` where there is none.
fn walk_to(union: &Union<'_>, class: u32, state: State) -> Option<Forbidden>
    requires { class < length union.now.classes }
    ensures { MatchOption result
        ((from : ℕ) → ¬ IsForbiddenAt (edges_of union.now.dependencies)
        (bits_of union.now.usage) state from class)
        (λ w. IsForbiddenAt (edges_of union.now.dependencies) (bits_of union.now.usage)
        state w.from w.to) }
{
    if !has(union.usage(), class as usize, on_bit(state)) {
        return None;
    }
    let from = union.source(state, class)?;
    Some(Forbidden { from, to: class })
}

/// Whether the class has the bit.
pub(crate) fn has(rows: &[UsageRow], class: usize, bit: Usage) -> bool
    requires { class < length rows.now }
    ensures { result ≡ has_bit (slice_index_or (bits_of rows.now) class no_bits) bit }
{
    rows[class].bits.contains(bit)
}

/// The bit of a class that handlers of the state acquire.
pub(crate) fn in_bit(state: State) -> Usage
    ensures { result ≡ usage_of (In state) }
{
    match state {
        State::Hard => Usage::IN_HARD,
        State::Soft => Usage::IN_SOFT,
    }
}

/// The bit of a class that is held where handlers of the state can interrupt.
pub(crate) fn on_bit(state: State) -> Usage
    ensures { result ≡ usage_of (On state) }
{
    match state {
        State::Hard => Usage::ON_HARD,
        State::Soft => Usage::ON_SOFT,
    }
}
