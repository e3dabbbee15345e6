//! What holds of a history between any two steps, and the steps.
use atomic_table::{Join, Play, Split, TableRule};
use std::collections::LinkedList;
use std::marker::{Brand, PhantomData};

/// What a history notes of a source. No value of it is made.
pub struct Entry {
    pub number: u64,
    pub label: LinkedList<u8>,
    pub first_line: u64,
    pub bytes: LinkedList<u8>,
}

/// What is noted next. Only proofs read it. Where a function over it is called with `Brand`, the proof of the call may
/// pick another entry.
pub trait Noted {
    ghost use Rattle.ld_history.specs.declared.rule.Entry.{Entry};

    ghost entry: { Entry };
}

impl Noted for Brand {
    ghost use Rattle.std.specs.Prelude.{[]};

    ghost entry = { record { number = 0; label = []; first_line = 0; bytes = [] } };
}

/// What a seat knows. No value of it is made.
pub struct View {
    /// Whether it is the one seat that knows the whole history, and alone makes it longer.
    pub keeps: bool,
    /// That history.
    pub all: LinkedList<Entry>,
    /// A beginning of the history that was seen.
    pub seen: LinkedList<Entry>,
}

/// The rule: what each seat has seen is a beginning of one history, which one seat knows whole.
pub struct Grows;

impl TableRule<(), View, ()> for Grows {
    ghost use Rattle.ld_history.specs.Rule.{IsKept, keeper};
    ghost use Rattle.std.specs.Prelude.{[]};

    ghost holds = { λ _. IsKept };

    ghost first = { λ _. keeper [] };
}

/// The keeper adds an entry.
pub struct Append<N: Noted> {
    of: PhantomData<N>,
}

impl<N: Noted> Play<(), View> for Append<N> {
    ghost use Rattle.ld_history.specs.Rule.{longer};
    ghost use Rattle.std.specs.Prelude.{◌≡◌};

    ghost then = { λ _ me _ after. after ≡ (longer me.0 N.entry, me.1) };
}

/// The keeper compares what it was shown.
pub struct Check;

impl Play<(), View> for Check {
    ghost use Rattle.std.specs.Prelude.{◌≡◌};
    ghost use mathlib.Core.List.{IsPrefix};

    ghost then = { λ _ me _ after. (after ≡ me) × IsPrefix me.0.seen me.0.all };
}

/// A new seat has seen all that the keeper knows.
pub struct Shown;

impl Split<View> for Shown {
    ghost use Rattle.ld_history.specs.Rule.{reader};

    ghost left = { λ v. v };

    ghost right = { λ v. reader v.all };
}

/// A new seat has seen the same.
pub struct Copied;

impl Split<View> for Copied {
    ghost use Rattle.ld_history.specs.Rule.{reader};

    ghost left = { λ v. v };

    ghost right = { λ v. reader v.seen };
}

/// The keeper is shown what another seat has seen.
pub struct Beside;

impl Join<View> for Beside {
    ghost use Rattle.ld_history.specs.Rule.{beside, reader};
    ghost use Rattle.std.specs.Prelude.{[]};

    ghost both = { beside };

    ghost spent = { reader [] };
}
