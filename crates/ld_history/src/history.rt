//! A history that only grows: one keeper makes it longer, and a front is a beginning of it that was seen.
ghost use Rattle.std.specs.Prelude.{◌≡◌, ◌++◌, ◌∷◌, [], Some};
ghost use mathlib.Core.List.{IsPrefix};

use crate::rule::{Append, Beside, Check, Copied, Grows, Noted, Shown, View};
use atomic_table::{Seat, Table};
use std::alloc::{AllocError, Global};
use std::marker::{Brand, Model, PhantomData};

/// Which history it is, if any. Only proofs read it. `Brand` has none; where a function over a room is called with
/// `Brand`, the proof of the call may pick one.
pub trait Room {
    ghost use Rattle.atomic_table.specs.Seated.{TableId};
    ghost use Rattle.std.specs.Prelude.{Option};

    ghost history: { Option TableId };
}

impl Room for Brand {
    ghost use Rattle.std.specs.Prelude.{None};

    ghost history = { None };
}

/// An empty history that no type names yet, seen as its name.
#[derive(Drop)]
pub struct Opened {
    table: Table<(), View, (), Grows, Global>,
    seat: Seat<(), View>,
}

impl Model for Opened {
    ghost use Rattle.atomic_table.specs.Seated.{TableId};
    ghost use Rattle.ld_history.specs.Rule.{keeper};
    ghost use Rattle.std.specs.Prelude.{◌≡◌, []};

    ghost Value = { TableId };

    ghost view = { λ o. o.table.shared.table_id };

    ghost invariant = { λ o. (o.table.shared.table_id.words ≡ 1)
        × (o.seat.table_id ≡ o.table.shared.table_id) × (o.seat.me ≡ (keeper [], [])) };
}

impl Opened {
    /// An empty history. Takes memory for one word.
    ///
    /// # Errors
    ///
    /// `AllocError` where that memory was refused.
    pub fn new(alloc: Global) -> Result<Opened, AllocError> {
        let (table, seat) = Table::of_words(alloc, &[0], &())?;
        Ok(Opened { table, seat })
    }

    /// The keeper of this history, by whose name all know it.
    pub fn named<B: Room>(self) -> Keeper<B>
        requires { B.history ≡ Some self }
        ensures { result ≡ [] }
    {
        let Opened { table, seat } = self;
        Keeper {
            table,
            seat,
            of: PhantomData,
        }
    }
}

/// The one who makes the history longer, seen as all of it.
#[derive(Drop)]
pub struct Keeper<B: Room> {
    table: Table<(), View, (), Grows, Global>,
    seat: Seat<(), View>,
    of: PhantomData<B>,
}

impl<B: Room> Model for Keeper<B> {
    ghost use Rattle.std.specs.Prelude.{◌≡◌, List, [], Some, true};
    ghost use Rattle.ld_history.specs.declared.rule.Entry.{Entry};

    ghost Value = { List Entry };

    ghost view = { λ k. k.seat.me.0.all };

    ghost invariant = { λ k. (k.table.shared.table_id.words ≡ 1)
        × (k.seat.table_id ≡ k.table.shared.table_id)
        × (B.history ≡ Some k.table.shared.table_id)
        × (k.seat.me.1 ≡ []) × (k.seat.me.0.keeps ≡ true) };
}

/// A beginning of the history that was seen.
#[derive(Drop)]
pub struct Front<B: Room> {
    seat: Seat<(), View>,
    of: PhantomData<B>,
}

impl<B: Room> Model for Front<B> {
    ghost use Rattle.std.specs.Prelude.{◌≡◌, List, [], Some};
    ghost use Rattle.ld_history.specs.declared.rule.Entry.{Entry};

    ghost Value = { List Entry };

    ghost view = { λ f. f.seat.me.0.seen };

    ghost invariant = { λ f. (B.history ≡ Some f.seat.table_id) × (f.seat.me.1 ≡ []) };
}

impl<B: Room> Keeper<B> {
    /// The history is longer by what is noted. Takes no memory.
    pub fn add<N: Noted>(&mut self)
        ensures { self.new ≡ self.old ++ N.entry ∷ [] }
    {
        let table = &self.table;
        table.shared.store::<Append<N>>(&mut self.seat, 0, 0);
    }

    /// The history so far, for a thread to take along. Takes no memory.
    pub fn show(&mut self) -> Front<B>
        ensures same { self.new ≡ self.old }
        ensures front { result ≡ self.old }
    {
        let table = &self.table;
        let seat = table.shared.split_seat::<Shown>(&mut self.seat);
        Front {
            seat,
            of: PhantomData,
        }
    }

    /// Changes nothing, and tells that the history begins with what was seen. Takes no memory.
    pub fn covers(&mut self, front: &mut Front<B>)
        ensures same { self.new ≡ self.old }
        ensures front { front.new ≡ front.old }
        ensures begins { IsPrefix front.old self.old }
    {
        let table = &self.table;
        let copy = table.shared.split_seat::<Copied>(&mut front.seat);
        table.shared.join_seat::<Beside>(&mut self.seat, copy);
        table.shared.load::<Check>(&mut self.seat, 0);
    }
}
