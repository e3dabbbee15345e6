//! Tickets, and the seats that draw them.
ghost use Rattle.std.specs.Prelude.{◌≡◌, ◌≤◌, ◌<◌, [], ℕ, true, false, None, All, length, map};
ghost use Rattle.std.specs.Prelude.{IfOk, IfSome};
ghost use Rattle.std.specs.List.{list_any};
ghost use Rattle.ld_tickets.specs.Draw.{HaveEachOnce, IsSeatOf, after_draw};

use crate::rule::{
    Draw, MOST_NUMBERS, MOST_SEATS, MadeWith, OneApart, RunningRule, Together, View,
};
use atomic_table::{Seat, Table};
use std::alloc::{AllocError, Global};
use std::marker::Model;

/// The numbers below some n, each of which is drawn by one seat, without a lock.
///
/// The seats belong to threads of their own, which share the tickets.
#[derive(Drop)]
pub struct Tickets {
    table: Table<(), View, MadeWith, RunningRule, Global>,
    n: u64,
    seats: usize,
}

impl Model for Tickets {
    ghost use Rattle.std.specs.Prelude.{◌≡◌, ◌<◌};
    ghost use Rattle.ld_tickets.specs.Draw.{SeenTickets};

    ghost Value = { SeenTickets };

    ghost view = { λ t. record { table = t.table.shared.table_id; n = t.n; seats = t.seats } };

    ghost invariant = { λ t. (t.table.shared.table_id.words ≡ 1)
        × (t.table.shared.table_id.slots ≡ 0)
        × (t.table.shared.key ≡ record { n = t.n; seats = t.seats }) × (0 < t.seats) };
}

/// The right to draw, seen as the numbers that were drawn by it, and whether it was ended.
#[derive(Drop)]
pub struct DrawSeat {
    seat: Seat<(), View>,
    ended: bool,
}

impl Model for DrawSeat {
    ghost use Rattle.std.specs.Prelude.{◌≡◌, [], if◌then◌else◌};
    ghost use Rattle.ld_tickets.specs.Draw.{SeenSeat};

    ghost Value = { SeenSeat };

    ghost view = { λ d. record {
      table = d.seat.table_id;
      n = d.seat.me.0.n;
      drawn = d.seat.me.0.drawn;
      ended = d.ended;
    } };

    ghost invariant = { λ d. (d.seat.me.1 ≡ []) × (d.seat.me.0.seats ≡ 1)
        × (d.seat.me.0.ended ≡ (if d.ended then 1 else 0)) };
}

/// What was drawn of tickets.
#[derive(Clone, Copy, Debug, PartialEq, Eq)]
pub struct Drawn {
    /// How many numbers: those below this one, each once.
    pub drawn: u64,
}

impl Tickets {
    /// Tickets with the numbers below `n`, none of which is drawn, and that many seats. Takes memory.
    ///
    /// # Errors
    ///
    /// `AllocError` where memory for the tickets or the seats was refused.
    pub fn new(alloc: Global, n: u64, seats: usize) -> Result<(Tickets, Vec<DrawSeat>), AllocError>
        requires numbers { n ≤ MOST_NUMBERS }
        requires seats { (1 ≤ seats) × (seats ≤ MOST_SEATS) }
        ensures tickets { IfOk result (λ made. (made.0.n ≡ n) × (made.0.seats ≡ seats)) }
        ensures count { IfOk result (λ made. length made.1.items ≡ seats) }
        ensures seats { IfOk result (λ made. All (IsSeatOf made.0) made.1.items) }
        ensures fresh { IfOk result (λ made.
            All (λ seat. (seat.drawn ≡ []) × (seat.ended ≡ false)) made.1.items) }
    {
        let made_with = MadeWith {
            n,
            seats: seats as u64,
        };
        let (table, mut first) = Table::of_words(alloc, &[0], &made_with)?;
        let mut made = Vec::new(alloc);
        for _ in 1..seats {
            made.push(DrawSeat {
                seat: table.shared.split_seat::<OneApart>(&mut first),
                ended: false,
            })?;
        }
        made.push(DrawSeat {
            seat: first,
            ended: false,
        })?;
        Ok((Tickets { table, n, seats }, made))
    }

    /// A number that no other draw gave, or `None`, which ends the seat, where all were given.
    ///
    /// An ended seat answers `None` at once. Waits for nobody, and takes no memory.
    pub fn draw(&self, seat: &mut DrawSeat) -> Option<u64>
        requires { IsSeatOf self.now seat.old }
        ensures number { IfSome result (λ number.
            (number < self.now.n) × All (λ other. other < number) seat.old.drawn) }
        ensures seat { seat.new ≡ after_draw seat.old result }
        ensures ended { seat.old.ended ≡ true → result ≡ None }
    {
        if seat.ended {
            return None;
        }
        let number = self.table.shared.fetch_add::<Draw>(&mut seat.seat, 0, 1);
        if number < self.n {
            Some(number)
        } else {
            seat.ended = true;
            None
        }
    }

    /// Ends the tickets, and tells how many numbers were drawn: all of them where a seat was ended.
    ///
    /// Waits for nobody, and takes no memory.
    pub fn close(self, mut seats: Vec<DrawSeat>) -> Drawn
        requires count { length seats.items ≡ self.seats }
        requires seats { All (IsSeatOf self) seats.items }
        ensures numbers { HaveEachOnce result.drawn (map (λ seat. seat.drawn) seats.items) }
        ensures most { result.drawn ≤ self.n }
        ensures ended { list_any (λ seat. seat.ended) seats.items ≡ true
            → result.drawn ≡ self.n }
    {
        let Tickets { table, n, seats: _ } = self;
        let Some(last) = seats.pop() else {
            unreachable!()
        };
        let mut all = last.seat;
        for other in seats {
            table.shared.join_seat::<Together>(&mut all, other.seat);
        }
        let closed = table.close_with(all);
        let state = closed.word(0);
        closed.free();
        Drawn {
            drawn: state.min(n),
        }
    }
}
