//! What holds of the tickets between any two steps, and the steps.
use atomic_table::{Join, Play, Split, TableRule};
use std::collections::LinkedList;

/// How many numbers tickets have at most.
pub const MOST_NUMBERS: u64 = 65_535;

/// How many seats tickets have at most.
pub const MOST_SEATS: usize = 16;

// Clauses cite the constants, so they would hold with any other numbers that are small enough.
const _: () = prove!(MOST_NUMBERS == (1 << 16) - 1);

const _: () = prove!(MOST_SEATS == 1 << 4);

/// What the tickets were made with.
#[derive(Clone, Copy)]
pub struct MadeWith {
    /// The numbers are those below this one.
    pub n: u64,
    pub seats: u64,
}

/// What one or more seats know. No value of it is made.
pub struct View {
    /// The numbers are those below this one.
    pub n: u64,
    /// How many seats the tickets were made with.
    pub asked: u64,
    /// How many seats this view stands for.
    pub seats: u64,
    /// The numbers that these seats drew.
    pub drawn: LinkedList<u64>,
    /// How many of these seats have ended.
    pub ended: u64,
}

/// The running rule: word 0 of the table is the state of the draw machine.
pub struct RunningRule;

impl TableRule<(), View, MadeWith> for RunningRule {
    ghost use Rattle.ld_tickets.specs.Rule.{Holds, all_seats};

    ghost holds = { Holds };

    ghost first = { all_seats };
}

/// A view gives one seat to a new view.
pub struct OneApart;

impl Split<View> for OneApart {
    ghost use Rattle.ld_tickets.specs.Rule.{one_seat_less, one_seat};

    ghost left = { one_seat_less };

    ghost right = { one_seat };
}

/// A seat draws.
pub struct Draw;

impl Play<(), View> for Draw {
    ghost use Rattle.std.specs.Prelude.{◌≡◌};
    ghost use Rattle.ld_tickets.specs.Rule.{Draws};

    ghost then = { λ _ me found after. Draws me.0 found after.0 × (after.1 ≡ me.1) };
}

/// A view takes in all that another one says.
pub struct Together;

impl Join<View> for Together {
    ghost use Rattle.ld_tickets.specs.Rule.{together, spent};

    ghost both = { together };

    ghost spent = { spent };
}
