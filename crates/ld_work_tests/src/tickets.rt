//! Tickets, drawn by one thread and by several.
ghost use Rattle.std.specs.Prelude.{◌≡◌, ◌≤◌, ◌<◌, All, length};
ghost use Rattle.ld_work.specs.Draw.{IsSeatOf};

use crate::common::expect_first_once;
use ld_test_gate::zeros;
use ld_work::{DrawSeat, Tickets};
use std::alloc::{AllocError, Global};
use std::process::Abort;
use std::sync::atomic::{AtomicU64, Ordering};
use std::test::Fail;
use std::thread;
use std::thread::Threads;

/// The seat at a place draws.
fn draw_at(tickets: &Tickets, seats: &mut Vec<DrawSeat>, place: usize) -> Option<u64>
    requires place { place < length seats.old.items }
    requires seats { All (IsSeatOf tickets.now) seats.old.items }
    ensures count { length seats.new.items ≡ length seats.old.items }
    ensures seats { All (IsSeatOf tickets.now) seats.new.items }
{
    tickets.draw(&mut seats[place])
}

/// Tickets, whichever allocation is refused, as long as it is one alone.
fn tickets_of<R: Abort>(rt: &R, alloc: Global, n: u64, seats: usize) -> (Tickets, Vec<DrawSeat>)
    requires n { n ≤ 65535 }
    requires seats { (1 ≤ seats) × (seats ≤ 16) }
    ensures tickets { result.0.seats ≡ seats }
    ensures count { length result.1.items ≡ seats }
    ensures seats { All (IsSeatOf result.0) result.1.items }
{
    match Tickets::new(alloc, n, seats) {
        Ok(made) => made,
        Err(AllocError) => Tickets::new(alloc, n, seats).expect(rt, "tickets"),
    }
}

#[test]
fn tickets_one_thread(rt: HostRuntime) -> Result<(), Fail> {
    let (tickets, mut seats) = tickets_of(&rt, rt.alloc(), 3, 2);
    assert_eq!(rt; draw_at(&tickets, &mut seats, 0), Some(0));
    assert_eq!(rt; draw_at(&tickets, &mut seats, 1), Some(1));
    assert_eq!(rt; draw_at(&tickets, &mut seats, 0), Some(2));
    assert_eq!(rt; draw_at(&tickets, &mut seats, 1), None);
    assert_eq!(rt; draw_at(&tickets, &mut seats, 0), None);
    assert_eq!(rt; draw_at(&tickets, &mut seats, 0), None);
    assert_eq!(rt; tickets.close(seats).drawn, 3);
    Ok(())
}

/// A seat draws until no number is left, and counts each that it draws.
fn draw_all(tickets: &Tickets, counts: &[AtomicU64], mut seat: DrawSeat) -> DrawSeat
    requires count { tickets.now.n ≡ length counts.now }
    requires seat { IsSeatOf tickets.now seat }
    ensures { IsSeatOf tickets.now result }
{
    for _ in 0..=counts.len() {
        let Some(number) = tickets.draw(&mut seat) else {
            break;
        };
        counts[number as usize].fetch_add(1, Ordering::SeqCst);
    }
    seat
}

// Each of sixteen threads has a seat.
#[test]
fn sixteen_threads_draw_each_number_once(rt: HostRuntime) -> Result<(), Fail> {
    let made = zeros(rt.alloc(), 65_535)?;
    let (tickets, seats) = Tickets::new(rt.alloc(), 65_535, 16).expect(&rt, "tickets");
    let (shared, counts) = (&tickets, made.as_slice());
    let done = thread::map_vec(&rt, seats, &|seat: DrawSeat| draw_all(shared, counts, seat));
    assert_eq!(&rt; tickets.close(done?).drawn, 65_535);
    expect_first_once(&rt, &made, 65_535);
    Ok(())
}
