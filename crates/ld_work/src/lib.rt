//! Several workers at once: a desk with a book behind a lock, and the workers that feed it.
#![tactic(auto)]

mod coming;
mod cuts;
mod desk;
mod even;
mod feeder;
mod gate;
mod kept;
mod locked;
mod told;
mod workers;

pub use coming::{compared, work_on};
pub use cuts::Cuts;
pub use desk::{Back, Desk, Gathered, Look, Scope};
pub use feeder::{Feeder, MOST_FEEDERS, Tally};
pub use gate::{Gate, NoGate};
pub use ld_history::Room;
pub use ld_tickets::{DrawSeat, Drawn, Tickets};
pub use told::Portion;
pub use workers::{WorkFault, work, work_by};
