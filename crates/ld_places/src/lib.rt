//! Where a line of several files stands, once they are one stream, and where it is shown: in the file that its trace
//! says, or else in its own file.
#![tactic(auto)]

mod places;
mod shown_places;

pub use ld_origin::{Origin, origin_of};
pub use places::{Place, Places};
pub use shown_places::ShownPlaces;
