//! Names in texts of other languages: whatever a name's bytes are, none of them ends a string, begins an element or
//! a command, or ends a line there, and no two names are written alike. Texts for people, which control no terminal.
#![tactic(auto)]

mod escaping;
mod form;
mod messages;
mod shown;
mod visible;

pub use escaping::write_escaped;
pub use form::Form;
pub use messages::write_message;
pub use shown::is_shown;
pub use visible::{write_on_line, write_visible};
