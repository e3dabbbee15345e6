//! What a report says of a stream, and what stands behind it, as plain rows that any format can be written from.
//!
//! [`Rows`] has all of it. Bytes are as they stand in the stream, in a map or on the command line: whoever writes a
//! format escapes them. A name of a class, a label and a task are bytes of ASCII without blanks; the text of a line and
//! what a map says may be any bytes, not UTF-8 either.
#![tactic(auto)]

mod classes;
mod lines;
mod violations;

pub use classes::{Class, ClassRow, EdgeRow, Origin, Taken};
pub use lines::{At, Frame, Line, Place};
pub use violations::{
    Common, CommonLock, Dependency, End, Group, Handler, Held, Kind, Refused, Rows, Seen, Shared,
    Since, Totals, Use, Violation,
};
