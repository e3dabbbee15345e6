//! How a line begins that a fault names.
ghost use Rattle.std.specs.Prelude.{◌≡◌, IfOk};
ghost use Rattle.ld_trace.specs.Lines.{lines};
ghost use Rattle.ld_files.specs.Quotes.{IsFrontOf, line_at};

use crate::looks::{front, write_shown};
use ld_trace::{next_line, text};
use std::alloc::{AllocError, Global};
use std::fmt;

/// The first bytes of a line.
#[derive(Debug, Drop)]
pub struct Quote {
    pub bytes: Vec<u8>,
}

impl Quote {
    /// How the line of this number begins, from 1.
    ///
    /// # Errors
    ///
    /// `AllocError` where a growth of memory was refused.
    pub fn of(alloc: Global, bytes: &[u8], line: u64) -> Result<Quote, AllocError>
        ensures { IfOk result (IsFrontOf bytes.now line) }
    {
        let shown = front(line_at(bytes, line));
        Ok(Quote {
            bytes: shown.to_vec(alloc)?,
        })
    }
}

/// The line of this number, from 1, without its end; empty where there is none.
fn line_at(bytes: &[u8], number: u64) -> &[u8]
    ensures { result.now ≡ line_at (lines bytes.now) number }
{
    let mut rest = bytes;
    let mut left = number;
    while let Some((line, after)) = next_line(rest) {
        if left <= 1 {
            return text(line);
        }
        left -= 1;
        rest = after;
    }
    &[]
}

impl fmt::Display for Quote {
    fn fmt<W: fmt::Write>(&self, f: &mut fmt::Formatter<W>) -> fmt::Result {
        write!(f, "\"")?;
        for byte in &self.bytes {
            write_shown(f, *byte)?;
        }
        write!(f, "\"")
    }
}
