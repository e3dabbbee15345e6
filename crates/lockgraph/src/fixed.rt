//! `new --fixed`: the lines of a known text whose violations some traces don't have any more.
ghost use Rattle.std.specs.Prelude.{◌≡◌, ◌≢◌, ◌++◌, ℕ, Err, IfOk, None, OnOk, Some};
ghost use Rattle.ld_trace.specs.declared.source.StreamFault.{StreamFault};
ghost use Rattle.ld_baseline.specs.Known.{unknown_line};
ghost use Rattle.lockgraph.specs.News.{IsFixedOf, fixed_line};

use crate::news::NewsFault;
use crate::shown::verdict_of_read;
use ld_baseline::gone_lines;
use ld_check::{Book, report_in};
use ld_files::Told;
use std::alloc::{AllocError, Global};
use std::io::Write;

/// The lines of a known text that match nothing in the report of the traces that a book lists, and how many
/// they are.
///
/// # Errors
///
/// `UnknownLine` where the known text has a line that is none of a report, and `Memory` where a growth was refused.
pub fn fixed_in(alloc: Global, book: &Book<'_>, known: &[u8]) -> Result<Told, NewsFault>
    ensures fixed { IfOk result (λ fixed. IsFixedOf book.now known.now fixed.text.items fixed.verdict) }
    ensures known { OnOk result (unknown_line known.now ≡ None) }
    ensures unknown { (line : ℕ) → result ≡ Err (NewsFault.UnknownLine line) →
        unknown_line known.now ≡ Some line }
    ensures stream { (fault : StreamFault) → result ≢ Err (NewsFault.Stream fault) }
    ensures unwritten { result ≢ Err NewsFault.Write }
{
    let report = report_in(alloc, book)?;
    let gone = gone_lines(alloc, &report, known)?;
    let verdict = verdict_of_read(book.totals().refused);
    let mut text = gone.text;
    write_fixed_line(&mut text, gone.count)?;
    Ok(Told { text, verdict })
}

/// Writes how many known lines match nothing.
fn write_fixed_line(text: &mut Vec<u8>, count: u64) -> Result<(), AllocError>
    ensures { OnOk result (text.new.items ≡ text.old.items ++ fixed_line count) }
{
    if count == 0 {
        writeln!(text, "nothing fixed")
    } else {
        writeln!(text, "fixed {count}")
    }
    .map_err(|_| AllocError)
}
