//! The traces in which something was first seen, as a stream.
ghost use Rattle.std.specs.Prelude.{◌≡◌, ◌≤◌, ℕ, All, IfOk, None, length, map, nat_eq};
ghost use Rattle.std.specs.Bool.{Decides};
ghost use Rattle.std.specs.List.{list_any};
ghost use Rattle.ld_trace.specs.Sources.{plain, sources, stream_fault};
ghost use Rattle.ld_trace.specs.declared.source.TheConstants.{LONGEST_STREAM, MOST_TRACES};
ghost use Rattle.ld_rules.specs.Outcome.{outcome};
ghost use Rattle.ld_batch.specs.Batch.{AreOutcomes, AreRising, sources_of};
ghost use Rattle.ld_book.specs.Totals.{is_refused};
ghost use Rattle.ld_reduce.specs.Kept.{IsFirst, keeps, kept_by};
ghost use Rattle.ld_origin.specs.Origin.{marked, plain_home};
ghost use Rattle.ld_reduce.specs.Reduced.{AreNeeded, IsReduced};
ghost use Rattle.ld_reduce.specs.Same.{HaveSameUnion};
ghost use Rattle.ld_reduce.specs.Written.{IsTrace};

use crate::firsts::Firsts;
use crate::written::write_traces;
use ld_origin::Home;
use ld_rules::{Listed, Outcome};
use ld_trace::Source;
use std::alloc::{AllocError, Global};

/// Whether a trace with this outcome was refused.
fn is_refused(outcome: Outcome) -> bool
    ensures { result ≡ is_refused outcome }
{
    matches!(outcome, Outcome::Refused { .. })
}

/// Whether a trace is kept.
fn is_kept(trace: &Listed<'_>, firsts: &Firsts, keep_refused: bool) -> bool
    requires { trace.now.outcome ≡ outcome (plain trace.now.source) }
    ensures { result ≡ keeps (λ number. list_any (nat_eq number) firsts.now) keep_refused
        (plain trace.now.source) }
{
    firsts.has(trace.source.number) || keep_refused && is_refused(trace.outcome)
}

/// The traces that are kept, in their order.
fn kept<'a>(
    alloc: Global,
    traces: &[Listed<'a>],
    firsts: &Firsts,
    keep_refused: bool,
) -> Result<Vec<Source<'a>>, AllocError>
    requires { AreOutcomes traces.now }
    ensures { IfOk result (λ kept. map plain kept.items
        ≡ kept_by (λ number. list_any (nat_eq number) firsts.now) keep_refused
        (sources_of traces.now)) }
{
    let mut kept = Vec::new(alloc);
    for trace in traces {
        if is_kept(trace, firsts, keep_refused) {
            kept.push(trace.source)?;
        }
    }
    Ok(kept)
}

/// The stream of those traces in which a dependency, or a usage bit of a class, was first seen, whole and
/// in their order, of traces of a stream in the order of their numbers, where those numbers are known; and
/// of the refused ones too, where these are to be kept. Each says where it comes from, if it did or its home is known.
/// The last line has its LF.
///
/// # Errors
///
/// `AllocError` where a growth of memory was refused.
pub fn reduced(
    alloc: Global,
    traces: &[Listed<'_>],
    firsts: &Firsts,
    keep_refused: bool,
    homes: &[Home<'_>],
) -> Result<Vec<u8>, AllocError>
    requires outcomes { AreOutcomes traces.now }
    requires rising { AreRising (sources_of traces.now) }
    requires traces { All IsTrace (sources_of traces.now) }
    requires heads { All (λ source. 1 ≤ source.first_line) (sources_of traces.now) }
    requires firsts { (number : ℕ) → Decides (list_any (nat_eq number) firsts.now)
        (IsFirst (sources_of traces.now) number) }
    ensures reduced { IfOk result (λ text. IsReduced keep_refused
        (map (marked (map plain_home homes.now)) (sources_of traces.now)) text.items) }
    ensures sound { IfOk result (λ text. length traces.now ≤ MOST_TRACES
        → length text.items ≤ LONGEST_STREAM → stream_fault text.items ≡ None) }
    ensures union { IfOk result (λ text. HaveSameUnion
        (map (marked (map plain_home homes.now)) (sources_of traces.now)) (sources text.items)) }
    ensures needed { IfOk result (λ text. AreNeeded keep_refused (sources text.items)) }
{
    let kept = kept(alloc, traces, firsts, keep_refused)?;
    write_traces(alloc, &kept, homes)
}
