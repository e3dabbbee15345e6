//! The labels of traces, by their numbers.
ghost use Rattle.std.specs.Prelude.{◌≡◌};
ghost use Rattle.ld_report.specs.Report.{label_of_number};

use ld_book::Traces;

/// The label of the trace of this number. It is empty where there is no such trace.
pub fn label<'a>(traces: &Traces<'_, 'a>, number: u64) -> &'a [u8]
    ensures { result.now ≡ label_of_number traces.now number }
{
    let in_order = traces.listed();
    // Those of a whole stream stand at the places of their numbers.
    if let Some(trace) = in_order.get(number as usize) {
        if trace.source.number == number {
            return trace.source.name;
        }
    }
    match in_order.binary_search_by_key(&number, |trace| trace.source.number) {
        Ok(at) => in_order[at].source.name,
        Err(_) => b"",
    }
}
