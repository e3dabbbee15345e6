//! Rows of refused traces.
ghost use Rattle.std.specs.Prelude.{◌≡◌, IfOk, map};
ghost use Rattle.ld_explain.specs.Faults.{fault_said};
ghost use Rattle.ld_explain.specs.Rows.{refusal_said};

use crate::fault::Fault;
use crate::rows::lines::Lines;
use ld_rows::Refused;
use std::alloc::AllocError;

/// The traces with these faults.
pub fn refused_rows<'a>(
    lines: &Lines<'_, 'a>,
    faults: &[Fault],
) -> Result<Vec<Refused<'a>>, AllocError>
    ensures { IfOk result (λ rows. map refusal_said rows.items ≡ map fault_said faults.now) }
{
    let mut rows = Vec::with_capacity(lines.alloc, faults.len())?;
    for fault in faults {
        let line = lines.line(fault.at)?;
        rows.push(Refused {
            line,
            fault: fault.fault.name(),
        })?;
    }
    Ok(rows)
}
