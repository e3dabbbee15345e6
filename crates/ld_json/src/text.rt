//! The text of rows.
ghost use Rattle.std.specs.Prelude.{◌≡◌, ◌++◌, IfOk, OnOk};
ghost use Rattle.ld_json.specs.Json.{end_of_lines, json_text};

use crate::quoted::{write_number, write_words};
use crate::tables::{
    write_all_refused, write_dependencies, write_ends, write_groups, write_totals, write_violations,
};
use ld_rows::Rows;
use std::alloc::{AllocError, Global};

/// These rows as JSON, an object a line: the totals, the refused traces, the dependencies and the ends of violations,
/// the violations, their groups, and how many violations there are. A number is a row's place in its table.
///
/// # Errors
///
/// `AllocError` if a growth of memory was refused.
pub fn json_text(alloc: Global, rows: &Rows<'_>) -> Result<Vec<u8>, AllocError>
    ensures text { IfOk result (λ text. text.items ≡ json_text rows.now) }
{
    let mut out = Vec::new(alloc);
    write_totals(&mut out, rows.totals)?;
    write_all_refused(alloc, &mut out, &rows.refused)?;
    write_dependencies(alloc, &mut out, &rows.dependencies)?;
    write_ends(alloc, &mut out, &rows.ends)?;
    write_violations(alloc, &mut out, &rows.ends, &rows.violations)?;
    write_groups(&mut out, &rows.groups)?;
    write_count(&mut out, rows.count)?;
    Ok(out)
}

/// Writes how many violations there are.
fn write_count(out: &mut Vec<u8>, violations: u64) -> Result<(), AllocError>
    ensures { OnOk result (out.new.items ≡ out.old.items ++ end_of_lines violations) }
{
    write_number(out, "{\"kind\":\"end\",\"violations\":", violations)?;
    write_words(out, "}\n")?;
    Ok(())
}
