//! Names of classes as texts have them.
ghost use Rattle.std.specs.Prelude.{◌≡◌, ◌++◌, OnOk};
ghost use Rattle.ld_class.specs.Names.{plain_class};
ghost use Rattle.ld_overview.specs.Names.{class_text};

use ld_book::ClassName;
use std::alloc::AllocError;
use std::io::Write;

/// Writes the name of a class: `name`, or `name/N` if it is a subclass.
///
/// # Errors
///
/// `AllocError` if memory was refused.
pub fn write_class(text: &mut Vec<u8>, class: ClassName<'_>) -> Result<(), AllocError>
    ensures { OnOk result (text.new.items ≡ text.old.items ++ class_text (plain_class class.entry)) }
{
    text.extend_from_slice(class.name)?;
    if class.sub == 0 {
        return Ok(());
    }
    let sub = class.sub;
    write!(text, "/{sub}").map_err(|_| AllocError)
}
