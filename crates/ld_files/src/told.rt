//! What a text tells of some traces, and how it is written.
ghost use Rattle.std.specs.Prelude.{◌≡◌, ◌≢◌, ◌↔◌, Err, Ok, IfOk, IsErr, OnOk, false, true};
ghost use Rattle.std.specs.Io.KnownBytes.{Appends};
ghost use Rattle.ld_io.specs.Transfer.{AppendsPart};
ghost use Rattle.ld_files.specs.declared.fault.Fault.TheVariants.{Write};

use crate::fault::Fault;
use ld_check::Verdict;
use ld_io::{Output, send};

/// What is told of some traces.
#[derive(Drop)]
pub struct Told {
    /// The text.
    pub text: Vec<u8>,
    /// What the traces come to.
    pub verdict: Verdict,
}

/// Writes what is told, and flushes it. No write or flush that fails is tried again. May wait.
///
/// # Errors
///
/// `Write` where a write or the flush failed: a first part of the text was written then.
pub fn write_told<'a, O: Output>(output: &mut O, told: &Told) -> Result<Verdict, Fault<'a>>
    requires { O.write_failed output.old ≡ false }
    ensures verdict { IfOk result (λ verdict. verdict ≡ told.now.verdict) }
    ensures ok { OnOk result (Appends (O.held output.old) (O.held output.new) told.now.text.items) }
    ensures flushed { OnOk result (O.is_flushed output.new ≡ true) }
    ensures write { IsErr result ↔ (O.write_failed output.new ≡ true) }
    ensures part { IsErr result → (result ≡ Err Write)
        × AppendsPart (O.held output.old) (O.held output.new) told.now.text.items }
{
    match send(output, &told.text) {
        Ok(()) => Ok(told.verdict),
        Err(_) => Err(Fault::Write),
    }
}
