//! A text that is being written. Nothing gets into it but literals, numbers, and names by an escape.
ghost use Rattle.std.specs.Prelude.{◌≡◌, ◌++◌, OnOk, decimal};
ghost use Rattle.ld_escape.specs.Messages.{written_message};
ghost use Rattle.ld_escape.specs.Written.{written};

use ld_escape::{Form, write_escaped, write_message};
use ld_rows::Class;
use std::alloc::{AllocError, Global};
use std::io::Write;

/// How the names of a text are written.
#[derive(Clone, Copy, Debug)]
pub(crate) enum Names {
    /// Escaped, in this form.
    Escaped(Form),
    /// As a message of SARIF says them.
    Said,
}

/// A text so far. Each call that adds to it answers `AllocError` if a growth of memory was refused.
#[derive(Drop)]
pub(crate) struct Text {
    bytes: Vec<u8>,
}

impl Text {
    /// An empty text.
    pub(crate) fn new(alloc: Global) -> Text {
        Text {
            bytes: Vec::new(alloc),
        }
    }

    /// The bytes of the text.
    pub(crate) fn into_bytes(self) -> Vec<u8>
        ensures { result ≡ self.bytes }
    {
        self.bytes
    }

    /// Adds a literal. No name is one, since names are borrowed for less than `'static`.
    pub(crate) fn put(&mut self, literal: &'static str) -> Result<(), AllocError>
        ensures { OnOk result (self.new.bytes.items ≡ self.old.bytes.items ++ literal.now) }
    {
        self.bytes.extend_from_slice(literal.as_bytes())
    }

    /// Adds a name, whatever its bytes are.
    pub(crate) fn name(&mut self, form: Form, name: &[u8]) -> Result<(), AllocError>
        ensures { OnOk result (self.new.bytes.items ≡ self.old.bytes.items ++ written form name.now) }
    {
        write_escaped(&mut self.bytes, form, name)
    }

    /// Adds a name to a message of SARIF, whatever its bytes are.
    pub(crate) fn message(&mut self, name: &[u8]) -> Result<(), AllocError>
        ensures { OnOk result (self.new.bytes.items ≡ self.old.bytes.items ++ written_message name.now) }
    {
        write_message(&mut self.bytes, name)
    }

    /// Adds a number.
    pub(crate) fn number(&mut self, number: u64) -> Result<(), AllocError>
        ensures { OnOk result (self.new.bytes.items ≡ self.old.bytes.items ++ decimal number) }
    {
        write!(self.bytes, "{number}").map_err(|_| AllocError)
    }

    /// Adds a class: `name`, or `name/N` if it is a subclass.
    pub(crate) fn class(&mut self, form: Form, class: Class<'_>) -> Result<(), AllocError> {
        self.name(form, class.name)?;
        self.subclass(class)
    }

    /// Adds what stands behind the name of a class: `/N` if it is a subclass.
    pub(crate) fn subclass(&mut self, class: Class<'_>) -> Result<(), AllocError> {
        if class.sub > 0 {
            self.put("/")?;
            self.number(u64::from(class.sub))?;
        }
        Ok(())
    }
}
