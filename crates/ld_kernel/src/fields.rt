//! Where the fields of each event stand, by its format, and what they say.
ghost use Rattle.std.specs.Prelude.{◌≡◌, ◌<◌, ◌^◌, map, IfOk, MatchResult, None, Some, nat_eq, pos};
ghost use Rattle.ld_layout.specs.Fields.{plain};
ghost use Rattle.ld_layout.specs.Lines.{seen};
ghost use Rattle.ld_kernel.specs.Fields.{number_named, located_named};
ghost use Rattle.ld_kernel.specs.Events.{count_said, held_said, mode_said, word_said};

use crate::event::{Acquire, Mode, Release, StockAcquire};
use crate::located::text_at;
use crate::number::{Number, Width, number_of};
use crate::wrong::Wrong;
use ld_layout::{Format, Shape};

/// A format has no field of this name that can be read so.
#[derive(Clone, Copy, Debug, PartialEq, Eq)]
pub struct FieldFault {
    pub name: &'static str,
}

/// The number that stands in the place of the field of this name.
pub(crate) fn number(format: &Format<'_>, name: &'static str) -> Result<Number, FieldFault>
    ensures { MatchResult result (λ number. number_named name.entry.now (map plain format.now.fields.items) ≡ Some number)
        (λ _. number_named name.entry.now (map plain format.now.fields.items) ≡ None) }
{
    let Some(field) = format.field(name.as_bytes()) else {
        return Err(FieldFault { name });
    };
    match number_of(field) {
        Some(number) => Ok(number),
        None => Err(FieldFault { name }),
    }
}

/// The number that tells where the text of the field of this name stands.
fn located(format: &Format<'_>, name: &'static str) -> Result<Number, FieldFault>
    ensures { MatchResult result (λ number. located_named name.entry.now (map plain format.now.fields.items) ≡ Some number)
        (λ _. located_named name.entry.now (map plain format.now.fields.items) ≡ None) }
{
    let Some(field) = format.field(name.as_bytes()) else {
        return Err(FieldFault { name });
    };
    match field.shape {
        Shape::Located => Ok(Number {
            at: field.offset,
            width: Width::Four,
        }),
        Shape::Plain | Shape::Array | Shape::Relative => Err(FieldFault { name }),
    }
}

/// A number that isn't negative by its 32 bits.
pub(crate) fn count(number: u64) -> Result<i32, Wrong>
    ensures { result ≡ count_said number }
{
    if number < 0x8000_0000 {
        Ok(number as i32)
    } else {
        Err(Wrong::Large)
    }
}

/// A number of 32 bits.
pub(crate) fn word(number: u64) -> Result<u32, Wrong>
    ensures { result ≡ word_said number }
{
    if number < 0x1_0000_0000 {
        Ok(number as u32)
    } else {
        Err(Wrong::Large)
    }
}

/// Who reads or writes, by lockdep's number.
fn mode(number: u64) -> Option<Mode>
    ensures { result ≡ mode_said number }
{
    match number {
        0 => Some(Mode::Writer),
        1 => Some(Mode::Reader),
        2 => Some(Mode::Recursive),
        _ => None,
    }
}

/// How many locks lockdep has, if the event tells it.
fn held(bytes: &[u8], number: Option<Number>) -> Option<u8>
    ensures { result ≡ held_said bytes.now number }
{
    match number {
        None => None,
        Some(number) => {
            let held = number.read(bytes);
            if held < 255 { Some(held as u8) } else { None }
        }
    }
}

/// Where the fields of the module's `acquire` stand.
#[derive(Clone, Copy, Debug, PartialEq, Eq)]
pub struct AcquireFields {
    pub lock: Number,
    pub key: Number,
    pub nest: Number,
    pub caller: Number,
    pub subclass: Number,
    pub how: Number,
    pub mode: Number,
    /// An older module has none.
    pub held: Option<Number>,
    pub name: Number,
    /// Behind the last one of those that each module has.
    pub end: usize,
}

impl AcquireFields {
    ghost use Rattle.ld_kernel.specs.Fields.{IsAcquire};
    ghost use Rattle.ld_kernel.specs.Events.{acquire_said, plain_acquire};

    /// The fields that its format has.
    ///
    /// # Errors
    ///
    /// The first field that it lacks.
    pub fn of(format: &Format<'_>) -> Result<AcquireFields, FieldFault>
        ensures { IfOk result (λ fields. IsAcquire (map plain format.now.fields.items) fields) }
    {
        let lock = number(format, "lock")?;
        let key = number(format, "key")?;
        let nest = number(format, "nest")?;
        let caller = number(format, "caller")?;
        let subclass = number(format, "subclass")?;
        let how = number(format, "how")?;
        let mode = number(format, "read")?;
        let name = located(format, "name")?;
        let addresses = lock.end().max(key.end()).max(nest.end()).max(caller.end());
        let numbers = subclass
            .end()
            .max(how.end())
            .max(mode.end())
            .max(name.end());
        Ok(AcquireFields {
            lock,
            key,
            nest,
            caller,
            subclass,
            how,
            mode,
            held: number(format, "held").ok(),
            name,
            end: addresses.max(numbers),
        })
    }

    /// What the bytes of such an event tell.
    ///
    /// # Errors
    ///
    /// What is wrong with them.
    pub fn read<'a>(&self, bytes: &'a [u8]) -> Result<Acquire<'a>, Wrong>
        ensures { seen plain_acquire result ≡ acquire_said self.now bytes.entry.now }
    {
        if bytes.len() < self.end {
            return Err(Wrong::Short);
        }
        let how = self.how.read(bytes);
        if how > 3 {
            return Err(Wrong::How);
        }
        let subclass = self.subclass.read(bytes);
        if subclass > 255 {
            return Err(Wrong::Subclass);
        }
        let Some(mode) = mode(self.mode.read(bytes)) else {
            return Err(Wrong::Mode);
        };
        let Some(name) = text_at(bytes, self.name.read(bytes)) else {
            return Err(Wrong::Name);
        };
        Ok(Acquire {
            lock: self.lock.read(bytes),
            key: self.key.read(bytes),
            nest: self.nest.read(bytes),
            caller: self.caller.read(bytes),
            subclass: subclass as u8,
            is_trylock: how % 2 == 1,
            is_checked: how / 2 == 1,
            mode,
            held: held(bytes, self.held),
            name,
        })
    }
}

/// Where the lock of a release stands.
#[derive(Clone, Copy, Debug, PartialEq, Eq)]
pub struct ReleaseFields {
    pub lock: Number,
}

impl ReleaseFields {
    ghost use Rattle.std.specs.Prelude.{codes};
    ghost use Rattle.ld_kernel.specs.Events.{release_said};

    /// The fields of the module's `release`.
    ///
    /// # Errors
    ///
    /// The field that its format lacks.
    pub fn of(format: &Format<'_>) -> Result<ReleaseFields, FieldFault>
        ensures { IfOk result (λ fields. number_named (codes "lock") (map plain format.now.fields.items) ≡ Some fields.lock) }
    {
        let lock = number(format, "lock")?;
        Ok(ReleaseFields { lock })
    }

    /// The fields of the kernel's own `lock_release`.
    ///
    /// # Errors
    ///
    /// The field that its format lacks.
    pub fn of_stock(format: &Format<'_>) -> Result<ReleaseFields, FieldFault>
        ensures { IfOk result (λ fields. number_named (codes "lockdep_addr") (map plain format.now.fields.items) ≡ Some fields.lock) }
    {
        let lock = number(format, "lockdep_addr")?;
        Ok(ReleaseFields { lock })
    }

    /// What the bytes of such an event tell.
    ///
    /// # Errors
    ///
    /// What is wrong with them.
    pub fn read(&self, bytes: &[u8]) -> Result<Release, Wrong>
        ensures { result ≡ release_said self.now bytes.now }
    {
        if bytes.len() < self.lock.end() {
            return Err(Wrong::Short);
        }
        Ok(Release {
            lock: self.lock.read(bytes),
        })
    }
}

/// Where the fields of the kernel's own `lock_acquire` stand.
#[derive(Clone, Copy, Debug, PartialEq, Eq)]
pub struct StockAcquireFields {
    pub lock: Number,
    pub flags: Number,
    pub name: Number,
}

impl StockAcquireFields {
    ghost use Rattle.ld_kernel.specs.Fields.{IsStockAcquire};
    ghost use Rattle.ld_kernel.specs.Events.{plain_stock, stock_said};

    /// The fields that its format has.
    ///
    /// # Errors
    ///
    /// The first field that it lacks.
    pub fn of(format: &Format<'_>) -> Result<StockAcquireFields, FieldFault>
        ensures { IfOk result (λ fields. IsStockAcquire (map plain format.now.fields.items) fields) }
    {
        let lock = number(format, "lockdep_addr")?;
        let flags = number(format, "flags")?;
        let name = located(format, "name")?;
        Ok(StockAcquireFields { lock, flags, name })
    }

    /// What the bytes of such an event tell.
    ///
    /// # Errors
    ///
    /// What is wrong with them.
    pub fn read<'a>(&self, bytes: &'a [u8]) -> Result<StockAcquire<'a>, Wrong>
        ensures { seen plain_stock result ≡ stock_said self.now bytes.entry.now }
    {
        if bytes.len() < self.lock.end().max(self.flags.end()).max(self.name.end()) {
            return Err(Wrong::Short);
        }
        let flags = self.flags.read(bytes);
        let Some(name) = text_at(bytes, self.name.read(bytes)) else {
            return Err(Wrong::Name);
        };
        Ok(StockAcquire {
            lock: self.lock.read(bytes),
            is_trylock: flags % 2 == 1,
            is_read: flags / 2 % 2 == 1,
            name,
        })
    }
}
