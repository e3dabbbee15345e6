//! Events out of their bytes.
ghost use Rattle.std.specs.Prelude.{◌≡◌};
ghost use Rattle.std.specs.Option.{option_map};
ghost use Rattle.ld_layout.specs.Lines.{seen};
ghost use Rattle.ld_kernel.specs.Events.{context_of, event_said, fields_with, head_said, plain_event, plain_what, what_by, what_said};

use crate::event::{Context, Event, Place, What};
use crate::fields::count;
use crate::kind::{Fields, Kind};
use crate::number::{byte_at, half_at, word_at};
use crate::wrong::Wrong;

/// How many bytes each event begins with: its number, its flags and the number of its task.
const HEAD: usize = 8;

/// What an event begins with.
#[derive(Clone, Copy)]
pub(crate) struct Head {
    pub id: u32,
    pub context: Context,
    pub task: i32,
}

/// Which handlers run, and which interrupts are disabled, by the flags of an event.
fn context_of(flags: u8) -> Context
    ensures { result ≡ context_of flags }
{
    Context {
        hard_off: flags % 2 == 1,
        soft_off: flags / 128 == 1,
        in_hard: flags / 8 % 2 == 1,
        in_soft: flags / 16 % 2 == 1,
        in_nmi: flags / 64 % 2 == 1,
    }
}

/// What an event begins with.
fn head_of(bytes: &[u8]) -> Result<Head, Wrong>
    ensures { result ≡ head_said bytes.now }
{
    if bytes.len() < HEAD {
        return Err(Wrong::Short);
    }
    let Ok(task) = count(u64::from(word_at(bytes, 4))) else {
        return Err(Wrong::Task);
    };
    Ok(Head {
        id: u32::from(half_at(bytes, 0)),
        context: context_of(byte_at(bytes, 2)),
        task,
    })
}

/// The fields of the events with a number, if they are known.
fn fields_with(kinds: &[Kind], id: u32) -> Option<Fields>
    ensures { result ≡ fields_with id kinds.now }
{
    let mut rest = kinds;
    while let [first, others @ ..] = rest {
        if first.id == id {
            return Some(first.fields);
        }
        rest = others;
    }
    None
}

/// What the bytes of an event with these fields tell.
#[tactic(auto, unfolding(crate::specs::Events::what_by))]
fn what_by<'a>(fields: &Fields, bytes: &'a [u8]) -> Result<What<'a>, Wrong>
    ensures { seen plain_what result ≡ what_by bytes.entry.now fields.now }
{
    match fields {
        Fields::Acquire(fields) => Ok(What::Acquire(fields.read(bytes)?)),
        Fields::Release(fields) => Ok(What::Release(fields.read(bytes)?)),
        Fields::StockAcquire(fields) => Ok(What::StockAcquire(fields.read(bytes)?)),
        Fields::StockRelease(fields) => Ok(What::StockRelease(fields.read(bytes)?)),
        Fields::IrqEnable => Ok(What::IrqEnable),
        Fields::IrqDisable => Ok(What::IrqDisable),
        Fields::StepBegin(fields) => Ok(What::StepBegin(fields.read(bytes)?)),
        Fields::StepEnd(fields) => Ok(What::StepEnd(fields.read(bytes)?)),
    }
}

/// What the bytes of an event with a number tell.
fn what_of<'a>(kinds: &[Kind], id: u32, bytes: &'a [u8]) -> Result<What<'a>, Wrong>
    ensures { seen plain_what result ≡ what_said bytes.entry.now (fields_with id kinds.now) }
{
    match fields_with(kinds, id) {
        None => Ok(What::Other),
        Some(fields) => what_by(&fields, bytes),
    }
}

/// What the bytes of an event tell, which a processor recorded at a time. An event of no known kind tells where its
/// task runs. Takes no memory.
///
/// # Errors
///
/// What is wrong with the bytes.
#[tactic(auto, unfolding(crate::specs::Events::event_said))]
pub fn event_of<'a>(
    kinds: &[Kind],
    processor: usize,
    time: u64,
    bytes: &'a [u8],
) -> Result<Event<'a>, Wrong>
    ensures { seen plain_event result ≡ event_said kinds.now processor time bytes.entry.now }
{
    let head = head_of(bytes)?;
    let what = what_of(kinds, head.id, bytes)?;
    Ok(Event {
        place: Place {
            task: head.task,
            processor,
            time,
            context: head.context,
        },
        what,
    })
}
