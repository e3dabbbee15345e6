//! Tells of refused traces: the faulty line, why it is one, and what its task has open there.

use crate::fault::Fault;
use crate::telling::Telling;
use ld_escape::write_visible;
use ld_overview::Witness;
use ld_replay::Before;
use ld_rules::TraceFault;
use std::alloc::AllocError;
use std::io::Write;

/// What a verb takes.
#[derive(Clone, Copy)]
enum Form {
    Lock,
    Nested,
    State,
    Begin,
}

impl Form {
    /// That of a verb, if it is one.
    fn of(verb: &[u8]) -> Option<Form> {
        match verb {
            b"acquire" | b"try" | b"release" => Some(Form::Lock),
            b"nested" => Some(Form::Nested),
            b"enter" | b"exit" | b"enable" | b"disable" => Some(Form::State),
            b"begin" => Some(Form::Begin),
            _ => None,
        }
    }

    /// Its fields.
    fn fields(self) -> &'static str {
        match self {
            Form::Lock => "TASK LOCK",
            Form::Nested => "TASK LOCK N",
            Form::State => "TASK STATE",
            Form::Begin => "TASK HARD SOFT",
        }
    }

    /// Those that are spelled in a way of their own.
    fn names(self) -> &'static str {
        match self {
            Form::Lock => "TASK or LOCK",
            Form::Nested => "TASK, LOCK or N",
            Form::State | Form::Begin => "TASK",
        }
    }

    /// What is wrong with a field that is one of two words.
    fn wrong_state(self) -> &'static str {
        match self {
            Form::Begin => "HARD or SOFT is neither on nor off",
            Form::Lock | Form::Nested | Form::State => "STATE is neither hard nor soft",
        }
    }
}

/// Tells of these refused traces in turn, of so many; and how many more there are.
pub fn tell_refused(
    telling: &mut Telling<'_, '_>,
    faults: &[Fault],
    count: usize,
) -> Result<(), AllocError> {
    for fault in faults {
        tell_fault(telling, fault)?;
        if let Some(before) = telling.sightings.at(fault.at) {
            tell_open(telling, fault, before)?;
        }
        telling.text.push(b'\n')?;
    }
    let left = count.saturating_sub(faults.len());
    if left > 0 {
        writeln!(telling.text, "refused traces not explained {left}\n").map_err(|_| AllocError)?;
    }
    Ok(())
}

/// The line of the report, the faulty line, and why it is one.
fn tell_fault(telling: &mut Telling<'_, '_>, fault: &Fault) -> Result<(), AllocError> {
    let Witness { number, line } = fault.at;
    let label = telling.label(number);
    let name = fault.fault.name();
    telling.text.extend_from_slice(b"refused ")?;
    telling.text.extend_from_slice(label)?;
    writeln!(telling.text, " line {line} {name}").map_err(|_| AllocError)?;
    telling.text.extend_from_slice(b"  ")?;
    telling.line(number, line)?;
    let said = telling.texts.at(fault.at);
    write_why(&mut telling.text, said, fault.fault)
}

/// What the task of a faulty line has open there, if the fault is one of that.
fn tell_open<'a>(
    telling: &mut Telling<'_, 'a>,
    fault: &Fault,
    before: &Before<'a>,
) -> Result<(), AllocError> {
    let number = fault.at.number;
    match fault.fault {
        TraceFault::NotHeld | TraceFault::HeldAtExit => {
            telling.holds(number, before)?;
            telling.handlers(number, before)
        }
        TraceFault::BadNest | TraceFault::BadExit | TraceFault::BadEnable => {
            telling.handlers(number, before)
        }
        _ => Ok(()),
    }
}

/// What the verb of a line takes, and what was found.
fn write_why(out: &mut Vec<u8>, said: &[u8], fault: TraceFault) -> Result<(), AllocError> {
    let (verb, count) = words_of(said);
    out.extend_from_slice(b"  ")?;
    write_visible(out, verb)?;
    match Form::of(verb) {
        Some(form) => {
            let fields = form.fields();
            write!(out, " takes {fields}: ").map_err(|_| AllocError)?;
            write_found(out, form, count, fault)?;
        }
        None => {
            out.extend_from_slice(
                b" is none of acquire, nested, try, release, enter, exit, enable, disable and begin",
            )?;
        }
    }
    out.push(b'\n')?;
    Ok(())
}

/// What was found where a verb has this form, with so many words behind it.
fn write_found(
    out: &mut Vec<u8>,
    form: Form,
    count: u64,
    fault: TraceFault,
) -> Result<(), AllocError> {
    match fault {
        TraceFault::BadCount if count == 1 => out.extend_from_slice(b"1 word found")?,
        TraceFault::BadCount => write!(out, "{count} words found").map_err(|_| AllocError)?,
        TraceFault::BadName => {
            let names = form.names();
            write!(out, "{names} isn't spelled as one").map_err(|_| AllocError)?;
        }
        TraceFault::BadState => out.extend_from_slice(form.wrong_state().as_bytes())?,
        other => out.extend_from_slice(found_open(other).as_bytes())?,
    }
    Ok(())
}

/// What was found in the trace so far.
fn found_open(fault: TraceFault) -> &'static str {
    match fault {
        TraceFault::TooManyTasks => "TASK is new, and the trace has 1,024 tasks",
        TraceFault::TooManyClasses => "the class is new, and the trace has 8,191 classes",
        TraceFault::TooDeep => "TASK holds 96 locks",
        TraceFault::NotHeld => "TASK doesn't hold LOCK in the same handler, or outside any",
        TraceFault::BadNest => "TASK is in a handler that this one can't interrupt",
        TraceFault::Masked => "TASK has hard interrupts disabled, or those of STATE",
        TraceFault::BadExit => "TASK is in no handler, or its innermost one isn't of STATE",
        TraceFault::HeldAtExit => "TASK holds a lock in the handler",
        TraceFault::BadEnable => "TASK is in a handler of STATE",
        TraceFault::LateBegin => "TASK has an earlier event",
        TraceFault::BadVerb | TraceFault::BadCount | TraceFault::BadName | TraceFault::BadState =>
            "",
    }
}

/// The first word of a line, and how many follow it.
fn words_of(said: &[u8]) -> (&[u8], u64) {
    let mut words = said
        .split(|byte| *byte == b' ' || *byte == b'\t')
        .filter(|word| !word.is_empty());
    let verb = words.next().unwrap_or(&[]);
    (verb, words.count() as u64)
}
