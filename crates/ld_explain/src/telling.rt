//! Tells of lines of traces, and of what their tasks have open there.

use crate::known::{known_at, write_known_line};
use crate::readers::{Held, holds_in, innermost};
use crate::sightings::{Sightings, Texts};
use crate::writing::{state_name, write_lock, write_place};
use ld_escape::write_visible;
use ld_overview::{Book, Witness};
use ld_places::ShownPlaces;
use ld_replay::{Before, Flag, task_of};
use ld_source_map::Maps;
use ld_trace::{Source, State};
use std::alloc::{AllocError, Global};
use std::io::Write;

/// The text so far, and what is known of the lines that it tells of.
#[derive(Drop)]
pub struct Telling<'t, 'a> {
    pub alloc: Global,
    /// What all traces show.
    pub book: &'t Book<'a>,
    /// The traces, each at the place of its number.
    pub sources: &'t [Source<'a>],
    /// Where their lines are shown.
    pub places: &'t ShownPlaces<'t>,
    pub maps: &'t Maps<'t>,
    pub sightings: &'t Sightings<'a>,
    pub texts: &'t Texts<'a>,
    pub text: Vec<u8>,
}

impl<'t, 'a> Telling<'t, 'a> {
    /// The line of a trace at which something was seen.
    pub fn seen(&mut self, at: Witness, before: &Before<'a>) -> Result<(), AllocError> {
        let label = self.label(at.number);
        self.text.extend_from_slice(b"    ")?;
        self.text.extend_from_slice(label)?;
        self.text.extend_from_slice(b", task ")?;
        self.text.extend_from_slice(task_of(&before.event))?;
        self.text.extend_from_slice(b", ")?;
        self.line(at.number, at.line)
    }

    /// The locks that the task of a line of this trace holds there in the same frame.
    pub fn holds(&mut self, number: u64, before: &Before<'a>) -> Result<(), AllocError> {
        let holds = holds_in(self.alloc, before.task.holds(), innermost(before))?;
        for held in &holds {
            self.hold(number, held)?;
        }
        Ok(())
    }

    /// A lock that is held, and the line of its acquisition.
    pub fn hold(&mut self, number: u64, held: &Held<'_>) -> Result<(), AllocError> {
        self.text.extend_from_slice(b"    holds ")?;
        write_lock(
            &mut self.text,
            held.lock.class,
            held.lock.instance,
            held.is_written,
        )?;
        self.text.extend_from_slice(b", ")?;
        self.line(number, held.line)
    }

    /// The handlers that the task of a line of this trace is in there.
    pub fn handlers(&mut self, number: u64, before: &Before<'a>) -> Result<(), AllocError> {
        for handler in before.task.handlers() {
            let state = state_name(handler.state);
            write!(self.text, "    in a {state} handler, ").map_err(|_| AllocError)?;
            self.line(number, handler.line)?;
        }
        Ok(())
    }

    /// Since when the handlers of a state can interrupt.
    pub fn flag(&mut self, number: u64, state: State, flag: Flag) -> Result<(), AllocError> {
        let state = state_name(state);
        match flag {
            Flag::Off => Ok(()),
            Flag::FromStart => {
                writeln!(self.text, "    {state} on since the trace began").map_err(|_| AllocError)
            }
            Flag::Since(line) => {
                write!(self.text, "    {state} on since ").map_err(|_| AllocError)?;
                self.line(number, line)
            }
        }
    }

    /// A line of a trace: where it is shown, what it says, and what is known of it.
    pub fn line(&mut self, number: u64, line: u64) -> Result<(), AllocError> {
        write_place(&mut self.text, self.places, line)?;
        self.text.extend_from_slice(b": ")?;
        write_visible(&mut self.text, self.texts.at(Witness { number, line }))?;
        self.text.push(b'\n')?;
        match known_at(self.places, self.maps, line) {
            Some(at) => write_known_line(self.alloc, &mut self.text, at),
            None => Ok(()),
        }
    }

    /// The label of a trace.
    pub fn label(&self, number: u64) -> &'a [u8] {
        match self.sources.get(number as usize) {
            Some(source) => source.name,
            None => &[],
        }
    }
}
