//! Since when interrupts are enabled.

use ld_trace::{Event, State};

/// Whether the interrupts of a state are enabled, and since when.
#[derive(Clone, Copy, Debug, PartialEq, Eq)]
pub enum Flag {
    /// They are disabled.
    Off,
    /// They are enabled since the trace began.
    FromStart,
    /// They are enabled since the event of this line of the stream.
    Since(u64),
}

/// The flags of a task where it is.
#[derive(Clone, Copy, Debug, PartialEq, Eq)]
pub struct Flags {
    pub hard: Flag,
    pub soft: Flag,
}

impl Flags {
    /// Those of a task before its first event.
    pub(crate) fn at_start() -> Flags {
        Flags {
            hard: Flag::FromStart,
            soft: Flag::FromStart,
        }
    }

    /// Those after an event of the task, at this line. `outer` are those around the handler that it is in.
    pub(crate) fn after(self, event: &Event<'_>, line: u64, outer: Option<Flags>) -> Flags {
        match *event {
            Event::Enable { state, .. } => self.enabled(state, line),
            // A handler begins with the flag of its own state off.
            Event::Disable { state, .. } | Event::Enter { state, .. } => self.with(
                state,
                Flag::Off,
            ),
            Event::Begin { hard, soft, .. } => Flags {
                hard: begun(hard, line),
                soft: begun(soft, line),
            },
            Event::Exit { .. } => outer.unwrap_or(self),
            Event::Acquire { .. }
            | Event::Nested { .. }
            | Event::Try { .. }
            | Event::Release { .. } => self,
        }
    }

    /// These, with the state's own on: since this line, where it was off.
    fn enabled(self, state: State, line: u64) -> Flags {
        let flag = match state {
            State::Hard => self.hard,
            State::Soft => self.soft,
        };
        match flag {
            Flag::Off => self.with(state, Flag::Since(line)),
            Flag::FromStart | Flag::Since(_) => self,
        }
    }

    fn with(self, state: State, flag: Flag) -> Flags {
        match state {
            State::Hard => Flags {
                hard: flag,
                soft: self.soft,
            },
            State::Soft => Flags {
                hard: self.hard,
                soft: flag,
            },
        }
    }
}

/// What a `begin` at this line says of a flag.
fn begun(is_on: bool, line: u64) -> Flag {
    if is_on { Flag::Since(line) } else { Flag::Off }
}
