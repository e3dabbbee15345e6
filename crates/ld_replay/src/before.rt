//! What the task of a line has open there.
ghost use Rattle.std.specs.Prelude.{◌≡◌, IfOk, List};
ghost use Rattle.ld_trace.specs.Events.{Position, plain_event};
ghost use Rattle.ld_rules.specs.Frames.{task_of};
ghost use Rattle.ld_replay.specs.HeldAt.{IsHeldAt};
ghost use Rattle.ld_replay.specs.Inner.Task.{IsAfter};

use crate::flags::Flags;
use crate::hold::HeldAt;
use crate::task::Task;
use ld_trace::Event;
use std::alloc::{AllocError, Global};

/// The event of a line, and what its task has open just before it.
#[derive(Drop)]
pub struct Before<'a> {
    /// The number of the line in the stream.
    pub line: u64,
    /// The event.
    pub event: Event<'a>,
    /// Its task.
    pub task: Task<'a>,
}

impl<'a> Before<'a> {
    /// What the task holds there in the frame that it is in.
    ///
    /// # Errors
    ///
    /// Where a growth of memory was refused.
    pub fn held(&self, alloc: Global) -> Result<HeldAt<'a>, AllocError>
        requires { self.now.task.name ≡ task_of (plain_event self.now.event) }
        ensures event { IfOk result (λ at. at.event ≡ self.now.event) }
        ensures open { (past : List Position) → IsAfter past self.now.task
            → IfOk result (λ at. IsHeldAt past at) }
    {
        let task = self.task.copied(alloc)?;
        Ok(task.at(self.event))
    }

    /// The flags of the task just after the event.
    pub fn flags(&self) -> Flags {
        self.task.flags_after(&self.event, self.line)
    }
}
