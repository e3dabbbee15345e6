//! What runs where an event is recorded.
ghost use Rattle.std.specs.Prelude.{◌≡◌};
ghost use Rattle.ld_kept.specs.Running.{running_of};

use ld_kernel::Context;

/// The handlers that run, and whether interrupts are enabled.
#[derive(Clone, Copy, Debug, PartialEq, Eq)]
pub struct Running {
    /// The handler of a softirq runs.
    pub in_soft: bool,
    /// The handler of a hardware interrupt runs: over that of a softirq, if that runs too.
    pub in_hard: bool,
    /// Hardware interrupts are enabled.
    pub hard: bool,
    /// Softirqs are enabled.
    pub soft: bool,
}

/// What runs in a context; `None` in the handler of an NMI, of which a stream has nothing.
pub fn running_of(context: Context) -> Option<Running>
    ensures { result ≡ running_of context }
{
    if context.in_nmi {
        return None;
    }
    Some(Running {
        in_soft: context.in_soft,
        in_hard: context.in_hard,
        hard: !context.hard_off,
        soft: !context.soft_off,
    })
}
