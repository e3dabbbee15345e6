//! Where the fields of the steps of a processor that comes or goes stand, and what they say.
ghost use Rattle.std.specs.Prelude.{◌≡◌, map, IfOk};
ghost use Rattle.ld_layout.specs.Fields.{plain};

use crate::event::{StepBegin, StepEnd};
use crate::fields::{FieldFault, count, number, word};
use crate::number::Number;
use crate::wrong::Wrong;
use ld_layout::Format;

/// Where the fields of `cpuhp_enter` stand.
#[derive(Clone, Copy, Debug, PartialEq, Eq)]
pub struct StepBeginFields {
    pub processor: Number,
    pub step: Number,
    pub function: Number,
}

impl StepBeginFields {
    ghost use Rattle.ld_kernel.specs.Fields.{IsStepBegin};
    ghost use Rattle.ld_kernel.specs.Events.{begin_said};

    /// The fields that its format has.
    ///
    /// # Errors
    ///
    /// The first field that it lacks.
    pub fn of(format: &Format<'_>) -> Result<StepBeginFields, FieldFault>
        ensures { IfOk result (λ fields. IsStepBegin (map plain format.now.fields.items) fields) }
    {
        let processor = number(format, "cpu")?;
        let step = number(format, "idx")?;
        let function = number(format, "fun")?;
        Ok(StepBeginFields {
            processor,
            step,
            function,
        })
    }

    /// What the bytes of such an event tell.
    ///
    /// # Errors
    ///
    /// What is wrong with them.
    #[tactic(auto, unfolding(crate::specs::Events::begin_said))]
    pub fn read(&self, bytes: &[u8]) -> Result<StepBegin, Wrong>
        ensures { result ≡ begin_said self.now bytes.now }
    {
        if bytes.len()
            < self
                .processor
                .end()
                .max(self.step.end())
                .max(self.function.end())
        {
            return Err(Wrong::Short);
        }
        let processor = word(self.processor.read(bytes))?;
        let step = count(self.step.read(bytes))?;
        Ok(StepBegin {
            processor,
            step,
            function: self.function.read(bytes),
        })
    }
}

/// Where the fields of `cpuhp_exit` stand.
#[derive(Clone, Copy, Debug, PartialEq, Eq)]
pub struct StepEndFields {
    pub processor: Number,
    pub step: Number,
    pub status: Number,
}

impl StepEndFields {
    ghost use Rattle.ld_kernel.specs.Fields.{IsStepEnd};
    ghost use Rattle.ld_kernel.specs.Events.{end_said};

    /// The fields that its format has.
    ///
    /// # Errors
    ///
    /// The first field that it lacks.
    pub fn of(format: &Format<'_>) -> Result<StepEndFields, FieldFault>
        ensures { IfOk result (λ fields. IsStepEnd (map plain format.now.fields.items) fields) }
    {
        let processor = number(format, "cpu")?;
        let step = number(format, "idx")?;
        let status = number(format, "ret")?;
        Ok(StepEndFields {
            processor,
            step,
            status,
        })
    }

    /// What the bytes of such an event tell.
    ///
    /// # Errors
    ///
    /// What is wrong with them.
    #[tactic(auto, unfolding(crate::specs::Events::end_said))]
    pub fn read(&self, bytes: &[u8]) -> Result<StepEnd, Wrong>
        ensures { result ≡ end_said self.now bytes.now }
    {
        if bytes.len()
            < self
                .processor
                .end()
                .max(self.step.end())
                .max(self.status.end())
        {
            return Err(Wrong::Short);
        }
        let processor = word(self.processor.read(bytes))?;
        let step = count(self.step.read(bytes))?;
        let status = word(self.status.read(bytes))?;
        Ok(StepEnd {
            processor,
            step,
            status: status.cast_signed(),
        })
    }
}
