//! What a worker reads, and what it handed on.
ghost use Rattle.std.specs.Prelude.{◌≡◌, ◌⊎◌, ◌<◌, ◌++◌, ◌∷◌, [], None, IfSome, IsSome, OnErr, OnOk};
ghost use Rattle.std.specs.List.{last_or};
ghost use Rattle.ld_batch.specs.Batch.{nothing_shown};
ghost use Rattle.ld_trace.specs.Sources.{Fits, plain};

use crate::desk::{Desk, Scope};
use crate::feeder::Feeder;
use ld_book::{AddRefusal, Series};
use ld_history::{Front, Room};
use ld_trace::Source;
use std::alloc::{AllocError, Global};
use std::marker::{Model, PhantomData};
use std::sync::Wait;
use std::sync::ledger::Ledger;

/// How many traces are handed on together by `Portion::Traces`.
const TRACES: usize = 8;

// No clause cites the constants, so all would hold with any other numbers.
const _: () = prove!(TRACES == 1 << 3);

/// How many bytes are handed on together by `Portion::Bytes`, and how many a worker gets together of a stream that is
/// read meanwhile.
pub(crate) const BYTES: usize = 65_536;

const _: () = prove!(BYTES == 1 << 16);

/// What a header has beside its label: `trace `, and the LF.
const HEADER: usize = 7;

/// How much a worker reads before it hands that on. Each hand-on takes the lock of the book.
#[derive(Clone, Copy, Debug, PartialEq, Eq)]
pub enum Portion {
    /// 8 traces.
    Traces,
    /// As many traces as have 65,536 bytes, so that small ones don't wait for the lock one after the other.
    Bytes,
}

/// What a worker reads, and what it handed on, which its desk lists. It is seen as what it shows.
#[derive(Drop)]
pub(crate) struct Told<'a, S: Scope, H: Room> {
    series: Series<'a>,
    /// What the worker saw of the desk's book: all that it handed on.
    front: Front<H>,
    portion: Portion,
    /// How many bytes the traces have that weren't handed on, with the lines of their headers.
    bytes: usize,
    scope: PhantomData<S>,
}

impl<'a, S: Scope, H: Room> Model for Told<'a, S, H> {
    ghost use Rattle.std.specs.Prelude.{All, IsSome};
    ghost use Rattle.std.specs.List.{Contains};
    ghost use Rattle.ld_batch.specs.Batch.{PlainShown};
    ghost use Rattle.ld_work.specs.Inner.Seen.{entries_of};

    ghost Value = { PlainShown };

    ghost view = { λ t. t.series };

    ghost invariant = { λ t. IsSome H.history × All S.may_list t.series.sources
        × All (Contains t.front) (entries_of t.series.behind) };
}

impl<'a, S: Scope, H: Room> Told<'a, S, H> {
    /// Nothing was read.
    pub(crate) fn new(alloc: Global, front: Front<H>, portion: Portion) -> Told<'a, S, H>
        requires history { IsSome H.history }
        ensures { result ≡ nothing_shown }
    {
        Told {
            series: Series::new(alloc),
            front,
            portion,
            bytes: 0,
            scope: PhantomData,
        }
    }

    /// Whether there are traces that weren't handed on.
    pub(crate) fn has_more(&self) -> bool {
        !self.series.listed().is_empty()
    }

    /// Whether the traces that weren't handed on are as much as is handed on together.
    pub(crate) fn is_due(&self) -> bool {
        match self.portion {
            Portion::Traces => self.series.listed().len() >= TRACES,
            Portion::Bytes => self.bytes >= BYTES,
        }
    }

    /// Reads one more trace.
    ///
    /// `AllocError` where memory was refused. Nothing has changed then but spare memory.
    pub(crate) fn push(&mut self, source: Source<'a>) -> Result<(), AllocError>
        requires fits { Fits (plain source) }
        requires scope { S.may_list (plain source) }
        requires above { IfSome (last_or None (self.old.behind ++ self.old.sources))
            (λ last. last.number < source.number) }
        ensures ok { OnOk result (self.new.sources ≡ self.old.sources ++ plain source.entry ∷ []) }
        ensures behind { self.new.behind ≡ self.old.behind }
        ensures refused { OnErr result (self.new ≡ self.old) }
    {
        self.series.push(source)?;
        self.bytes = self.bytes.saturating_add(length_of(&source));
        Ok(())
    }

    /// Adds the traces that weren't handed on to the desk's book, unless one of their numbers is listed, and leaves
    /// none of them. What wasn't added is forgotten, with all before it.
    pub(crate) fn hand_on<T: Ledger, E: Ledger, R: Wait>(
        &mut self,
        rt: &R,
        desk: &Desk<'a, T, E, S, H>,
        feeder: &mut Feeder<T, E>,
    ) -> Result<(), AllocError>
        ensures { (self.new ≡ nothing_shown)
            ⊎ ((self.new.behind ≡ self.old.behind ++ self.old.sources) × (self.new.sources ≡ [])) }
    {
        let answer = desk
            .look(rt)
            .submit_next(feeder, &mut self.front, &mut self.series);
        // The lock is free again.
        self.bytes = 0;
        match answer {
            Ok(()) => {
                self.series.pass_on();
                Ok(())
            }
            Err(refusal) => {
                self.series.clear();
                given_up(refusal)
            }
        }
    }
}

/// How many bytes a trace has, with a header of one blank and LF.
pub(crate) fn length_of(source: &Source<'_>) -> usize {
    HEADER
        .saturating_add(source.name.len())
        .saturating_add(source.bytes.len())
}

/// What wasn't added is given up: a worker goes on with its next draw, or ends where memory was refused.
fn given_up(refusal: AddRefusal) -> Result<(), AllocError> {
    match refusal {
        AddRefusal::Twice => Ok(()),
        AddRefusal::Memory => Err(AllocError),
    }
}
