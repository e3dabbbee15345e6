//! The pieces of a stream that have come, and their traces.
ghost use Rattle.std.specs.Prelude.{◌≡◌, ◌≢◌, ◌≤◌, ◌+◌, ◌++◌, ◌⊎◌, [], None, IfOk, IfSome, IsTrue, OnErr, OnOk, count_by, false, length, map, true};
ghost use Rattle.ld_io.specs.declared.transfer.TheConstants.{MOST_READ};
ghost use Rattle.ld_trace.specs.Inner.Splitting.{is_lf};
ghost use Rattle.ld_trace.specs.Sources.{AreNumbered, plain, sources, stream_fault};
ghost use Rattle.ld_pieces.specs.Pieces.{EndsLine, IsCut};

use crate::cut::{count_lines, cut_behind, ends_line};
use ld_trace::{LONGEST_STREAM, Source};
use std::alloc::{AllocError, Global};
use std::marker::Model;

/// The bytes that have come, piece by piece. It is seen as all of them.
#[derive(Drop)]
struct Came<'a> {
    pieces: Vec<&'a [u8]>,
    len: usize,
    /// The last byte is an LF.
    ends_line: bool,
}

impl<'a> Model for Came<'a> {
    ghost use Rattle.std.specs.Prelude.{◌≡◌, ◌≤◌, List, ℕ, length, map, true};
    ghost use Rattle.std.specs.List.{concat};
    ghost use Rattle.ld_io.specs.declared.transfer.TheConstants.{MOST_READ};
    ghost use Rattle.ld_pieces.specs.Pieces.{EndsLine};

    ghost Value = { List ℕ };

    ghost view = { λ c. concat (map (λ piece. piece.now) c.pieces.items) };

    ghost invariant = { λ c. (c.len ≡ length (concat (map (λ piece. piece.now) c.pieces.items)))
        × (c.len ≤ MOST_READ)
        × (c.ends_line ≡ true → EndsLine (concat (map (λ piece. piece.now) c.pieces.items))) };
}

impl<'a> Came<'a> {
    fn new(alloc: Global) -> Came<'a>
        ensures { result ≡ [] }
    {
        Came {
            pieces: Vec::new(alloc),
            len: 0,
            ends_line: false,
        }
    }

    fn len(&self) -> usize
        ensures { result ≡ length self.now }
    {
        self.len
    }

    /// Whether the next piece begins a line.
    fn is_whole(&self) -> bool
        ensures { IsTrue result → (self.now ≡ []) ⊎ EndsLine self.now }
    {
        self.len == 0 || self.ends_line
    }

    /// One more piece. `AllocError` if memory was refused: nothing has changed then.
    fn push(&mut self, piece: &'a [u8]) -> Result<(), AllocError>
        requires { length self.old + length piece.now ≤ MOST_READ }
        ensures ok { OnOk result (self.new ≡ self.old ++ piece.entry.now) }
        ensures err { OnErr result (self.new ≡ self.old) }
    {
        self.pieces.push(piece)?;
        self.len += piece.len();
        self.ends_line = ends_line(piece);
        Ok(())
    }

    /// All bytes in one.
    fn joined(&self, alloc: Global) -> Result<Vec<u8>, AllocError>
        ensures { IfOk result (λ all. all.items ≡ self.now) }
    {
        let mut all = Vec::with_capacity(alloc, self.len)?;
        for piece in &self.pieces {
            all.extend_from_slice(piece)?;
        }
        Ok(all)
    }
}

/// How many LFs have come, of which these are the traces. Only those of the last trace are counted: its first line has
/// those before it.
fn count_come(alloc: Global, came: &Came<'_>, traces: &[Source<'_>]) -> Result<u64, AllocError>
    requires cut { IsCut came.now (map plain traces.now) }
    requires whole { (came.now ≡ []) ⊎ EndsLine came.now }
    requires few { length came.now ≤ MOST_READ }
    ensures lines { IfOk result (λ lines. lines ≡ count_by is_lf came.now) }
    ensures few { IfOk result (λ lines. lines ≤ MOST_READ) }
{
    let Some(last) = traces.last() else {
        // Comments alone, which is rare.
        let all = came.joined(alloc)?;
        return Ok(count_lines(&all));
    };
    Ok(last.first_line + count_lines(last.bytes) - 1)
}

/// The pieces of a stream that have come, in order, with the traces of all of them. It is seen as their bytes.
#[derive(Drop)]
pub struct Pieces<'a> {
    came: Came<'a>,
    /// The traces of the pieces, until one can't be cut alone.
    traces: Vec<Source<'a>>,
    is_cut: bool,
}

impl<'a> Model for Pieces<'a> {
    ghost use Rattle.std.specs.Prelude.{◌≡◌, ◌≤◌, List, ℕ, length, map, true};
    ghost use Rattle.ld_trace.specs.declared.source.TheConstants.{MOST_TRACES};
    ghost use Rattle.ld_trace.specs.Sources.{plain};
    ghost use Rattle.ld_pieces.specs.Pieces.{IsCut};

    ghost Value = { List ℕ };

    ghost view = { λ p. p.came };

    ghost invariant = { λ p. p.is_cut ≡ true
        → (length p.traces.items ≤ MOST_TRACES) × IsCut p.came (map plain p.traces.items) };
}

impl<'a> Pieces<'a> {
    /// No piece has come. Takes no memory.
    pub fn new(alloc: Global) -> Pieces<'a>
        ensures { result ≡ [] }
    {
        Pieces {
            came: Came::new(alloc),
            traces: Vec::new(alloc),
            is_cut: true,
        }
    }

    /// How many bytes have come.
    pub fn len(&self) -> usize
        ensures { result ≡ length self.now }
    {
        self.came.len()
    }

    /// One more piece.
    ///
    /// # Errors
    ///
    /// `AllocError` if memory was refused.
    pub fn add(&mut self, alloc: Global, piece: &'a [u8]) -> Result<(), AllocError>
        requires { length self.old + length piece.now ≤ MOST_READ }
        ensures { OnOk result (self.new ≡ self.old ++ piece.entry.now) }
    {
        if !self.is_cut || !self.came.is_whole() {
            self.is_cut = false;
            return self.came.push(piece);
        }
        let traces = self.traces.len() as u64;
        let lines = count_come(alloc, &self.came, &self.traces)?;
        let more = cut_behind(alloc, piece, traces, lines, self.came.len() == 0)?;
        self.is_cut = false;
        self.came.push(piece)?;
        if let Some(mut more) = more {
            self.traces.append(&mut more)?;
            self.is_cut = true;
        }
        Ok(())
    }

    /// The traces of the stream that has come. `None` if it has a fault.
    pub fn traces(&self) -> Option<&[Source<'a>]>
        ensures fault { IfSome result (λ _. stream_fault self.now ≡ None) }
        ensures traces { IfSome result (λ traces. map plain traces.now ≡ sources self.now) }
        ensures numbered { IfSome result (λ traces. AreNumbered (map plain traces.now)) }
    {
        if self.is_cut && self.came.len() <= LONGEST_STREAM {
            Some(&self.traces)
        } else {
            None
        }
    }

    /// All bytes in one.
    ///
    /// # Errors
    ///
    /// `AllocError` if memory was refused.
    pub fn joined(&self, alloc: Global) -> Result<Vec<u8>, AllocError>
        ensures { IfOk result (λ all. all.items ≡ self.now) }
    {
        self.came.joined(alloc)
    }
}
