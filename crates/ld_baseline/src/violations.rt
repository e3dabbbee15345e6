//! What the lines of a report say, to be looked up by known lines.
ghost use Rattle.std.specs.Prelude.{◌≡◌, IfOk};
ghost use Rattle.ld_baseline.specs.Said.{PlainSaid, plain_said};
ghost use Rattle.ld_baseline.specs.Gone.{is_in, is_there};

use crate::said::{Said, has_star, matches_any, said_by};
use indexmap::IndexSet;
use ld_trace::{next_line, text};
use std::alloc::{AllocError, Global};
use std::marker::Model;

/// What the lines of a report say.
#[derive(Drop)]
pub struct Violations<'a> {
    /// It, to find a known line without a `*` by one look-up.
    exact: IndexSet<Said<'a>>,
    /// The same, in the report's order.
    all: Vec<Said<'a>>,
}

impl<'a> Model for Violations<'a> {
    ghost use Rattle.std.specs.Prelude.{map};
    ghost use Rattle.ld_baseline.specs.Gone.{PlainViolations};
    ghost use Rattle.ld_baseline.specs.Said.{plain_said};

    ghost Value = { PlainViolations };

    ghost view = { λ violations. record {
      exact = map plain_said violations.exact.keys;
      all = map plain_said violations.all.items;
    } };
}

impl<'a> Violations<'a> {
    /// What the lines of this report say.
    ///
    /// # Errors
    ///
    /// Where the memory for it was refused.
    pub fn of(alloc: Global, report: &'a [u8]) -> Result<Violations<'a>, AllocError>
        ensures { IfOk result (λ violations. (known : PlainSaid) →
            is_in violations known ≡ is_there report.entry.now known) }
    {
        let mut exact = IndexSet::new(alloc);
        let mut all = Vec::new(alloc);
        let mut rest = report;
        while let Some((line, after)) = next_line(rest) {
            if let Some(one) = said_by(text(line)) {
                exact.insert(one)?;
                all.push(one)?;
            }
            rest = after;
        }
        Ok(Violations { exact, all })
    }

    /// Whether a known line matches one of them.
    pub fn have(&self, known: Said<'_>) -> bool
        ensures { result ≡ is_in self.now (plain_said known.entry) }
    {
        if has_star(known) {
            matches_any(known, &self.all)
        } else {
            self.exact.contains(&known)
        }
    }
}
