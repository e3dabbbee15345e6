//! Explains the refused traces and the violations of a report, one after another.

use crate::common::common_of;
use crate::fault::Fault;
use crate::groups::{Member, grouped, most_shared};
use crate::known::write_known_class;
use crate::readers::{Held, class_of};
use crate::refusals::tell_refused;
use crate::sightings::{Sightings, Texts};
use crate::telling::Telling;
use crate::violations::{Dependency, Ends, Step, Violation, at_most};
use crate::writing::{state_name, write_lock};
use indexmap::IndexSet;
use ld_overview::{Book, ClassName, Witness, lock_of_readers, write_held, write_waited};
use ld_places::ShownPlaces;
use ld_rows::Kind;
use ld_source_map::Maps;
use ld_trace::{Source, State};
use std::alloc::{AllocError, Global};
use std::io::Write;

/// The refused traces with these faults, each with its faulty line and why it is one; and what stands behind these
/// violations, as [`chosen`](crate::chosen) answers them: the line of each, and under it its dependencies in turn, each
/// where it stands, with the locks that were held there; what the dependencies of an inversion have in common; and where
/// it has a state, both ends. Violations that share dependencies stand together, and what was told before isn't told
/// again. The last line says how many are explained, and how many are not: `most` are at most, and all where it is 0.
/// So many refused traces are told of at most, too.
///
/// `sources` are the traces of their `book`, each at the place of its number, `places` says where the lines are
/// shown, and `maps` what is known of these files' lines and of classes, which stands below each line and below the
/// line that first names the class.
///
/// # Errors
///
/// `AllocError` where a growth of memory was refused.
pub fn explain<'t, 'a>(
    alloc: Global,
    book: &'t Book<'a>,
    faults: &[Fault],
    violations: &[Violation<'_, 'a>],
    most: u64,
    sources: &'t [Source<'a>],
    places: &'t ShownPlaces<'t>,
    maps: &'t Maps<'t>,
) -> Result<Vec<u8>, AllocError> {
    let members = grouped(alloc, violations)?;
    let wanted = Parts {
        faults,
        violations,
        members: &members,
        most,
    };
    let sightings = Sightings::of(alloc, sources, wanted.lines(alloc)?)?;
    let texts = Texts::of(alloc, sources, sightings.lines(alloc)?)?;
    wanted.told(Telling {
        alloc,
        book,
        sources,
        places,
        maps,
        sightings: &sightings,
        texts: &texts,
        text: Vec::new(alloc),
    })
}

/// What is explained: the first so many of these refused traces, and of these violations by their groups.
#[derive(Clone, Copy)]
struct Parts<'e, 'r, 'a> {
    faults: &'e [Fault],
    violations: &'e [Violation<'r, 'a>],
    members: &'e [Member],
    most: u64,
}

impl<'e, 'r, 'a> Parts<'e, 'r, 'a> {
    /// Where the faults stand, and where what stands behind the violations was first seen.
    fn lines(&self, alloc: Global) -> Result<Vec<Witness>, AllocError> {
        let told = at_most(self.members.len(), self.most);
        let members = self.members.get(..told).unwrap_or(&[]);
        let mut wanted = witnesses(alloc, self.violations, members)?;
        for fault in self.told_faults() {
            wanted.push(fault.at)?;
        }
        Ok(wanted)
    }

    fn told_faults(&self) -> &'e [Fault] {
        let told = at_most(self.faults.len(), self.most);
        self.faults.get(..told).unwrap_or(&[])
    }

    /// The text on them.
    fn told<'t>(&self, telling: Telling<'t, 'a>) -> Result<Vec<u8>, AllocError> {
        let alloc = telling.alloc;
        let mut telling = telling;
        let faults = self.told_faults();
        tell_refused(&mut telling, faults, self.faults.len())?;
        let mut explaining = Explaining {
            telling,
            above: IndexSet::new(alloc),
            named: IndexSet::new(alloc),
        };
        let told = at_most(self.members.len(), self.most);
        explaining.all(self.violations, self.members, told)?;
        Ok(explaining.telling.text)
    }
}

/// Where what stands behind these violations was first seen.
fn witnesses(
    alloc: Global,
    violations: &[Violation<'_, '_>],
    members: &[Member],
) -> Result<Vec<Witness>, AllocError> {
    let mut wanted = Vec::new(alloc);
    for member in members {
        if let Some(violation) = violations.get(member.place) {
            for step in &violation.steps {
                wanted.push(step.first)?;
            }
            if let Some(ends) = &violation.ends {
                wanted.push(ends.safe_at)?;
                wanted.push(ends.exposed_at)?;
            }
        }
    }
    Ok(wanted)
}

/// The text so far, and what it told of.
#[derive(Drop)]
struct Explaining<'t, 'a> {
    telling: Telling<'t, 'a>,
    /// What was told already.
    above: IndexSet<Dependency<'a>>,
    /// The classes of which it was told what is known of them.
    named: IndexSet<&'a [u8]>,
}

impl<'t, 'a> Explaining<'t, 'a> {
    /// The first so many violations, by groups.
    fn all(
        &mut self,
        violations: &[Violation<'_, 'a>],
        members: &[Member],
        most: usize,
    ) -> Result<(), AllocError> {
        let mut told = 0;
        for group in members.chunk_by(|one, other| one.group == other.group) {
            if told < most {
                self.heading(violations, group)?;
            }
            for member in group {
                if told < most {
                    if let Some(violation) = violations.get(member.place) {
                        self.violation(violation)?;
                    }
                    told += 1;
                }
            }
        }
        let left = members.len().saturating_sub(told);
        writeln!(self.telling.text, "explained {told}, not explained {left}").map_err(
            |_| AllocError,
        )
    }

    /// What violations share that stand together, where they are several.
    fn heading(
        &mut self,
        violations: &[Violation<'_, 'a>],
        group: &[Member],
    ) -> Result<(), AllocError> {
        if group.len() < 2 {
            return Ok(());
        }
        let Some((dependency, count)) = most_shared(self.telling.alloc, violations, group)? else {
            return Ok(());
        };
        let together = group.len();
        write!(
            self.telling.text,
            "together {together}, of which {count} have "
        )
        .map_err(|_| AllocError)?;
        self.dependency(dependency)?;
        self.telling.text.extend_from_slice(b"\n\n")?;
        Ok(())
    }

    /// A violation with what stands behind it.
    fn violation(&mut self, violation: &Violation<'_, 'a>) -> Result<(), AllocError> {
        self.telling.text.extend_from_slice(violation.line)?;
        self.telling.text.push(b'\n')?;
        if self.are_above(&violation.steps) {
            self.telling
                .text
                .extend_from_slice(b"  its dependencies are above\n")?;
        } else {
            for step in &violation.steps {
                self.step(*step)?;
            }
        }
        if violation.kind == Kind::Inversion {
            self.common(&violation.steps)?;
        }
        if let Some(ends) = violation.ends {
            self.safe_end(&ends)?;
            self.exposed_end(&ends)?;
        }
        self.telling.text.push(b'\n')?;
        Ok(())
    }

    /// Whether these are several, and all of them were told already.
    fn are_above(&self, steps: &[Step<'a>]) -> bool {
        steps.len() > 1
            && steps
                .iter()
                .all(|step| self.above.contains(&step.dependency))
    }

    fn dependency(&mut self, dependency: Dependency<'_>) -> Result<(), AllocError> {
        write_held(&mut self.telling.text, dependency.from)?;
        self.telling.text.extend_from_slice(b" -> ")?;
        write_waited(&mut self.telling.text, dependency.to)
    }

    /// A dependency at its first witness, with the locks that its task held there in the same frame, and the handlers that
    /// it was in.
    fn step(&mut self, step: Step<'a>) -> Result<(), AllocError> {
        self.telling.text.extend_from_slice(b"  ")?;
        self.dependency(step.dependency)?;
        if !self.above.insert(step.dependency)? {
            self.telling.text.extend_from_slice(b", above\n")?;
            return Ok(());
        }
        self.telling.text.push(b'\n')?;
        self.class(step.dependency.from)?;
        self.class(step.dependency.to)?;
        let Some(before) = self.telling.sightings.at(step.first) else {
            return Ok(());
        };
        self.telling.seen(step.first, before)?;
        self.telling.holds(step.first.number, before)?;
        self.telling.handlers(step.first.number, before)
    }

    /// What the first occurrences of a cycle's dependencies have in common: their task, and the locks that are held at
    /// each and exclude their tasks.
    fn common(&mut self, steps: &[Step<'a>]) -> Result<(), AllocError> {
        let all = if steps.len() == 2 { "both" } else { "all" };
        let telling = &self.telling;
        let Some(common) = common_of(telling.alloc, telling.book, telling.sightings, steps)? else {
            return Ok(());
        };
        if common.is_one_task {
            writeln!(self.telling.text, "  {all} by one task").map_err(|_| AllocError)?;
        }
        for lock in &common.locks {
            write!(self.telling.text, "  {all} under ").map_err(|_| AllocError)?;
            write_lock(
                &mut self.telling.text,
                lock.name,
                lock.instance,
                lock.is_written,
            )?;
            self.telling.text.push(b'\n')?;
        }
        Ok(())
    }

    /// Where a handler of the state acquired its class, and the handlers that its task was in.
    fn safe_end(&mut self, ends: &Ends<'a>) -> Result<(), AllocError> {
        let state = state_name(ends.state);
        write!(self.telling.text, "  {state} handlers acquire ").map_err(|_| AllocError)?;
        write_waited(&mut self.telling.text, ends.safe)?;
        self.telling.text.push(b'\n')?;
        self.class(ends.safe)?;
        let Some(before) = self.telling.sightings.at(ends.safe_at) else {
            return Ok(());
        };
        self.telling.seen(ends.safe_at, before)?;
        self.telling.handlers(ends.safe_at.number, before)
    }

    /// Where a lock of its class was held while such a handler could interrupt, the locks of the class that
    /// its task held there already, in whatever frame, the handlers that it was in, and since when such a handler could.
    fn exposed_end(&mut self, ends: &Ends<'a>) -> Result<(), AllocError> {
        self.telling.text.extend_from_slice(b"  ")?;
        write_held(&mut self.telling.text, ends.exposed)?;
        let state = state_name(ends.state);
        writeln!(
            self.telling.text,
            " is held where {state} handlers can interrupt"
        )
        .map_err(|_| AllocError)?;
        self.class(ends.exposed)?;
        let Some(before) = self.telling.sightings.at(ends.exposed_at) else {
            return Ok(());
        };
        self.telling.seen(ends.exposed_at, before)?;
        let number = ends.exposed_at.number;
        for hold in before.task.holds() {
            if class_of(hold) == ends.exposed {
                self.telling.hold(number, &Held::of(hold))?;
            }
        }
        self.telling.handlers(number, before)?;
        let flags = before.flags();
        self.telling.flag(number, State::Hard, flags.hard)?;
        match ends.state {
            State::Hard => Ok(()),
            State::Soft => self.telling.flag(number, State::Soft, flags.soft),
        }
    }

    /// What is known of a class, or of the lock whose readers wait for it, where it wasn't told yet.
    fn class(&mut self, class: ClassName<'a>) -> Result<(), AllocError> {
        let name = lock_of_readers(class).unwrap_or(class.name);
        if self.telling.maps.is_empty() || !self.named.insert(name)? {
            return Ok(());
        }
        let maps = self.telling.maps;
        write_known_class(self.telling.alloc, &mut self.telling.text, maps, name)
    }
}
