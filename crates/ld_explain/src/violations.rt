//! The violations of a report, with the dependencies that they stand on.
ghost use Rattle.std.specs.Prelude.{◌≡◌, ◌++◌, ◌∷◌, [], All, IfOk, List, None, OnOk, Some, map, true};
ghost use Rattle.ld_trace.specs.Sources.{PlainSource};
ghost use Rattle.ld_overview.specs.OfBook.Findings.{plain_cycle_row, plain_findings};
ghost use Rattle.ld_rows.specs.declared.violations.Kind.TheVariants.{Conflict, Forbidden};
ghost use Rattle.ld_explain.specs.Rows.{AreViolations, cycle_kind, cycle_said, findings_said};
ghost use Rattle.ld_explain.specs.Steps.{AreFirst, IsAtFirst, IsEvery, violation_said};

use ld_overview::{
    Book, ClassName, ConflictRow, CycleRow, Findings, ForbiddenRow, ForbiddenRows, WalkNames,
    Witness,
};
use ld_rows::Kind;
use ld_trace::{State, next_line, text};
use std::alloc::{AllocError, Global};

/// Which violations are explained, and how many.
#[derive(Clone, Copy, Debug)]
pub struct Choice<'w> {
    /// Those of this kind; `None` for all.
    pub kind: Option<Kind>,
    /// Those with this class, `name` or `name/N`; `None` for all.
    pub class: Option<&'w [u8]>,
    /// The most of them; 0 for all.
    pub most: u64,
}

impl Choice<'_> {
    /// Every violation.
    pub(crate) fn all() -> Choice<'static>
        ensures { IsEvery result }
    {
        Choice {
            kind: None,
            class: None,
            most: 0,
        }
    }

    /// Whether it is every violation, but for how many.
    pub(crate) fn is_every(&self) -> bool
        ensures { IsEvery self.now → result ≡ true }
    {
        self.kind.is_none() && self.class.is_none()
    }
}

/// How many of so many are explained, if so many are at most; all if that is 0.
pub fn at_most(count: usize, most: u64) -> usize {
    if most == 0 || count as u64 <= most {
        count
    } else {
        most as usize
    }
}

/// A dependency, by the names of its classes.
#[derive(Clone, Copy, Debug, PartialEq, Eq, Hash)]
pub struct Dependency<'a> {
    pub from: ClassName<'a>,
    pub to: ClassName<'a>,
}

/// A dependency of a circle or a walk, and where it was first seen.
#[derive(Clone, Copy, Debug)]
pub struct Step<'a> {
    pub dependency: Dependency<'a>,
    pub first: Witness,
}

/// Both ends of a conflict or of a forbidden walk.
#[derive(Clone, Copy)]
pub struct Ends<'a> {
    pub state: State,
    /// The class that handlers of the state acquire.
    pub safe: ClassName<'a>,
    /// Where one did so first.
    pub safe_at: Witness,
    /// The class that is held where such a handler can interrupt.
    pub exposed: ClassName<'a>,
    /// Where it was so first.
    pub exposed_at: Witness,
}

/// A violation.
#[derive(Drop)]
pub struct Violation<'r, 'a> {
    pub kind: Kind,
    /// Its line in the report, without the end.
    pub line: &'r [u8],
    /// The dependencies of its circle or walk, in turn.
    pub steps: Vec<Step<'a>>,
    /// Both ends, where it has a state.
    pub ends: Option<Ends<'a>>,
}

impl<'r, 'a> Violation<'r, 'a> {
    fn of_cycle(
        alloc: Global,
        book: &Book<'a>,
        line: &'r [u8],
        row: &CycleRow<'_, 'a>,
    ) -> Result<Violation<'r, 'a>, AllocError>
        ensures first { IfOk result (λ violation. AreFirst book.now violation) }
        ensures said { IfOk result (λ violation.
            violation_said violation ≡ cycle_said (plain_cycle_row row.now)) }
    {
        let mut steps = Vec::new(alloc);
        add_step(book, &mut steps, row.from, row.to)?;
        add_steps(book, &mut steps, &row.via.names())?;
        Ok(Violation {
            kind: cycle_kind(row),
            line,
            steps,
            ends: None,
        })
    }

    fn of_conflict(alloc: Global, line: &'r [u8], row: &ConflictRow<'a>) -> Violation<'r, 'a>
        ensures first { result.steps.items ≡ [] }
        ensures said { violation_said result ≡ (Conflict, Some row.now.state) }
    {
        Violation {
            kind: Kind::Conflict,
            line,
            steps: Vec::new(alloc),
            ends: Some(Ends {
                state: row.state,
                safe: row.class,
                safe_at: row.safe_at,
                exposed: row.class,
                exposed_at: row.unsafe_at,
            }),
        }
    }

    fn of_forbidden(
        alloc: Global,
        book: &Book<'a>,
        line: &'r [u8],
        row: &ForbiddenRow<'_, 'a>,
    ) -> Result<Violation<'r, 'a>, AllocError>
        ensures first { IfOk result (λ violation. AreFirst book.now violation) }
        ensures said { IfOk result (λ violation.
            violation_said violation ≡ (Forbidden, Some row.now.state)) }
    {
        let mut steps = Vec::new(alloc);
        add_steps(book, &mut steps, &row.via)?;
        Ok(Violation {
            kind: Kind::Forbidden,
            line,
            steps,
            ends: Some(Ends {
                state: row.state,
                safe: row.from,
                safe_at: row.safe_at,
                exposed: row.to,
                exposed_at: row.unsafe_at,
            }),
        })
    }

    /// Whether it is one of those that are explained.
    fn is_chosen(&self, choice: &Choice<'_>) -> bool
        ensures { IsEvery choice.now → result ≡ true }
    {
        if !self.is_of(choice.kind) {
            return false;
        }
        self.is_on(choice.class)
    }

    /// Whether it is of this kind, if one is named.
    fn is_of(&self, kind: Option<Kind>) -> bool
        ensures { kind ≡ None → result ≡ true }
    {
        match kind {
            Some(kind) => kind == self.kind,
            None => true,
        }
    }

    /// Whether it has the class of this name, if one is named.
    fn is_on(&self, class: Option<&[u8]>) -> bool
        ensures { class.entry ≡ None → result ≡ true }
    {
        match class {
            Some(word) => self.has_class(word),
            None => true,
        }
    }

    /// Whether a class of this name is on its circle or walk, or is one of its ends.
    fn has_class(&self, word: &[u8]) -> bool {
        let on_walk = self.steps.iter().any(|step| is_named(step.dependency.from, word)
            || is_named(step.dependency.to, word));
        on_walk
            || match &self.ends {
                Some(ends) => is_named(ends.safe, word) || is_named(ends.exposed, word),
                None => false,
            }
    }
}

/// The kind of a dependency on a cycle.
fn cycle_kind(row: &CycleRow<'_, '_>) -> Kind
    ensures { result ≡ cycle_kind (plain_cycle_row row.now) }
{
    if row.from == row.to {
        Kind::Recursion
    } else {
        Kind::Inversion
    }
}

/// Adds a dependency at its first witness.
fn add_step<'a>(
    book: &Book<'a>,
    steps: &mut Vec<Step<'a>>,
    from: ClassName<'a>,
    to: ClassName<'a>,
) -> Result<(), AllocError>
    requires { All (IsAtFirst book.now) steps.old.items }
    ensures { OnOk result (All (IsAtFirst book.now) steps.new.items) }
{
    // Each dependency of a violation is one of the book.
    if let Some(first) = book.edge(from, to) {
        let dependency = Dependency { from, to };
        steps.push(Step { dependency, first })?;
    }
    Ok(())
}

/// Adds the dependencies of a walk.
fn add_steps<'a>(
    book: &Book<'a>,
    steps: &mut Vec<Step<'a>>,
    walk: &WalkNames<'_, 'a>,
) -> Result<(), AllocError>
    requires { All (IsAtFirst book.now) steps.old.items }
    ensures { OnOk result (All (IsAtFirst book.now) steps.new.items) }
{
    for place in 1..walk.len() {
        add_step(book, steps, walk.name(place - 1), walk.name(place))?;
    }
    Ok(())
}

/// Whether a report writes the class so: `name`, or `name/N` where it is a subclass.
pub fn is_named(class: ClassName<'_>, word: &[u8]) -> bool {
    match word.strip_prefix(class.name) {
        Some([]) => class.sub == 0,
        Some([b'/', digit @ b'1'..=b'7']) => class.sub == *digit - b'0',
        _ => false,
    }
}

/// The lines of a report, from one on.
#[derive(Drop)]
pub struct Lines<'r> {
    rest: &'r [u8],
}

impl<'r> Lines<'r> {
    /// Those of a report from the first one of a violation on, if so many traces are refused.
    pub fn of_violations(report: &'r [u8], refused: u64) -> Lines<'r> {
        let mut lines = Lines { rest: report };
        // The first line, and those of refused traces.
        for _ in 0..=refused {
            lines.next_text();
        }
        lines
    }

    /// The next line without its end, which is empty behind the last one.
    pub fn next_text(&mut self) -> &'r [u8] {
        match next_line(self.rest) {
            Some((line, others)) => {
                self.rest = others;
                text(line)
            }
            None => &[],
        }
    }
}

/// The violations that are chosen, in the order of their lines in the report of the book. Each dependency of
/// their circles and walks stands at its first witness. How many are wanted at most doesn't matter here.
///
/// # Errors
///
/// `AllocError` where a growth of memory was refused.
pub fn chosen<'r, 'a>(
    alloc: Global,
    book: &Book<'a>,
    report: &'r [u8],
    choice: &Choice<'_>,
) -> Result<Vec<Violation<'r, 'a>>, AllocError>
    ensures first { IfOk result (λ all. All (AreFirst book.now) all.items) }
    ensures every { IsEvery choice.now → IfOk result (λ all.
        AreViolations book.now (map violation_said all.items)) }
{
    let findings = book.findings(alloc)?;
    let mut lines = Lines::of_violations(report, book.totals().refused);
    let all = chosen_of(alloc, book, &findings, &mut lines, choice);
    drop(findings);
    all
}

/// Those of these findings, whose lines come next.
fn chosen_of<'r, 'a>(
    alloc: Global,
    book: &Book<'a>,
    findings: &Findings<'_, 'a>,
    lines: &mut Lines<'r>,
    choice: &Choice<'_>,
) -> Result<Vec<Violation<'r, 'a>>, AllocError>
    ensures first { IfOk result (λ all. All (AreFirst book.now) all.items) }
    ensures every { IsEvery choice.now → IfOk result (λ all.
        map violation_said all.items ≡ findings_said (plain_findings findings.now)) }
{
    let mut all = Vec::new(alloc);
    for row in findings.cycles.items() {
        let violation = Violation::of_cycle(alloc, book, lines.next_text(), row)?;
        add(&mut all, violation, choice)?;
    }
    for row in findings.conflicts.items() {
        let violation = Violation::of_conflict(alloc, lines.next_text(), row);
        add(&mut all, violation, choice)?;
    }
    add_forbidden(
        alloc,
        book,
        &findings.forbidden.hard,
        lines,
        choice,
        &mut all,
    )?;
    add_forbidden(
        alloc,
        book,
        &findings.forbidden.soft,
        lines,
        choice,
        &mut all,
    )?;
    Ok(all)
}

/// Adds the forbidden walks of a state that are chosen, whose lines come next.
fn add_forbidden<'r, 'a>(
    alloc: Global,
    book: &Book<'a>,
    rows: &ForbiddenRows<'_, 'a>,
    lines: &mut Lines<'r>,
    choice: &Choice<'_>,
    all: &mut Vec<Violation<'r, 'a>>,
) -> Result<(), AllocError>
    ensures first { All (AreFirst book.now) all.old.items → OnOk result (All (AreFirst book.now) all.new.items) }
    ensures every { IsEvery choice.now → OnOk result (map violation_said all.new.items
        ≡ map violation_said all.old.items ++ map (λ row. (Forbidden, Some row.state)) rows.now) }
{
    for place in 0..rows.len() {
        let row = rows.row(place);
        let violation = Violation::of_forbidden(alloc, book, lines.next_text(), &row)?;
        add(all, violation, choice)?;
    }
    Ok(())
}

/// Adds a violation, if it is chosen.
fn add<'r, 'a>(
    all: &mut Vec<Violation<'r, 'a>>,
    violation: Violation<'r, 'a>,
    choice: &Choice<'_>,
) -> Result<(), AllocError>
    ensures first { (sources : List PlainSource) → All (AreFirst sources) all.old.items
        → AreFirst sources violation.entry → OnOk result (All (AreFirst sources) all.new.items) }
    ensures every { IsEvery choice.now
        → OnOk result (all.new.items ≡ all.old.items ++ violation.entry ∷ []) }
{
    if violation.is_chosen(choice) {
        all.push(violation)?;
    }
    Ok(())
}
