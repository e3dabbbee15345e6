//! Graphs of classes and dependencies, in the language of Graphviz.

use crate::around::near;
use crate::known::{known_at, write_known};
use crate::violations::{Choice, Dependency, Violation, chosen, is_named};
use crate::writing::write_sub;
use indexmap::{IndexMap, IndexSet};
use ld_escape::write_on_line;
use ld_overview::{
    Book, ClassName, ClassRow, DependencyRow, Overview, Witness, has_readers, lock_of_readers,
    sort_by_locks,
};
use ld_places::ShownPlaces;
use ld_rows::Kind;
use ld_source_map::{At, Maps};
use ld_trace::Source;
use std::alloc::{AllocError, Global};
use std::io::Write;

/// What is drawn.
#[derive(Clone, Copy, Debug)]
pub enum Drawn<'w> {
    /// What stands on violations.
    Violations,
    /// The class of this name, those from which a walk of at most so many steps leads to it, those to which
    /// one leads from it, and the dependencies between these.
    Around { name: &'w [u8], steps: u64 },
    /// All classes and all dependencies.
    All,
}

/// What a dependency is on.
#[derive(Clone, Copy, Debug, PartialEq, Eq)]
enum Colour {
    /// A cycle.
    Red,
    /// A forbidden walk, and no cycle.
    Orange,
}

/// What stands on violations.
#[derive(Drop)]
struct Marked<'a> {
    /// The classes.
    classes: IndexSet<ClassName<'a>>,
    /// Those with a conflict.
    conflicts: IndexSet<ClassName<'a>>,
    /// The dependencies.
    dependencies: IndexMap<Dependency<'a>, Colour>,
}

/// The classes and dependencies of a book as a graph for Graphviz: each class with its usage, each dependency
/// with its first witness, and with what is known of that line. Those of cycles are red, other ones of forbidden walks
/// orange, and classes with a conflict have two lines around them. What the readers of a lock wait for stands in a box
/// with the lock's name, and with the lock's own class, if that is drawn.
///
/// `sources` are the traces of the book, each at the place of its number, `places` says where the lines stand in files,
/// and `maps` what is known of these files' lines.
///
/// # Errors
///
/// `AllocError` where a growth of memory was refused.
pub fn dot<'t, 'a>(
    alloc: Global,
    book: &Book<'a>,
    sources: &'t [Source<'a>],
    places: &'t ShownPlaces<'t>,
    maps: &'t Maps<'t>,
    drawn: Drawn<'_>,
) -> Result<Vec<u8>, AllocError> {
    let mut overview = Overview::new(alloc, book)?;
    sort_by_locks(&mut overview.classes);
    let marked = Marked::of(alloc, &chosen(alloc, book, &[], &Choice::all())?)?;
    let are_drawn = classes_drawn(alloc, &overview, &marked, drawn)?;
    let mut drawing = Drawing {
        alloc,
        sources,
        places,
        maps,
        marked: &marked,
        text: Vec::new(alloc),
    };
    drawing.all(&overview, &are_drawn, drawn)?;
    Ok(drawing.text)
}

fn is_marked(marks: &[bool], number: u32) -> bool {
    marks.get(number as usize).copied().unwrap_or(false)
}

/// For each class, by their numbers, whether it is drawn.
fn classes_drawn(
    alloc: Global,
    overview: &Overview<'_>,
    marked: &Marked<'_>,
    drawn: Drawn<'_>,
) -> Result<Vec<bool>, AllocError> {
    let count = overview.classes.len();
    match drawn {
        Drawn::All => vec![in alloc; true; count],
        Drawn::Violations => {
            let mut marks = vec![in alloc; false; count]?;
            for row in &overview.classes {
                if let Some(mark) = marks.get_mut(row.number as usize) {
                    *mark = marked.classes.contains(&row.class);
                }
            }
            Ok(marks)
        }
        Drawn::Around { name, steps } => {
            for row in &overview.classes {
                if is_named(row.class, name) {
                    return near(alloc, count, &overview.dependencies, row.number, steps);
                }
            }
            Ok(Vec::new(alloc))
        }
    }
}

/// The classes that are drawn.
fn classes_of<'a>(
    alloc: Global,
    overview: &Overview<'a>,
    are_drawn: &[bool],
) -> Result<Vec<ClassRow<'a>>, AllocError> {
    let mut classes = Vec::new(alloc);
    for row in &overview.classes {
        if is_marked(are_drawn, row.number) {
            classes.push(*row)?;
        }
    }
    Ok(classes)
}

/// The lock whose readers wait for the last one of these classes.
fn lock_of<'a>(rows: &[ClassRow<'a>]) -> Option<&'a [u8]> {
    match rows.last() {
        Some(row) => lock_of_readers(row.class),
        None => None,
    }
}

impl<'a> Marked<'a> {
    /// What stands on these.
    fn of(alloc: Global, violations: &[Violation<'_, 'a>]) -> Result<Marked<'a>, AllocError> {
        let mut marked = Marked {
            classes: IndexSet::new(alloc),
            conflicts: IndexSet::new(alloc),
            dependencies: IndexMap::new(alloc),
        };
        for violation in violations {
            marked.add(violation)?;
        }
        Ok(marked)
    }

    fn add(&mut self, violation: &Violation<'_, 'a>) -> Result<(), AllocError> {
        for step in &violation.steps {
            self.classes.insert(step.dependency.from)?;
            self.classes.insert(step.dependency.to)?;
            let is_red = violation.kind != Kind::Forbidden
                || self.dependencies.get(&step.dependency) == Some(&Colour::Red);
            let colour = if is_red { Colour::Red } else { Colour::Orange };
            self.dependencies.insert(step.dependency, colour)?;
        }
        if let Some(ends) = &violation.ends {
            self.classes.insert(ends.safe)?;
            self.classes.insert(ends.exposed)?;
            if violation.kind == Kind::Conflict {
                self.conflicts.insert(ends.safe)?;
            }
        }
        Ok(())
    }
}

/// The text so far, and what it is about.
#[derive(Drop)]
struct Drawing<'t, 'a> {
    alloc: Global,
    sources: &'t [Source<'a>],
    places: &'t ShownPlaces<'t>,
    maps: &'t Maps<'t>,
    marked: &'t Marked<'a>,
    text: Vec<u8>,
}

impl<'t, 'a> Drawing<'t, 'a> {
    /// The classes that are drawn, and the dependencies between them.
    fn all(
        &mut self,
        overview: &Overview<'a>,
        are_drawn: &[bool],
        drawn: Drawn<'_>,
    ) -> Result<(), AllocError> {
        self.text.extend_from_slice(b"digraph lockgraph {\n")?;
        self.text
            .extend_from_slice(b"  node [shape=box fontname=monospace];\n")?;
        self.text
            .extend_from_slice(b"  edge [fontname=monospace fontsize=10];\n")?;
        let classes = classes_of(self.alloc, overview, are_drawn)?;
        for group in classes.chunk_by(|one, other| has_readers(one.class, other.class)) {
            self.group(group)?;
        }
        for row in &overview.dependencies {
            if is_marked(are_drawn, row.edge.from)
                && is_marked(are_drawn, row.edge.to)
                && self.is_drawn(row, drawn)
            {
                self.dependency(row)?;
            }
        }
        self.text.extend_from_slice(b"}\n")?;
        Ok(())
    }

    /// Whether a dependency is drawn whose classes are.
    fn is_drawn(&self, row: &DependencyRow<'a>, drawn: Drawn<'_>) -> bool {
        match drawn {
            Drawn::Violations => self.colour(row).is_some(),
            Drawn::Around { .. } | Drawn::All => true,
        }
    }

    fn colour(&self, row: &DependencyRow<'a>) -> Option<Colour> {
        let dependency = Dependency {
            from: row.from,
            to: row.to,
        };
        self.marked.dependencies.get(&dependency).copied()
    }

    /// Classes of one lock, in a box if readers wait for the last one.
    fn group(&mut self, rows: &[ClassRow<'a>]) -> Result<(), AllocError> {
        let Some(lock) = lock_of(rows) else {
            return self.classes(rows, b"  ");
        };
        self.text.extend_from_slice(b"  subgraph \"cluster_")?;
        write_quoted(&mut self.text, lock)?;
        self.text.extend_from_slice(b"\" {\n    label=\"")?;
        write_shown(&mut self.text, lock)?;
        self.text
            .extend_from_slice(b"\";\n    fontname=monospace;\n")?;
        self.classes(rows, b"    ")?;
        self.text.extend_from_slice(b"  }\n")?;
        Ok(())
    }

    /// Classes, each behind this margin.
    fn classes(&mut self, rows: &[ClassRow<'a>], margin: &[u8]) -> Result<(), AllocError> {
        for row in rows {
            self.text.extend_from_slice(margin)?;
            self.class(row)?;
        }
        Ok(())
    }

    /// A class with its usage. What readers wait for has the name of their lock around it.
    fn class(&mut self, row: &ClassRow<'a>) -> Result<(), AllocError> {
        self.node(row.class)?;
        self.text.extend_from_slice(b" [label=\"")?;
        if lock_of_readers(row.class).is_some() {
            self.text.extend_from_slice(b"!read")?;
        } else {
            write_shown(&mut self.text, row.class.name)?;
            write_sub(&mut self.text, row.class)?;
        }
        self.text.extend_from_slice(b"\\n{")?;
        self.text.extend_from_slice(&row.usage.bits.marks())?;
        self.text.extend_from_slice(b"}\"")?;
        if self.marked.conflicts.contains(&row.class) {
            self.text.extend_from_slice(b" peripheries=2")?;
        }
        self.text.extend_from_slice(b"];\n")?;
        Ok(())
    }

    /// A dependency with its first witness.
    fn dependency(&mut self, row: &DependencyRow<'a>) -> Result<(), AllocError> {
        self.text.extend_from_slice(b"  ")?;
        self.node(row.from)?;
        self.text.extend_from_slice(b" -> ")?;
        self.node(row.to)?;
        self.witness(row.first)?;
        match self.colour(row) {
            Some(Colour::Red) => self.text.extend_from_slice(b" color=red")?,
            Some(Colour::Orange) => self.text.extend_from_slice(b" color=orange")?,
            None => {}
        }
        self.text.extend_from_slice(b"];\n")?;
        Ok(())
    }

    /// The label with a first witness. What is known of its line is shown where a pointer is over the edge or the label.
    fn witness(&mut self, first: Witness) -> Result<(), AllocError> {
        self.text.extend_from_slice(b" [label=\"")?;
        if let Some(source) = self.sources.get(first.number as usize) {
            write_shown(&mut self.text, source.name)?;
        }
        self.text.extend_from_slice(b"\\n")?;
        self.place(first.line)?;
        if let Some(at) = known_at(self.places, self.maps, first.line) {
            let known = known_of(self.alloc, at)?;
            self.text.extend_from_slice(b"\" tooltip=\"")?;
            write_shown(&mut self.text, &known)?;
            self.text.extend_from_slice(b"\" labeltooltip=\"")?;
            write_shown(&mut self.text, &known)?;
        }
        self.text.push(b'"')?;
        Ok(())
    }

    /// The name of a class's node.
    fn node(&mut self, class: ClassName<'_>) -> Result<(), AllocError> {
        self.text.push(b'"')?;
        write_quoted(&mut self.text, class.name)?;
        write_sub(&mut self.text, class)?;
        self.text.push(b'"')?;
        Ok(())
    }

    /// Where a line is shown.
    fn place(&mut self, line: u64) -> Result<(), AllocError> {
        match self.places.place(line) {
            Some(place) => {
                let mut file = Vec::new(self.alloc);
                write_on_line(&mut file, place.file.as_bytes())?;
                write_shown(&mut self.text, &file)?;
                let own = place.line;
                write!(self.text, ":{own}").map_err(|_| AllocError)
            }
            None => write!(self.text, "line {line}").map_err(|_| AllocError),
        }
    }
}

/// What is known of a line, as a text.
fn known_of(alloc: Global, at: At<'_>) -> Result<Vec<u8>, AllocError> {
    let mut text = Vec::new(alloc);
    write_known(alloc, &mut text, at)?;
    Ok(text)
}

/// Writes what stands between the quotes of a label, where Graphviz reads entities too.
fn write_shown(out: &mut Vec<u8>, bytes: &[u8]) -> Result<(), AllocError> {
    for byte in bytes {
        match byte {
            b'&' => out.extend_from_slice(b"&amp;")?,
            byte => write_byte(out, *byte)?,
        }
    }
    Ok(())
}

/// Writes what stands between quotes.
fn write_quoted(out: &mut Vec<u8>, bytes: &[u8]) -> Result<(), AllocError> {
    for byte in bytes {
        write_byte(out, *byte)?;
    }
    Ok(())
}

/// Writes a byte between quotes: a quote would end them, and a backslash would take the next byte with it.
fn write_byte(out: &mut Vec<u8>, byte: u8) -> Result<(), AllocError> {
    if byte == b'"' || byte == b'\\' {
        out.push(b'\\')?;
    }
    out.push(byte)?;
    Ok(())
}
