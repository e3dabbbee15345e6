//! Dependencies by the names of their classes.
ghost use Rattle.ld_class.specs.Names.{plain_class};
ghost use Rattle.ld_occurrences.specs.Named.{IsNamed};

use ld_class::ClassName;

/// A dependency by the names of its classes.
#[derive(Clone, Copy, Debug, PartialEq, Eq)]
pub struct NamedDependency<'a> {
    /// The class that is held.
    pub from: ClassName<'a>,
    /// The class that is acquired under it.
    pub to: ClassName<'a>,
}

impl<'a> NamedDependency<'a> {
    /// The dependency between the classes that these words name as a report does, each `NAME` or `NAME/N`. Takes no
    /// memory.
    pub fn between(from: &'a [u8], to: &'a [u8]) -> NamedDependency<'a>
        ensures from { IsNamed from.entry.now (plain_class result.from) }
        ensures to { IsNamed to.entry.now (plain_class result.to) }
    {
        NamedDependency {
            from: class_named(from),
            to: class_named(to),
        }
    }
}

/// The class that this word names.
fn class_named(word: &[u8]) -> ClassName<'_>
    ensures { IsNamed word.entry.now (plain_class result) }
{
    match word {
        [name @ .., b'/', digit @ b'1'..=b'7'] => ClassName {
            name,
            sub: *digit - b'0',
        },
        name => ClassName { name, sub: 0 },
    }
}
