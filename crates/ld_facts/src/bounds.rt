//! Where the traces of a scan begin and end.
ghost use Rattle.std.specs.Prelude.{◌≡◌, ◌≤◌, length};
ghost use Rattle.ld_class.specs.Names.{AreDistinct};
ghost use Rattle.ld_facts.specs.Inner.Scan.{begun, fresh_scan, undone};
ghost use Rattle.ld_facts.specs.declared.bounds.TheConstants.{MOST_KNOWN};

use crate::scan::{Scan, TraceStart};

/// How many names of classes a scan knows at most when it begins anew.
pub const MOST_KNOWN: usize = 1 << 16;

// Clauses cite the constant, so they would hold with any other number that fits.
const _: () = prove!(MOST_KNOWN == 65_536);

impl<'a> Scan<'a> {
    /// Another trace begins, on top of what is there. The memory stays.
    pub fn begin(&mut self)
        ensures { self.new ≡ begun self.old }
    {
        self.tasks.clear();
        self.own.cut(0);
        self.locks.begin();
        self.before = TraceStart {
            classes: self.classes.len(),
            uses: self.uses.as_slice().len(),
        };
    }

    /// Takes all away but the names of classes, while they are few, which keep their numbers; and what stands in no
    /// clause: names of tasks, chains and words, while they are few, and hints. The memory stays.
    pub fn clear(&mut self)
        ensures fresh { self.new ≡ fresh_scan self.new.classes }
        ensures distinct { AreDistinct self.new.classes }
        ensures few { length self.new.classes ≤ MOST_KNOWN }
    {
        self.tasks.clear();
        if self.classes.len() > MOST_KNOWN {
            self.classes.cut(0);
        }
        self.own.cut(0);
        self.locks.clear();
        self.uses.cut(0);
        self.before = TraceStart {
            classes: self.classes.len(),
            uses: 0,
        };
    }

    /// Takes back what the trace added that began last.
    pub fn undo(&mut self)
        ensures { self.new ≡ undone self.old }
    {
        self.tasks.clear();
        self.classes.cut(self.before.classes);
        self.own.cut(0);
        self.locks.undo();
        self.uses.cut(self.before.uses);
    }
}
