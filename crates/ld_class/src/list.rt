//! `ClassList`, which lists the names of classes.
ghost use Rattle.std.specs.Prelude.{◌≡◌, ◌<◌, ◌≤◌, ◌++◌, ◌∷◌, [], None, Some, length, take};
ghost use Rattle.std.specs.Prelude.{slice_index_or, OnErr, OnOk};
ghost use Rattle.ld_class.specs.Names.{place_of, AreDistinct, no_class, plain_class};
ghost use Rattle.ld_class.specs.declared.names.TheConstants.{MOST_NAMES};

use crate::names::ClassName;
use std::alloc::{AllocError, Global};
use std::marker::Model;

/// Distinct names in the order in which they were pushed. A name's place in that order, counted from 0, is its
/// number.
///
/// Unlike [`Classes`](crate::Classes) it finds no name: whoever pushes one knows that it isn't there, and no
/// name is hashed.
#[derive(Drop)]
pub struct ClassList<'a> {
    names: Vec<ClassName<'a>>,
}

impl<'a> Model for ClassList<'a> {
    ghost use Rattle.std.specs.Prelude.{List, ◌≤◌, length, map};
    ghost use Rattle.ld_class.specs.Names.{AreDistinct, PlainClass, plain_class};
    ghost use Rattle.ld_class.specs.declared.names.TheConstants.{MOST_NAMES};

    ghost Value = { List PlainClass };

    ghost view = { λ l. map plain_class l.names.items };

    ghost invariant = { λ l. (length l.names.items ≤ MOST_NAMES)
        × AreDistinct (map plain_class l.names.items) };
}

impl<'a> ClassList<'a> {
    /// No names. Takes no memory.
    pub fn new(alloc: Global) -> ClassList<'a>
        ensures { result ≡ [] }
    {
        ClassList {
            names: Vec::new(alloc),
        }
    }

    /// The number of names.
    pub fn len(&self) -> usize
        ensures len { result ≡ length self.now }
        ensures bounded { length self.now ≤ MOST_NAMES }
        ensures distinct { AreDistinct self.now }
    {
        self.names.len()
    }

    /// The name at the place `id`.
    pub fn name(&self, id: u32) -> ClassName<'a>
        requires { id < length self.now }
        ensures name { plain_class result ≡ slice_index_or self.now id no_class }
        ensures place { place_of self.now (plain_class result) ≡ Some id }
    {
        self.names[id as usize]
    }

    /// Puts a name last that isn't there.
    ///
    /// # Errors
    ///
    /// `AllocError` where a growth of memory was refused. The names are then as before.
    pub fn push(&mut self, name: ClassName<'a>) -> Result<(), AllocError>
        requires new { place_of self.old (plain_class name) ≡ None }
        requires room { length self.old < MOST_NAMES }
        ensures added { OnOk result (self.new ≡ self.old ++ plain_class name.entry ∷ []) }
        ensures refused { OnErr result (self.new ≡ self.old) }
    {
        self.names.push(name)?;
        Ok(())
    }

    /// Keeps the first `n` names, or all where there are no more. The memory stays for later ones.
    pub fn cut(&mut self, n: usize)
        ensures { self.new ≡ take n self.old }
    {
        self.names.truncate(n);
    }
}
