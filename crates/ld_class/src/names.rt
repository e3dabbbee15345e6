//! `ClassName`, the name of a class, and `Classes`, which numbers such names.
ghost use Rattle.std.specs.Prelude.{◌≡◌, ◌<◌, ◌≤◌, ◌↔◌, ℕ, [], length, take, slice_index_or, IfOk, OnOk, OnErr, Some};
ghost use Rattle.std.specs.Bool.{OnTrue};
ghost use Rattle.ld_class.specs.Names.{place_of, with_name, IsNameAt, AreDistinct, no_class, plain_class};

use crate::bytes::same_bytes;
use indexmap::IndexSet;
use std::alloc::{AllocError, Global};
use std::hash::{Hash, Hasher};
use std::marker::Model;

/// The name of a class of locks: that of the class, and which of its subclasses it is. Two names are
/// ordered by the bytes of `name`, then by `sub`.
#[derive(Clone, Copy, Debug, PartialEq, Eq, PartialOrd, Ord)]
pub struct ClassName<'a> {
    /// The class part of a lock.
    pub name: &'a [u8],
    /// 0 for the class itself, 1 to 7 for its subclass `name/N`.
    pub sub: u8,
}

// The bytes are hashed by one write, where a slice hashes them one by one. The subclass is left out, which would
// cost every name a second write: a class has eight at most.
impl<'a> Hash for ClassName<'a> {
    ghost use Rattle.std.specs.Prelude.{[], ◌∷◌};
    ghost use Rattle.std.specs.Cmp.Rules.{hashing};
    ghost use Rattle.std.proofs.Common.{rules};

    ghost hash_input = { λ class. class.name.now ∷ [] };

    ghost respects_eq = { Prim.search (hashing, rules) };

    fn hash<H: Hasher>(&self, state: &mut H) {
        state.write(self.name);
    }
}

/// The most names that a `Classes` holds: more than a whole stream of traces can have, and few
/// enough that each place fits a `u32`.
pub const MOST_NAMES: usize = 1 << 30;

// Clauses cite the constant, so they would hold with any other number that fits.
const _: () = prove!(MOST_NAMES == 1_073_741_824);

/// Distinct names in the order in which each was first interned. A name's place in that order,
/// counted from 0, is its number.
///
/// The names are borrowed: no byte of them is copied.
#[derive(Drop)]
pub struct Classes<'a> {
    names: IndexSet<ClassName<'a>>,
}

impl<'a> Model for Classes<'a> {
    ghost use Rattle.std.specs.Prelude.{List, ◌≤◌, length, map};
    ghost use Rattle.ld_class.specs.Names.{AreDistinct, PlainClass, plain_class};
    ghost use Rattle.ld_class.specs.declared.names.TheConstants.{MOST_NAMES};

    ghost Value = { List PlainClass };

    ghost view = { λ c. map plain_class c.names.keys };

    ghost invariant = { λ c. (length c.names.keys ≤ MOST_NAMES)
        × AreDistinct (map plain_class c.names.keys) };
}

impl<'a> Classes<'a> {
    /// No names. It takes no memory until the first one is interned.
    pub fn new(alloc: Global) -> Classes<'a>
        ensures { result ≡ [] }
    {
        Classes {
            names: IndexSet::new(alloc),
        }
    }

    /// The number of names.
    pub fn len(&self) -> usize
        ensures len { result ≡ length self.now }
        ensures bounded { length self.now ≤ MOST_NAMES }
        ensures distinct { AreDistinct self.now }
    {
        self.names.len()
    }

    /// The place of `name`, which is put last where it is new.
    ///
    /// `AllocError` where it is new and the memory for it was refused. A name that is there takes
    /// no memory.
    pub fn intern(&mut self, name: ClassName<'a>) -> Result<u32, AllocError>
        requires { length self.old < MOST_NAMES }

        // A name that is there is never refused.
        ensures known { (id : ℕ) → place_of self.old (plain_class name.entry) ≡ Some id → result ≡ Ok id }
        ensures added { place_of self.old (plain_class name.entry) ≡ None
            → IfOk result (λ id. id ≡ length self.old) }

        ensures names { OnOk result (self.new ≡ with_name self.old (plain_class name.entry)) }
        ensures refused { OnErr result (self.new ≡ self.old) }

        // In either case the answer is the place of that name, and no place loses its name.
        ensures place { IfOk result (λ id. IsNameAt self.new id (plain_class name.entry)) }
        ensures kept { (id : ℕ) → id < length self.old
            → IsNameAt self.new id (slice_index_or self.old id no_class) }
    {
        let (place, _) = self.names.insert_full(name)?;
        Ok(place as u32)
    }

    /// The place of `name`, or `None` where it is not there.
    pub fn find(&self, name: ClassName<'_>) -> Option<u32>
        ensures place { result ≡ place_of self.now (plain_class name.entry) }
        ensures exact { (id : ℕ) → (result ≡ Some id) ↔ IsNameAt self.now id (plain_class name.entry) }
    {
        let place = self.names.get_index_of(&name)?;
        Some(place as u32)
    }

    /// The name at the place `id`.
    pub fn name(&self, id: u32) -> ClassName<'a>
        requires { id < length self.now }
        ensures name { plain_class result ≡ slice_index_or self.now id no_class }
        ensures place { place_of self.now (plain_class result) ≡ Some id }
    {
        self.names.as_slice()[id as usize]
    }

    /// Whether `name` stands at the place `id`, which may be past the end.
    // Whoever guesses a place asks for it at each line.
    #[inline(always)]
    pub fn is_at(&self, id: u32, name: ClassName<'_>) -> bool
        ensures at { OnTrue result (place_of self.now (plain_class name.entry) ≡ Some id) }
        ensures distinct { AreDistinct self.now }
    {
        if self.len() <= id as usize {
            return false;
        }
        let there = self.name(id);
        there.sub == name.sub && same_bytes(there.name, name.name)
    }

    /// Keeps the first `n` names, or all where there are no more. The memory stays for later ones.
    pub fn cut(&mut self, n: usize)
        ensures { self.new ≡ take n self.old }
    {
        self.names.truncate(n);
    }
}
