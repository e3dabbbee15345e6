//! Distances to one class, by searches over a list that is made once and is taken back only where it was
//! touched: over the whole graph, or within one component.
ghost use Rattle.std.specs.Prelude.{◌≡◌, ◌<◌, ◌≤◌, ℕ, None, IfOk, IfSome, length, slice_index_or, All};
ghost use Rattle.ld_graph.specs.declared.graph.TheConstants.{MOST_GRAPH_CLASSES};
ghost use Rattle.ld_graph.specs.Inner.Insides.{AreLevelsFor, IsNearInside, component_at};
ghost use Rattle.ld_graph.specs.Lists.{IsNear};
ghost use Rattle.ld_graph.specs.Touched.{AreTouched};

use crate::distance::Distance;
use crate::levels::measure;
use crate::lists::Lists;
use std::alloc::{AllocError, Global};
use std::marker::Model;

/// The distances to one class that the last search has found. Made once for many searches.
#[derive(Drop)]
pub struct Distances {
    levels: Vec<Distance>,
    /// The classes that have a level.
    touched: Vec<u32>,
}

impl Model for Distances {
    ghost use Rattle.std.specs.Prelude.{ℕ, ◌≤◌, List, Option, length, vec_capacity};

    ghost Value = { List (Option ℕ) };

    ghost use Rattle.ld_graph.specs.Touched.{AreTouched};

    ghost view = { λ d. d.levels.items };

    ghost invariant = { λ d. AreTouched d.levels.items d.touched.items
        × (length d.levels.items ≤ vec_capacity d.touched) };
}

impl Distances {
    /// No distance yet, of so many classes.
    ///
    /// # Errors
    ///
    /// `AllocError` where memory was refused.
    pub fn new(alloc: Global, classes: usize) -> Result<Distances, AllocError>
        ensures len { IfOk result (λ distances. length distances ≡ classes) }
        ensures none { IfOk result (λ distances. (c : ℕ) → slice_index_or distances c None ≡ None) }
    {
        let mut levels = Vec::new(alloc);
        levels.resize(classes, Distance::none())?;
        Ok(Distances {
            levels,
            touched: Vec::with_capacity(alloc, classes)?,
        })
    }

    /// The distances, by the numbers of the classes. Takes no memory.
    pub fn levels(&self) -> &[Distance]
        ensures { result.now ≡ self.now }
    {
        let _ = &self.touched;
        &self.levels
    }

    /// The distances, as the list that they are kept in. Takes no memory.
    pub(crate) fn into_levels(self) -> Vec<Distance>
        ensures { result.items ≡ self }
    {
        self.levels
    }

    /// Gives classes their distances to `end`, as many as are needed for these, by walks within the component of `end`
    /// where components are given. Takes those away that an earlier search gave. Takes no memory.
    pub(crate) fn search(
        &mut self,
        lists: &Lists,
        components: Option<&[u32]>,
        wanted: &[u32],
        end: u32,
    )
        requires end { end < length lists.now.before.lists }
        requires few { length lists.now.before.lists ≤ MOST_GRAPH_CLASSES }
        requires classes { length self.old ≡ length lists.now.before.lists }
        requires components { IfSome components (λ c. length c.now ≡ length lists.now.before.lists) }
        requires wanted { All (λ w. w < length lists.now.before.lists) wanted.now }
        requires ends { (a b : ℕ) → IsNear lists.now.before.lists a b
            → b < length lists.now.before.lists }
        ensures len { length self.new ≡ length self.old }
        ensures levels { All (λ w. AreLevelsFor
            (λ a b. IsNearInside lists.now.before.lists components.entry (component_at components.entry end) b a) w end
            self.new) wanted.now }
    {
        forget(&mut self.levels, &self.touched);
        self.touched.clear();
        measure(
            lists,
            components,
            wanted,
            end,
            &mut self.levels,
            &mut self.touched,
        );
    }
}

/// Takes the levels of these classes away, which are all that have one.
fn forget(levels: &mut [Distance], touched: &[u32])
    requires { AreTouched levels.old touched.now }
    ensures { (x : ℕ) → slice_index_or levels.new x None ≡ None }
{
    for class in touched {
        levels[*class as usize] = Distance::none();
    }
}
