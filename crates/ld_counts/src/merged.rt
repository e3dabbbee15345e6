//! From how many classes walks lead to each component.
//!
//! To a component that one other alone directly leads to, walks lead from the classes of that one and from those that
//! lead there. Where several lead, classes may lead by more than one of them. So the classes that lead to such a
//! component are followed, 512 at a time, a bit each: only through what they lead to, and no further than to the
//! last such component.

use crate::components::Followers;
use crate::order::count_of;
use ld_graph::Edge;
use std::alloc::{AllocError, Global};

/// How many words the bits of a pass have.
const WORDS: usize = 8;

/// How many classes a pass follows.
const BITS: usize = 64 * WORDS;

/// A bit for each class that a pass follows.
type Bits = [u64; WORDS];

/// A pass over the components, in their order.
#[derive(Drop)]
struct Pass {
    /// Which of the followed classes lead to each component, by their places.
    bits: Vec<Bits>,
    /// A bit for each component that is still to be gone over, 64 in a word, by their places.
    marks: Vec<u64>,
    /// From how many classes walks lead to each component, over all passes so far.
    counts: Vec<u64>,
}

/// The followed classes that the pass hasn't come to, by the places of their components.
#[derive(Drop)]
struct Followed<'p> {
    places: &'p [u32],
    /// How many it has come to.
    passed: usize,
}

/// For each component, by their places, from how many classes of others walks lead to it. Each has so many classes,
/// and these are the dependencies between them, each once, on a later place, and in the order of the first.
pub(crate) fn led_to(alloc: Global, sizes: &[u64], edges: &[Edge]) -> Result<Vec<u64>, AllocError> {
    let leaders = leaders_of(alloc, sizes.len(), edges)?;
    let merging = merging(alloc, &leaders, edges)?;
    let mut counts = merged_counts(alloc, sizes, merging)?;
    for edge in edges {
        if at(&leaders, edge.to) == 1 {
            if let Some(count) = counts.get(edge.from as usize).copied() {
                let count = count.saturating_add(at(sizes, edge.from));
                if let Some(led) = counts.get_mut(edge.to as usize) {
                    *led = count;
                }
            }
        }
    }
    Ok(counts)
}

/// How many of so many components directly lead to each.
fn leaders_of(alloc: Global, count: usize, edges: &[Edge]) -> Result<Vec<u64>, AllocError> {
    let mut leaders: Vec<u64> = vec![in alloc; 0; count]?;
    for edge in edges {
        if let Some(count) = leaders.get_mut(edge.to as usize) {
            *count = count.saturating_add(1);
        }
    }
    Ok(leaders)
}

/// Those dependencies from whose second component walks lead to one to which several directly lead, or that is one.
fn merging(alloc: Global, leaders: &[u64], edges: &[Edge]) -> Result<Vec<Edge>, AllocError> {
    let mut is_before = vec![in alloc; false; leaders.len()]?;
    let mut merging = Vec::new(alloc);
    for edge in edges.iter().rev() {
        if at(leaders, edge.to) > 1 || is_before.get(edge.to as usize).copied() == Some(true) {
            if let Some(is_before) = is_before.get_mut(edge.from as usize) {
                *is_before = true;
            }
            merging.push(*edge)?;
        }
    }
    Ok(merging)
}

/// For each component that one of these dependencies enters, from how many classes of others walks lead to it, and 0
/// for each other one.
fn merged_counts(alloc: Global, sizes: &[u64], edges: Vec<Edge>) -> Result<Vec<u64>, AllocError> {
    let mut pass = Pass {
        bits: Vec::new(alloc),
        marks: vec![in alloc; 0; sizes.len().div_ceil(64)]?,
        counts: vec![in alloc; 0; sizes.len()]?,
    };
    if edges.is_empty() {
        return Ok(pass.counts);
    }
    pass.bits = vec![in alloc; [0; WORDS]; sizes.len()]?;
    let followers = Followers::of(alloc, sizes.len(), edges)?;
    let places = followed_places(alloc, sizes, &followers)?;
    for some in places.chunks(BITS) {
        pass.follow(some, &followers);
    }
    Ok(pass.counts)
}

/// The places of components that others follow, in their order, each as often as it has classes.
fn followed_places(
    alloc: Global,
    sizes: &[u64],
    followers: &Followers,
) -> Result<Vec<u32>, AllocError> {
    let mut places = Vec::new(alloc);
    for (place, size) in (0..count_of(sizes.len())).zip(sizes) {
        if !followers.of_class(place).is_empty() {
            for _ in 0..*size {
                places.push(place)?;
            }
        }
    }
    Ok(places)
}

impl Pass {
    /// Counts to which components these classes lead, no more than a pass follows, that are known by the places of
    /// their components.
    fn follow(&mut self, places: &[u32], followers: &Followers) {
        for place in places {
            self.mark(*place);
        }
        let first = places.first().copied().unwrap_or(0) / 64;
        let mut followed = Followed { places, passed: 0 };
        for word in first..count_of(self.marks.len()) {
            if at(&self.marks, word) != 0 {
                self.go_over(word, &mut followed, followers);
            }
        }
    }

    /// Goes over the components that are marked in this word. They may mark later ones there.
    fn go_over(&mut self, word: u32, followed: &mut Followed<'_>, followers: &Followers) {
        for bit in 0..64 {
            if at(&self.marks, word) >> bit & 1 == 1 {
                let place = word.saturating_mul(64).saturating_add(bit);
                let own = followed.own(place);
                self.hand_on(place, &own, followers);
            }
        }
        if let Some(marks) = self.marks.get_mut(word as usize) {
            *marks = 0;
        }
    }

    /// Counts which followed classes lead to the component at this place, and hands them on, with those of its own.
    fn hand_on(&mut self, place: u32, own: &Bits, followers: &Followers) {
        let Some(there) = self.bits.get_mut(place as usize) else {
            return;
        };
        let mut bits = *there;
        *there = [0; WORDS];
        if let Some(count) = self.counts.get_mut(place as usize) {
            *count = count.saturating_add(ones(&bits));
        }
        join(&mut bits, own);
        for follower in followers.of_class(place) {
            self.mark(*follower);
            if let Some(there) = self.bits.get_mut(*follower as usize) {
                join(there, &bits);
            }
        }
    }

    /// The component at this place is still to be gone over.
    fn mark(&mut self, place: u32) {
        if let Some(marks) = self.marks.get_mut(place as usize / 64) {
            *marks |= 1 << (place % 64);
        }
    }
}

impl Followed<'_> {
    /// The bits of the followed classes of the component at this place, which is the next one that has any.
    fn own(&mut self, place: u32) -> Bits {
        let mut bits = [0; WORDS];
        for at in self.passed..self.places.len() {
            if self.places.get(at).copied() != Some(place) {
                break;
            }
            if let Some(word) = bits.get_mut(at / 64) {
                *word |= 1 << (at % 64);
            }
            self.passed = at.saturating_add(1);
        }
        bits
    }
}

/// Adds the bits of the other one.
fn join(bits: &mut Bits, other: &Bits) {
    for at in 0..WORDS {
        bits[at] |= other[at];
    }
}

/// How many bits there are.
fn ones(bits: &Bits) -> u64 {
    let mut count: u64 = 0;
    for word in bits {
        count = count.saturating_add(word.count_ones() as u64);
    }
    count
}

/// What stands in this list for a place, or 0.
fn at(list: &[u64], place: u32) -> u64 {
    list.get(place as usize).copied().unwrap_or(0)
}
