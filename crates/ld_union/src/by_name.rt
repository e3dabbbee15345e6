//! The classes in the order of their names.
ghost use Rattle.std.specs.Prelude.{◌≡◌, ◌≢◌, ℕ, ◌<◌, length, map, All, AllPairs, Contains};
ghost use Rattle.std.specs.Prelude.{IfOk};
ghost use Rattle.std.specs.List.{range_with_len};
ghost use Rattle.ld_class.specs.Names.{AreDistinct, IsNameAt, plain_class};
ghost use Rattle.ld_union.specs.Findings.{IsBefore};
ghost use Rattle.ld_union.specs.Inner.ByName.{AreByName, class_at, class_name, place_of_class};

use ld_class::{ClassName, Classes};
use std::alloc::{AllocError, Global};

/// The classes in the order of their names.
#[derive(Drop)]
pub(crate) struct ByName {
    /// The numbers of the classes.
    pub(crate) numbers: Vec<u32>,
    /// For each class its place among these.
    pub(crate) places: Vec<u32>,
}

impl ByName {
    /// The order of these.
    ///
    /// `AllocError` where memory was refused.
    pub(crate) fn new(alloc: Global, classes: &Classes<'_>) -> Result<ByName, AllocError>
        ensures { IfOk result (λ order. AreByName classes.now order.numbers.items order.places.items) }
    {
        let numbers = numbers_by_name(alloc, classes)?;
        let places = places_of(alloc, classes, &numbers)?;
        Ok(ByName { numbers, places })
    }
}

/// The numbers of the classes, in the order of their names.
fn numbers_by_name(alloc: Global, classes: &Classes<'_>) -> Result<Vec<u32>, AllocError>
    ensures count { IfOk result (λ numbers. length numbers.items ≡ length classes.now) }
    ensures within { IfOk result (λ numbers. All (λ c. c < length classes.now) numbers.items) }
    ensures every { IfOk result (λ numbers. (c : ℕ) → c < length classes.now
        → Contains numbers.items c) }
    ensures rising { IfOk result (λ numbers. (i j : ℕ) → i < j → j < length numbers.items
        → IsBefore (class_name classes.now (class_at numbers.items i))
        (class_name classes.now (class_at numbers.items j))) }
{
    let mut named = numbered_names(alloc, classes)?;
    named.sort_unstable_by_key(|&(class, _)| class);
    numbers_of(alloc, &named)
}

/// The names of the classes with their numbers.
fn numbered_names<'a>(
    alloc: Global,
    classes: &Classes<'a>,
) -> Result<Vec<(ClassName<'a>, u32)>, AllocError>
    ensures names { IfOk result (λ named. All (λ p. IsNameAt classes.now p.1 (plain_class p.0)) named.items) }
    ensures numbers { IfOk result (λ named.
        map (λ p. p.1) named.items ≡ range_with_len 0 (length classes.now)) }
    ensures distinct { AreDistinct classes.now }
{
    let mut named = Vec::with_capacity(alloc, classes.len())?;
    for class in 0..classes.len() as u32 {
        named.push((classes.name(class), class))?;
    }
    Ok(named)
}

/// The numbers alone.
fn numbers_of(alloc: Global, named: &[(ClassName<'_>, u32)]) -> Result<Vec<u32>, AllocError>
    ensures { IfOk result (λ numbers. numbers.items ≡ map (λ p. p.1) named.now) }
{
    named.iter().map(|&(_, class)| class).collect(alloc)
}

/// For each class its place among these numbers.
fn places_of(alloc: Global, classes: &Classes<'_>, numbers: &[u32]) -> Result<Vec<u32>, AllocError>
    requires count { length numbers.now ≡ length classes.now }
    requires within { All (λ c. c < length classes.now) numbers.now }
    requires once { AllPairs (λ c d. c ≢ d) numbers.now }
    ensures len { IfOk result (λ places. length places.items ≡ length classes.now) }
    ensures each { IfOk result (λ places. (i : ℕ) → i < length numbers.now
        → place_of_class places.items (class_at numbers.now i) ≡ i) }
{
    let mut places = vec![in alloc; 0; classes.len()]?;
    for (place, &class) in numbers.iter().enumerate() {
        places[class as usize] = place as u32;
    }
    Ok(places)
}
