//! The texts of events' files `format`.
ghost use Rattle.std.specs.Prelude.{◌≡◌, map};
ghost use Rattle.ld_trace_dat.specs.Lists.{Gives, plain_system, system_at, systems, texts};

use crate::fault::ReadError;
use crate::part::{long_sized, text, word};
use std::alloc::Global;

/// The events of a system, a folder of `events`.
#[derive(Debug, Drop)]
pub struct System<'a> {
    pub name: &'a [u8],
    /// The text of the file `format` of each event.
    pub formats: Vec<&'a [u8]>,
}

/// Texts of files, each behind its size, as many as a number before them says, and where they end.
#[tactic(auto, unfolding(crate::specs::Lists::texts))]
pub(crate) fn texts(
    alloc: Global,
    bytes: &[u8],
    at: usize,
) -> Result<(Vec<&[u8]>, usize), ReadError>
    ensures { Gives (λ x. (map (λ t. t.now) x.0.items, x.1)) result (texts bytes.entry.now at) }
{
    let mut found = Vec::new(alloc);
    let (count, mut next) = word(bytes, at)?;
    for _ in 0..count {
        let (text, end) = long_sized(bytes, next)?;
        found.push(text)?;
        next = end;
    }
    Ok((found, next))
}

/// The events of a system, and where they end.
#[tactic(auto, unfolding(crate::specs::Lists::system_at))]
fn system_at(alloc: Global, bytes: &[u8], at: usize) -> Result<(System<'_>, usize), ReadError>
    ensures { Gives (λ x. (plain_system x.0, x.1)) result (system_at bytes.entry.now at) }
{
    let (name, start) = text(bytes, at)?;
    let (formats, end) = texts(alloc, bytes, start)?;
    Ok((System { name, formats }, end))
}

/// The events of all systems, as many as a number before them says, and where they end.
#[tactic(auto, unfolding(crate::specs::Lists::systems))]
pub(crate) fn systems(
    alloc: Global,
    bytes: &[u8],
    at: usize,
) -> Result<(Vec<System<'_>>, usize), ReadError>
    ensures { Gives (λ x. (map plain_system x.0.items, x.1)) result (systems bytes.entry.now at) }
{
    let mut found = Vec::new(alloc);
    let (count, mut next) = word(bytes, at)?;
    for _ in 0..count {
        let (system, end) = system_at(alloc, bytes, next)?;
        found.push(system)?;
        next = end;
    }
    Ok((found, next))
}
