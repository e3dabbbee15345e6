//! What a file begins with.
ghost use Rattle.std.specs.Prelude.{◌≡◌};
ghost use Rattle.ld_trace_dat.specs.Options.{start, version_of};

use crate::fault::{DatFault, Wrong};
use crate::part::{key, part, text, word};

/// The version of a file.
#[derive(Clone, Copy, Debug, PartialEq, Eq)]
pub(crate) enum Version {
    Six,
    Seven,
}

/// The version that a text at an offset names.
fn version_of(name: &[u8], at: usize) -> Result<Version, DatFault>
    ensures { result ≡ version_of name.now at }
{
    match name {
        b"6" => Ok(Version::Six),
        b"7" => Ok(Version::Seven),
        _ => Err(DatFault {
            offset: at,
            wrong: Wrong::Version,
        }),
    }
}

/// The version of a file, and where what follows its begin stands.
#[tactic(auto, unfolding(crate::specs::Options::start))]
pub(crate) fn start(bytes: &[u8]) -> Result<(Version, usize), DatFault>
    ensures { result ≡ start bytes.now }
{
    let named = key(bytes, 0, b"\x17\x08Dtracing", Wrong::Magic)?;
    let (name, ordered) = text(bytes, named)?;
    let version = version_of(name, named)?;
    let sized = key(bytes, ordered, b"\0", Wrong::BigEndian)?;
    // Neither how many bytes a `long` of a program has, nor the size of a page says where a part stands.
    let (_, paged) = part(bytes, sized, 1)?;
    let (_, end) = word(bytes, paged)?;
    Ok((version, end))
}
