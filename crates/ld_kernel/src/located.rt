//! Texts of an event, which stand behind its fields.
ghost use Rattle.std.specs.Prelude.{◌≡◌, ◌≤◌, length};
ghost use Rattle.std.specs.List.{list_any, position_or_len};
ghost use Rattle.std.specs.Option.{option_map};
ghost use Rattle.ld_kernel.specs.Events.{is_lf, is_zero, part_at, text_at};

/// How many bytes stand before the first zero.
fn text_len(part: &[u8]) -> usize
    ensures front { result ≡ position_or_len is_zero part.now }
    ensures within { result ≤ length part.now }
{
    part.iter().take_while(|byte| **byte != 0).count()
}

/// Whether a text has more than one line.
fn has_lf(text: &[u8]) -> bool
    ensures { result ≡ list_any is_lf text.now }
{
    text.iter().any(|byte| *byte == b'\n')
}

/// The part of an event that a number tells of: its offset in the lower 16 bits, its length above them.
fn part_at(bytes: &[u8], number: u64) -> Option<&[u8]>
    ensures { option_map (λ part. part.now) result ≡ part_at bytes.entry.now number }
{
    let start = (number % 65_536) as usize;
    let end = start + (number / 65_536) as usize;
    if end <= bytes.len() {
        Some(&bytes[start..end])
    } else {
        None
    }
}

/// The text that a number tells of: its part up to the first zero. `None` if the event hasn't that part, or the
/// text more than one line.
pub(crate) fn text_at(bytes: &[u8], number: u64) -> Option<&[u8]>
    ensures { option_map (λ text. text.now) result ≡ text_at bytes.entry.now number }
{
    let part = part_at(bytes, number)?;
    let text = &part[..text_len(part)];
    if has_lf(text) { None } else { Some(text) }
}
