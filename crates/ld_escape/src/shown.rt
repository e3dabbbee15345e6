//! Which names can be shown as they are.
ghost use Rattle.std.specs.Prelude.{◌≡◌, chars};
ghost use Rattle.std.specs.List.{list_any};
ghost use Rattle.ld_escape.specs.Shown.{is_odd, is_shown};

/// Whether a name is UTF-8 and has no odd character. Those are the control characters from 128 on, those that
/// end a line or turn the direction of what follows, and those that XML can't have.
pub fn is_shown(name: &[u8]) -> bool
    ensures { result ≡ is_shown name.now }
{
    // Nearly all names are ASCII, of which no character is odd.
    if name.is_ascii() {
        return true;
    }
    match str::from_utf8(name) {
        Ok(text) => !has_odd(text),
        Err(_) => false,
    }
}

/// Whether some character is an odd one.
fn has_odd(text: &str) -> bool
    ensures { result ≡ list_any is_odd (chars text.now) }
{
    text.chars().any(is_odd)
}

/// Whether a character is an odd one.
fn is_odd(char: char) -> bool
    ensures { result ≡ is_odd char }
{
    let code = u32::from(char);
    (128 <= code && code < 160)
        || code == 0x2028
        || code == 0x2029
        || (0x202a <= code && code < 0x202f)
        || (0x2066 <= code && code < 0x206a)
        || (0xfffe <= code && code < 0x1_0000)
}
