//! Where a name is written, and which of its bytes can't stand there as they are.
ghost use Rattle.std.specs.Prelude.{◌≡◌};
ghost use Rattle.ld_escape.specs.Forms.{
  close,
  is_class_sign,
  is_control,
  is_foreign,
  is_graphic,
  is_hidden,
  is_marked,
  is_markup,
  is_unreserved,
  mark,
};

/// The language of the text that a name becomes part of.
#[derive(Clone, Copy, Debug, PartialEq, Eq)]
pub enum Form {
    /// Text of HTML or XML, or the value of an attribute in quotes. A byte that these can't have, even by a
    /// reference, is written by a backslash, `x` and two digits. So a backslash is, too.
    Markup,
    /// A string of JSON, in a script of HTML too.
    Json,
    /// The message of a workflow command of GitHub.
    Message,
    /// A property of such a command.
    Property,
    /// The description of a test in TAP or KTAP.
    Tap,
    /// The path of a URI.
    Uri,
    /// The class of a lock, in a stream of traces.
    Class,
    /// A task, in a stream of traces.
    Task,
}

/// Whether a byte is written by its number behind the mark of a form, of a name that is shown, or of one that isn't.
pub(crate) fn is_marked(form: Form, shown: bool, byte: u8) -> bool
    ensures { result ≡ is_marked form shown byte }
{
    match form {
        Form::Markup => is_markup(byte),
        Form::Json => {
            is_markup(byte) || byte == b'\\' || is_control(byte) || is_foreign(shown, byte)
        }
        Form::Message => byte == b'%' || is_control(byte) || is_foreign(shown, byte),
        Form::Property => {
            byte == b'%'
                || byte == b':'
                || byte == b','
                || is_control(byte)
                || is_foreign(shown, byte)
        }
        Form::Tap => {
            byte == b'%'
                || byte == b'#'
                || byte == b'\\'
                || is_control(byte)
                || is_foreign(shown, byte)
        }
        Form::Uri => !is_unreserved(byte),
        Form::Class => !is_graphic(byte) || is_class_sign(byte),
        Form::Task => !is_graphic(byte) || byte == b'%',
    }
}

/// Whether a byte is written by its number behind a backslash, since the form can't have it at all.
pub(crate) fn is_hidden(form: Form, shown: bool, byte: u8) -> bool
    ensures { result ≡ is_hidden form shown byte }
{
    match form {
        Form::Markup => byte == b'\\' || is_control(byte) || is_foreign(shown, byte),
        _ => false,
    }
}

/// What stands before the number of a marked byte.
pub(crate) fn mark(form: Form) -> &'static [u8]
    ensures { result.now ≡ mark form }
{
    match form {
        Form::Markup => b"&#x",
        Form::Json => b"\\u00",
        _ => b"%",
    }
}

/// What stands behind it.
pub(crate) fn close(form: Form) -> &'static [u8]
    ensures { result.now ≡ close form }
{
    match form {
        Form::Markup => b";",
        _ => b"",
    }
}

/// A byte that begins or ends something in HTML and XML: `&`, `<`, `>` and both quotes.
fn is_markup(byte: u8) -> bool
    ensures { result ≡ is_markup byte }
{
    byte == b'&' || byte == b'<' || byte == b'>' || byte == b'"' || byte == b'\''
}

/// A byte of ASCII that shows nothing.
pub(crate) fn is_control(byte: u8) -> bool
    ensures { result ≡ is_control byte }
{
    byte < 32 || byte == 127
}

/// A byte that isn't one of ASCII, of a name that isn't shown.
pub(crate) fn is_foreign(shown: bool, byte: u8) -> bool
    ensures { result ≡ is_foreign shown byte }
{
    !shown && byte >= 128
}

/// A byte that shows something in ASCII, and is no blank.
fn is_graphic(byte: u8) -> bool
    ensures { result ≡ is_graphic byte }
{
    byte > 32 && byte < 127
}

/// What means something in the name of a class.
fn is_class_sign(byte: u8) -> bool
    ensures { result ≡ is_class_sign byte }
{
    byte == b'%' || byte == b'@' || byte == b'/' || byte == b'!' || byte == b'#'
}

/// A byte that may stand in the path of a URI whatever stands beside it: a letter, a digit, or one of `-._~/`.
fn is_unreserved(byte: u8) -> bool
    ensures { result ≡ is_unreserved byte }
{
    byte.is_ascii_alphanumeric()
        || byte == b'-'
        || byte == b'.'
        || byte == b'_'
        || byte == b'~'
        || byte == b'/'
}
