//! Writes names into messages of SARIF.
ghost use Rattle.std.specs.Prelude.{◌≡◌, ◌++◌, ◌≤◌, Bool, List, OnOk, count_by, flat_map, length, take, ℕ};
ghost use Rattle.std.specs.List.{AllPass};
ghost use Rattle.ld_escape.specs.declared.form.Form.TheVariants.{Json};
ghost use Rattle.ld_escape.specs.Forms.{is_marked};
ghost use Rattle.ld_escape.specs.Messages.{is_brace, is_link_sign, message, said_json, sign_before, written_message};
ghost use Rattle.ld_escape.specs.Shown.{is_shown};
ghost use Rattle.ld_escape.specs.Written.{is_lead, may_stand, piece};

use crate::escaping::write_pieces;
use crate::form::Form;
use crate::shown::is_shown;
use std::alloc::AllocError;

/// Writes a name into a message of SARIF, which is a string of JSON. What is read of that string is the name's message
/// (`text`): in it each brace is doubled, and each bracket and backslash has a backslash before it, so that no part of a
/// name is a placeholder or a link. No other name is written so (`distinct`), and each byte that is written may stand in
/// JSON (`safe`), where the byte that begins a mark stands for marked bytes of the message alone (`marks`).
///
/// # Errors
///
/// `AllocError` where a growth of memory was refused.
pub fn write_message(out: &mut Vec<u8>, name: &[u8]) -> Result<(), AllocError>
    ensures text { OnOk result (out.new.items ≡ out.old.items ++ written_message name.now) }
    ensures safe { OnOk result (AllPass (may_stand Json) (written_message name.now)) }
    ensures marks { OnOk result (count_by (is_lead Json) (written_message name.now)
        ≡ count_by (is_marked Json (is_shown name.now)) (message name.now)) }
    ensures distinct { OnOk result ((other : List ℕ) → written_message other ≡ written_message name.now →
        other ≡ name.now) }
{
    write_all_said(out, is_shown(name), name)
}

/// Writes the bytes of a name that is shown, or of one that isn't, as they are said in a message.
fn write_all_said(out: &mut Vec<u8>, shown: bool, name: &[u8]) -> Result<(), AllocError>
    ensures { OnOk result (out.new.items ≡ out.old.items ++ flat_map (said_json shown) name.now) }
{
    let mut rest = name;
    loop {
        let (plain, behind) = rest.split_at(plain_len(rest));
        write_pieces(out, Form::Json, shown, plain)?;
        let Some((byte, after)) = behind.split_first() else {
            return Ok(());
        };
        write_said(out, shown, *byte)?;
        rest = after;
    }
}

/// How many bytes stand before the first that a message says with a sign.
fn plain_len(name: &[u8]) -> usize
    ensures within { result ≤ length name.now }
    ensures plain { (shown : Bool) → flat_map (said_json shown) (take result name.now)
        ≡ flat_map (piece Json shown) (take result name.now) }
{
    for (count, byte) in name.iter().enumerate() {
        if is_brace(*byte) || is_link_sign(*byte) {
            return count;
        }
    }
    name.len()
}

/// Writes a byte of a name that is shown, or of one that isn't, as it is said in a message.
fn write_said(out: &mut Vec<u8>, shown: bool, byte: u8) -> Result<(), AllocError>
    ensures { OnOk result (out.new.items ≡ out.old.items ++ said_json shown byte) }
{
    if is_brace(byte) || is_link_sign(byte) {
        write_pieces(out, Form::Json, shown, &[sign_before(byte), byte])
    } else {
        write_pieces(out, Form::Json, shown, &[byte])
    }
}

/// Whether a byte begins or ends a placeholder.
fn is_brace(byte: u8) -> bool
    ensures { result ≡ is_brace byte }
{
    byte == b'{' || byte == b'}'
}

/// Whether a byte begins or ends the text of a link, or stands before one that doesn't.
fn is_link_sign(byte: u8) -> bool
    ensures { result ≡ is_link_sign byte }
{
    byte == b'[' || byte == b']' || byte == b'\\'
}

/// What stands before a byte that would mean something in a message.
fn sign_before(byte: u8) -> u8
    ensures { result ≡ sign_before byte }
{
    if is_brace(byte) { byte } else { b'\\' }
}
