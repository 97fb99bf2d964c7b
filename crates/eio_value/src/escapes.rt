//! How the bytes of a text are written, inside quotes and without.
//!
//! Each of these appends to bytes. Where memory ends it may have appended a part, and what was there
//! before still stands in front (`IsFront`).
ghost use Rattle.std.specs.Prelude.{◌≡◌, ◌++◌, OnOk};
ghost use Rattle.std.specs.List.{flat_map};
ghost use Rattle.eio_value.specs.Appending.{IsFront};
ghost use Rattle.eio_value.specs.Escapes.{byte_text, quoted};

use crate::NoMemory;

/// Appends a text in quotes.
pub(crate) fn push_quoted(text: &[u8], out: &mut Vec<u8>) -> Result<(), NoMemory>
    ensures ok { OnOk result (out.new.items ≡ out.old.items ++ quoted text.now) }
    ensures front { IsFront out.old.items out.new.items }
{
    push_bytes(b"\"", out)?;
    push_escaped(text, true, out)?;
    push_bytes(b"\"", out)
}

/// Appends the bytes of a text, as they are written inside quotes or without.
pub(crate) fn push_escaped(text: &[u8], in_quotes: bool, out: &mut Vec<u8>) -> Result<(), NoMemory>
    ensures ok { OnOk result (out.new.items ≡ out.old.items ++ flat_map (byte_text in_quotes) text.now) }
    ensures front { IsFront out.old.items out.new.items }
{
    for byte in text {
        push_byte(*byte, in_quotes, out)?;
    }
    Ok(())
}

/// Appends a byte as it is written inside quotes or without.
fn push_byte(byte: u8, in_quotes: bool, out: &mut Vec<u8>) -> Result<(), NoMemory>
    ensures ok { OnOk result (out.new.items ≡ out.old.items ++ byte_text in_quotes byte) }
    ensures front { IsFront out.old.items out.new.items }
{
    let letter = match byte {
        b'\n' => b'n',
        b'\r' => b'r',
        b'\t' => b't',
        b'"' | b'\\' if in_quotes => byte,
        _ => return push_bytes(&[byte], out),
    };
    push_bytes(&[b'\\', letter], out)
}

/// Appends bytes as they are.
pub(crate) fn push_bytes(bytes: &[u8], out: &mut Vec<u8>) -> Result<(), NoMemory>
    ensures ok { OnOk result (out.new.items ≡ out.old.items ++ bytes.now) }
    ensures front { IsFront out.old.items out.new.items }
{
    out.extend_from_slice(bytes)?;
    Ok(())
}
