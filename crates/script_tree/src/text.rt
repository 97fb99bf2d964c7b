//! Texts in quotes, with their escapes. The theorem is the clause `text` of [`read_text`].

ghost use Rattle.std.specs.Prelude.{◌≡◌, ◌+◌, ◌<◌, ◌≤◌, length, drop, false, IfOk};
ghost use Rattle.spec_script.specs.Bytes.{is_plain};
ghost use Rattle.spec_script.specs.Reading as reading;
ghost use Rattle.script_tree.specs.Views.{from, Gives, items_of};

use crate::fault::TreeFault;
use spec_script::TextByte;
use std::alloc::Global;

/// The most items of a text.
const MOST_ITEMS: usize = 1024;

fn is_plain(byte: u8) -> bool
    ensures { result ≡ is_plain byte }
{
    32 <= byte && byte <= 126 && byte != b'"' && byte != b'\\'
}

/// The item that an escape stands for, by the byte behind its backslash.
fn escape_of(byte: u8) -> Option<u8>
    ensures { result ≡ reading.escape_of byte }
{
    match byte {
        b'n' => Some(b'\n'),
        b'r' => Some(b'\r'),
        b't' => Some(b'\t'),
        b'"' => Some(b'"'),
        b'\\' => Some(b'\\'),
        _ => None,
    }
}

/// What a byte of a text is, right behind a backslash or not.
fn text_step(escaped: bool, byte: u8) -> TextByte
    ensures { result ≡ reading.text_step escaped byte }
{
    if escaped {
        match escape_of(byte) {
            Some(item) => TextByte::Item(item),
            None => TextByte::Unsound,
        }
    } else if byte == b'"' {
        TextByte::Quote
    } else if byte == b'\\' {
        TextByte::Backslash
    } else if is_plain(byte) {
        TextByte::Item(byte)
    } else {
        TextByte::Unsound
    }
}

/// A text's items, and the place behind it.
#[derive(Drop)]
pub struct TextRead {
    pub items: Vec<u8>,
    pub next: usize,
}

/// The text that begins at a quote.
#[tactic(auto, using(crate::proofs::Texts::text_closes, crate::proofs::Texts::text_unsound, crate::proofs::Texts::text_escapes, crate::proofs::Texts::text_full, crate::proofs::Texts::text_item, crate::proofs::Texts::text_ends))]
pub fn read_text(alloc: Global, bytes: &[u8], quote: usize) -> Result<TextRead, TreeFault>
    requires within { quote < length bytes.now }
    requires most { length bytes.now ≤ 262144 }
    ensures within { IfOk result (λ text. text.next ≤ length bytes.now) }
    ensures behind { IfOk result (λ text. quote < text.next) }
    ensures text { Gives (items_of bytes.now) result (reading.text_items quote false 0 (quote + 1) (drop (quote + 1) bytes.now)) }
{
    let mut items = Vec::new(alloc);
    let mut at = quote + 1;
    let mut escaped = false;
    while at < bytes.len() {
        match text_step(escaped, bytes[at]) {
            TextByte::Quote => {
                let next = at + 1;
                return Ok(TextRead { items, next });
            }
            TextByte::Backslash => escaped = true,
            TextByte::Unsound => return Err(TreeFault::Byte(at as u32)),
            TextByte::Item(item) => {
                if MOST_ITEMS <= items.len() {
                    return Err(TreeFault::LongText(quote as u32));
                }
                items.push(item)?;
                escaped = false;
            }
        }
        at += 1;
    }
    Err(TreeFault::Unclosed(quote as u32))
}
