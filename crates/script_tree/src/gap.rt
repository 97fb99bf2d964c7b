//! The gap between two trees: blanks and comments. The theorem is the clause `gap` of [`after_gap`].

ghost use Rattle.std.specs.Prelude.{◌≡◌, ◌≤◌, length, drop, false};
ghost use Rattle.spec_script.specs.Bytes.{is_gap_byte};
ghost use Rattle.spec_script.specs.Reading as reading;
ghost use Rattle.script_tree.specs.Views.{from};

fn is_gap_byte(byte: u8) -> bool
    ensures { result ≡ is_gap_byte byte }
{
    byte == b' ' || byte == b'\t' || byte == b'\n' || byte == b'\r'
}

/// Whether a byte belongs to the gap, and if so, whether a comment goes on behind it.
fn gap_step(in_comment: bool, byte: u8) -> Option<bool>
    ensures { result ≡ reading.gap_step in_comment byte }
{
    if in_comment {
        Some(byte != b'\n')
    } else if byte == b';' {
        Some(true)
    } else if is_gap_byte(byte) {
        Some(false)
    } else {
        None
    }
}

/// The place behind the gap that begins at a place.
#[tactic(auto, using(crate::proofs::Gaps::gap_goes, crate::proofs::Gaps::gap_stops, crate::proofs::Gaps::gap_ends))]
pub fn after_gap(bytes: &[u8], begin: usize) -> usize
    requires { begin ≤ length bytes.now }
    ensures within { result ≤ length bytes.now }
    ensures behind { begin ≤ result }
    ensures gap { reading.past_gap false begin (drop begin bytes.now) ≡ from bytes.now result }
{
    let mut at = begin;
    let mut in_comment = false;
    while at < bytes.len() {
        match gap_step(in_comment, bytes[at]) {
            Some(goes_on) => in_comment = goes_on,
            None => return at,
        }
        at += 1;
    }
    at
}
