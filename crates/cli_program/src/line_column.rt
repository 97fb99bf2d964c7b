//! The place of a refusal in its input, for people: its line and column, counted from 1, and the part of the line around it.
ghost use Rattle.std.specs.Prelude.{◌≡◌, ◌+◌, ◌-◌, ◌<◌, ◌≤◌, length};
ghost use Rattle.cli_program.specs.Places.{behind, place_behind};

/// A place in a text; a column is a byte.
#[derive(Clone, Copy)]
pub(crate) struct LineColumn {
    pub line: usize,
    pub column: usize,
}

/// The place behind one more byte.
fn after(place: LineColumn, byte: u8) -> LineColumn
    requires line { place.line < 4294967296 }
    requires column { place.column < 4294967296 }
    ensures { result ≡ behind place byte }
{
    if byte == b'\n' {
        LineColumn {
            line: place.line + 1,
            column: 1,
        }
    } else {
        LineColumn {
            line: place.line,
            column: place.column + 1,
        }
    }
}

/// The place behind some bytes.
pub(crate) fn place_after(bytes: &[u8]) -> LineColumn
    requires { length bytes.now < 4294967295 }
    ensures place { result ≡ place_behind bytes.now }
    ensures within { result.column ≤ length bytes.now + 1 }
{
    let mut place = LineColumn { line: 1, column: 1 };
    for byte in bytes {
        place = after(place, *byte);
    }
    place
}

/// From which byte of an input to which.
#[derive(Clone, Copy)]
pub(crate) struct Span {
    pub begin: usize,
    pub end: usize,
}

/// The line around a place in its column.
pub(crate) fn line_around(input: &[u8], at: usize, column: usize) -> Span
    requires within { at ≤ length input.now }
    requires column { column ≤ at + 1 }
    ensures begin { result.begin ≡ at - (column - 1) }
    ensures place { at ≤ result.end }
    ensures end { result.end ≤ length input.now }
{
    let rest = input.split_at(at).1;
    let behind = rest
        .iter()
        .position(|byte| *byte == b'\n')
        .unwrap_or(rest.len());
    Span {
        begin: at - column.saturating_sub(1),
        end: at + behind,
    }
}

/// The most bytes that are shown of a line.
const WIDTH: usize = 80;

/// How many of them stand before the place, where the line is longer on both sides.
const BEFORE: usize = 60;

/// The part of a line around a place that is shown: all of a line that isn't too long.
pub(crate) fn shown_part(line: Span, at: usize) -> Span
    requires begin { line.begin ≤ at }
    requires end { at ≤ line.end }
    ensures begin { (line.begin ≤ result.begin) × (result.begin ≤ at) }
    ensures end { (at ≤ result.end) × (result.end ≤ line.end) }
    ensures width { result.end ≤ result.begin + 80 }
    ensures whole { line.end ≤ line.begin + 80 → result ≡ line }
{
    let behind = line.end - at;
    let room = WIDTH.saturating_sub(behind).max(BEFORE);
    let before = room.min(at - line.begin);
    Span {
        begin: at - before,
        end: at + behind.min(WIDTH - before),
    }
}
